//! Parts of rules, as selectors of plain hours.
//!
//! A part is lowered to what holds exactly on its days, whatever is known of holidays and years.
#![tactic(auto)]

pub use known::Known;
pub use lowered::Lowered;
pub use simple::{months, weekdays};
pub use weeks::year_weeks;

mod known;
mod lowered;
mod simple;
mod weeks;
