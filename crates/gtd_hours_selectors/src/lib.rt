//! The days on which selectors hold, as expressions of basic domains.
//!
//! `matching_days` answers the days that a rule matches, each reckoned from a clock on. The other calls say of single selectors
//! what decides how many basic domains that takes, without taking memory.
#![tactic(auto)]

pub use dates::{is_one_stretch, month_after};
pub use days::matching_days;
pub use places::{days_on, end_days, months_between};
pub use yearly::goes_on;

mod dated;
mod dates;
mod days;
mod moving;
mod places;
mod yearly;
