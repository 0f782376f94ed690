//! The days of holidays and of Easter.
//!
//! `listed_grouping` answers the days of some selectors, which are known in some years alone: the same days of each of the years
//! are a group, and other days are runs with their years.
#![tactic(auto)]

pub use coverage::{Uncovered, first_uncovered};
pub use easter_range::EasterRange;
pub use group::Group;
pub use grouping::{Grouping, grouping_of};
pub use listed::{EasterDays, Listed};
pub use offset::Offset;
pub use selection::{ListedFault, listed_days, listed_grouping};
pub use yearly_day::YearlyDay;

mod additions;
mod coverage;
mod easter_days;
mod easter_order;
mod easter_range;
mod group;
mod grouping;
pub mod laws;
mod listed;
mod offset;
mod order;
mod repeats;
mod selection;
mod split;
mod yearly;
mod yearly_day;
mod yearly_days;
