//! Plain hours with more month days, such as ranges that move from year to year, which no text of plain hours has.
#![tactic(auto)]

mod joining;
mod kinds;
pub mod laws;
mod more;
mod reader;

pub use kinds::{joined, kind_of, with_one, with_two};
pub use more::{MonthItem, MoreDays};
pub use reader::read_dated_hours;
