//! Rules of opening hours as plain hours: times by their minutes, and days by what is known of holidays.
//!
//! `first_need` is the first thing that rules need and that is not given, and `first_long` the first time that lasts longer than
//! 24 hours with what is given.
#![tactic(auto)]

mod clocks;
mod given;
mod lasting;
mod need;
mod needs;
mod plain;
mod times;

pub use given::{GivenDays, GivenTimes};
pub use lasting::{LongPart, first_long};
pub use need::{HoursNeed, PartNeed};
pub use needs::first_need;
pub use plain::{PlainError, RuleDays, plain_of};
