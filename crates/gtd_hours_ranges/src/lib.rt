//! Ranges of days of opening hours, as they are written, and the days that they are: `Mar Su[-1]-Oct 3`, `easter-Oct 31`,
//! `2026 easter`.
//!
//! The ends of a range are dates, places of weekdays in a month, and days of Easter. Which days it is is a relation in
//! `specs/Days.antt`, apart from the code.
#![tactic(auto)]

mod dates;
mod days;
mod ends;
mod written;

pub use dates::date_of;
pub use days::{RangeDays, days_of, easter_place};
pub use written::{WrittenEnd, WrittenPlace, WrittenRange};
