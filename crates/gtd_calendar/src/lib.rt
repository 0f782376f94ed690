//! The Gregorian calendar: the dates, weekdays and ISO weeks of days, the ends of stretches, and the texts of dates and
//! moments.
//!
//! Days are given by their numbers, where 1970-01-01 is 0, and seconds of the local civil clock by theirs. This is the
//! only crate that calls `jiff`. No call of this crate takes memory.
#![tactic(auto)]

pub use clock::{end_of, second_of_day};
pub use day::{
    DayFields, FIRST_CALENDAR_DAY, LAST_CALENDAR_DAY, day_of, fields, is_calendar_day, weekday,
};
pub use stamp::{StampFault, read_date, read_stamp, write_clock, write_date, write_stamp};
pub use year::{days_before_month, days_of_year, first_of_month, length_of_year, new_year};

mod clock;
mod day;
pub mod laws;
mod stamp;
mod year;
