//! The parts of opening hours that numbers, months, weekdays and clock times of a text stand for.
//!
//! A reader of texts hands over what its tokens give. Each call answers a part of `gtd_hours`, or `None` exactly if a number
//! does not fit by its digits or its value, there is no such date, or a range goes back or is too long. No call takes memory.
//! [`part_of`] answers what a whole piece of a text stands for.
#![tactic(auto)]

pub use clock::{ClockTime, times};
pub use dates::{month_day, one_day, to_day, to_month_day, to_year_date, to_year_day, year_date};
pub use days::{Days, days_of};
pub use digits::Digits;
pub use month_ends::{are_months_of_years, first_day_of, last_day_of};
pub use part::{Part, part_of};
pub use piece::{LastDate, Offset, Piece, WrittenDate};
pub use places::place;
pub use ranges::{are_few_years, months, one_week, one_year, weekdays, weeks, years};
pub use written_dates::{dates_of, is_day};

mod clock;
mod dates;
mod days;
mod digits;
mod month_ends;
mod part;
mod piece;
mod places;
mod ranges;
mod written_dates;
