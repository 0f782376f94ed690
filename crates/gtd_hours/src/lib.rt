//! Opening hours of OpenStreetMap, as values.
//!
//! Hours are rules with selectors of days, ranges of times and a modifier, and `print_hours` puts their text. A weekday is 1 for
//! Sunday to 7 for Saturday, and times are minutes from the beginning of a day of the local civil clock.
#![tactic(auto)]

pub use hours::{
    Dated, Dates, Hours, Kind, Link, Modifier, MonthDay, Months, Rule, Selector, TimeRange,
    WeekdayPlace, Weekdays, Weeks, YearDate, YearlyDays, Years,
};
pub use moving::Moving;
pub use places::{End, MonthPlace, MovedPlace};
pub use printer::print_hours;

mod constructors;
mod dated;
mod ends;
mod hours;
mod moving;
mod order;
mod places;
mod printer;
