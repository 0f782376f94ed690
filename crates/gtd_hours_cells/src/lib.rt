//! The days and the minutes of them that the seconds of a time domain may be, as a search for opening hours needs them.
//!
//! [`cells_of`] goes by the parts of an expression, and [`cells_of_week`] by the spans of a week. A list of cells stands for what
//! is left if they are added and taken away one after another. It is a guess: what uses it looks whether the seconds are those of
//! the domain.
#![tactic(auto)]

pub use algebra::{Midnight, cells_of};
pub use calendar::{fields_of, longest, next_date, short_year};
pub use cell::{
    Cell, DAY_MINUTES, Date, DateRange, Days, EACH_WEEK, EACH_WEEKDAY, EACH_YEAR, Numbers, Once,
    Place, Yearly, is_whole,
};
pub use starts::weekday_bit;
pub use week::cells_of_week;

mod algebra;
mod calendar;
mod cell;
mod later;
mod meeting;
mod starts;
mod stretch;
mod week;
mod yearly;
