//! Tables of public and school holidays, and the days on which Easter falls.
//!
//! [`read_holidays`] reads a table from its bytes, or answers all its faults. [`Holidays`] says which days are holidays, and on
//! which days it has all of them; [`Days`] is a set of days of the years 1800 to 2799, and [`easter`] is Easter Sunday of a year.
#![tactic(auto)]

pub use computus::easter;
pub use days::Days;
pub use fault::{HolidaysFault, HolidaysFaultText};
pub use holidays::{Holidays, Unread};
pub use known_years::KnownYears;
pub use reader::read_holidays;
pub use row::{HolidayKind, HolidayRow};
pub use run::Run;
pub use runs::runs_of;

mod computus;
mod date;
mod days;
mod fault;
mod fields;
mod holidays;
mod known_years;
pub mod laws;
mod reader;
mod row;
mod run;
mod runs;
mod table;
