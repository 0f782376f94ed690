//! Warnings of the rows of a record file: domains that may not say what was meant, domains that never or always hold or are over,
//! and vehicle codes that one row alone names.
//!
//! [`told_of_row`] tells the rules of [`gtd_mistakes`] that hold of a row's domain. If it is asked about a day, it tells whether
//! the row is over on that day, or within 30 days. [`KnownDomains`] keeps what is costly to find out of domains that come again.
//! [`types_of_row`] reads the vehicle codes of a row, and [`is_some_row_for`] says whether a vehicle type is one for which some
//! row closes something.
#![tactic(auto)]

pub use codes::{LoneCode, codes_listed, types_of_row};
pub use days::{DAYS_AHEAD, DAYS_LOOKED_AT, days_from};
pub use file::Asked;
pub use known::KnownDomains;
pub use row::{is_off, told_of_read, told_of_row};
pub use sentences::{DoubtText, LoneText, PerhapsLine};
pub use vehicles::is_some_row_for;

mod codes;
mod days;
mod extents;
mod file;
mod hash;
mod known;
pub mod laws;
mod over;
mod row;
mod sentences;
mod vehicles;
mod whole;
