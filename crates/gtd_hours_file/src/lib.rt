//! Files of opening hours of OpenStreetMap, translated to record files.
//!
//! A file of hours has the columns of a record file of version 2, but for the last: there it has texts of opening hours.
//! [`run_hours_records`] reads one whole, and puts its rows in their order as a record file, each with a domain that
//! contains exactly the seconds at which its hours are open, and answers the warnings of the texts, and of rows that never close.
//! Of a file at fault it answers the list of all faults.
#![tactic(auto)]

pub use fault::HoursFileFault;
pub use row::{HoursRow, RowHours};
pub use run::run_hours_records;
pub use translated::Translated;
pub use untranslated::Untranslated;
pub use words::HoursFaultText;

mod fault;
mod fault_list;
mod file;
pub mod laws;
mod row;
mod run;
mod translated;
mod translation;
mod untranslated;
mod warnings;
mod words;
