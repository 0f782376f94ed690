//! The table of a year: the number of seconds of each day in which a road element is open.
#![tactic(auto)]

pub use run::run_year;

mod counts;
pub mod laws;
mod run;
mod table;
mod weekly;
