//! Files of tags of ways, translated to record files.
//!
//! [`run_conditions`] reads a table of means and a file of tags whole, and puts a record file of version 2 whose rows close each
//! element exactly when its tags do. It answers the number of lines, and the warnings of the hours in values; or, of a table at
//! fault or of a file at fault, the list of all faults.
#![tactic(auto)]

pub use converted::Converted;
pub use paths::{ConditionsReading, Paths};
pub use run::run_conditions;
pub use unconverted::Unconverted;

mod converted;
pub mod laws;
mod lists;
mod paths;
mod putting;
mod run;
mod unconverted;
mod vehicles;
