//! The list of all faults of a record file, in words: a line for each, in row order.
#![tactic(auto)]

pub use hint::Hint;
pub use lines::first_line;
pub use list_fault::ListFault;
pub use places::Rows;
pub use printable::Printable;
pub use run::run_faults;
pub use snippet::Snippet;
pub use stretch::Stretch;
pub use words::{Expected, FaultText, accepted, accepted_at};

mod codes;
mod doubts;
mod hint;
pub mod laws;
mod lines;
mod list_fault;
mod listing;
mod places;
mod printable;
mod row;
mod run;
mod snippet;
mod stretch;
mod words;
