//! Record files that are nearly accepted, with what can be mended without a guess.
//!
//! [`run_mend`] reads a file whole and puts it as it is if it is accepted. Of another file that has a header, it puts the rows
//! with commas between their fields, each field mended by its column, and lists each change by its line.
#![tactic(auto)]

pub use change::{FieldChange, FileChange};
pub use fault::MendFault;
pub use run::run_mend;
pub use separator::Separator;

mod additions;
mod change;
mod content;
mod cut;
mod decode;
mod fault;
mod field;
mod header;
pub mod laws;
mod listing;
mod mend;
mod print;
mod quote;
mod row;
mod run;
mod separator;
mod table;
