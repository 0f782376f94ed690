//! The lists of all faults of a table of means, and of a file of tags and its values.
//!
//! [`lines_of`] is such a list: a line for each fault, with the line of the file on which its row begins, and below it what
//! stands there and what is accepted.
#![tactic(auto)]

pub use fault::FileFault;
pub use list::lines_of;
pub use words::FaultText;

mod accepted;
mod fault;
mod list;
mod place;
mod words;
