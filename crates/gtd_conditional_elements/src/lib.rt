//! The rows of the elements that a file of tags speaks of, or all faults of the file and of its values.
//!
//! [`read_elements`] reads a file by a table of means: what its rows say, what their values say, and which rows of a record file
//! close an element exactly when its tags do; and what is to be warned of in its hours.
#![tactic(auto)]

pub use elements::{ElementsFile, read_elements};
pub use fault::ConditionsFault;
pub use found::ElementRow;
pub use tag::ReadTag;

mod element;
mod elements;
mod fault;
mod found;
pub mod laws;
mod tag;
mod values;
mod warnings;
