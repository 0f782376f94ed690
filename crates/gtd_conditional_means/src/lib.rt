//! What the names of conditional restrictions stand for: a table of modes of transport, conditions, values of access, and keys
//! that are ignored.
//!
//! [`read_means`] reads a table from its bytes, or answers all its faults. [`Means`] is what it says of a name.
//! [`normal_form`] is the form in which a comparison as `weight > 3.50t` is looked up: `weight>3.5`.
#![tactic(auto)]

pub use comparison::normal_form;
pub use fault::{MeansFault, MeansFaultText};
pub use meaning::{Access, Meaning, MeansKind, MeansRow};
pub use means::{Means, Unread};
pub use reader::read_means;
pub use words::is_lower_word;

mod comparison;
mod fault;
mod fields;
mod meaning;
mod means;
mod places;
mod reader;
mod rows;
mod table;
mod words;
