//! What the values of conditional restrictions say: `no @ (Mo-Fr 07:00-09:00); yes @ (residents)` closes at some hours, and opens
//! to residents.
//!
//! [`read_value`] reads a value with conditions, and [`read_plain`] one without. A [`Value`] has its parts in order, each with
//! what its name says of the two directions, and the terms under which it does.
#![tactic(auto)]

pub use reader::{read_plain, read_value};
pub use said::{Said, Subject, said_of, subject_of};
pub use value::{Part, UnreadValue, Value, ValueFault};

mod cuts;
mod part;
mod reader;
mod said;
mod terms;
mod value;
