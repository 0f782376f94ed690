//! The values of conditional restrictions as texts: where a value is cut into parts and these into terms.
//!
//! A value is parts with `;` between them, `no @ (Mo-Fr 07:00-09:00; PH off); yes @ (residents)` has two. [`first_unnested`]
//! tells a parenthesis or a comment that does not fit, [`part_length`] how far the first part goes, and [`term_length`] how far
//! the first term of a condition goes. [`laws`] say that a value has its parts in one way,
//! and what hours are that are read strictly.
#![tactic(auto)]

pub use hours::TermHours;
pub use names::condition_name;
pub use nesting::first_unnested;
pub use parts::part_length;
pub use pieces::{at_sign, enclosed, front_spaces, trimmed};
pub use term::{Term, TermFault, UnreadTerm, read_term};
pub use terms::term_length;

mod hours;
pub mod laws;
mod names;
mod nesting;
mod parts;
mod pieces;
mod term;
mod terms;
