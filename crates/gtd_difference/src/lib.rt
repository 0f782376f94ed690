//! Whether two domains have the same seconds, and if not, the first second that one of them has alone; and whether each second of
//! one is in the other.
#![tactic(auto)]

pub use comparison::{Apart, Comparison, Side, compare};
pub use within::{first_span, is_within};

mod basic_state;
mod basics;
mod comparison;
mod dated;
mod first;
pub mod laws;
mod memory;
mod pieces;
mod states;
mod week;
mod within;
