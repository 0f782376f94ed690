//! The warnings of a text of opening hours: where it is written loosely, which of its rules hide hours of an earlier one, which
//! comments and fallback rules leave something open; or, of a text with holidays, in which years these are known.
#![tactic(auto)]

mod commas;
mod forms;
pub mod laws;
mod lines;
mod marks;
mod unknowns;
mod warnings;
mod whole_days;

pub use lines::{push_lines, push_text};
pub use marks::warnings_with;
pub use warnings::{Warning, WarningKind};
