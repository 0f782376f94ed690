//! Opening hours of OpenStreetMap with public and school holidays, which a table has for some years, and with comments, unknown
//! and fallback rules.
//!
//! A text is read by its rules: those of the plain hours that are left without all that, each with its own holidays, whose days
//! are listed as dates.
#![tactic(auto)]

mod checks;
mod dates;
mod easter;
mod fault;
mod given;
mod joining;
mod known;
pub mod laws;
mod manner;
mod marks;
mod needs;
mod reader;
mod rules;
mod selectors;
mod until;

pub use fault::{KnownFault, KnownReadFault};
pub use joining::with_days;
pub use known::{Known, KnownHours};
pub use manner::{placed_fault, placed_read, read_known_hours_in, token_fault};
pub use reader::read_known_hours;
pub use selectors::listed_selectors;
pub use until::split_mark;
