//! The schedule of a record file: when each of its road elements is open.
#![tactic(auto)]

pub use run::{Schedule, run_schedule};

mod cursors;
mod elements;
mod hash_places;
pub mod laws;
mod line;
mod moment;
mod months;
mod put;
mod run;
mod text;
