//! Opening hours of OpenStreetMap as texts: the hours that a text stands for.
//!
//! A text is read once: the hours are built piece by piece, up to its first fault. Where memory ends before the text, what is
//! left of it is only checked.
#![tactic(auto)]

mod additions;
mod builder;
mod draft;
pub mod laws;
mod offsets;
mod places;
mod reader;
pub mod writing_laws;

pub use reader::{HoursTextFault, read_hours};
