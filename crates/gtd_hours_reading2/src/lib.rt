//! Texts of opening hours of OpenStreetMap, read as rules.
//!
//! `read_hours` returns the rules that a text means, with their places, or its first fault, as `read` of
//! `specs/Reading.antt` says.
#![tactic(auto)]

mod builder;
mod comment;
mod fault;
mod laws;
mod places;
mod run;
mod token_places;

pub use fault::{HoursFault, HoursFaultKind, ReadError};
pub use laws::each_reading_goes_on;
pub use places::{LooseForm, PartPlace, RulePlace};
pub use run::{TextHours, read_hours};
pub use token_places::token_place;
