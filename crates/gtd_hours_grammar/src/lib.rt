//! Opening hours of OpenStreetMap as texts: whether a text is one, and the first fault of one that is not.
//!
//! A text that is read is tokens, of which a grammar makes pieces: a range of years, a date, a weekday, a range of times. The
//! grammar is a relation in `specs/Grammar.antt` of `gtd_hours_moves`, apart from the code, which steps from place to place.
#![tactic(auto)]

mod check;
mod fault;
pub mod laws;
mod reading;

pub use check::{check_behind, check_hours};
pub use fault::{FaultKind, HoursFault};
pub use reading::{Reading, begin, next_part};
