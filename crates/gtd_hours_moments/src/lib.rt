//! Opening hours with points of time, open ends, repeated points and events of the sun, as plain hours.
//!
//! A text with such times is made, token by token, into a checked text of plain hours, whose first fault is the text's, and into
//! the forms of its times. With some options it is made into a plain text that means what the text means.
#![tactic(auto)]

mod checked;
mod clocks;
pub mod laws;
mod minutes;
mod needs;
mod parts;
mod placed;
mod plain;
mod ranges;
mod text;
mod told;
mod written;

pub use clocks::Clocks;
pub use gtd_hours_times::{Event, Moment, NoMomentText, TimeForm};
pub use needs::{Need, NeedKind, first_need, too_long};
pub use placed::{Placed, PlacedText, written_place, written_places};
pub use plain::plain_text;
pub use text::{MomentText, moment_text};
pub use told::{Told, told_fault};
