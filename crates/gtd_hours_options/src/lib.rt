//! Opening hours of OpenStreetMap with holidays, points of time, open ends and events of the sun, where options say the rest.
//!
//! A text is read by the plain text of its times with these options, which may have holidays.
#![tactic(auto)]

mod fault;
mod first;
mod hours_reading;
pub mod laws;
mod manner;
mod misfits;
mod options;
mod reader;
mod told;

pub use fault::{OptionsFault, OptionsReadFault};
pub use hours_reading::HoursReading;
pub use manner::read_hours_with_in;
pub use options::Options;
pub use reader::read_hours_with;
