//! The clocks of time zones: what a clock shows at an instant, by the zone's file in the system's folder.
//!
//! Nothing here reads a clock or a file: a program hands in the instant and the bytes.
#![tactic(auto)]

pub use name::{is_zone_name, zone_path};
pub use zone::{ZoneFault, second_in_zone};

mod name;
mod zone;
