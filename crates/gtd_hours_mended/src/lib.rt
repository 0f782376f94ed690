//! The mended text of opening hours of OpenStreetMap: strictly written, with the same meaning, in one form.
//!
//! Plain hours are written as `print_hours` writes them. A text with holidays, Easter, ranges that move, comments, unknown and
//! fallback rules, points of time, open ends or events of the sun is cut into its rules, and each is written part by part.
#![tactic(auto)]

mod comments;
pub mod laws;
mod making;
mod mender;
mod sound;
mod written;

pub use mender::mended_hours;
pub use written::mended_as_written;
