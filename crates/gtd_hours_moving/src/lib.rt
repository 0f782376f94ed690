//! Ranges of days that move from year to year, such as `Mar Su[-1]-Oct Su[1]` and `easter-Oct 31`, and Easter of a year, where
//! the tokens of a text of opening hours begin with one.
//!
//! Tokens begin a range by their kinds alone, whatever their numbers are. A range that is begun is read from left to right, up
//! to its end or its first fault. Which days the range then is, `gtd_hours_ranges` says.
#![tactic(auto)]

mod begins;
mod easter;
mod ends;
mod front;
mod kinds;
pub mod laws;
mod range;
mod read;
mod reading;
mod words;

pub use front::{MovingFront, moving_front};
pub use words::{begins_easter, is_unread, is_word, stretch};
