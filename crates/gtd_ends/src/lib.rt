//! Where the stretches of a basic domain begin and end, where that is the same for all of them.
//!
//! [`ending`] is the end, if it has one: a time, a weekday or a date. By the law in [`laws`], each stretch ends so. [`usual`] is
//! the duration that one would write for an end.
#![tactic(auto)]

mod anchor;
mod date;
mod duration;
mod end;
pub mod laws;
mod named;

pub use anchor::{Anchor, anchor_of, has_clock};
pub use duration::{is_all_day, is_written, usual};
pub use end::{End, ending};
