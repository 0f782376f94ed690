//! One recurrence: the seconds of a basic domain, its starts one after another, and the spans that its stretches make.
//!
//! Seconds are those of the local civil clock; days are numbered from 1970-01-01. Only `spans_of` takes memory.
#![tactic(auto)]

pub use changes::{held_until, next_start};
pub use cover::{covers, is_weekly};
pub use period::{Period, period_of};
pub use runs::Runs;
pub use spans::spans_of;
pub use starts::Starts;

mod asks;
mod begin;
mod changes;
mod clocks;
mod cover;
mod find;
mod jump;
pub mod laws;
mod period;
mod runs;
mod spans;
mod starts;
mod walk;
