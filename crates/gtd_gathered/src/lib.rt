//! An output that gathers bytes before another takes them.
//!
//! [`Gathered`] is an [`Output`](gtd_devices::Output) before another, in a buffer that is lent to it: short lines are copied into
//! it, and the other output is called for many of them at once.
#![tactic(auto)]

pub use gathered::{GATHERED, Gathered};

mod copies;
mod gathered;
