//! The moments that people write: with a space for the `T`, without seconds, or with a fraction of a second.
//!
//! Each stands for a second of the local civil clock, as the text of the form `YYYY-MM-DDThh:mm:ss` does. No call takes memory.
#![tactic(auto)]

pub use moment::read_moment;

pub mod laws;
mod moment;
