//! Elements of a record file that rows with the same domains close, so that what is asked about the seconds of all of them is
//! found once.
//!
//! [`first_alike`] tells of each element in a direction an earlier one that is open at the same seconds.
#![tactic(auto)]

pub use elements::first_alike;

mod elements;
mod firsts;
