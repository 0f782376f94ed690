//! What the rows of a record file say more than once: rows that are the same, rows that another row closes already, and texts of
//! domains that mean the same.
#![tactic(auto)]

pub use findings::Finding;
pub use run::run_repeats;

mod alike;
mod answers;
mod buckets;
mod findings;
mod finer;
mod firsts;
mod kin;
mod known;
pub mod laws;
mod lines;
mod numbers;
mod rows;
mod run;
mod seconds;
mod spans;
mod vehicles;
