//! Time domains and record files for programs in C, and in every language that can call C.
#![tactic(auto)]

mod batches;
mod changes;
mod closers;
mod comparisons;
mod dates;
mod domains;
mod ends;
mod faults;
mod horizons;
mod hours_faults;
mod names;
mod opening_hours;
mod pictures;
mod questions;
mod records;
mod schedules;
mod shares;
mod spans;
mod stamps;
mod texts;
