//! Record files of either version, written as files of version 2.
//!
//! [`run_migrate`] reads a record file whole, and puts its rows in their order, each in its canonical form. The laws in
//! [`laws`] say that the resulting file is accepted and means the same as its source.
#![tactic(auto)]

pub use line::write_row;
pub use run::{Migration, run_migrate};

pub mod laws;
mod line;
mod run;
