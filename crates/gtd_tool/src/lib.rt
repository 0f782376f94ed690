//! The commands of the program `gtd`: [`plan`] reads the words after the program's name, and [`perform`] carries out
//! what they ask for, over an input that brings the bytes of the plan's record file. A [`Refusal`] has its exit status
//! and its line for standard error.
#![tactic(auto)]

mod arguments;
mod commands;
pub mod laws;
mod loan;
mod performer;
mod planner;
mod plans;
mod printer;
mod refusal;
mod runner;
mod words;
mod writer;

pub use performer::perform;
pub use planner::plan;
pub use plans::{Moment, MomentInHorizon, Plan};
pub use refusal::Refusal;
