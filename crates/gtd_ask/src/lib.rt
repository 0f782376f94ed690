//! Questions about the road elements of a record file, and their answers.
//!
//! A question asks whether an element is open in a direction for a vehicle type at a moment. [`run_ask`] reads a file of
//! questions and a record file, and puts for each question its state and until when it lasts.
#![tactic(auto)]

pub use fault::{AskFault, QuestionFault};
pub use question::Question;
pub use run::run_ask;
pub use words::QuestionText;

mod answer;
mod asked;
mod crowded;
mod fault;
mod held;
pub mod laws;
mod put;
mod question;
mod reader;
mod run;
mod shared;
mod walk;
mod words;
