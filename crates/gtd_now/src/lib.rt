//! The state of the road elements of a record file at a moment: open or closed, until when, and by which rows; of all elements,
//! or of some of them. As lines of fields, as JSON, or in columns for a screen.
#![tactic(auto)]

pub use asked::{Asked, Form};
pub use run::run_now;
pub use shown::Shown;

mod asked;
mod entry;
pub mod laws;
mod line;
mod now;
mod object;
mod reasons;
mod rows;
mod run;
mod shown;
mod table;
