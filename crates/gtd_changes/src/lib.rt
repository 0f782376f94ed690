//! What two record files say differently: when each of their road elements was opened or closed.
#![tactic(auto)]

pub use change::Change;
pub use fault::ChangesFault;
pub use form::{Asked, Form};
pub use run::{run_changes, run_changes_in};

mod ahead;
mod change;
mod elements;
mod fault;
mod form;
pub mod laws;
mod line;
mod pair;
mod place;
mod put;
mod rows;
mod run;
mod summary;
mod text;
