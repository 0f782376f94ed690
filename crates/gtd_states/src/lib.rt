//! The state of a road element at a second: open or closed, until when, and by which rows.
#![tactic(auto)]

pub use change::change_after;
pub use known::{KnownChange, changes_of, known_of, state_by};
pub use lookup::state_at;
pub use state::ElementState;

mod change;
mod known;
pub mod laws;
mod lookup;
mod state;
