//! The tokens of opening hours with points of time, open ends, repeated points and events of the sun, and what becomes of each.
//!
//! `time_tokens` answers the tokens of a text: those of plain hours, and parentheses. `step_of` says what becomes of a token, by
//! what stands behind those before it and by those that come behind it: what stands for it in a text of plain hours, and the form
//! of times that is whole with it.
#![tactic(auto)]

mod behind;
mod forms;
pub mod laws;
mod moment;
mod steps;
mod stop;
mod times;
mod tokens;

pub use behind::{Behind, Start, Step, Written};
pub use moment::{Event, Moment, TimeForm};
pub use steps::step_of;
pub use stop::NoMomentText;
pub use times::{TimeKind, TimeToken, stretch};
pub use tokens::time_tokens;
