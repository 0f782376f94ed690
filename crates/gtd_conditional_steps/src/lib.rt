//! What the tags of a way say, as steps that close and open it.
//!
//! [`OrderedTags`] has the tags of an element in the order of their modes. [`steps_of`] answers their steps in a direction, of
//! which `gtd_conditional_rows` makes rows. [`are_two_way`] is whether the steps of both directions are the same, and
//! [`needs_too_many`] whether the hours of a value need more basic domains than a domain may have.
#![tactic(auto)]

pub use count::needs_too_many;
pub use ordered::OrderedTags;
pub use steps::steps_of;
pub use tag::{StepsFault, Tag};
pub use two_way::are_two_way;

mod count;
mod hours;
mod keys;
mod modes;
mod ordered;
mod steps;
mod tag;
mod two_way;
mod types;
