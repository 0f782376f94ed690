//! Which seconds a time domain contains: at one moment, over a horizon as a source of spans, and for ever.
//!
//! A [`Cursor`] hands out the seconds of a domain span by span and keeps no list of them: it is a tree of sweeps over the runs of
//! the basic domains, which is made once. A [`KeptCursor`] hands out the same spans, and keeps a bounded number of those of a
//! period, from which all later ones follow. [`spans`] and [`next_change`] ask one. Calls that take memory answer `AllocError`
//! (or `NoMemory`) only if the allocator refused it.
#![tactic(auto)]

pub use cursor::Cursor;
pub use ever::{EverFault, next_change_ever};
pub use extent::{Extent, extent_of};
pub use gtd_recur::Period;
pub use kept::{KeptCursor, KeptPeriod, Part};
pub use leaf::Leaf;
pub use membership::{holds, is_weekly};
pub use node::Node;
pub use period::period_of;
pub use queries::{next_change, spans};
pub use stay::{Stay, days_to_look, stay_of};
pub use taker::SpanTaker;
pub use tree::SweepTree;

mod basic_stays;
mod bound;
mod cursor;
mod ever;
mod expr_stays;
mod extent;
mod gaps;
mod kept;
pub mod laws;
mod leaf;
mod membership;
mod node;
mod open;
mod period;
mod queries;
mod stay;
mod taker;
mod taking;
mod tree;
