//! Sets of seconds as normal lists of spans: lists, sources that hand one out span by span, and the sweeps under both.
//!
//! A list is normal if its spans are in order, none is empty, and between any two of them there is a second that
//! neither holds. A set of seconds has exactly one such list between two whole numbers, so equal lists are equal sets.
//!
//! A [`Sweep`] is a set operator without its sides. It asks for their spans one at a time, and hands out the spans of
//! the result. [`Unite`], [`Both`], [`Without`] and [`Outside`] drive one over sources, and the list operations collect
//! these over lists. Only [`SpanList::push_start`] on a new span, [`SpanList::collect`], [`SpanList::collect_within`] and the
//! five list operations take memory.
#![tactic(auto)]

pub use bounds::Bounds;
pub use by_day::ByDay;
pub use list::{Listed, SpanList};
pub use merge::Ask;
pub use operations::{complement, meet, minus, same, union, within};
pub use source::{Both, Outside, SpanSource, Unite, Without, next_change};
pub use sweep::Sweep;

mod bounds;
mod by_day;
pub mod laws;
mod list;
mod merge;
mod operations;
mod source;
mod sweep;
