//! Time domains as values, within their limits: seconds and spans of them, horizons, starts, durations, expressions.
//!
//! No call of this crate takes memory. A value that exists is in its ranges: constructors refuse all others.
#![tactic(auto)]

pub use domain::{Basic, Domain, Expr, Op};
pub use duration::{Duration, DurationParts};
pub use fault::{Fault, TextFault};
pub use horizon::{Horizon, HorizonFault};
pub use second::{Sec, Span};
pub use start::{Start, StartParts};

mod domain;
mod duration;
mod equality;
mod fault;
pub mod fields;
mod horizon;
pub mod laws;
pub mod limits;
mod second;
mod start;
