//! The time domain of opening hours.
//!
//! `domain_of` answers the domain with exactly the seconds at which hours are open, and `cost_of` how many basic domains that
//! takes, without taking memory.
#![tactic(auto)]

pub use cost::cost_of;
pub use translate::{TranslationFault, domain_of};

mod cost;
mod said;
mod spans;
mod translate;
