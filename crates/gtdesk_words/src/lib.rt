//! What the single words of a command line of `gtdesk` stand for, and why they are refused.
//!
//! Each call reads one word. The order in which the words of a command are read, and so which of them is refused, is that of
//! their command.
#![tactic(auto)]

mod clocks;
mod hours;
mod moment;
mod refusal;
mod words;

pub use clocks::{ClockWords, clocks_of};
pub use hours::hours_domain;
pub use moment::Moment;
pub use refusal::{NoDomain, Reason, WordFault, WordName, WordsRefusal};
pub use words::{
    day_names_of, days_after, days_of, direction_of, domain_of, element_of, elements_of, from_of,
    hours_of, language_of, moment_of, rules_of, vehicle_of, year_of, years_of, zone_of,
};
