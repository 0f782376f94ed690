//! How rules of opening hours of OpenStreetMap are written that are no plain hours: with holidays, Easter, ranges that move,
//! years without a last one, points of time, open ends, events of the sun and comments, and unknown and fallback rules.
//!
//! A rule is written part by part, from its years to its comment; its selectors of plain hours as `print_hours` writes them.
#![tactic(auto)]

mod classes;
mod copies;
mod days;
mod joining;
mod rule;
mod rules;
mod selectors;
mod times;
mod years;

pub use copies::{behind, copy_of, first_of};
pub use rule::MendedRule;
pub use rules::{first_times, rules_text};
