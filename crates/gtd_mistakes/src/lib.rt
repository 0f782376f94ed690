//! Likely mistakes of time domains: texts that are read, but that may not say what was meant.
//!
//! Each [`Rule`] has a name and a condition, which `specs/Rules.antt` states. [`push_told`] tells the rules that hold of a
//! domain, each at the part of it that looks like a mistake. No call reads a text: what a rule tells is seen in the domain alone.
#![tactic(auto)]

pub use rule::{RULES, Rule, rule_of_name};
pub use told::{Part, Told, first_part, push_told};

mod basics;
mod joins;
mod rule;
mod shapes;
mod told;
