//! Opening hours of OpenStreetMap, as values.
//!
//! Hours are rules. A rule has a head, that links it to the rules before it and says whether it is open, and parts: selectors of
//! days, and times. A weekday is 1 for Sunday to 7 for Saturday, and times are minutes from the beginning of a day of the local
//! civil clock. `write_rules` writes rules strictly.
#![tactic(auto)]

pub use rules::{RuleRef, Rules, RulesLeft};
pub use values::{
    CommentRange, DayOffset, HolidayKind, PartKind, RuleHead, RuleLink, RulePart, RuleWord,
    SunEvent, TimeOfDay, TimeTail, YearlyDay,
};
pub use writer::write_rules;

mod kinds;
pub mod laws;
mod names;
mod part_writer;
mod rules;
mod values;
mod writer;
