//! Opening hours of OpenStreetMap with public and school holidays, comments, unknown and fallback rules: a text as plain hours
//! and what is said beside them.
//!
//! A text is turned into rules, each with a text of plain hours, its holidays, its ranges of days that move and what else is said
//! of it, and into one text of plain hours of the same length, which has a fault exactly where the text has one.
#![tactic(auto)]

mod checked;
pub mod laws;
mod parts;
mod rules;
mod text;
mod told;
mod whole_days;

pub use gtd_hours_items::NoHolidayText;
pub use parts::{Part, parts_of};
pub use rules::{HolidayRule, before_holiday, link_behind, rules_of};
pub use text::{HolidayText, holiday_text};
pub use told::{HolidayFault, Instead, Told, told_fault};
