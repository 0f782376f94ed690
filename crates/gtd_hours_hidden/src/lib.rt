//! Which later rules of opening hours hide hours of an earlier one, as `Mo-Fr 13:00-17:00` does in
//! `Mo-Fr 08:00-12:00; Mo-Fr 13:00-17:00`: with a comma the morning would stay.
#![tactic(auto)]

pub use rules::hiding_rules;

mod days;
mod minutes;
mod rules;
mod selectors;
