//! Opening hours of OpenStreetMap for time domains.
//!
//! `hours_of` goes the other way than `gtd_hours`: it looks for hours that are open at exactly the seconds of a domain. What it
//! finds it translates again, and it answers only hours whose domain has the same seconds as the given one, over all time.
#![tactic(auto)]

pub use back::hours_of;

mod alike;
mod back;
mod certain;
mod dates;
mod kinds;
mod leaf;
mod pieces;
mod rules;
mod times;
mod weekdays;
mod writable;
