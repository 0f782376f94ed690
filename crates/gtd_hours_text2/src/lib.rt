//! The parts of rules of opening hours of OpenStreetMap, from their tokens.
//!
//! The grammar cuts tokens off as a part; `push_parts` says which parts these are, or which token is out of range.
#![tactic(auto)]

mod brackets;
mod computus;
mod days;
mod ends;
mod month_days;
mod parts;
mod times;
mod yearly;
mod years;

pub use brackets::PartError;
pub use month_days::last_place;
pub use parts::push_parts;
pub use years::{class_of, place_of};
