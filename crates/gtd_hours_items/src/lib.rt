//! The items of a text of opening hours with holidays, Easter, ranges of days that move, comments, unknown and fallback rules.
//!
//! `tokens_of` answers the tokens of a text whose comments are whole, and `items_of` its items: a holiday or Easter with its
//! offset, or a range of days that moves, is one of them.
#![tactic(auto)]

mod coming;
mod comments;
mod every;
mod fronts;
mod items;
pub mod laws;
mod offsets;
mod stop;
mod tokens;

pub use coming::{
    begins_bracket, begins_date, begins_dates, begins_holiday, begins_month, begins_month_days,
    begins_number, begins_time, begins_weekday, begins_year, is_weekday, leads, places,
};
pub use items::{Item, What, items_of};
pub use stop::NoHolidayText;
pub use tokens::tokens_of;
