//! A rule of a text, with all that is written for it.

use gtd_hours::{Hours, Link, Selector};
use gtd_hours_dated::MonthItem;
use gtd_hours_days::{EasterDays, Listed};
use gtd_hours_moments::TimeForm;

/// A rule of a text.
#[derive(Drop)]
pub struct MendedRule {
    /// How it stands to the rules before it.
    pub link: Link,
    /// The hours of its own text: one rule, with a range of times for each of its forms of times.
    pub own: Hours,
    /// Of each of its years, whether it has no last one.
    pub every: Vec<bool>,
    /// What stands in the list of its month days, from left to right.
    pub month_items: Vec<MonthItem>,
    /// Its ranges of days that move.
    pub dates: Vec<Selector>,
    /// Its days of Easter.
    pub easter: Vec<EasterDays>,
    /// Its holidays.
    pub holidays: Vec<Listed>,
    /// Of each of its holidays and of the weekday selectors of its own text, from left to right, whether it is a holiday.
    pub order: Vec<bool>,
    /// Whether its holidays lead.
    pub is_led: bool,
    /// Its forms of times.
    pub forms: Vec<TimeForm>,
    /// Whether it is unknown.
    pub is_unknown: bool,
    /// Its comment with the quotes, or nothing.
    pub comment: Vec<u8>,
}
