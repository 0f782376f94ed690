//! What is known of holidays and years, and the hours of a text that are read with it.

use gtd_hours::Hours;
use gtd_hours_holidays::{Holidays, KnownYears};
use gtd_hours_loose::StrictForm;

/// What is known of holidays and years.
#[derive(Drop)]
pub struct Known {
    /// The table of holidays, if there is one.
    pub holidays: Option<Holidays>,
    /// The years in which holidays and Easter are known, and with which years without a last one end, if they are given.
    pub years: Option<KnownYears>,
}

/// The hours of a text.
#[derive(Drop)]
pub struct KnownHours {
    /// What they are.
    pub hours: Hours,
    /// The strict form of the text, if it was read by that.
    pub form: Option<StrictForm>,
    /// The number of bytes before what needs years in the first rule that has such: the slash of its first years without a last
    /// one, or else its first Easter, or its first holiday.
    pub first_holiday: Option<usize>,
    /// The number of bytes before each comment on an open rule without a word that says that it is open.
    pub remarks: Vec<usize>,
    /// The number of bytes before each word or comment that makes a fallback rule unknown.
    pub unknowns: Vec<usize>,
}
