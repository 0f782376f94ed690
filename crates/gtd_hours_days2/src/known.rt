//! What is known of holidays and years.

use gtd_hours_holidays::{Holidays, KnownYears};

/// What is known of holidays and years.
#[derive(Drop)]
pub struct Known {
    /// The table of holidays, if there is one.
    pub holidays: Option<Holidays>,
    /// The years in which holidays and Easter are known, and with which many years without a last one end, if they are given.
    pub years: Option<KnownYears>,
}
