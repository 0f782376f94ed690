//! What must be known of a day to say whether a start begins on it.

ghost use Rattle.gtd_recur.specs.Asked.{IsAsked};

use crate::begin::asks_no_date;
use gtd_core::StartParts;

/// What must be known of a day to say whether a start begins on it.
#[derive(Clone, Copy, Debug)]
pub(crate) enum Asks {
    /// Nothing: it begins on every day.
    Nothing,
    /// Its weekday alone.
    Weekday,
    /// Its date, or its week.
    Date,
}

/// What must be known of a day for this start.
pub(crate) fn asked(start: &StartParts) -> Asks
    ensures asked { IsAsked start.now result }
{
    if !asks_no_date(start) {
        return Asks::Date;
    }
    if start.weekdays == 0 {
        Asks::Nothing
    } else {
        Asks::Weekday
    }
}
