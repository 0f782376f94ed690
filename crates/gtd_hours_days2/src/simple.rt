//! Months and weekdays.

ghost use Rattle.std.specs.Prelude.{◌≡◌, ◌↔◌, IfSome, IsSome};
ghost use Rattle.gtd_hours2.specs.declared.values.RulePart.TheVariants as part;
ghost use Rattle.gtd_hours_days2.specs.InRange.{IsPartInRange};
ghost use Rattle.gtd_hours_days2.specs.Lowered.{IsLoweredAlways};

use crate::lowered::Lowered;
use gtd_hours::{Months, Selector, Weekdays};

/// Months, which may go over New Year.
pub fn months(first: u8, last: u8) -> Option<Lowered>
    ensures kept { IfSome result (IsLoweredAlways (part.Months first last)) }
    ensures accepted { IsSome result ↔ IsPartInRange (part.Months first last) }
{
    match Months::new(first, last) {
        None => None,
        Some(months) => Some(Lowered::One(Selector::Months(months))),
    }
}

/// Weekdays, which may go over Saturday.
pub fn weekdays(first: u8, last: u8) -> Option<Lowered>
    ensures kept { IfSome result (IsLoweredAlways (part.Weekdays first last)) }
    ensures accepted { IsSome result ↔ IsPartInRange (part.Weekdays first last) }
{
    match Weekdays::new(first, last) {
        None => None,
        Some(days) => Some(Lowered::One(Selector::Weekdays(days))),
    }
}
