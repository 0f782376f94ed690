//! Weeks: those that go back are two ranges.

ghost use Rattle.std.specs.Prelude.{◌≡◌, ◌↔◌, ℤ, nat_le, true, false, IfSome, IsSome};
ghost use Rattle.gtd_calendar.specs.declared.day.DayFields.{DayFields};
ghost use Rattle.gtd_hours.specs.Opening.{HoldsOn, IsStep};
ghost use Rattle.gtd_hours.specs.Ranges.{IsWeeks};
ghost use Rattle.gtd_hours2.specs.declared.values.RulePart.TheVariants as part;
ghost use Rattle.gtd_hours_days2.specs.InRange.{IsPartInRange};
ghost use Rattle.gtd_hours_days2.specs.Lowered.{IsLoweredAlways};

use crate::lowered::Lowered;
use gtd_hours::{Selector, Weeks};

// Every so many weeks, from the first to the last.
fn weeks_to(first: u16, last: u16, step: u16) -> Option<Selector>
    ensures kept { IfSome result (λ x. (n : ℤ) (f : DayFields) → HoldsOn x n f ↔ IsStep first last step f.week) }
    ensures accepted { IsSome result ↔ IsWeeks first last step }
{
    match Weeks::new(first, last, step) {
        None => None,
        Some(weeks) => Some(Selector::Weeks(weeks)),
    }
}

// Weeks that go on.
fn forward(first: u8, last: u8, step: u16) -> Option<Lowered>
    requires { nat_le first last ≡ true }
    ensures kept { IfSome result (IsLoweredAlways (part.Weeks first last step)) }
    ensures accepted { IsSome result ↔ IsPartInRange (part.Weeks first last step) }
{
    match weeks_to(u16::from(first), u16::from(last), step) {
        None => None,
        Some(selector) => Some(Lowered::One(selector)),
    }
}

// Weeks that go back: up to the last of the year, and from the first on.
fn back(first: u8, last: u8, step: u16) -> Option<Lowered>
    requires { nat_le first last ≡ false }
    ensures kept { IfSome result (IsLoweredAlways (part.Weeks first last step)) }
    ensures accepted { IsSome result ↔ IsPartInRange (part.Weeks first last step) }
{
    match weeks_to(u16::from(first), 53, 1) {
        None => None,
        Some(late) => match weeks_to(1, u16::from(last), 1) {
            None => None,
            Some(early) => Some(Lowered::Two(late, early)),
        },
    }
}

/// Weeks.
pub fn year_weeks(first: u8, last: u8, step: u16) -> Option<Lowered>
    ensures kept { IfSome result (IsLoweredAlways (part.Weeks first last step)) }
    ensures accepted { IsSome result ↔ IsPartInRange (part.Weeks first last step) }
{
    if first <= last {
        forward(first, last, step)
    } else {
        back(first, last, step)
    }
}
