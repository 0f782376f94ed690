//! The years in which holidays and Easter are known.

ghost use Rattle.std.specs.Prelude.{◌≡◌, ◌↔◌, ◌+◌, ◌+ℤ◌, pos, IfSome, IsSome};
ghost use Rattle.std.proofs.Props.{props};
ghost use Rattle.gtd_calendar.specs.Calendar.{IsCalendarDay, first_day};
ghost use Rattle.gtd_hours_holidays.specs.KnownYears.{AreKnown};

use gtd_calendar::day_of;

/// The years in which holidays and Easter are known: at most 98, from 1802 to 2797.
#[derive(Clone, Copy)]
pub struct KnownYears {
    /// The first year, 1802 at least.
    pub first: u16,
    /// The last year, not before the first, at most 97 years later, and 2797 at most.
    pub last: u16,
    pub ghost in_range: { AreKnown first last } by { Prim.hlevel props },
}

impl KnownYears {
    /// The years from one to another, or `None` exactly if one is not from 1802 to 2797, the last comes before the first, or they
    /// are more than 98. Takes no memory.
    pub fn new(first: u16, last: u16) -> Option<KnownYears>
        ensures kept { IfSome result (λ years. (years.first ≡ first) × (years.last ≡ last)) }
        ensures accepted { IsSome result ↔ AreKnown first last }
    {
        if 1802 <= first && first <= last && last <= 2797 && last < first + 98 {
            Some(KnownYears { first, last })
        } else {
            None
        }
    }

    /// 1 January of the first year. Takes no memory.
    pub fn first_day(self) -> i64
        ensures day { result ≡ first_day (pos self.first) }
        ensures near { IsCalendarDay result }
    {
        match day_of(i64::from(self.first), 1, 1) {
            Some(day) => day,
            None => unreachable!(),
        }
    }

    /// 31 December of the last year. Takes no memory.
    pub fn last_day(self) -> i64
        ensures day { result +ℤ pos 1 ≡ first_day (pos (self.last + 1)) }
        ensures near { IsCalendarDay result }
    {
        match day_of(i64::from(self.last), 12, 31) {
            Some(day) => day,
            None => unreachable!(),
        }
    }
}
