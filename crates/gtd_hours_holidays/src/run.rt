//! A run of consecutive days.

ghost use Rattle.std.specs.Prelude.{◌≤ℤ◌};
ghost use Rattle.std.proofs.Props.{props};
ghost use Rattle.gtd_calendar.specs.Calendar.{IsCalendarDay};

/// Consecutive days of the years 1800 to 2799.
#[derive(Clone, Copy)]
pub struct Run {
    /// The first day, counted from 1970-01-01.
    pub first: i64,
    /// The last day, which is included.
    pub last: i64,
    pub ghost first_in: { IsCalendarDay first } by { Prim.hlevel props },
    pub ghost last_in: { IsCalendarDay last } by { Prim.hlevel props },
    pub ghost order: { first ≤ℤ last } by { Prim.hlevel props },
}
