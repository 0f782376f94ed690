//! The period after which a basic domain repeats: a week, a day, an hour or a minute.

ghost use Rattle.std.specs.Prelude.{◌≡◌, ◌⊎◌, ◌≤ℤ◌, IfSome, MatchOption};
ghost use Rattle.gtd_core.specs.Parts.{start_parts, duration_parts};
ghost use Rattle.gtd_recur.specs.Periods.{period_seconds, RepeatsAfter};
ghost use Rattle.gtd_recur.specs.Weekly.{IsWeekly};

use crate::cover::is_weekly;
use gtd_core::Basic;
use gtd_core::limits::DAY_SECONDS;

/// A span of time after which a basic domain may repeat: what it contains at a second, it then contains at the second
/// that is one period later, and the other way round.
#[derive(Clone, Copy, Debug, PartialEq, Eq)]
pub enum Period {
    /// 60 seconds.
    Minute,
    /// 3,600 seconds.
    Hour,
    /// 86,400 seconds.
    Day,
    /// 604,800 seconds.
    Week,
}

impl Period {
    /// The seconds of the period.
    pub fn seconds(self) -> i64
        ensures value { result ≡ period_seconds self }
    {
        match self {
            Period::Minute => 60,
            Period::Hour => 3_600,
            Period::Day => DAY_SECONDS,
            Period::Week => 7 * DAY_SECONDS,
        }
    }

    /// The longer of two periods. What repeats after one of them repeats after it too.
    pub fn longer(self, other: Period) -> Period
        ensures either { (result ≡ self) ⊎ (result ≡ other) }
        ensures first { period_seconds self ≤ℤ period_seconds result }
        ensures second { period_seconds other ≤ℤ period_seconds result }
    {
        if self.seconds() < other.seconds() {
            other
        } else {
            self
        }
    }
}

/// The shortest period after which the fields of a basic domain let it repeat: a week if weekdays are given, else a day
/// if an hour is, else an hour if a minute is, and else a minute. `None` if it asks for a date, or if its duration has
/// months or years.
pub fn period_of(basic: &Basic) -> Option<Period>
    ensures period { MatchOption result
        (IsWeekly (start_parts basic.now.start) (duration_parts basic.now.duration) → ⊥)
        (λ x. RepeatsAfter (period_seconds x) (start_parts basic.now.start) (duration_parts basic.now.duration)) }
    ensures least { IfSome result (λ x. (y : Period)
        → RepeatsAfter (period_seconds y) (start_parts basic.now.start) (duration_parts basic.now.duration)
        → period_seconds x ≤ℤ period_seconds y) }
{
    if !is_weekly(basic) {
        return None;
    }
    let start = basic.start.as_parts();
    if start.weekdays != 0 {
        return Some(Period::Week);
    }
    if start.hour.is_some() {
        return Some(Period::Day);
    }
    if start.minute.is_some() {
        return Some(Period::Hour);
    }
    Some(Period::Minute)
}
