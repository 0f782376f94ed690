//! How long a stretch of time lasts.

ghost use Rattle.std.specs.Prelude.{◌≡◌, ◌↔◌, IfSome, IsSome, ◌+◌, ◌*◌, ◌^◌, ◌<◌, ◌≤◌, pos};
ghost use Rattle.gtd_core.specs.Ranges.{IsDuration, bound_of, clock_seconds, day_bound, lookback_of};
ghost use Rattle.std.proofs.Props.{props};
ghost use Rattle.gtd_core.specs.Limits.{most_bound};

use crate::limits::{DAY_SECONDS, MOST_BOUND};

/// The numbers of a duration, one for each unit.
#[derive(Clone, Copy, Debug, PartialEq, Eq, Default)]
pub struct DurationParts {
    pub years: u32,
    pub months: u32,
    pub weeks: u32,
    pub days: u32,
    pub hours: u32,
    pub minutes: u32,
    pub seconds: u32,
}

impl DurationParts {
    /// A number of seconds that no stretch of these numbers exceeds: a year counts 366 days, a month 31.
    pub fn bound(&self) -> u64
        ensures value { result ≡ bound_of self.now }
    {
        DAY_SECONDS as u64 * most_days(self) + clock_seconds(self)
    }
}

/// The numbers of a duration, each of at most six digits, with a bound of at most 36,600 days.
#[derive(Clone, Copy, Debug, PartialEq, Eq)]
pub struct Duration {
    parts: DurationParts,
    pub ghost bounded: { IsDuration parts } by { Prim.hlevel props },
}

impl Duration {
    ghost use Rattle.gtd_core.specs.Parts.{duration_parts};

    /// The duration of these numbers, or `None` exactly if one is over 999,999 or the bound is over 3,162,240,000
    /// seconds.
    pub fn new(parts: DurationParts) -> Option<Duration>
        ensures kept { IfSome result (λ duration. duration_parts duration ≡ parts) }
        ensures accepted { IsSome result ↔ IsDuration parts }
    {
        if parts.years <= 999_999
            && parts.months <= 999_999
            && parts.weeks <= 999_999
            && parts.days <= 999_999
            && parts.hours <= 999_999
            && parts.minutes <= 999_999
            && parts.seconds <= 999_999
            && parts.bound() <= MOST_BOUND
        {
            Some(Duration { parts })
        } else {
            None
        }
    }

    /// The numbers that the duration was made from.
    pub fn parts(&self) -> DurationParts
        ensures value { result ≡ duration_parts self.now }
    {
        self.parts
    }

    /// A number of seconds that no stretch of this duration exceeds: a year counts 366 days, a month 31.
    pub fn bound(&self) -> i64
        ensures value { result ≡ pos (bound_of (duration_parts self.now)) }
    {
        self.parts.bound() as i64
    }

    /// The years and months, in months.
    pub fn whole_months(&self) -> u32
        ensures value { result ≡ 12 * (duration_parts self.now).years + (duration_parts self.now).months }
        ensures bound { result ≤ 1200 }
    {
        12 * self.parts.years + self.parts.months
    }

    /// The weeks and days, in days.
    pub fn whole_days(&self) -> u32
        ensures value { result ≡ 7 * (duration_parts self.now).weeks + (duration_parts self.now).days }
        ensures bound { result ≤ 36_600 }
    {
        7 * self.parts.weeks + self.parts.days
    }

    /// The hours, minutes and seconds, in seconds.
    pub fn clock(&self) -> u32
        ensures value { result ≡ clock_seconds (duration_parts self.now) }
        ensures bound { result ≤ most_bound }
    {
        3600 * self.parts.hours + 60 * self.parts.minutes + self.parts.seconds
    }

    /// The most days ago that a stretch that is still running can have begun: the bound in days, rounded up.
    pub fn lookback(&self) -> u32
        ensures value { result ≡ lookback_of (duration_parts self.now) }
        ensures bound { result ≤ 36_600 }
    {
        (self.bound() as u32).div_ceil(DAY_SECONDS as u32)
    }
}

// The most days that the calendar part of a duration can take.
fn most_days(parts: &DurationParts) -> u64
    ensures days { result ≡ day_bound parts.now }
    ensures small { result < 2 ^ 42 }
{
    366 * u64::from(parts.years)
        + 31 * u64::from(parts.months)
        + 7 * u64::from(parts.weeks)
        + u64::from(parts.days)
}

// The seconds of the clock part of a duration.
fn clock_seconds(parts: &DurationParts) -> u64
    ensures seconds { result ≡ clock_seconds parts.now }
    ensures small { result < 2 ^ 45 }
{
    3_600 * u64::from(parts.hours) + 60 * u64::from(parts.minutes) + u64::from(parts.seconds)
}
