//! The days over which a question is asked.

ghost use Rattle.std.specs.Prelude.{◌≡◌, ◌<ℤ◌, ◌≤ℤ◌, ◌-ℤ◌, ◌*ℤ◌, pos, neg_ℤ, MatchResult, codes};
ghost use Rattle.gtd_core.specs.Horizons.{IsHorizon, IsHorizonFault};
ghost use Rattle.gtd_core.specs.Names.{horizon_fault_name};

use crate::limits::{DAY_SECONDS, FIRST_HORIZON_DAY, HORIZONS_END, MOST_HORIZON_DAYS};
use crate::second::{Sec, Span};
use thiserror::Error;

/// The days from one up to but not including a later one. A day is given by its number; 1970-01-01 is day 0.
///
/// There is at least one day and there are at most 146,098, one more than 400 years have. None is before 1901-01-01 or
/// after 2699-12-31.
#[derive(Clone, Copy, Debug, PartialEq, Eq)]
pub struct Horizon {
    from_day: i64,
    to_day: i64,
    pub ghost not_empty: { from_day <ℤ to_day },
    pub ghost not_early: { neg_ℤ (pos 25_202) ≤ℤ from_day },
    pub ghost not_late: { to_day ≤ℤ pos 266_627 },
    pub ghost not_long: { (to_day -ℤ from_day) ≤ℤ pos 146_098 },
}

/// Why two days do not make a horizon.
#[derive(Clone, Copy, Debug, PartialEq, Eq, Error)]
pub enum HorizonFault {
    /// No day lies between them.
    #[error("Empty")]
    Empty,
    /// The first is before 1901-01-01.
    #[error("TooEarly")]
    TooEarly,
    /// The second is after 2700-01-01.
    #[error("TooLate")]
    TooLate,
    /// More than 146,098 days lie between them.
    #[error("TooLong")]
    TooLong,
}

impl HorizonFault {
    /// The fault's name, as fault lines show it.
    pub fn name(&self) -> &'static str
        ensures text { result.now ≡ horizon_fault_name self.now }
    {
        match self {
            HorizonFault::Empty => "Empty",
            HorizonFault::TooEarly => "TooEarly",
            HorizonFault::TooLate => "TooLate",
            HorizonFault::TooLong => "TooLong",
        }
    }
}

impl Horizon {
    ghost use Rattle.gtd_core.specs.Whole.{whole};
    ghost use Rattle.gtd_core.specs.Whole as days;

    /// The horizon from one day up to but not including another, or the first of its faults: `Empty`, `TooEarly`,
    /// `TooLate`, `TooLong`.
    pub fn new(from_day: i64, to_day: i64) -> Result<Horizon, HorizonFault>
        ensures horizon { MatchResult result
            (λ h. (days.from_day h ≡ from_day) × (days.to_day h ≡ to_day) × IsHorizon from_day to_day)
            (λ fault. IsHorizonFault fault from_day to_day) }
    {
        if to_day <= from_day {
            return Err(HorizonFault::Empty);
        }
        if from_day < FIRST_HORIZON_DAY {
            return Err(HorizonFault::TooEarly);
        }
        if to_day > HORIZONS_END {
            return Err(HorizonFault::TooLate);
        }
        if to_day - from_day > MOST_HORIZON_DAYS {
            return Err(HorizonFault::TooLong);
        }
        Ok(Horizon { from_day, to_day })
    }

    /// The number of the first day.
    pub fn from_day(self) -> i64
        ensures value { result ≡ days.from_day self }
    {
        self.from_day
    }

    /// The number of the day after the last one.
    pub fn to_day(self) -> i64
        ensures value { result ≡ days.to_day self }
    {
        self.to_day
    }

    /// The first second.
    pub fn from(self) -> Sec
        ensures value { result.0 ≡ (whole self).from }
    {
        Sec(self.from_day * DAY_SECONDS)
    }

    /// The second after the last one.
    pub fn until(self) -> Sec
        ensures value { result.0 ≡ (whole self).until }
    {
        Sec(self.to_day * DAY_SECONDS)
    }

    /// All seconds of the horizon.
    pub fn whole(self) -> Span
        ensures value { result ≡ whole self }
        ensures not_empty { (whole self).from <ℤ (whole self).until }
    {
        Span::between(self.from(), self.until())
    }
}
