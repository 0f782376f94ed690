//! Seconds of the local civil clock, and spans of them.

ghost use Rattle.std.specs.Prelude.{◌≡◌, ◌⊎◌, ◌<ℤ◌, ◌≤ℤ◌, ◌↔◌, ℤ, IsTrue, MatchOption};
ghost use Rattle.gtd_core.specs.Seconds.{IsOnDay, day_of_second, Interval, Within};

use crate::limits::DAY_SECONDS;
use std::marker::Model;

/// A second of the local civil clock, by its number: 86,400 times the day number (1970-01-01 is day 0) plus the second
/// of the day. Time zones and daylight saving play no part.
#[derive(Clone, Copy, Debug, PartialEq, Eq, PartialOrd, Ord)]
pub struct Sec(pub i64);

impl Sec {
    /// The number of the day that the second is on.
    pub fn day(self) -> i64
        ensures on_day { IsOnDay self.0 result }
        ensures value { result ≡ day_of_second self.0 }
    {
        self.0.div_euclid(DAY_SECONDS)
    }

    /// The earlier of two seconds.
    pub fn earlier(self, other: Sec) -> Sec
        ensures not_later { (result.0 ≤ℤ self.0) × (result.0 ≤ℤ other.0) }
        ensures either { (result.0 ≡ self.0) ⊎ (result.0 ≡ other.0) }
    {
        if self < other { self } else { other }
    }

    /// The later of two seconds.
    pub fn later(self, other: Sec) -> Sec
        ensures not_earlier { (self.0 ≤ℤ result.0) × (other.0 ≤ℤ result.0) }
        ensures either { (result.0 ≡ self.0) ⊎ (result.0 ≡ other.0) }
    {
        if self < other { other } else { self }
    }
}

/// The seconds from one up to but not including a later one: at least one second. In contracts it is an `Interval`.
#[derive(Clone, Copy, Debug, PartialEq, Eq)]
pub struct Span {
    from: Sec,
    until: Sec,
}

impl Model for Span {
    ghost use Rattle.std.specs.Prelude.{◌<ℤ◌};
    ghost use Rattle.gtd_core.specs.Seconds.{Interval};

    ghost Value = { Interval };

    ghost view = { λ a. record { from = a.from.0; until = a.until.0 } };

    ghost invariant = { λ a. a.from.0 <ℤ a.until.0 };

    ghost inverse = { λ d. record { from = record { 0 = d.from }; until = record { 0 = d.until } } };
}

impl Span {
    /// The span from one second up to but not including another, or `None` exactly if that holds no second.
    pub fn new(from: Sec, until: Sec) -> Option<Span>
        ensures span { MatchOption result (until.0 ≤ℤ from.0)
            (λ x. (from.0 <ℤ until.0) × (x ≡ record { from = from.0; until = until.0 })) }
    {
        if from.0 < until.0 {
            Some(Span { from, until })
        } else {
            None
        }
    }

    /// The first second.
    pub fn from(&self) -> Sec
        ensures value { result.0 ≡ self.now.from }
        ensures not_empty { self.now.from <ℤ self.now.until }
    {
        self.from
    }

    /// The second after the last one.
    pub fn until(&self) -> Sec
        ensures value { result.0 ≡ self.now.until }
        ensures not_empty { self.now.from <ℤ self.now.until }
    {
        self.until
    }

    /// Whether the second is in the span.
    pub fn contains(&self, second: Sec) -> bool
        ensures member { IsTrue result ↔ Within self.now second.0 }
    {
        self.from <= second && second < self.until
    }

    /// The span of these seconds. There must be at least one.
    pub fn between(from: Sec, until: Sec) -> Span
        requires not_empty { from.0 <ℤ until.0 }
        ensures value { result ≡ record { from = from.0; until = until.0 } }
    {
        Span { from, until }
    }

    /// The seconds of both spans, if there are any.
    pub fn meet(self, other: Span) -> Option<Span>
        ensures seconds { MatchOption result ((t : ℤ) → Within self t → Within other t → ⊥)
            (λ m. (t : ℤ) → Within m t ↔ (Within self t × Within other t)) }
        ensures ends { MatchOption result (Unit {0})
            (λ m. (m.from <ℤ m.until) × (m.until ≤ℤ self.until) × (m.until ≤ℤ other.until)) }
    {
        let from = if self.from < other.from {
            other.from
        } else {
            self.from
        };
        let until = if self.until < other.until {
            self.until
        } else {
            other.until
        };
        if from < until {
            Some(Span { from, until })
        } else {
            None
        }
    }

    /// The span with another end, which must not be before its own.
    pub fn until_later(self, until: Sec) -> Span
        requires later { self.until ≤ℤ until.0 }
        ensures value { result ≡ record { from = self.from; until = until.0 } }
    {
        Span {
            from: self.from,
            until,
        }
    }
}
