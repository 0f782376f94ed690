//! When a stretch of time begins.

ghost use Rattle.std.specs.Prelude.{◌≡◌, ◌≢◌, ◌↔◌, IfSome, IsSome, IsTrue};
ghost use Rattle.gtd_core.specs.Ranges.{IsStart, IsWithin, IsPlace};
ghost use Rattle.std.proofs.Props.{props};

use crate::fields::{
    MOST_DAY, MOST_HOUR, MOST_MINUTE, MOST_MONTH, MOST_PLACE, MOST_SECOND, MOST_WEEK, MOST_WEEKDAY,
    MOST_YEAR,
};

/// The fields of a start, each if it is given. Letters are those of the texts.
///
/// A weekday is 1 for Sunday to 7 for Saturday. A place is a number n and a weekday: the n-th such weekday of the
/// month, counted from its beginning or back from its end.
#[derive(Clone, Copy, Debug, PartialEq, Eq, Default)]
pub struct StartParts {
    /// `y`: the year of the date, or of the ISO 8601 week where `week` is given, 0 to 9999.
    pub year: Option<u16>,
    /// `M`: 1 to 12.
    pub month: Option<u8>,
    /// `w`: the week of ISO 8601, 1 to 53.
    pub week: Option<u8>,
    /// `d`: the day of the month, 1 to 31.
    pub day: Option<u8>,
    /// `h`: 0 to 23.
    pub hour: Option<u8>,
    /// `m`: 0 to 59.
    pub minute: Option<u8>,
    /// `s`: 0 to 59.
    pub second: Option<u8>,
    /// `f`: a place from the month's beginning: a number 1 to 5 and a weekday.
    pub nth: Option<(u8, u8)>,
    /// `l`: a place back from the month's end: a number 1 to 5 and a weekday.
    pub nth_back: Option<(u8, u8)>,
    /// `t`: the weekdays as alternatives; bit k - 1 stands for weekday k, and 0 means that none is given. Bit 7 is out
    /// of range.
    pub weekdays: u8,
}

/// The fields of a start, at least one of them, each in its range.
#[derive(Clone, Copy, Debug, PartialEq, Eq)]
pub struct Start {
    parts: StartParts,
    pub ghost in_range: { IsStart parts } by { Prim.hlevel props },
}

impl Start {
    ghost use Rattle.gtd_core.specs.Parts.{start_parts};

    /// The start with these fields, or `None` exactly if none is given or one is out of its range.
    pub fn new(parts: StartParts) -> Option<Start>
        ensures kept { IfSome result (λ start. start_parts start ≡ parts) }
        ensures accepted { IsSome result ↔ IsStart parts }
    {
        if parts != StartParts::default()
            && is_within(parts.year, 0, MOST_YEAR)
            && is_within_byte(parts.month, 1, MOST_MONTH)
            && is_within_byte(parts.week, 1, MOST_WEEK)
            && is_within_byte(parts.day, 1, MOST_DAY)
            && is_within_byte(parts.hour, 0, MOST_HOUR)
            && is_within_byte(parts.minute, 0, MOST_MINUTE)
            && is_within_byte(parts.second, 0, MOST_SECOND)
            && is_place(parts.nth)
            && is_place(parts.nth_back)
            && parts.weekdays < 128
        {
            Some(Start { parts })
        } else {
            None
        }
    }

    /// The fields that the start was made from.
    pub fn parts(&self) -> StartParts
        ensures value { result ≡ start_parts self.now }
    {
        self.parts
    }

    /// The same fields, without a copy.
    pub fn as_parts(&self) -> &StartParts
        ensures value { result.now ≡ start_parts self.now }
    {
        &self.parts
    }
}

fn is_within(field: Option<u16>, low: u16, high: u16) -> bool
    ensures { IsTrue result ↔ IsWithin low high field }
{
    match field {
        None => true,
        Some(n) => low <= n && n <= high,
    }
}

fn is_within_byte(field: Option<u8>, low: u8, high: u8) -> bool
    ensures { IsTrue result ↔ IsWithin low high field }
{
    match field {
        None => true,
        Some(n) => low <= n && n <= high,
    }
}

fn is_place(nth: Option<(u8, u8)>) -> bool
    ensures { IsTrue result ↔ IsPlace nth }
{
    match nth {
        None => true,
        Some((n, weekday)) => 1 <= n && n <= MOST_PLACE && 1 <= weekday && weekday <= MOST_WEEKDAY,
    }
}
