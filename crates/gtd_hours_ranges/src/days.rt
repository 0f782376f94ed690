//! The days of a range that is written.

ghost use Rattle.std.specs.Prelude.{◌≡◌, IfNone, IfSome, None};
ghost use Rattle.gtd_hours.specs.declared.hours.Dated.{Dated};
ghost use Rattle.gtd_hours_days.specs.declared.yearly_day.YearlyDay.TheVariants as yearly;
ghost use Rattle.gtd_hours_ranges.specs.Days.{AreDates, AreDays, IsDaysOf, easter_place};
ghost use Rattle.gtd_hours_ranges.specs.declared.days.RangeDays.{RangeDays};

use crate::dates::{date_in, last_date};
use crate::ends::end_of;
use crate::written::{WrittenEnd, WrittenRange};
use gtd_hours::{Dated, End, Moving, Selector};
use gtd_hours_days::{EasterRange, YearlyDay};

/// The days of a range.
#[derive(Clone, Copy, Debug, PartialEq, Eq)]
pub enum RangeDays {
    /// Days that are known over all time: of each year, or dates if years are written.
    Always(Selector),
    /// Days of each year to or from Easter, which are known in some years alone.
    Easter(EasterRange),
}

// From one date or place to another, each year.
fn moving_of(first: End, last: End) -> Option<RangeDays>
    ensures kept { IfSome result (AreDays None None (yearly.Calendar first) (yearly.Calendar last)) }
    ensures none { IfNone result
        ((x : RangeDays) → AreDays None None (yearly.Calendar first) (yearly.Calendar last) x → ⊥) }
{
    match Moving::new(first, last) {
        Some(range) => Some(RangeDays::Always(Selector::Moving(range))),
        None => None,
    }
}

// From one end to another, one of which is of Easter, each year.
fn easter_of(first: YearlyDay, last: YearlyDay) -> Option<RangeDays>
    ensures kept { IfSome result (AreDays None None first last) }
    ensures none { IfNone result ((x : EasterRange) → (x.first ≡ first) × (x.last ≡ last) → ⊥) }
{
    match EasterRange::new(first, last) {
        Some(range) => Some(RangeDays::Easter(range)),
        None => None,
    }
}

// From a date or a place to another end, each year.
fn from_calendar(first: End, last: YearlyDay) -> Option<RangeDays>
    ensures kept { IfSome result (AreDays None None (yearly.Calendar first) last) }
    ensures none { IfNone result ((x : RangeDays) → AreDays None None (yearly.Calendar first) last x → ⊥) }
{
    match last {
        YearlyDay::Calendar(end) => moving_of(first, end),
        YearlyDay::Easter(offset) => easter_of(
            YearlyDay::Calendar(first),
            YearlyDay::Easter(offset),
        ),
    }
}

// From one end to another, each year.
fn yearly_of(first: YearlyDay, last: YearlyDay) -> Option<RangeDays>
    ensures kept { IfSome result (AreDays None None first last) }
    ensures none { IfNone result ((x : RangeDays) → AreDays None None first last x → ⊥) }
{
    match first {
        YearlyDay::Calendar(end) => from_calendar(end, last),
        YearlyDay::Easter(offset) => easter_of(YearlyDay::Easter(offset), last),
    }
}

// From one end in a year to another.
fn dates_of(year: u16, last_year: Option<u16>, first: YearlyDay, last: YearlyDay) -> Option<Dated>
    ensures kept { IfSome result (AreDates year last_year first last) }
    ensures none { IfNone result ((x : Dated) → AreDates year last_year first last x → ⊥) }
{
    match date_in(first, year) {
        Some(first_date) => match last_date(last_year, last, year, first_date) {
            Some(last_date) => Dated::new(first_date, last_date),
            None => None,
        },
        None => None,
    }
}

// From one end to another, with the years that are written.
fn days_between(
    year: Option<u16>,
    last_year: Option<u16>,
    first: YearlyDay,
    last: YearlyDay,
) -> Option<RangeDays>
    ensures kept { IfSome result (AreDays year last_year first last) }
    ensures none { IfNone result ((x : RangeDays) → AreDays year last_year first last x → ⊥) }
{
    match year {
        None => match last_year {
            None => yearly_of(first, last),
            Some(_) => None,
        },
        Some(year) => match dates_of(year, last_year, first, last) {
            Some(dates) => Some(RangeDays::Always(Selector::Dated(dates))),
            None => None,
        },
    }
}

/// The days of a range. `None` exactly if it is none: the order of its ends is not the same in each year, an end is 29 February
/// each year, the last date comes before the first or more than 36,599 days later, or a day is out of the years 1800 to 2799.
/// Takes no memory.
pub fn days_of(range: WrittenRange) -> Option<RangeDays>
    ensures kept { IfSome result (IsDaysOf range) }
    ensures none { IfNone result ((x : RangeDays) → IsDaysOf range x → ⊥) }
{
    match end_of(range.first) {
        Some(first) => match end_of(range.last) {
            Some(last) => days_between(range.year, range.last_year, first, last),
            None => None,
        },
        None => None,
    }
}

/// Where the first Easter of a range stands, if an end is of Easter. Takes no memory.
pub fn easter_place(first: WrittenEnd, last: WrittenEnd) -> usize
    ensures place { result ≡ easter_place first last }
{
    match first {
        WrittenEnd::Easter { from, .. } => from,
        _ => match last {
            WrittenEnd::Easter { from, .. } => from,
            _ => 0,
        },
    }
}
