//! What starts and durations look like.

ghost use Rattle.std.specs.Prelude.{◌≡◌, ◌<◌, ◌↔◌, IsTrue};
ghost use Rattle.gtd_core.specs.Parts.{duration_parts};
ghost use Rattle.gtd_mistakes.specs.Shapes as spec;
ghost use Rattle.gtd_mistakes.specs.Shapes.{EndsAfterMidnight, EndsWithinDay, HasNoClock, HasNoDay, HasNoOtherDay, IsDaily};
ghost use Rattle.gtd_mistakes.specs.Shapes.{HasOneTime, IsMonthAlone, Lasts, LastsClock};

use gtd_core::limits::DAY_SECONDS;
use gtd_core::{Duration, Start, StartParts};

/// The seconds of a day.
pub(crate) const DAY: u32 = DAY_SECONDS as u32;

// The number of a field, or 0 if it is not given.
fn or_zero(field: Option<u8>) -> u32
    ensures value { result ≡ spec.or_zero field }
    ensures small { result < 256 }
{
    match field {
        Some(number) => u32::from(number),
        None => 0,
    }
}

/// The first second of a day at which the start's clock stands: fields that are not given count as 0.
pub(crate) fn begin_of(start: &StartParts) -> u32
    ensures value { result ≡ spec.begin_of start.now }
    ensures small { result < 1_000_000 }
{
    3600 * or_zero(start.hour) + 60 * or_zero(start.minute) + or_zero(start.second)
}

// The number of a field. If it is not given, the last one above a finer field, and otherwise 0.
fn or_last(field: Option<u8>, finer: bool, last: u32) -> u32
    requires few { last < 256 }
    ensures value { result ≡ spec.or_last field finer last }
    ensures small { result < 256 }
{
    match field {
        Some(number) => u32::from(number),
        None => { if finer { last } else { 0 } }
    }
}

// The last second of a day at which the start's clock stands.
fn last_begin_of(start: &StartParts) -> u32
    ensures value { result ≡ spec.last_begin_of start.now }
    ensures small { result < 1_000_000 }
{
    let hour = or_last(
        start.hour,
        start.minute.is_some() || start.second.is_some(),
        23,
    );
    let minute = or_last(start.minute, start.second.is_some(), 59);
    3600 * hour + 60 * minute + or_zero(start.second)
}

/// Whether a second is given only below a minute.
pub(crate) fn has_one_time(start: &StartParts) -> bool
    ensures { IsTrue result ↔ HasOneTime start.now }
{
    start.second.is_none() || start.minute.is_some()
}

/// Whether no field of the clock is given.
pub(crate) fn has_no_clock(start: &StartParts) -> bool
    ensures { IsTrue result ↔ HasNoClock start.now }
{
    start.hour.is_none() && start.minute.is_none() && start.second.is_none()
}

/// Whether no field of a day but weekdays is given.
pub(crate) fn has_no_other_day(start: &StartParts) -> bool
    ensures { IsTrue result ↔ HasNoOtherDay start.now }
{
    start.day.is_none() && start.nth.is_none() && start.nth_back.is_none()
}

/// Whether no field of a day is given.
pub(crate) fn has_no_day(start: &StartParts) -> bool
    ensures { IsTrue result ↔ HasNoDay start.now }
{
    start.weekdays == 0 && has_no_other_day(start)
}

/// Whether a month is given, perhaps with a year, and nothing finer.
pub(crate) fn is_month_alone(start: &StartParts) -> bool
    ensures { IsTrue result ↔ IsMonthAlone start.now }
{
    start.month.is_some() && start.week.is_none() && has_no_day(start) && has_no_clock(start)
}

/// Whether the clock alone is given, with its hour.
pub(crate) fn is_daily(start: &StartParts) -> bool
    ensures { IsTrue result ↔ IsDaily start.now }
{
    start.hour.is_some()
        && start.year.is_none()
        && start.month.is_none()
        && start.week.is_none()
        && has_no_day(start)
}

/// Whether the duration has these months, days and seconds.
pub(crate) fn lasts(duration: &Duration, months: u32, days: u32, seconds: u32) -> bool
    ensures { IsTrue result ↔ Lasts months days seconds (duration_parts duration.now) }
{
    duration.whole_months() == months
        && duration.whole_days() == days
        && duration.clock() == seconds
}

/// Whether the duration has hours, minutes and seconds alone.
pub(crate) fn lasts_clock(duration: &Duration) -> bool
    ensures { IsTrue result ↔ LastsClock (duration_parts duration.now) }
{
    duration.whole_months() == 0 && duration.whole_days() == 0
}

/// Whether each stretch ends on the day of its beginning, at midnight at the latest.
pub(crate) fn ends_within_day(start: &StartParts, duration: &Duration) -> bool
    ensures { IsTrue result ↔ EndsWithinDay start.now (duration_parts duration.now) }
{
    duration.whole_months() == 0
        && duration.whole_days() <= 1
        && duration.clock() <= DAY
        && last_begin_of(start) + DAY * duration.whole_days() + duration.clock() <= DAY
}

/// Whether each stretch, of at most a day, ends after midnight.
pub(crate) fn ends_after_midnight(start: &StartParts, duration: &Duration) -> bool
    ensures { IsTrue result ↔ EndsAfterMidnight start.now (duration_parts duration.now) }
{
    lasts_clock(duration) && duration.clock() <= DAY && DAY < begin_of(start) + duration.clock()
}
