//! When a start begins: which days fit it, and at which seconds of a day its clock fits.

ghost use Rattle.std.specs.Prelude.{◌≡◌, ◌<◌, ◌↔◌, true, false, IsTrue, MatchOption};
ghost use Rattle.gtd_calendar.specs.Calendar.{IsCalendarDay};
ghost use Rattle.gtd_calendar.specs.ComputedFields.{day_fields};
ghost use Rattle.std.specs.Int.{IsInRange};
ghost use Rattle.gtd_core.specs.Ranges.{IsStart, IsWithin};
ghost use Rattle.gtd_recur.specs.Begins as spec;
ghost use Rattle.gtd_recur.specs.ClockSearch as clock;
ghost use Rattle.gtd_recur.specs.Weekly.{AsksNoDate};
ghost use Rattle.gtd_core.specs.Limits.{day_seconds};

use gtd_calendar::{DayFields, fields, weekday};
use gtd_core::StartParts;

// A field that is given has this value.
fn agrees(given: Option<u8>, value: u8) -> bool
    ensures { result ≡ spec.agrees given value }
{
    given.is_none_or(|x| x == value)
}

// The same; a field that is not given is free if a finer one is given, and otherwise at its least.
fn agrees_or_least(given: Option<u8>, finer: bool, least: u8, value: u8) -> bool
    ensures { result ≡ spec.agrees_or_least given finer least value }
{
    match given {
        Some(x) => x == value,
        None => finer || least == value,
    }
}

/// Whether a field of the day's level is given.
pub(crate) fn gives_day(start: &StartParts) -> bool
    ensures { result ≡ spec.gives_day start.now }
{
    start.day.is_some() || start.nth.is_some() || start.nth_back.is_some() || start.weekdays != 0
}

/// Whether a field of the clock is given.
pub(crate) fn gives_clock(start: &StartParts) -> bool
    ensures { result ≡ spec.gives_clock start.now }
{
    start.hour.is_some() || start.minute.is_some() || start.second.is_some()
}

// The year of the week if a week is given, and otherwise that of the date.
fn year_agrees(start: &StartParts, day: &DayFields) -> bool
    ensures { result ≡ spec.year_agrees start.now day.now }
{
    let year = if start.week.is_some() {
        day.week_year
    } else {
        day.year
    };
    match start.year {
        Some(given) => i64::from(given) == year,
        None => true,
    }
}

// A place in the month, if it is given, is this one.
fn place_agrees(given: Option<(u8, u8)>, nth: u8, weekday: u8) -> bool
    ensures { result ≡ spec.place_agrees given nth weekday }
{
    match given {
        Some((n, day)) => n == nth && day == weekday,
        None => true,
    }
}

/// Whether the weekday is one of those that are given.
pub(crate) fn is_weekday(start: &StartParts, weekday: u8) -> bool
    requires { IsInRange 1 7 weekday }
    ensures { result ≡ spec.is_weekday start.now weekday }
{
    start.weekdays == 0 || (start.weekdays >> (weekday - 1)) % 2 == 1
}

// If no field of the day or the clock is given, the day must be the Monday if a week is given, and otherwise the first
// of a month.
fn least_day(start: &StartParts, day: &DayFields) -> bool
    ensures { result ≡ spec.least_day start.now day.now }
{
    if gives_day(start) || gives_clock(start) {
        return true;
    }
    if start.week.is_some() {
        day.weekday == 2
    } else {
        day.day == 1
    }
}

/// Whether the fields of a day fit the start.
pub(crate) fn begins_on(start: &StartParts, day: &DayFields) -> bool
    requires { IsInRange 1 7 day.now.weekday }
    ensures { result ≡ spec.begins_on start.now day.now }
{
    let finer_than_month = start.week.is_some() || gives_day(start) || gives_clock(start);
    year_agrees(start, day)
        && agrees_or_least(start.month, finer_than_month, 1, day.month)
        && agrees(start.week, day.week)
        && agrees(start.day, day.day)
        && place_agrees(start.nth, day.nth, day.weekday)
        && place_agrees(start.nth_back, day.nth_back, day.weekday)
        && is_weekday(start, day.weekday)
        && least_day(start, day)
}

/// Whether the weekday of a day alone decides whether it fits the start.
pub(crate) fn asks_no_date(start: &StartParts) -> bool
    ensures { IsTrue result ↔ AsksNoDate start.now }
{
    start.year.is_none()
        && start.month.is_none()
        && start.week.is_none()
        && start.day.is_none()
        && start.nth.is_none()
        && start.nth_back.is_none()
        && (start.weekdays != 0 || gives_clock(start))
}

/// The fields of a day that does not fit the start, or `None` if it fits. The fields of a day are read here and nowhere else;
/// those who look for a day of a start count the days that they look at.
#[inline(always)]
pub(crate) fn unfit_fields(start: &StartParts, day: i64) -> Option<DayFields>
    requires day { IsCalendarDay day }
    ensures fields { MatchOption result (spec.begins_on start.now (day_fields day) ≡ true)
        (λ found. (found ≡ day_fields day) × (spec.begins_on start.now (day_fields day) ≡ false)) }
{
    let fields = fields(day);
    if begins_on(start, &fields) {
        return None;
    }
    Some(fields)
}

/// Whether a day fits the start. Its date is computed only if its weekday does not decide that.
pub(crate) fn begins_on_day(start: &StartParts, day: i64) -> bool
    requires { IsCalendarDay day }
    ensures { result ≡ spec.begins_on start.now (day_fields day) }
{
    if !is_weekday(start, weekday(day)) {
        return false;
    }
    asks_no_date(start) || unfit_fields(start, day).is_none()
}

// The value that a level of the clock must have, unless it is free.
fn held(given: Option<u8>, finer: bool) -> Option<u32>
    ensures { result ≡ clock.held given finer }
{
    match given {
        Some(x) => Some(u32::from(x)),
        None if finer => None,
        None => Some(0),
    }
}

// The greatest number of sixties that, with an offset, stays within a limit.
fn sixties_within(limit: u32, offset: u32) -> Option<u32>
    ensures { clock.IsSixtiesWithin limit offset result }
{
    if limit < offset {
        None
    } else {
        Some((limit - offset) / 60)
    }
}

// The last minute up to a given one whose place in its hour fits. Minutes are counted from midnight.
fn latest_minute(minute: Option<u32>, limit: u32) -> Option<u32>
    requires minute_in { IsWithin 0 59 minute }
    requires limit_in { limit < 1440 }
    ensures { clock.IsLastPassing (clock.minute_fits minute) limit result }
{
    match minute {
        Some(minute) => {
            let hours = sixties_within(limit, minute)?;
            Some(60 * hours + minute)
        }
        None => Some(limit),
    }
}

// The last second of a day, up to one of its seconds, with these values of the clock.
fn latest_clock(hour: Option<u32>, minute: Option<u32>, second: u32, limit: u32) -> Option<u32>
    requires hour_in { IsWithin 0 23 hour }
    requires minute_in { IsWithin 0 59 minute }
    requires second_in { second < 60 }
    requires limit_in { limit < day_seconds }
    ensures { clock.IsLastPassing (clock.shows hour minute second) limit result }
{
    let within = sixties_within(limit, second)?;
    let minutes = latest_minute(minute, within)?;
    let hours = minutes / 60;
    match hour {
        Some(hour) if hours > hour => Some(3600 * hour + 60 * minute.unwrap_or(59) + second),
        Some(hour) if hours < hour => None,
        _ => Some(60 * minutes + second),
    }
}

/// The latest second of a day, up to a limit, at which the start begins.
pub(crate) fn latest_begin(start: &StartParts, limit: u32) -> Option<u32>
    requires valid { IsStart start.now }
    requires limit_in { limit < day_seconds }
    ensures { clock.IsLatestBegin start.now limit result }
{
    let finer_than_minute = start.second.is_some();
    let finer_than_hour = start.minute.is_some() || finer_than_minute;
    let hour = held(start.hour, finer_than_hour);
    let minute = held(start.minute, finer_than_minute);
    let second = u32::from(start.second.unwrap_or(0));
    latest_clock(hour, minute, second, limit)
}
