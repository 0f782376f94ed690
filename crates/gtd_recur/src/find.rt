//! The days on which a start begins, found forwards and backwards.

ghost use Rattle.std.specs.Prelude.{◌≡◌, ◌+ℤ◌, ◌≤ℤ◌, ◌<ℤ◌, ◌≤◌, ℤ, pos, neg_ℤ, true, false, Some, None, IfSome};
ghost use Rattle.std.specs.Int.{IsInRange};
ghost use Rattle.gtd_core.specs.Limits.{horizons_end, first_window_day};
ghost use Rattle.gtd_core.specs.Ranges.{IsStart};
ghost use Rattle.gtd_calendar.specs.Calendar.{weekday_of};
ghost use Rattle.gtd_calendar.specs.ComputedDates.{day_of_month, week_year_of};
ghost use Rattle.gtd_calendar.specs.ComputedFields.{day_fields};
ghost use Rattle.gtd_recur.specs.Asked.{IsByWeekday};
ghost use Rattle.gtd_recur.specs.Begins as spec;
ghost use Rattle.gtd_recur.specs.Jumps as jumps;
ghost use Rattle.gtd_recur.specs.Jumps.{IsFirstBegun, IsLastBegun, IsLastOfWeek, IsMissed, IsMissedBack, IsNextOfWeek};

use crate::begin::{asks_no_date, gives_clock, gives_day, is_weekday, unfit_fields};
use crate::jump::{earlier, later};
use gtd_calendar::{day_of, weekday};
use gtd_core::StartParts;

/// The first day on which the start begins, from a given day on and before an end; or the end. No date is computed of a
/// day that a weekday, a week, a place in the month or a day of the month excludes.
///
/// A function of its own, so that starts that need no date do not pay for it.
#[inline(never)]
pub(crate) fn next_begun(start: &StartParts, day: i64, end: i64) -> i64
    requires valid { IsStart start.now }
    requires day_in { first_window_day ≤ℤ day }
    requires order { day ≤ℤ end }
    requires end_in { end ≤ℤ horizons_end }
    ensures first { IsFirstBegun start.now day end result }
{
    let mut found = day;
    while found < end {
        let Some(next) = next_left(start, found, end) else {
            return found;
        };
        found = earlier(next, end);
    }
    found
}

/// The same for a start that needs no date: the weekday alone decides whether it begins on a day.
pub(crate) fn next_weekday(start: &StartParts, day: i64, end: i64) -> i64
    requires asks { IsByWeekday start.now }
    requires day_in { first_window_day ≤ℤ day }
    requires order { day ≤ℤ end }
    requires end_in { end ≤ℤ horizons_end }
    ensures first { IsFirstBegun start.now day end result }
{
    let mut found = day;
    let mut of_week = weekday(day);
    while found < end {
        if is_weekday(start, of_week) {
            return found;
        }
        found += 1;
        of_week = weekday_after(of_week);
    }
    found
}

// The weekday of the day after one of this weekday.
fn weekday_after(weekday: u8) -> u8
    requires weekday_in { IsInRange 1 7 weekday }
    ensures next { (n : ℤ) → weekday ≡ weekday_of n → result ≡ weekday_of (n +ℤ pos 1) }
    ensures bound { IsInRange 1 7 result }
{
    if weekday == 7 { 1 } else { weekday + 1 }
}

/// The last day on which the start begins, before an end and not below a lowest day; or the day before the lowest.
pub(crate) fn last_begun(start: &StartParts, low: i64, end: i64) -> i64
    requires valid { IsStart start.now }
    requires low_in { first_window_day ≤ℤ low }
    requires order { low ≤ℤ end }
    requires end_in { end ≤ℤ horizons_end }
    ensures last { IsLastBegun start.now low end result }
{
    let mut found = end - 1;
    while low <= found {
        let Some(before) = last_left(start, low, found) else {
            return found;
        };
        found = later(before, low - 1);
    }
    found
}

// The next day after a given one that the start does not exclude at once; `None` if the start begins on the given day.
fn next_left(start: &StartParts, day: i64, end: i64) -> Option<i64>
    requires valid { IsStart start.now }
    requires day_in { first_window_day ≤ℤ day }
    requires order { day <ℤ end }
    requires end_in { end ≤ℤ horizons_end }
    ensures missed { IsMissed start.now day end result }
{
    if !weekday_fits(start, weekday(day)) {
        return Some(day + 1);
    }
    let fields = match unfit_fields(start, day) {
        None => return None,
        Some(fields) => fields,
    };
    match start.week {
        Some(week) => Some(next_in_week(start, week, fields.week_year, day, end)),
        None => Some(next_in_month(start, fields.day, day)),
    }
}

// The last day before a given one that the start does not exclude at once; `None` if the start begins on the given day.
fn last_left(start: &StartParts, low: i64, day: i64) -> Option<i64>
    requires valid { IsStart start.now }
    requires low_in { first_window_day ≤ℤ low }
    requires order { low ≤ℤ day }
    requires day_in { day <ℤ horizons_end }
    ensures missed { IsMissedBack start.now low day result }
{
    if !weekday_fits(start, weekday(day)) {
        return Some(day - 1);
    }
    if asks_no_date(start) {
        return None;
    }
    let fields = match unfit_fields(start, day) {
        None => return None,
        Some(fields) => fields,
    };
    match start.week {
        Some(week) => Some(last_in_week(start, week, fields.week_year, low, day)),
        None => Some(last_in_month(start, fields.day, day)),
    }
}

// Whether a place in the month is of this weekday, if it is given.
fn place_on(given: Option<(u8, u8)>, weekday: u8) -> bool
    ensures { result ≡ jumps.place_on given weekday }
{
    match given {
        Some((_, day)) => day == weekday,
        None => true,
    }
}

// Whether the start can begin on a day of this weekday.
fn weekday_fits(start: &StartParts, weekday: u8) -> bool
    requires { IsInRange 1 7 weekday }
    ensures { result ≡ jumps.weekday_fits start.now weekday }
{
    is_weekday(start, weekday)
        && place_on(start.nth, weekday)
        && place_on(start.nth_back, weekday)
        && (start.week.is_none() || gives_day(start) || gives_clock(start) || weekday == 2)
}

// The Monday of a week of ISO 8601, or `None` if its year is not from 1800 to 2799. Day 0 was a Thursday, so each
// seventh day from it is one. The first Thursday of a year is in week 1.
fn monday_of(year: i64, week: u8) -> Option<i64>
    requires week_in { IsInRange 1 53 week }
    ensures monday { jumps.IsMonday year week result }
    ensures bound { IfSome result (λ monday. (neg_ℤ (pos 62_200) ≤ℤ monday) × (monday ≤ℤ pos 304_000)) }
{
    let first = day_of(year, 1, 1)?;
    Some(7 * ((first + 6).div_euclid(7) + i64::from(week) - 1) - 3)
}

// The next day after a given one that is in a week of a year, if there is one.
fn next_of_week(year: i64, week: u8, day: i64) -> Option<i64>
    requires week_in { IsInRange 1 53 week }
    requires low { first_window_day ≤ℤ day }
    requires high { day ≤ℤ horizons_end }
    ensures next { IsNextOfWeek year week day result }
{
    let Some(monday) = monday_of(year, week) else {
        return None;
    };
    if day >= monday + 6 {
        return None;
    }
    Some(later(monday, day + 1))
}

// The last day before a given one that is in a week of a year, if there is one.
fn last_of_week(year: i64, week: u8, day: i64) -> Option<i64>
    requires week_in { IsInRange 1 53 week }
    requires low { first_window_day ≤ℤ day }
    requires high { day ≤ℤ horizons_end }
    ensures last { IsLastOfWeek year week day result }
{
    let Some(monday) = monday_of(year, week) else {
        return None;
    };
    if day <= monday {
        return None;
    }
    Some(earlier(monday + 6, day - 1))
}

// The next day after a given one that neither the start's week nor its year, if given, excludes; or the end. The given day
// is in a week of the year `of`.
fn next_in_week(start: &StartParts, week: u8, of: i64, day: i64, end: i64) -> i64
    requires week { start.now.week ≡ Some week }
    requires week_in { IsInRange 1 53 week }
    requires of { of ≡ week_year_of day }
    requires day_in { first_window_day ≤ℤ day }
    requires order { day <ℤ end }
    requires end_in { end ≤ℤ horizons_end }
    ensures later { day <ℤ result }
    ensures none { (n : ℤ) → day <ℤ n → n <ℤ result → n <ℤ end → spec.begins_on start.now (day_fields n) ≡ false }
{
    match start.year {
        Some(year) => next_of_week(i64::from(year), week, day).unwrap_or(end),
        None => match next_of_week(of, week, day) {
            Some(next) => next,
            None => next_of_week(of + 1, week, day).unwrap_or(end),
        },
    }
}

// The last day before a given one that neither the start's week nor its year, if given, excludes; or the day before the
// lowest. The given day is in a week of the year `of`.
fn last_in_week(start: &StartParts, week: u8, of: i64, low: i64, day: i64) -> i64
    requires week { start.now.week ≡ Some week }
    requires week_in { IsInRange 1 53 week }
    requires of { of ≡ week_year_of day }
    requires low_in { first_window_day ≤ℤ low }
    requires order { low ≤ℤ day }
    requires day_in { day <ℤ horizons_end }
    ensures earlier { result <ℤ day }
    ensures none { (n : ℤ) → low ≤ℤ n → result <ℤ n → n <ℤ day → spec.begins_on start.now (day_fields n) ≡ false }
{
    match start.year {
        Some(year) => last_of_week(i64::from(year), week, day).unwrap_or(low - 1),
        None => match last_of_week(of, week, day) {
            Some(last) => last,
            None => last_of_week(of - 1, week, day).unwrap_or(day - 1),
        },
    }
}

// The days of a month on which the start can begin, from the first to the last.
fn month_days(start: &StartParts) -> (u8, u8)
    requires valid { IsStart start.now }
    requires no_week { start.now.week ≡ None }
    ensures within { (n : ℤ) → spec.begins_on start.now (day_fields n) ≡ true
        → (result.0 ≤ (day_fields n).day) × ((day_fields n).day ≤ result.1) }
    ensures bound { (1 ≤ result.0) × (result.0 ≤ 36) × (result.1 ≤ 36) }
{
    if let Some(day) = start.day {
        return (day, day);
    }
    if let Some((n, _)) = start.nth {
        return (7 * n - 6, 7 * n);
    }
    if let Some((n, _)) = start.nth_back {
        return (29 - 7 * n.min(4), 38 - 7 * n);
    }
    if gives_day(start) || gives_clock(start) {
        return (1, 31);
    }
    (1, 1)
}

// The next day after a given one that may be one of the days of a month on which the start can begin. No month has fewer
// than 28 days.
fn next_in_month(start: &StartParts, of_month: u8, day: i64) -> i64
    requires valid { IsStart start.now }
    requires no_week { start.now.week ≡ None }
    requires of_month { of_month ≡ day_of_month day }
    requires low { first_window_day ≤ℤ day }
    requires high { day ≤ℤ horizons_end }
    ensures later { day <ℤ result }
    ensures none { (n : ℤ) → day <ℤ n → n <ℤ result → spec.begins_on start.now (day_fields n) ≡ false }
{
    let (first, last) = month_days(start);
    if of_month < first {
        return day + i64::from(first - of_month);
    }
    if of_month < last {
        return day + 1;
    }
    later(day + 28 + i64::from(first) - i64::from(of_month), day + 1)
}

// The last day before a given one that may be one of the days of a month on which the start can begin.
fn last_in_month(start: &StartParts, of_month: u8, day: i64) -> i64
    requires valid { IsStart start.now }
    requires no_week { start.now.week ≡ None }
    requires of_month { of_month ≡ day_of_month day }
    requires low { first_window_day ≤ℤ day }
    requires high { day ≤ℤ horizons_end }
    ensures earlier { result <ℤ day }
    ensures none { (n : ℤ) → result <ℤ n → n <ℤ day → spec.begins_on start.now (day_fields n) ≡ false }
{
    let (first, last) = month_days(start);
    if of_month > last {
        return day - i64::from(of_month - last);
    }
    if of_month > first {
        return day - 1;
    }
    earlier(day - 28 - i64::from(of_month) + i64::from(last), day - 1)
}
