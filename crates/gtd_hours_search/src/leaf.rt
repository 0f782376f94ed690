//! What a basic domain says, as a selector of days.

ghost use Rattle.std.specs.Prelude.{◌≡◌, ◌+◌, ◌≤◌, ℕ, Some, None, IfSome, IsSome};
ghost use Rattle.std.specs.Option.{IsSomeAnd};
ghost use Rattle.gtd_core.specs.Parts.{duration_parts, start_parts};
ghost use Rattle.gtd_core.specs.Trees.Tree.{Single};
ghost use Rattle.gtd_hours.specs.Cost.{IsOneStretch};
ghost use Rattle.gtd_hours.specs.Ranges.{IsMonth, IsWeeks, IsYears};
ghost use Rattle.gtd_hours.specs.declared.hours.MonthDay.{MonthDay};
ghost use Rattle.gtd_hours.specs.declared.hours.WeekdayPlace.{WeekdayPlace};
ghost use Rattle.gtd_hours_search.specs.Forms.{AreWeeks, AreYears, IsDayLeaf, IsMonthCount, IsStretch};

use crate::dates::{dates_from, months_from};
use crate::weekdays::weekdays_of;
use gtd_calendar::{day_of, fields, is_calendar_day};
use gtd_core::{Basic, DurationParts, StartParts};
use gtd_hours::{Dated, Selector, WeekdayPlace, Weeks, YearDate, Years};
use gtd_hours_cells::short_year;

/// The selector of the days of a basic domain, if it has the form of one. The clock is not looked at.
pub fn selector_of(basic: &Basic) -> Option<Selector>
    ensures { IsDayLeaf (Single (start_parts basic.now.start) (duration_parts basic.now.duration)) → IsSome result }
{
    let parts = basic.start.parts();
    let lasts = basic.duration.parts();
    if let Some(year) = parts.year {
        return in_year(year, parts, lasts);
    }
    if let Some(week) = parts.week {
        return from_week(u16::from(week), lasts);
    }
    if let Some(month) = parts.month {
        return from_month(month, parts.day?, lasts);
    }
    on_weekday(parts)
}

// Years from one on, or days from a date on.
fn in_year(year: u16, parts: StartParts, lasts: DurationParts) -> Option<Selector>
    ensures { (last : ℕ) → IsYears year last 1 → year + lasts.years ≡ last + 1
        → IsSomeAnd result (AreYears year last 1) }
{
    if lasts.years == 0 {
        return from_date(year, parts.month?, parts.day?, lasts.days);
    }
    let last = last_number(year, lasts.years)?;
    let years = Years::new(year, last, 1)?;
    Some(Selector::Years(years))
}

fn from_week(week: u16, lasts: DurationParts) -> Option<Selector>
    ensures { (last : ℕ) → IsWeeks week last 1 → week + lasts.weeks ≡ last + 1
        → IsSomeAnd result (AreWeeks week last 1) }
{
    let last = last_number(week, lasts.weeks)?;
    let weeks = Weeks::new(week, last, 1)?;
    Some(Selector::Weeks(weeks))
}

// The last of so many numbers from the first on.
fn last_number(first: u16, count: u32) -> Option<u16>
    ensures found { first ≤ 9999 → 1 ≤ count → count ≤ 9999 → IsSome result }
    ensures value { IfSome result (λ last. last + 1 ≡ first + count) }
{
    if first > 9_999 || count == 0 || count > 9_999 {
        return None;
    }
    Some(first + count as u16 - 1)
}

fn from_date(year: u16, month: u8, day: u8, days: u32) -> Option<Selector> {
    let first = YearDate::new(year, month, day)?;
    let begin = day_of(i64::from(year), month, day)?;
    let dated = Dated::new(first, last_date(begin, days)?)?;
    Some(Selector::Dated(dated))
}

// The date of the last of so many days from one on.
fn last_date(begin: i64, days: u32) -> Option<YearDate> {
    if !is_calendar_day(begin) || days == 0 {
        return None;
    }
    let last = begin + i64::from(days) - 1;
    if !is_calendar_day(last) {
        return None;
    }
    let date = fields(last);
    YearDate::new(short_year(date.year)?, date.month, date.day)
}

// Months of each year, or dates of each year.
fn from_month(month: u8, day: u8, lasts: DurationParts) -> Option<Selector>
    ensures months { (last : ℕ) → IsMonth month → IsMonth last → day ≡ 1 → lasts.days ≡ 0
        → IsMonthCount month last lasts.months → IsSome result }
    ensures dates { (first last : MonthDay) → month ≡ first.month → day ≡ first.day → lasts.months ≤ 12
        → IsOneStretch first last → IsStretch first last lasts.months lasts.days → IsSome result }
{
    if day == 1 && lasts.days == 0 {
        let months = months_from(month, lasts.months)?;
        return Some(Selector::Months(months));
    }
    let dates = dates_from(month, day, lasts.months, lasts.days)?;
    Some(Selector::Dates(dates))
}

// A place in the month, or weekdays.
fn on_weekday(parts: StartParts) -> Option<Selector>
    ensures nth { (x : WeekdayPlace) → parts.nth ≡ Some (x.number, x.weekday) → IsSome result }
    ensures nth_back { (x : WeekdayPlace) → parts.nth ≡ None → parts.nth_back ≡ Some (x.number, x.weekday) → IsSome result }
    ensures weekdays { parts.nth ≡ None → parts.nth_back ≡ None → IsSome result }
{
    if let Some((number, weekday)) = parts.nth {
        let place = WeekdayPlace::new(weekday, number)?;
        return Some(Selector::Nth(place));
    }
    if let Some((number, weekday)) = parts.nth_back {
        let place = WeekdayPlace::new(weekday, number)?;
        return Some(Selector::NthBack(place));
    }
    let weekdays = weekdays_of(parts.weekdays)?;
    Some(Selector::Weekdays(weekdays))
}
