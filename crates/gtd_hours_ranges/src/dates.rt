//! The dates of the ends of a range.

ghost use Rattle.std.specs.Prelude.{◌≡◌, ◌+◌, ◌-ℤ◌, ◌≤◌, ◌↔◌, ◌≤ℤ◌, IfNone, IfSome, IsTrue, pos};
ghost use Rattle.gtd_calendar.specs.Calendar.{IsCalendarDay, IsCalendarYear};
ghost use Rattle.gtd_hours_holidays.specs.Easter.{IsEaster};
ghost use Rattle.gtd_hours.specs.declared.hours.YearDate.{YearDate};
ghost use Rattle.gtd_hours.specs.declared.places.End.TheVariants as end;
ghost use Rattle.gtd_hours_days.specs.declared.yearly_day.YearlyDay.TheVariants as yearly;
ghost use Rattle.gtd_hours_ranges.specs.Days.{IsDateIn, IsLastDate, IsLateDate, IsLaterDate, IsNextDate, day_of, is_earlier};
ghost use Rattle.gtd_hours_ranges.specs.Days.{next_year};

use gtd_calendar::{fields, is_calendar_day};
use gtd_hours::{End, MonthDay, MonthPlace, YearDate};
use gtd_hours_days::{Offset, YearlyDay};
use gtd_hours_holidays::easter;

// A day of a month in a year.
fn month_day_in(date: MonthDay, year: u16) -> Option<YearDate>
    ensures kept { IfSome result (IsDateIn (yearly.Calendar (end.Date date)) year) }
    ensures none { IfNone result ((x : YearDate) → IsDateIn (yearly.Calendar (end.Date date)) year x → ⊥) }
{
    YearDate::new(year, date.month, date.day)
}

// Whether a year is one of the calendar.
fn is_calendar_year(year: u16) -> bool
    ensures { IsTrue result ↔ ((1800 ≤ year) × (year ≤ 2799)) }
{
    1800 <= year && year <= 2799
}

// A place in a year.
fn place_in(place: MonthPlace, year: u16) -> Option<YearDate>
    ensures kept { IfSome result (IsDateIn (yearly.Calendar (end.Place place)) year) }
    ensures none { IfNone result ((x : YearDate) → IsDateIn (yearly.Calendar (end.Place place)) year x → ⊥) }
{
    if is_calendar_year(year) {
        place.in_year(year)
    } else {
        None
    }
}

fn small_year(year: i64) -> u16
    requires { IsCalendarYear year }
    ensures { pos result ≡ year }
{
    year as u16
}

/// The date of a day. Takes no memory.
pub fn date_of(day: i64) -> YearDate
    requires near { IsCalendarDay day }
    ensures date { day_of result ≡ day }
{
    let date = fields(day);
    match YearDate::new(small_year(date.year), date.month, date.day) {
        Some(found) => found,
        None => unreachable!(),
    }
}

// The day so many days after Easter Sunday of a year.
fn easter_day(offset: Offset, year: u16) -> i64
    requires { (1800 ≤ year) × (year ≤ 2799) }
    ensures { IsEaster year (result -ℤ offset.days) }
{
    easter(year) + offset.days
}

// So many days after Easter Sunday in a year.
fn easter_in(offset: Offset, year: u16) -> Option<YearDate>
    ensures kept { IfSome result (IsDateIn (yearly.Easter offset) year) }
    ensures none { IfNone result ((x : YearDate) → IsDateIn (yearly.Easter offset) year x → ⊥) }
{
    if !is_calendar_year(year) {
        return None;
    }
    let day = easter_day(offset, year);
    if is_calendar_day(day) {
        Some(date_of(day))
    } else {
        None
    }
}

// The date of a date or a place in a year.
fn end_in(end: End, year: u16) -> Option<YearDate>
    ensures kept { IfSome result (IsDateIn (yearly.Calendar end) year) }
    ensures none { IfNone result ((x : YearDate) → IsDateIn (yearly.Calendar end) year x → ⊥) }
{
    match end {
        End::Date(date) => month_day_in(date, year),
        End::Place(place) => place_in(place, year),
    }
}

/// The date of an end in a year, if the calendar has both.
pub(crate) fn date_in(end: YearlyDay, year: u16) -> Option<YearDate>
    ensures kept { IfSome result (IsDateIn end year) }
    ensures none { IfNone result ((x : YearDate) → IsDateIn end year x → ⊥) }
{
    match end {
        YearlyDay::Calendar(end) => end_in(end, year),
        YearlyDay::Easter(offset) => easter_in(offset, year),
    }
}

// Whether the first date is not after the other.
fn is_late(first: YearDate, date: YearDate) -> bool
    ensures { IsTrue result ↔ (day_of first ≤ℤ day_of date) }
{
    first.day_number() <= date.day_number()
}

// An end in a year, if it is not before the first date.
fn late_date(end: YearlyDay, year: u16, first: YearDate) -> Option<YearDate>
    ensures kept { IfSome result (IsLateDate end year first) }
    ensures none { IfNone result ((x : YearDate) → IsLateDate end year first x → ⊥) }
{
    match date_in(end, year) {
        Some(date) => {
            if is_late(first, date) {
                Some(date)
            } else {
                None
            }
        }
        None => None,
    }
}

// An end in a year or, if it would be before the first date there, in the next one.
fn later_date(end: YearlyDay, year: u16, first: YearDate) -> Option<YearDate>
    requires { IsCalendarYear (pos year) }
    ensures kept { IfSome result (IsLaterDate end year first) }
    ensures none { IfNone result ((x : YearDate) → IsLaterDate end year first x → ⊥) }
{
    match late_date(end, year, first) {
        Some(date) => Some(date),
        None => date_in(end, year + 1),
    }
}

// Whether a day of a month comes before a date in its year.
fn is_earlier(year: u16, date: MonthDay, first: YearDate) -> bool
    ensures { result ≡ is_earlier year date first }
{
    let key = 32 * u16::from(date.month) + u16::from(date.day);
    let first_key = 32 * u16::from(first.month) + u16::from(first.day);
    year < first.year || (year == first.year && key < first_key)
}

// The year of a last day that is written without one.
fn next_year(year: u16, date: MonthDay, first: YearDate) -> u16
    requires { IsCalendarYear (pos year) }
    ensures { result ≡ next_year year date first }
{
    if is_earlier(year, date, first) {
        year + 1
    } else {
        year
    }
}

// A last date or place that is written without a year.
fn next_end(end: End, year: u16, first: YearDate) -> Option<YearDate>
    requires { IsCalendarYear (pos year) }
    ensures kept { IfSome result (IsNextDate (yearly.Calendar end) year first) }
    ensures none { IfNone result ((x : YearDate) → IsNextDate (yearly.Calendar end) year first x → ⊥) }
{
    match end {
        End::Date(date) => month_day_in(date, next_year(year, date, first)),
        End::Place(place) => later_date(YearlyDay::Calendar(End::Place(place)), year, first),
    }
}

// A last end that is written without a year.
fn next_date(end: YearlyDay, year: u16, first: YearDate) -> Option<YearDate>
    requires { IsCalendarYear (pos year) }
    ensures kept { IfSome result (IsNextDate end year first) }
    ensures none { IfNone result ((x : YearDate) → IsNextDate end year first x → ⊥) }
{
    match end {
        YearlyDay::Calendar(end) => next_end(end, year, first),
        YearlyDay::Easter(offset) => later_date(YearlyDay::Easter(offset), year, first),
    }
}

/// The last date of a range, whose first end has a year and this date.
pub(crate) fn last_date(
    last_year: Option<u16>,
    end: YearlyDay,
    year: u16,
    first: YearDate,
) -> Option<YearDate>
    requires { IsCalendarYear (pos year) }
    ensures kept { IfSome result (IsLastDate last_year end year first) }
    ensures none { IfNone result ((x : YearDate) → IsLastDate last_year end year first x → ⊥) }
{
    match last_year {
        None => next_date(end, year, first),
        Some(last_year) => date_in(end, last_year),
    }
}
