//! The days of ends of ranges that move.

ghost use Rattle.std.specs.Prelude.{◌≡◌, ◌+◌, ◌-◌, ◌*◌, ◌%◌, ◌≤◌, true, pos, neg_ℤ, ◌≤ℤ◌};
ghost use Rattle.gtd_calendar.specs.Calendar.{IsCalendarDay, IsCalendarYear, day_number, month_length};
ghost use Rattle.gtd_hours.specs.Moving.{day_from, is_place, is_yearly};
ghost use Rattle.gtd_hours.specs.Ranges.{IsWeekday, IsYearDate};
ghost use Rattle.gtd_hours.specs.ComputedPlaces.{end_day, place_day};
ghost use Rattle.gtd_hours.specs.declared.places.End.TheVariants as end;

use crate::hours::{MonthDay, YearDate};
use crate::places::{End, MonthPlace};
use gtd_calendar::{day_of, fields, is_calendar_day, weekday};

// How many days a month has.
fn length_of_month(year: u16, month: u8) -> u8
    ensures { result ≡ month_length (pos year) month }
{
    match month {
        2 => {
            if year % 4 == 0 && (year % 100 != 0 || year % 400 == 0) {
                29
            } else {
                28
            }
        }
        4 | 6 | 9 | 11 => 30,
        _ => 31,
    }
}

// The day of a date.
fn date_day(year: u16, month: u8, day: u8) -> i64
    requires { IsYearDate year month day }
    ensures value { result ≡ day_number (pos year) month day }
    ensures near { IsCalendarDay result }
{
    match day_of(i64::from(year), month, day) {
        Some(day) => day,
        None => unreachable!(),
    }
}

// The days from one weekday to the next other one, and so many weeks.
fn days_between(from: u8, to: u8, weeks: u8) -> i64
    requires from_in { IsWeekday from }
    requires to_in { IsWeekday to }
    requires few { weeks ≤ 3 }
    ensures value { result ≡ pos ((to + 7 - from) % 7 + 7 * weeks) }
    ensures range { (pos 0 ≤ℤ result) × (result ≤ℤ pos 27) }
{
    i64::from((to + 7 - from) % 7 + 7 * weeks)
}

// The day of a place in its month, without the days after or before it.
#[tactic(auto, unfolding(crate::specs::ComputedPlaces::place_day))]
fn place_day(place: MonthPlace, year: u16) -> i64
    requires { IsCalendarYear (pos year) }
    ensures value { result ≡ place_day place.place.is_back place.place.place.weekday place.place.place.number (pos year)
        place.month }
    ensures near { (neg_ℤ (pos 63000) ≤ℤ result) × (result ≤ℤ pos 304000) }
{
    let of_week = place.place.place.weekday;
    let weeks = place.place.place.number - 1;
    if place.place.is_back {
        let last = date_day(year, place.month, length_of_month(year, place.month));
        return last - days_between(of_week, weekday(last), weeks);
    }
    let first = date_day(year, place.month, 1);
    first + days_between(weekday(first), of_week, weeks)
}

// So many days after a day, or before it.
fn day_from(is_before: bool, days: u8, day: i64) -> i64
    requires near { (neg_ℤ (pos 63000) ≤ℤ day) × (day ≤ℤ pos 304000) }
    ensures value { result ≡ day_from is_before days day }
    ensures range { (neg_ℤ (pos 64000) ≤ℤ result) × (result ≤ℤ pos 305000) }
{
    if is_before {
        day - i64::from(days)
    } else {
        day + i64::from(days)
    }
}

// The day of a place in a year.
fn moved_day(place: MonthPlace, year: u16) -> i64
    requires { IsCalendarYear (pos year) }
    ensures value { result ≡ end_day (end.Place place) (pos year) }
    ensures range { (neg_ℤ (pos 64000) ≤ℤ result) × (result ≤ℤ pos 305000) }
{
    day_from(
        place.place.is_before,
        place.place.days,
        place_day(place, year),
    )
}

fn short(year: i64) -> u16
    requires { IsCalendarYear year }
    ensures { pos result ≡ year }
{
    year as u16
}

// The date of a day.
fn date_of(day: i64) -> YearDate
    requires { IsCalendarDay day }
    ensures { day_number (pos result.year) result.month result.day ≡ day }
{
    let date = fields(day);
    YearDate {
        year: short(date.year),
        month: date.month,
        day: date.day,
    }
}

impl MonthPlace {
    ghost use Rattle.std.specs.Prelude.{◌≡◌, ◌↔◌, ℤ, pos, IfSome, IsSome};
    ghost use Rattle.gtd_calendar.specs.Calendar.{IsCalendarDay, IsCalendarYear, day_number};
    ghost use Rattle.gtd_hours.specs.Moving.{IsEndIn};
    ghost use Rattle.gtd_hours.specs.declared.places.End.TheVariants as end;

    /// The date of this day in a year from 1800 to 2799. `None` exactly if days after or before the place lead out of these
    /// years.
    pub fn in_year(self, year: u16) -> Option<YearDate>
        requires { IsCalendarYear (pos year) }
        ensures day { IfSome result (λ d. IsEndIn (end.Place self) (pos year) (day_number (pos d.year) d.month d.day)) }
        ensures accepted { IsSome result ↔ ((n : ℤ) × IsEndIn (end.Place self) (pos year) n × IsCalendarDay n) }
    {
        let day = moved_day(self, year);
        if is_calendar_day(day) {
            Some(date_of(day))
        } else {
            None
        }
    }
}

/// Whether an end moves from year to year.
pub(crate) fn is_place(end: End) -> bool
    ensures { result ≡ is_place end }
{
    match end {
        End::Date(_) => false,
        End::Place(_) => true,
    }
}

/// Whether each year has an end.
pub(crate) fn is_yearly(end: End) -> bool
    ensures { result ≡ is_yearly end }
{
    match end {
        End::Date(date) => date.month != 2 || date.day != 29,
        End::Place(_) => true,
    }
}

fn month_day(date: MonthDay, year: u16) -> i64
    requires year { IsCalendarYear (pos year) }
    requires yearly { is_yearly (end.Date date) ≡ true }
    ensures value { result ≡ day_number (pos year) date.month date.day }
    ensures range { (neg_ℤ (pos 64000) ≤ℤ result) × (result ≤ℤ pos 305000) }
{
    date_day(year, date.month, date.day)
}

/// The day of an end in a year.
pub(crate) fn end_day(end: End, year: u16) -> i64
    requires year { IsCalendarYear (pos year) }
    requires yearly { is_yearly end ≡ true }
    ensures value { result ≡ end_day end (pos year) }
{
    match end {
        End::Date(date) => month_day(date, year),
        End::Place(place) => moved_day(place, year),
    }
}
