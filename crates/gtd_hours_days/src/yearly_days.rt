//! The day of a year that a day of each year is.

ghost use Rattle.std.specs.Prelude.{◌≡◌, ◌≤◌, ◌+ℤ◌, ◌-ℤ◌, ◌≤ℤ◌, neg_ℤ, true, pos};
ghost use Rattle.gtd_hours.specs.Moving.{IsEndIn, is_yearly};
ghost use Rattle.gtd_hours.specs.declared.places.End.TheVariants as end;
ghost use Rattle.gtd_hours_holidays.specs.Easter.{IsEaster};
ghost use Rattle.gtd_hours_days.specs.EasterRanges.{IsDayIn, has_each_year};

use crate::additions::plus;
use crate::offset::Offset;
use crate::yearly_day::YearlyDay;
use gtd_calendar::day_of;
use gtd_hours::{End, MonthDay, MonthPlace};
use gtd_hours_holidays::easter;

// The calendar repeats after four hundred years, which have so many days.
const DAYS_OF_400_YEARS: i64 = 146_097;

// The day of a date.
fn date_in(date: MonthDay, year: u16) -> i64
    requires year { (1800 ≤ year) × (year ≤ 2799) }
    requires yearly { is_yearly (end.Date date) ≡ true }
    ensures { IsEndIn (end.Date date) (pos year) result }
{
    match day_of(i64::from(year), date.month, date.day) {
        Some(day) => day,
        None => unreachable!(),
    }
}

// The day of a place, in a year such that it is one of the calendar.
fn place_within(place: MonthPlace, year: u16) -> i64
    requires { (1801 ≤ year) × (year ≤ 2798) }
    ensures day { IsEndIn (end.Place place) (pos year) result }
    ensures range { (neg_ℤ (pos 70000) ≤ℤ result) × (result ≤ℤ pos 310000) }
{
    match place.in_year(year) {
        Some(date) => date.day_number(),
        None => unreachable!(),
    }
}

fn four_hundred_years_before(day: i64) -> i64
    requires { (neg_ℤ (pos 70000) ≤ℤ day) × (day ≤ℤ pos 310000) }
    ensures { result ≡ day -ℤ pos 146_097 }
{
    day - DAYS_OF_400_YEARS
}

fn four_hundred_years_after(day: i64) -> i64
    requires { (neg_ℤ (pos 70000) ≤ℤ day) × (day ≤ℤ pos 310000) }
    ensures { result ≡ day +ℤ pos 146_097 }
{
    day + DAYS_OF_400_YEARS
}

// The day of a place. It may be before or after all days of the calendar, so it is found four hundred years later or earlier.
fn place_in(place: MonthPlace, year: u16) -> i64
    requires { (1800 ≤ year) × (year ≤ 2799) }
    ensures { IsEndIn (end.Place place) (pos year) result }
{
    if year < 2300 {
        four_hundred_years_before(place_within(place, year + 400))
    } else {
        four_hundred_years_after(place_within(place, year - 400))
    }
}

// The day of a date or a place.
fn end_in(end: End, year: u16) -> i64
    requires year { (1800 ≤ year) × (year ≤ 2799) }
    requires yearly { is_yearly end ≡ true }
    ensures { IsEndIn end (pos year) result }
{
    match end {
        End::Date(date) => date_in(date, year),
        End::Place(place) => place_in(place, year),
    }
}

/// The day so many days after Easter Sunday of a year.
pub(crate) fn after_easter(year: u16, offset: Offset) -> i64
    requires { (1800 ≤ year) × (year ≤ 2799) }
    ensures { IsEaster year (result -ℤ offset.days) }
{
    plus(easter(year), offset)
}

/// The day of a year that a day of each year is.
pub(crate) fn day_in(day: YearlyDay, year: u16) -> i64
    requires year { (1800 ≤ year) × (year ≤ 2799) }
    requires yearly { has_each_year day ≡ true }
    ensures { IsDayIn day year result }
{
    match day {
        YearlyDay::Calendar(end) => end_in(end, year),
        YearlyDay::Easter(offset) => after_easter(year, offset),
    }
}
