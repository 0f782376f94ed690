//! The days of a year on which days that each year has are.

ghost use Rattle.std.specs.Prelude.{◌≡◌, ◌+◌, ◌-◌, ◌*◌, ◌%◌, ◌≤◌, true, pos, neg_ℤ, ◌+ℤ◌, ◌≤ℤ◌};
ghost use Rattle.gtd_calendar.specs.Calendar.{IsCalendarDay, IsCalendarYear, IsDate, day_number, month_length};
ghost use Rattle.gtd_hours_text2.specs.Dated.{is_in, is_sound, is_year};
ghost use Rattle.gtd_hours2.specs.Days.{day_in, days_to, moved, nth_weekday};

use crate::computus::easter;
use gtd_calendar::{day_of, weekday};
use gtd_hours2::{DayOffset, YearlyDay};

fn is_in(low: u16, high: u16, number: u16) -> bool
    ensures { result ≡ is_in low high number }
{
    low <= number && number <= high
}

pub(crate) fn is_year(year: u16) -> bool
    ensures { result ≡ is_year year }
{
    is_in(1800, 2799, year)
}

/// Whether months and weekdays are such.
pub(crate) fn is_sound(day: YearlyDay) -> bool
    ensures { result ≡ is_sound day }
{
    match day {
        YearlyDay::Date { month, .. } => is_in(1, 12, u16::from(month)),
        YearlyDay::NthWeekday {
            month,
            weekday,
            number,
            ..
        } => {
            is_in(1, 12, u16::from(month))
                && is_in(1, 7, u16::from(weekday))
                && is_in(1, 4, u16::from(number))
        }
        YearlyDay::Easter(_) => true,
    }
}

// How many days a month has.
pub(crate) fn length_of_month(year: u16, month: u8) -> u8
    ensures { result ≡ month_length (pos year) month }
{
    match month {
        2 => {
            if year % 4 == 0 && (year % 100 != 0 || year % 400 == 0) {
                29
            } else {
                28
            }
        }
        4 | 6 | 9 | 11 => 30,
        _ => 31,
    }
}

// The day of a date.
fn date_day(year: u16, month: u8, day: u8) -> i64
    requires year { IsCalendarYear (pos year) }
    requires date { IsDate (pos year) month day }
    ensures value { result ≡ day_number (pos year) month day }
    ensures near { IsCalendarDay result }
{
    match day_of(i64::from(year), month, day) {
        Some(day) => day,
        None => unreachable!(),
    }
}

// A day of a month, counted from its first day on.
#[tactic(auto, using(crate::proofs::CalendarFacts::from_first, crate::proofs::CalendarFacts::in_range))]
fn day_of_month(year: u16, month: u8, day: u8) -> i64
    requires year { IsCalendarYear (pos year) }
    requires month { is_in 1 12 month ≡ true }
    ensures value { result ≡ day_number (pos year) month day }
    ensures range { (neg_ℤ (pos 64000) ≤ℤ result) × (result ≤ℤ pos 305000) }
{
    date_day(year, month, 1) + i64::from(day.saturating_sub(1))
}

// The days from one weekday to the next other one, and so many weeks.
fn days_between(from: u8, to: u8, weeks: u8) -> i64
    requires from_in { (1 ≤ from) × (from ≤ 7) }
    requires to_in { (1 ≤ to) × (to ≤ 7) }
    requires few { weeks ≤ 3 }
    ensures value { result ≡ pos (days_to from to + 7 * weeks) }
    ensures range { (pos 0 ≤ℤ result) × (result ≤ℤ pos 27) }
{
    i64::from((to + 7 - from) % 7 + 7 * weeks)
}

// One of the weekdays of a month.
#[tactic(auto, using(crate::proofs::CalendarFacts::in_range))]
fn nth_day(year: u16, month: u8, of_week: u8, number: u8, is_back: bool) -> i64
    requires year { IsCalendarYear (pos year) }
    requires month { is_in 1 12 month ≡ true }
    requires weekday { is_in 1 7 of_week ≡ true }
    requires number { is_in 1 4 number ≡ true }
    ensures value { result ≡ nth_weekday is_back (pos year) month of_week number }
    ensures range { (neg_ℤ (pos 64000) ≤ℤ result) × (result ≤ℤ pos 305000) }
{
    if is_back {
        let last = date_day(year, month, length_of_month(year, month));
        return last - days_between(of_week, weekday(last), number - 1);
    }
    let first = date_day(year, month, 1);
    first + days_between(weekday(first), of_week, number - 1)
}

// So many days after a day, or before it.
fn moved(offset: DayOffset, day: i64) -> i64
    requires near { (neg_ℤ (pos 64000) ≤ℤ day) × (day ≤ℤ pos 305000) }
    ensures value { result ≡ moved offset day }
    ensures range { (neg_ℤ (pos 130000) ≤ℤ result) × (result ≤ℤ pos 371000) }
{
    if offset.is_before {
        day - i64::from(offset.days)
    } else {
        day + i64::from(offset.days)
    }
}

/// The day of a year on which the day is, numbered from 1970-01-01.
#[tactic(auto, using(crate::proofs::CalendarFacts::calendar_in, crate::proofs::CalendarFacts::year_in, crate::proofs::CalendarFacts::parts_in))]
pub(crate) fn day_in(day: YearlyDay, year: u16) -> i64
    requires year { is_year year ≡ true }
    requires sound { is_sound day ≡ true }
    ensures value { result ≡ day_in day (pos year) }
    ensures range { (neg_ℤ (pos 130000) ≤ℤ result) × (result ≤ℤ pos 371000) }
{
    match day {
        YearlyDay::Date { month, day } => day_of_month(year, month, day),
        YearlyDay::NthWeekday {
            month,
            weekday,
            number,
            is_back,
            offset,
        } => moved(offset, nth_day(year, month, weekday, number, is_back)),
        YearlyDay::Easter(offset) => moved(offset, easter(year)),
    }
}
