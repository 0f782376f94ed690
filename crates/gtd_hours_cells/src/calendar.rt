//! Dates of each year, and days.

ghost use Rattle.std.specs.Prelude.{◌≡◌, ◌↔◌, pos, IsSome, IfSome};
ghost use Rattle.gtd_hours_cells.specs.Dates.{IsShortYear, IsYearlyDate};
ghost use Rattle.gtd_hours_cells.specs.Dates as spec;

use crate::cell::{Date, DateRange, Days, EACH_DAY, Numbers, Once, Yearly};
use gtd_calendar::{DayFields, day_of, fields, is_calendar_day};

/// How many days a month has in leap years.
pub fn longest(month: u8) -> u8
    ensures days { result ≡ spec.longest month }
{
    match month {
        2 => 29,
        4 | 6 | 9 | 11 => 30,
        _ => 31,
    }
}

/// The fields of a day, if the calendar has it.
pub fn fields_of(day: i64) -> Option<DayFields> {
    if is_calendar_day(day) {
        Some(fields(day))
    } else {
        None
    }
}

/// The date of a day.
pub fn date_of(day: i64) -> Option<Date> {
    let fields = fields_of(day)?;
    Some(Date {
        month: fields.month,
        day: fields.day,
    })
}

/// The day of a date in a year, or 28 February for 29 February of a common year.
pub fn day_in(year: i64, date: Date) -> Option<i64> {
    match day_of(year, date.month, date.day) {
        Some(day) => Some(day),
        None => day_of(year, date.month, 28),
    }
}

/// The day of a date, before which or after which the next February has 29 days.
pub fn sample_day(date: Date) -> Option<i64> {
    let year = if date.month <= 2 { 2_024 } else { 2_023 };
    day_of(year, date.month, date.day)
}

/// The date after another in leap years, or `None` exactly if no year has the other one.
pub fn next_date(date: Date) -> Option<Date>
    ensures exists { IsSome result ↔ IsYearlyDate date }
    ensures next { IfSome result (λ next. next ≡ spec.next_date date) }
{
    let is_month = 1 <= date.month && date.month <= 12;
    if !is_month || date.day < 1 || date.day > longest(date.month) {
        return None;
    }
    Some(date_after(date))
}

fn date_after(date: Date) -> Date
    requires { IsYearlyDate date }
    ensures { result ≡ spec.next_date date }
{
    if date.day < longest(date.month) {
        return Date {
            month: date.month,
            day: date.day + 1,
        };
    }
    if date.month == 12 {
        return Date { month: 1, day: 1 };
    }
    Date {
        month: date.month + 1,
        day: 1,
    }
}

/// A year of at most four digits, or `None` exactly if the year is another one.
pub fn short_year(year: i64) -> Option<u16>
    ensures exists { IsSome result ↔ IsShortYear year }
    ensures value { IfSome result (λ short. year ≡ pos short) }
{
    if year < 0 || year > 9_999 {
        return None;
    }
    Some(year as u16)
}

/// The days from one to another.
pub fn days_once(first: i64, last: i64) -> Option<Days> {
    let begin = fields_of(first)?;
    let end = fields_of(last)?;
    let years = Numbers {
        first: short_year(begin.year)?,
        last: short_year(end.year)?,
    };
    if begin.month == 1 && begin.day == 1 && end.month == 12 && end.day == 31 {
        return Some(Days { years, ..EACH_DAY });
    }
    Some(Days {
        dates: DateRange::Once(Once { first, last }),
        ..EACH_DAY
    })
}

/// The dates of each year that the days from one to another have.
pub fn days_yearly(first: i64, last: i64) -> Option<Days> {
    if last.wrapping_sub(first) >= 365 {
        return Some(EACH_DAY);
    }
    let yearly = Yearly {
        first: date_of(first)?,
        last: date_of(last)?,
    };
    Some(Days {
        dates: DateRange::Yearly(yearly),
        ..EACH_DAY
    })
}
