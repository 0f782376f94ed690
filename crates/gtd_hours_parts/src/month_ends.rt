//! The first and the last day of a month of a year.

ghost use Rattle.std.specs.Prelude.{◌≡◌, ◌≤◌, ◌↔◌, pos, true};
ghost use Rattle.gtd_hours.specs.Calendar.{month_length};
ghost use Rattle.gtd_hours.specs.Ranges.{IsMonth};
ghost use Rattle.gtd_hours_parts.specs.Numbers.{IsYearNumber};
ghost use Rattle.gtd_hours_parts.specs.Pieces.{AreMonthsOfYears, first_day_of, last_day_of};

use crate::digits::Digits;
use crate::piece::{LastDate, WrittenDate};
use crate::written_dates::dates_of;
use gtd_hours::YearDate;

// How many days a month of a year has.
fn month_length(year: u16, month: u8) -> u8
    requires year { (1800 ≤ year) × (year ≤ 2799) }
    requires month { IsMonth month }
    ensures { result ≡ month_length (pos year) month }
{
    if YearDate::new(year, month, 31).is_some() {
        31
    } else if YearDate::new(year, month, 30).is_some() {
        30
    } else if YearDate::new(year, month, 29).is_some() {
        29
    } else {
        28
    }
}

/// `2024 Dec`, where a range of months begins: the first day of the month.
pub fn first_day_of(year: Digits, month: u8) -> WrittenDate
    ensures { result ≡ first_day_of year month }
{
    let day = Digits { value: 1, count: 1 };
    let year = Some(year);
    WrittenDate { year, month, day }
}

/// `2026 Mar`, where a range of months ends: the last day of the month.
pub fn last_day_of(year: Digits, month: u8) -> WrittenDate
    requires year { IsYearNumber year }
    requires month { IsMonth month }
    ensures { result ≡ last_day_of year month }
{
    let value = u16::from(month_length(year.value, month));
    let day = Digits { value, count: 2 };
    let year = Some(year);
    WrittenDate { year, month, day }
}

/// `2024 Dec-2026 Mar`: whether the last day of the second month is not before the first day of the first month, and the range
/// from one to the other has at most 36,600 days.
pub fn are_months_of_years(first: Digits, month: u8, last: Digits, last_month: u8) -> bool
    requires first { IsYearNumber first }
    requires month { IsMonth month }
    requires last { IsYearNumber last }
    ensures { (result ≡ true) ↔ AreMonthsOfYears first month last last_month }
{
    if 1 <= last_month && last_month <= 12 {
        let end = LastDate::Date(last_day_of(last, last_month));
        dates_of(first_day_of(first, month), Some(end)).is_some()
    } else {
        false
    }
}
