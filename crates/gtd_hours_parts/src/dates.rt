//! Dates with and without a year, and ranges of them.

ghost use Rattle.std.specs.Prelude.{◌≡◌, ◌↔◌, IfSome, IsSome};
ghost use Rattle.gtd_hours_parts.specs.Dates.{EndsOn, IsDayOfYear, IsWrittenDay, last_year};
ghost use Rattle.gtd_hours_parts.specs.Numbers.{IsYearNumber};

use crate::digits::Digits;
use gtd_hours::{Dated, Dates, MonthDay, YearDate};

/// `Apr 10`: a month and a day. `None` exactly if the number is no day or the month never has it.
pub fn month_day(month: u8, day: Digits) -> Option<MonthDay>
    ensures kept { IfSome result (λ x. (x.month ≡ month) × (x.day ≡ day.value)) }
    ensures accepted { IsSome result ↔ IsWrittenDay month day }
{
    let number = day.day()?;
    MonthDay::new(month, number)
}

/// `2024 Apr 10`: a date. `None` exactly if a number does not fit or that year has no such date.
pub fn year_date(year: Digits, month: u8, day: Digits) -> Option<YearDate>
    ensures kept { IfSome result (λ x. (x.year ≡ year.value) × (x.month ≡ month) × (x.day ≡ day.value)) }
    ensures accepted { IsSome result ↔ (IsYearNumber year × IsDayOfYear year.value month day) }
{
    let year_number = year.year()?;
    let day_number = day.day()?;
    YearDate::new(year_number, month, day_number)
}

/// `Apr 10`: that day of each year, as a range.
pub fn one_day(date: MonthDay) -> Dates
    ensures first { result.first ≡ date }
    ensures last { result.last ≡ date }
{
    Dates {
        first: date,
        last: date,
    }
}

/// `Apr 10-20`: from a date to a day of the same month, which may be that of the next year. `None` exactly if the number is no
/// day or the month never has it.
pub fn to_day(first: MonthDay, day: Digits) -> Option<Dates>
    ensures kept { IfSome result (λ x. (x.first ≡ first) × (x.last.month ≡ first.month) × (x.last.day ≡ day.value)) }
    ensures accepted { IsSome result ↔ IsWrittenDay first.month day }
{
    let last = month_day(first.month, day)?;
    Some(Dates { first, last })
}

/// `2024 Dec 24-2025 Jan 3`: from a date to another one. `None` exactly if a number does not fit, the last date does not
/// exist or comes before the first, or the range is longer than 36,600 days with both.
pub fn to_year_date(first: YearDate, year: Digits, month: u8, day: Digits) -> Option<Dated>
    ensures first { IfSome result (λ x. x.first ≡ first) }
    ensures last { IfSome result
        (λ x. (x.last.year ≡ year.value) × (x.last.month ≡ month) × (x.last.day ≡ day.value)) }
    ensures accepted { IsSome result
        ↔ (IsYearNumber year × EndsOn first.year first.month first.day year.value month day) }
{
    let last = year_date(year, month, day)?;
    Dated::new(first, last)
}

// The year of a last date that is written without one.
fn last_year(first: YearDate, month: u8, day: u8) -> u16
    ensures { result ≡ last_year first.year first.month first.day month day }
{
    let first_key = 32 * u16::from(first.month) + u16::from(first.day);
    let key = 32 * u16::from(month) + u16::from(day);
    if key < first_key {
        first.year + 1
    } else {
        first.year
    }
}

/// `2024 Dec 24-Jan 3`: from a date to a month and day of the same year or, if that would come before it, of the next one.
/// `None` exactly if the number is no day, or that year has no such date or is after 2799.
pub fn to_month_day(first: YearDate, month: u8, day: Digits) -> Option<Dated>
    ensures first { IfSome result (λ x. x.first ≡ first) }
    ensures last { IfSome result
        (λ x. (x.last.year ≡ last_year first.year first.month first.day month day.value) × (x.last.month ≡ month)
        × (x.last.day ≡ day.value)) }
    ensures accepted { IsSome result ↔ EndsOn first.year first.month first.day
        (last_year first.year first.month first.day month day.value) month day }
{
    let number = day.day()?;
    let last = YearDate::new(last_year(first, month, number), month, number)?;
    Dated::new(first, last)
}

/// `2024 Apr 10-20`: from a date to a day of the same month in the same year or, if that would come before it, in the next
/// one. `None` exactly if the number is no day, or that month does not have it or is after 2799.
pub fn to_year_day(first: YearDate, day: Digits) -> Option<Dated>
    ensures first { IfSome result (λ x. x.first ≡ first) }
    ensures last { IfSome result
        (λ x. (x.last.year ≡ last_year first.year first.month first.day first.month day.value)
        × (x.last.month ≡ first.month) × (x.last.day ≡ day.value)) }
    ensures accepted { IsSome result ↔ EndsOn first.year first.month first.day
        (last_year first.year first.month first.day first.month day.value) first.month day }
{
    to_month_day(first, first.month, day)
}
