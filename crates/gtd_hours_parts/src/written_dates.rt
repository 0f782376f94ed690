//! The selectors that written dates stand for.

ghost use Rattle.std.specs.Prelude.{◌≡◌, ◌↔◌, IfSome, IsSome, None, Some, true};
ghost use Rattle.gtd_hours_parts.specs.declared.piece.Piece.TheVariants as piece;
ghost use Rattle.gtd_hours_parts.specs.Dates.{IsDayOfYear, IsWrittenDay};
ghost use Rattle.gtd_hours_parts.specs.Numbers.{IsYearNumber};
ghost use Rattle.gtd_hours_parts.specs.Pieces.{EndsRange, IsDay, dated, undated};
ghost use Rattle.gtd_hours_parts.specs.SoundPieces.{IsPiece};
ghost use Rattle.gtd_hours_parts.specs.Values.{AreDates};

use crate::dates::{
    month_day, one_day, to_day, to_month_day, to_year_date, to_year_day, year_date,
};
use crate::digits::Digits;
use crate::piece::{LastDate, WrittenDate};
use gtd_hours::{Dated, Dates, MonthDay, Selector, YearDate};

/// `Apr 10`, `Apr 10-20`, `2024 Dec 24-2025 Jan 3`: dates of each year, or of years. `None` exactly if a date does not exist, or
/// the first one cannot begin a range that ends there.
pub fn dates_of(first: WrittenDate, last: Option<LastDate>) -> Option<Selector>
    ensures kept { IfSome result (AreDates first.year first last) }
    ensures accepted { IsSome result ↔ IsPiece (piece.Dates first last) }
{
    match first.year {
        None => each_year(first.month, first.day, last),
        Some(year) => of_year(year, first.month, first.day, last),
    }
}

// A range of dates of each year.
fn each_year(month: u8, day: Digits, last: Option<LastDate>) -> Option<Selector>
    ensures kept { IfSome result (AreDates None (undated month day) last) }
    ensures accepted { IsSome result ↔ (IsWrittenDay month day × IfSome last (EndsRange (undated month day))) }
{
    let begin = month_day(month, day)?;
    match last {
        None => Some(Selector::Dates(one_day(begin))),
        Some(LastDate::Day(end)) => {
            let dates = to_day(begin, end)?;
            Some(Selector::Dates(dates))
        }
        Some(LastDate::Date(end)) => match end.year {
            Some(_) => None,
            None => {
                let last = month_day(end.month, end.day)?;
                Some(Selector::Dates(Dates { first: begin, last }))
            }
        },
    }
}

// A range of dates of years.
fn of_year(year: Digits, month: u8, day: Digits, last: Option<LastDate>) -> Option<Selector>
    ensures kept { IfSome result (AreDates (Some year) (dated year month day) last) }
    ensures accepted { IsSome result
        ↔ (IsYearNumber year × IsDayOfYear year.value month day × IfSome last (EndsRange (dated year month day))) }
{
    let begin = year_date(year, month, day)?;
    match last {
        None => {
            let dates = Dated::new(begin, begin)?;
            Some(Selector::Dated(dates))
        }
        Some(LastDate::Day(end)) => {
            let dates = to_year_day(begin, end)?;
            Some(Selector::Dated(dates))
        }
        Some(LastDate::Date(end)) => match end.year {
            None => {
                let dates = to_month_day(begin, end.month, end.day)?;
                Some(Selector::Dated(dates))
            }
            Some(last_year) => {
                let dates = to_year_date(begin, last_year, end.month, end.day)?;
                Some(Selector::Dated(dates))
            }
        },
    }
}

/// `10`, in `Apr 10`: whether the month has the day, in that year, or in leap years if no year is written.
pub fn is_day(year: Option<Digits>, month: u8, day: Digits) -> bool
    ensures { (result ≡ true) ↔ IsDay year month day }
{
    match day.day() {
        None => false,
        Some(number) => match year {
            None => MonthDay::new(month, number).is_some(),
            Some(year) => YearDate::new(year.value, month, number).is_some(),
        },
    }
}
