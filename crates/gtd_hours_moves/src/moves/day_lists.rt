//! The moves behind a date, where days of the same month may go on behind commas.

ghost use Rattle.std.specs.Prelude.{◌≡◌, ◌<◌, true, IfSome};
ghost use Rattle.gtd_hours_parts.specs.Dates.{last_year};
ghost use Rattle.gtd_hours_parts.specs.Numbers.{IsYearNumber};
ghost use Rattle.gtd_hours_moves.specs.declared.place.Place.TheVariants as places;
ghost use Rattle.gtd_hours_moves.specs.Moves.{after_date, comma_date, dates_end, listed_day, year_or_listed};
ghost use Rattle.gtd_hours_parts.specs.Pieces.{IsWrittenDate, year_or_next};
ghost use Rattle.gtd_hours_moves.specs.Runs.{IsGood};
ghost use Rattle.gtd_hours_moves.specs.Sound.{Fits, IsPlace};

use crate::moves::moving::{complete, give, take, written};
use crate::moves::rules::{after, comma};
use crate::place::{Move, Place};
use crate::stage::Stage;
use gtd_hours::Link;
use gtd_hours_parts::{Digits, LastDate, Piece, WrittenDate};
use gtd_hours_tokens::TokenKind;

// The year of a date that is written without one, behind a date of this year.
fn last_year(year: u16, first: WrittenDate, month: u8, day: Digits) -> u16
    requires { year < 2800 }
    ensures { result ≡ last_year year first.month first.day.value month day.value }
{
    let first_key = 32 * u32::from(first.month) + u32::from(first.day.value);
    let key = 32 * u32::from(month) + u32::from(day.value);
    if key < first_key { year + 1 } else { year }
}

// The year of the last date of a range whose first one has this year.
fn year_or_next(
    year: Digits,
    first: WrittenDate,
    written_year: Option<Digits>,
    month: u8,
    day: Digits,
) -> Digits
    requires { IsYearNumber year }
    ensures value { result.value ≡ year_or_next year.value first written_year month day }
    ensures count { result.count ≡ 4 }
{
    let value = match written_year {
        Some(other) => other.value,
        None => last_year(year.value, first, month, day),
    };
    Digits { value, count: 4 }
}

/// A range of dates is complete.
pub fn dates_end(first: WrittenDate, last: LastDate) -> Option<Move>
    requires { IsWrittenDate first }
    ensures { result ≡ dates_end first last }
{
    let (written_year, month, day) = match last {
        LastDate::Day(day) => (None, first.month, day),
        LastDate::Date(date) => (date.year, date.month, date.day),
    };
    let year = match first.year {
        None => None,
        Some(year) => Some(year_or_next(year, first, written_year, month, day)),
    };
    let last = Some(last);
    complete(
        Piece::Dates { first, last },
        Place::AfterDate { year, month },
    )
}

/// A day behind a comma, or `24` of another rule
pub fn listed_day(day: WrittenDate, next: Option<TokenKind>) -> Option<Move>
    requires sound { IsPlace (places.ListedDay day) }
    ensures computed { result ≡ listed_day day next }
    ensures good { IfSome result (λ move. IsGood (places.ListedDay day) next move) }
{
    match next {
        Some(TokenKind::Dash) => take(Place::DateDash(day)),
        Some(TokenKind::Slash) => {
            if day.day.value == 24 && day.day.count == 2 {
                complete(Piece::Rule(Link::Also), Place::TwentyFourSlash)
            } else {
                None
            }
        }
        _ => give(
            Piece::Dates {
                first: day,
                last: None,
            },
            Place::AfterDate {
                year: day.year,
                month: day.month,
            },
        ),
    }
}

/// A date or a range of dates
pub fn after_date(
    year: Option<Digits>,
    month: u8,
    next: Option<TokenKind>,
    fits: bool,
) -> Option<Move>
    requires sound { IsPlace (places.AfterDate year month) }
    requires fit { fits ≡ true → Fits (places.AfterDate year month) next }
    ensures computed { result ≡ after_date year month next fits }
    ensures good { IfSome result (λ move. IsGood (places.AfterDate year month) next move) }
{
    match next {
        Some(TokenKind::Comma) => take(Place::CommaDate { year, month }),
        _ => after(Stage::MonthDays, next, fits),
    }
}

/// A comma behind a date
pub fn comma_date(
    year: Option<Digits>,
    month: u8,
    next: Option<TokenKind>,
    fits: bool,
) -> Option<Move>
    requires sound { IsPlace (places.CommaDate year month) }
    requires fit { fits ≡ true → Fits (places.CommaDate year month) next }
    ensures computed { result ≡ comma_date year month next fits }
    ensures good { IfSome result (λ move. IsGood (places.CommaDate year month) next move) }
{
    match next {
        Some(TokenKind::Number { value, digits }) => {
            if fits {
                year_or_day(year, month, written(value, digits))
            } else {
                None
            }
        }
        _ => comma(Stage::MonthDays, next, fits),
    }
}

// A year, or a day of the month.
fn year_or_day(year: Option<Digits>, month: u8, number: Digits) -> Option<Move>
    ensures { result ≡ year_or_listed year month number }
{
    if number.count == 4 {
        take(Place::DateYear(number))
    } else {
        take(Place::ListedDay(WrittenDate {
            year,
            month,
            day: number,
        }))
    }
}
