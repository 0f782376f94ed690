//! The moves in a list of months and dates.

ghost use Rattle.std.specs.Prelude.{◌≡◌, true, IfSome};
ghost use Rattle.gtd_hours_moves.specs.declared.place.Place.TheVariants as places;
ghost use Rattle.gtd_hours_moves.specs.Moves.{date, date_dash, date_dash_month, date_dash_year, date_year, date_year_month};
ghost use Rattle.gtd_hours_moves.specs.Moves.{date_year_month_dash, month, month_dash, months_year, year_or_day};
ghost use Rattle.gtd_hours.specs.Ranges.{IsMonth};
ghost use Rattle.gtd_hours_moves.specs.Grammar.{days_of_months};
ghost use Rattle.gtd_hours_parts.specs.Numbers.{IsYearNumber};
ghost use Rattle.gtd_hours_moves.specs.Runs.{IsGood};
ghost use Rattle.gtd_hours_parts.specs.Pieces.{IsWrittenDate};
ghost use Rattle.gtd_hours_moves.specs.Sound.{Fits, IsPlace};

use crate::moves::day_lists::dates_end;
use crate::moves::moving::{complete, give, take, written};
use crate::place::{Move, Place};
use crate::stage::Stage;
use gtd_hours_parts::{Digits, LastDate, Piece, WrittenDate, first_day_of, last_day_of};
use gtd_hours_tokens::TokenKind;

/// `2024`, the year of a date
pub fn date_year(year: Digits, next: Option<TokenKind>, fits: bool) -> Option<Move>
    requires sound { IsPlace (places.DateYear year) }
    requires fit { fits ≡ true → Fits (places.DateYear year) next }
    ensures computed { result ≡ date_year year next fits }
    ensures good { IfSome result (λ move. IsGood (places.DateYear year) next move) }
{
    match next {
        Some(TokenKind::Month(month)) if fits => take(Place::DateYearMonth { year, month }),
        _ => None,
    }
}

/// `2024 Dec`, of a date
pub fn date_year_month(year: Digits, month: u8, next: Option<TokenKind>, fits: bool) -> Option<Move>
    requires sound { IsPlace (places.DateYearMonth year month) }
    requires fit { fits ≡ true → Fits (places.DateYearMonth year month) next }
    ensures computed { result ≡ date_year_month year month next fits }
    ensures good { IfSome result (λ move. IsGood (places.DateYearMonth year month) next move) }
{
    match next {
        Some(TokenKind::Number { value, digits }) if fits => take(Place::Date(WrittenDate {
            year: Some(year),
            month,
            day: written(value, digits),
        })),
        Some(TokenKind::Dash) => take(Place::DateYearMonthDash { year, month }),
        _ => None,
    }
}

/// `2024 Dec-`, of months of years
pub fn date_year_month_dash(
    year: Digits,
    month: u8,
    next: Option<TokenKind>,
    fits: bool,
) -> Option<Move>
    requires sound { IsPlace (places.DateYearMonthDash year month) }
    requires fit { fits ≡ true → Fits (places.DateYearMonthDash year month) next }
    ensures computed { result ≡ date_year_month_dash year month next fits }
    ensures good { IfSome result (λ move. IsGood (places.DateYearMonthDash year month) next move) }
{
    match next {
        Some(TokenKind::Number { value, digits }) if fits => take(Place::MonthsYear {
            first: year,
            month,
            last: written(value, digits),
        }),
        _ => None,
    }
}

/// `2024 Dec-2026`
pub fn months_year(
    first: Digits,
    month: u8,
    last: Digits,
    next: Option<TokenKind>,
    fits: bool,
) -> Option<Move>
    requires sound { IsPlace (places.MonthsYear first month last) }
    requires fit { fits ≡ true → Fits (places.MonthsYear first month last) next }
    ensures computed { result ≡ months_year first month last next fits }
    ensures good { IfSome result (λ move. IsGood (places.MonthsYear first month last) next move) }
{
    match next {
        Some(TokenKind::Month(last_month)) if fits => complete(
            days_of_months(first, month, last, last_month),
            Place::After(Stage::MonthDays),
        ),
        _ => None,
    }
}

// The days of months of years.
fn days_of_months(first: Digits, month: u8, last: Digits, last_month: u8) -> Piece
    requires year { IsYearNumber last }
    requires month { IsMonth last_month }
    ensures { result ≡ days_of_months first month last last_month }
{
    let last = Some(LastDate::Date(last_day_of(last, last_month)));
    let first = first_day_of(first, month);
    Piece::Dates { first, last }
}

/// `Dec`
pub fn month(m: u8, next: Option<TokenKind>, fits: bool) -> Option<Move>
    requires sound { IsPlace (places.Month m) }
    requires fit { fits ≡ true → Fits (places.Month m) next }
    ensures computed { result ≡ month m next fits }
    ensures good { IfSome result (λ move. IsGood (places.Month m) next move) }
{
    match next {
        Some(TokenKind::Number { value, digits }) => {
            if fits {
                take(Place::Date(WrittenDate {
                    year: None,
                    month: m,
                    day: written(value, digits),
                }))
            } else {
                None
            }
        }
        Some(TokenKind::Dash) => take(Place::MonthDash(m)),
        _ => give(
            Piece::Months {
                first: m,
                last: None,
            },
            Place::After(Stage::MonthDays),
        ),
    }
}

/// `Oct-`
#[tactic(auto, using(crate::proofs::GoodItems::month_dash_good))]
pub fn month_dash(first: u8, next: Option<TokenKind>, fits: bool) -> Option<Move>
    requires sound { IsPlace (places.MonthDash first) }
    requires fit { fits ≡ true → Fits (places.MonthDash first) next }
    ensures computed { result ≡ month_dash first next fits }
    ensures good { IfSome result (λ move. IsGood (places.MonthDash first) next move) }
{
    match next {
        Some(TokenKind::Month(last)) if fits => complete(
            Piece::Months {
                first,
                last: Some(last),
            },
            Place::After(Stage::MonthDays),
        ),
        _ => None,
    }
}

/// `Dec 24`, `2024 Dec 24`
pub fn date(first: WrittenDate, next: Option<TokenKind>) -> Option<Move>
    requires sound { IsPlace (places.Date first) }
    ensures computed { result ≡ date first next }
    ensures good { IfSome result (λ move. IsGood (places.Date first) next move) }
{
    match next {
        Some(TokenKind::Dash) => take(Place::DateDash(first)),
        _ => give(
            Piece::Dates { first, last: None },
            Place::AfterDate {
                year: first.year,
                month: first.month,
            },
        ),
    }
}

/// `Dec 24-`
pub fn date_dash(first: WrittenDate, next: Option<TokenKind>, fits: bool) -> Option<Move>
    requires sound { IsPlace (places.DateDash first) }
    requires fit { fits ≡ true → Fits (places.DateDash first) next }
    ensures computed { result ≡ date_dash first next fits }
    ensures good { IfSome result (λ move. IsGood (places.DateDash first) next move) }
{
    match next {
        Some(TokenKind::Number { value, digits }) if fits => {
            year_or_day(first, written(value, digits))
        }
        Some(TokenKind::Month(month)) if fits => take(Place::DateDashMonth {
            first,
            year: None,
            month,
        }),
        _ => None,
    }
}

// A year, or the day that ends the range.
fn year_or_day(first: WrittenDate, n: Digits) -> Option<Move>
    requires { IsWrittenDate first }
    ensures { result ≡ year_or_day first n }
{
    if first.year.is_some() && n.count == 4 {
        take(Place::DateDashYear { first, year: n })
    } else {
        dates_end(first, LastDate::Day(n))
    }
}

/// `2024 Dec 24-2025`
pub fn date_dash_year(
    first: WrittenDate,
    year: Digits,
    next: Option<TokenKind>,
    fits: bool,
) -> Option<Move>
    requires sound { IsPlace (places.DateDashYear first year) }
    requires fit { fits ≡ true → Fits (places.DateDashYear first year) next }
    ensures computed { result ≡ date_dash_year first year next fits }
    ensures good { IfSome result (λ move. IsGood (places.DateDashYear first year) next move) }
{
    match next {
        Some(TokenKind::Month(month)) if fits => take(Place::DateDashMonth {
            first,
            year: Some(year),
            month,
        }),
        _ => None,
    }
}

/// `Dec 24-Jan`
pub fn date_dash_month(
    first: WrittenDate,
    year: Option<Digits>,
    month: u8,
    next: Option<TokenKind>,
    fits: bool,
) -> Option<Move>
    requires sound { IsPlace (places.DateDashMonth first year month) }
    requires fit { fits ≡ true → Fits (places.DateDashMonth first year month) next }
    ensures computed { result ≡ date_dash_month first year month next fits }
    ensures good { IfSome result (λ move. IsGood (places.DateDashMonth first year month) next move) }
{
    match next {
        Some(TokenKind::Number { value, digits }) if fits => {
            let last = WrittenDate {
                year,
                month,
                day: written(value, digits),
            };
            dates_end(first, LastDate::Date(last))
        }
        _ => None,
    }
}
