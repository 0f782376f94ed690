//! The moves in a list of years, and those of a year that begins a rule.

ghost use Rattle.std.specs.Prelude.{◌≡◌, true, IfSome, None, Option};
ghost use Rattle.gtd_hours_tokens.specs.declared.token.TokenKind.{TokenKind};
ghost use Rattle.gtd_hours_parts.specs.declared.piece.Piece.TheVariants as piece;
ghost use Rattle.gtd_hours_moves.specs.declared.place.Place.TheVariants as places;
ghost use Rattle.gtd_hours_moves.specs.Moves.{give, listed_year, month_dash_after_year, year, year_dash};
ghost use Rattle.gtd_hours_moves.specs.Moves.{year_month, year_month_dash, year_range, year_slash};
ghost use Rattle.gtd_hours_moves.specs.Moves.{year_step, years_on};
ghost use Rattle.gtd_hours_moves.specs.Runs.{IsGood};
ghost use Rattle.gtd_hours_moves.specs.Sound.{Fits, IsPlace};

use crate::moves::moving::{complete, give, take, written};
use crate::place::{Move, Place};
use crate::stage::Stage;
use gtd_hours_parts::{Digits, Piece, WrittenDate};
use gtd_hours_tokens::TokenKind;

/// `2024`, at the beginning of a rule
pub fn year(n: Digits, next: Option<TokenKind>, fits: bool) -> Option<Move>
    requires sound { IsPlace (places.Year n) }
    requires fit { fits ≡ true → Fits (places.Year n) next }
    ensures computed { result ≡ year n next fits }
    ensures good { IfSome result (λ move. IsGood (places.Year n) next move) }
{
    match next {
        Some(TokenKind::Month(month)) => {
            if fits {
                take(Place::YearMonth { year: n, month })
            } else {
                None
            }
        }
        Some(TokenKind::Dash) => take(Place::YearDash(n)),
        Some(TokenKind::Slash) => take(Place::YearSlash(n)),
        Some(TokenKind::Plus) => years_on(n, None),
        _ => give(one_year(n), Place::After(Stage::Years)),
    }
}

/// `2024 Dec`, at the beginning of a rule
pub fn year_month(year: Digits, month: u8, next: Option<TokenKind>, fits: bool) -> Option<Move>
    requires sound { IsPlace (places.YearMonth year month) }
    requires fit { fits ≡ true → Fits (places.YearMonth year month) next }
    ensures computed { result ≡ year_month year month next fits }
    ensures good { IfSome result (λ move. IsGood (places.YearMonth year month) next move) }
{
    match next {
        Some(TokenKind::Number { value, digits }) => {
            if fits {
                take(Place::Date(WrittenDate {
                    year: Some(year),
                    month,
                    day: written(value, digits),
                }))
            } else {
                None
            }
        }
        Some(TokenKind::Dash) => take(Place::YearMonthDash { year, month }),
        _ => give(one_year(year), Place::MonthAfterYear(month)),
    }
}

/// `2024 Dec-`, at the beginning of a rule
pub fn year_month_dash(year: Digits, month: u8, next: Option<TokenKind>, fits: bool) -> Option<Move>
    requires sound { IsPlace (places.YearMonthDash year month) }
    requires fit { fits ≡ true → Fits (places.YearMonthDash year month) next }
    ensures computed { result ≡ year_month_dash year month next fits }
    ensures good { IfSome result (λ move. IsGood (places.YearMonthDash year month) next move) }
{
    match next {
        Some(TokenKind::Number { value, digits }) if fits => take(Place::MonthsYear {
            first: year,
            month,
            last: written(value, digits),
        }),
        Some(TokenKind::Month(_)) => give(one_year(year), Place::MonthDashAfterYear(month)),
        _ => None,
    }
}

/// The month and the dash of `2024 Dec-`, where the year is a selector of its own
pub fn month_dash_after_year(month: u8, next: Option<TokenKind>) -> Option<Move>
    requires sound { IsPlace (places.MonthDashAfterYear month) }
    ensures computed { result ≡ month_dash_after_year month next }
    ensures good { IfSome result (λ move. IsGood (places.MonthDashAfterYear month) next move) }
{
    match next {
        Some(TokenKind::Month(_)) => give(Piece::Kind, Place::MonthDash(month)),
        _ => None,
    }
}

/// The month of `2024 Dec`, where the year is a selector of its own
pub fn month_after_year(month: u8) -> Option<Move>
    requires sound { IsPlace (places.MonthAfterYear month) }
    ensures computed { result ≡ give piece.Kind (places.Month month) }
    ensures good { (next : Option TokenKind) → IfSome result (λ move. IsGood (places.MonthAfterYear month) next move) }
{
    give(Piece::Kind, Place::Month(month))
}

/// A year in a list
pub fn listed_year(n: Digits, next: Option<TokenKind>) -> Option<Move>
    requires sound { IsPlace (places.ListedYear n) }
    ensures computed { result ≡ listed_year n next }
    ensures good { IfSome result (λ move. IsGood (places.ListedYear n) next move) }
{
    match next {
        Some(TokenKind::Dash) => take(Place::YearDash(n)),
        Some(TokenKind::Slash) => take(Place::YearSlash(n)),
        Some(TokenKind::Plus) => years_on(n, None),
        _ => give(one_year(n), Place::After(Stage::Years)),
    }
}

/// `2024/`
pub fn year_slash(n: Digits, next: Option<TokenKind>, fits: bool) -> Option<Move>
    requires sound { IsPlace (places.YearSlash n) }
    requires fit { fits ≡ true → Fits (places.YearSlash n) next }
    ensures computed { result ≡ year_slash n next fits }
    ensures good { IfSome result (λ move. IsGood (places.YearSlash n) next move) }
{
    match next {
        Some(TokenKind::Number { value, digits }) if fits => {
            years_on(n, Some(written(value, digits)))
        }
        _ => None,
    }
}

/// `2024-`
pub fn year_dash(first: Digits, next: Option<TokenKind>, fits: bool) -> Option<Move>
    requires sound { IsPlace (places.YearDash first) }
    requires fit { fits ≡ true → Fits (places.YearDash first) next }
    ensures computed { result ≡ year_dash first next fits }
    ensures good { IfSome result (λ move. IsGood (places.YearDash first) next move) }
{
    match next {
        Some(TokenKind::Number { value, digits }) if fits => take(Place::YearRange {
            first,
            last: written(value, digits),
        }),
        _ => None,
    }
}

/// `2024-2030`
pub fn year_range(first: Digits, last: Digits, next: Option<TokenKind>) -> Option<Move>
    requires sound { IsPlace (places.YearRange first last) }
    ensures computed { result ≡ year_range first last next }
    ensures good { IfSome result (λ move. IsGood (places.YearRange first last) next move) }
{
    match next {
        Some(TokenKind::Slash) => take(Place::YearStep { first, last }),
        _ => give(
            Piece::Years {
                first,
                last: Some(last),
                step: None,
            },
            Place::After(Stage::Years),
        ),
    }
}

/// `2024-2030/`
#[tactic(auto, using(crate::proofs::GoodItems::year_step_good))]
pub fn year_step(first: Digits, last: Digits, next: Option<TokenKind>, fits: bool) -> Option<Move>
    requires sound { IsPlace (places.YearStep first last) }
    requires fit { fits ≡ true → Fits (places.YearStep first last) next }
    ensures computed { result ≡ year_step first last next fits }
    ensures good { IfSome result (λ move. IsGood (places.YearStep first last) next move) }
{
    match next {
        Some(TokenKind::Number { value, digits }) if fits => complete(
            Piece::Years {
                first,
                last: Some(last),
                step: Some(written(value, digits)),
            },
            Place::After(Stage::Years),
        ),
        _ => None,
    }
}

// The years from one on, to the last of the calendar.
fn years_on(first: Digits, step: Option<Digits>) -> Option<Move>
    ensures { result ≡ years_on first step }
{
    let last = Some(written(2799, 4));
    complete(
        Piece::Years { first, last, step },
        Place::After(Stage::Years),
    )
}

// A year alone.
fn one_year(n: Digits) -> Piece
    ensures { result ≡ piece.Years n None None }
{
    Piece::Years {
        first: n,
        last: None,
        step: None,
    }
}
