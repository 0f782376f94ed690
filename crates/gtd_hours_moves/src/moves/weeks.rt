//! The moves in a list of weeks.

ghost use Rattle.std.specs.Prelude.{◌≡◌, true, IfSome, Option};
ghost use Rattle.gtd_hours_tokens.specs.declared.token.TokenKind.{TokenKind};
ghost use Rattle.gtd_hours_moves.specs.declared.place.Place.TheVariants as places;
ghost use Rattle.gtd_hours_moves.specs.Moves.{week, week_again, week_back, week_dash, week_pair, week_range, week_step};
ghost use Rattle.gtd_hours_moves.specs.Moves.{week_word};
ghost use Rattle.gtd_hours_moves.specs.Runs.{IsGood};
ghost use Rattle.gtd_hours_moves.specs.Sound.{Fits, IsPlace};

use crate::moves::moving::{complete, give, take, written};
use crate::place::{Move, Place};
use crate::stage::Stage;
use gtd_hours_parts::{Digits, Piece};
use gtd_hours_tokens::TokenKind;

/// `week`
pub fn week_word(next: Option<TokenKind>, fits: bool) -> Option<Move>
    requires fit { fits ≡ true → Fits places.WeekWord next }
    ensures computed { result ≡ week_word next fits }
    ensures good { IfSome result (λ move. IsGood places.WeekWord next move) }
{
    match next {
        Some(TokenKind::Number { value, digits }) if fits => {
            take(Place::Week(written(value, digits)))
        }
        _ => None,
    }
}

/// `10`
pub fn week(n: Digits, next: Option<TokenKind>) -> Option<Move>
    requires sound { IsPlace (places.Week n) }
    ensures computed { result ≡ week n next }
    ensures good { IfSome result (λ move. IsGood (places.Week n) next move) }
{
    match next {
        Some(TokenKind::Dash) => take(Place::WeekDash(n)),
        _ => give(
            Piece::Weeks {
                first: n,
                last: None,
                step: None,
            },
            Place::After(Stage::Weeks),
        ),
    }
}

/// `10-`
pub fn week_dash(n: Digits, next: Option<TokenKind>, fits: bool) -> Option<Move>
    requires sound { IsPlace (places.WeekDash n) }
    requires fit { fits ≡ true → Fits (places.WeekDash n) next }
    ensures computed { result ≡ week_dash n next fits }
    ensures good { IfSome result (λ move. IsGood (places.WeekDash n) next move) }
{
    match next {
        Some(TokenKind::Number { value, digits }) if fits => week_pair(n, written(value, digits)),
        _ => None,
    }
}

// From one week to another, which may be before it.
fn week_pair(first: Digits, last: Digits) -> Option<Move>
    ensures { result ≡ week_pair first last }
{
    if first.value <= last.value {
        take(Place::WeekRange { first, last })
    } else {
        take(Place::WeekBack { first, last })
    }
}

/// `46-12`, which goes back and has no step
pub fn week_back(first: Digits, last: Digits, next: Option<TokenKind>) -> Option<Move>
    requires sound { IsPlace (places.WeekBack first last) }
    ensures computed { result ≡ week_back first last next }
    ensures good { IfSome result (λ move. IsGood (places.WeekBack first last) next move) }
{
    match next {
        Some(TokenKind::Slash) => None,
        _ => give(
            Piece::Weeks {
                first,
                last: Some(written(53, 2)),
                step: None,
            },
            Place::WeekAgain { first, last },
        ),
    }
}

/// `46-12`, where the weeks up to the last one of the year are given
pub fn week_again(first: Digits, last: Digits) -> Option<Move>
    requires sound { IsPlace (places.WeekAgain first last) }
    ensures computed { result ≡ week_again last }
    ensures good { (next : Option TokenKind) → IfSome result (λ move. IsGood (places.WeekAgain first last) next move) }
{
    give(
        Piece::Weeks {
            first: written(1, 1),
            last: Some(last),
            step: None,
        },
        Place::After(Stage::Weeks),
    )
}

/// `10-20`
pub fn week_range(first: Digits, last: Digits, next: Option<TokenKind>) -> Option<Move>
    requires sound { IsPlace (places.WeekRange first last) }
    ensures computed { result ≡ week_range first last next }
    ensures good { IfSome result (λ move. IsGood (places.WeekRange first last) next move) }
{
    match next {
        Some(TokenKind::Slash) => take(Place::WeekStep { first, last }),
        _ => give(
            Piece::Weeks {
                first,
                last: Some(last),
                step: None,
            },
            Place::After(Stage::Weeks),
        ),
    }
}

/// `10-20/`
#[tactic(auto, using(crate::proofs::GoodItems::week_step_good))]
pub fn week_step(first: Digits, last: Digits, next: Option<TokenKind>, fits: bool) -> Option<Move>
    requires sound { IsPlace (places.WeekStep first last) }
    requires fit { fits ≡ true → Fits (places.WeekStep first last) next }
    ensures computed { result ≡ week_step first last next fits }
    ensures good { IfSome result (λ move. IsGood (places.WeekStep first last) next move) }
{
    match next {
        Some(TokenKind::Number { value, digits }) if fits => complete(
            Piece::Weeks {
                first,
                last: Some(last),
                step: Some(written(value, digits)),
            },
            Place::After(Stage::Weeks),
        ),
        _ => None,
    }
}
