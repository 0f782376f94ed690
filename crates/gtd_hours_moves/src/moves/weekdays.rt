//! The moves in a list of weekdays, and in the brackets behind one of them.

ghost use Rattle.std.specs.Prelude.{◌≡◌, true, IfSome};
ghost use Rattle.gtd_hours_moves.specs.declared.place.Place.TheVariants as places;
ghost use Rattle.gtd_hours_moves.specs.Moves.{bracket, bracket_dash, bracket_end, nth, nth_dash, weekday, weekday_dash};
ghost use Rattle.gtd_hours_moves.specs.Runs.{IsGood};
ghost use Rattle.gtd_hours_moves.specs.Sound.{Fits, IsPlace};

use crate::moves::moving::{complete, give, take, written};
use crate::moves::offsets::{back_reach, front_reach};
use crate::place::{Move, Place};
use crate::stage::Stage;
use gtd_hours_parts::{Digits, Piece};
use gtd_hours_tokens::TokenKind;

/// `Mo`
pub fn weekday(day: u8, next: Option<TokenKind>) -> Option<Move>
    requires sound { IsPlace (places.Weekday day) }
    ensures computed { result ≡ weekday day next }
    ensures good { IfSome result (λ move. IsGood (places.Weekday day) next move) }
{
    match next {
        Some(TokenKind::Dash) => take(Place::WeekdayDash(day)),
        Some(TokenKind::OpenBracket) => take(Place::Bracket {
            weekday: day,
            reach: 28,
        }),
        _ => give(
            Piece::Weekdays {
                first: day,
                last: None,
            },
            Place::After(Stage::Weekdays),
        ),
    }
}

/// `Mo-`
#[tactic(auto, using(crate::proofs::GoodItems::weekday_dash_good))]
pub fn weekday_dash(first: u8, next: Option<TokenKind>, fits: bool) -> Option<Move>
    requires sound { IsPlace (places.WeekdayDash first) }
    requires fit { fits ≡ true → Fits (places.WeekdayDash first) next }
    ensures computed { result ≡ weekday_dash first next fits }
    ensures good { IfSome result (λ move. IsGood (places.WeekdayDash first) next move) }
{
    match next {
        Some(TokenKind::Weekday(last)) if fits => complete(
            Piece::Weekdays {
                first,
                last: Some(last),
            },
            Place::After(Stage::Weekdays),
        ),
        _ => None,
    }
}

/// `We[`, and a comma in brackets
pub fn bracket(weekday: u8, reach: u16, next: Option<TokenKind>, fits: bool) -> Option<Move>
    requires sound { IsPlace (places.Bracket weekday reach) }
    requires fit { fits ≡ true → Fits (places.Bracket weekday reach) next }
    ensures computed { result ≡ bracket weekday reach next fits }
    ensures good { IfSome result (λ move. IsGood (places.Bracket weekday reach) next move) }
{
    match next {
        Some(TokenKind::Number { value, digits }) if fits => take(Place::Nth {
            weekday,
            number: written(value, digits),
            reach,
        }),
        Some(TokenKind::Dash) => take(Place::BracketDash { weekday, reach }),
        _ => None,
    }
}

/// `We[-`
#[tactic(auto, using(crate::proofs::GoodItems::bracket_dash_good))]
pub fn bracket_dash(weekday: u8, reach: u16, next: Option<TokenKind>, fits: bool) -> Option<Move>
    requires sound { IsPlace (places.BracketDash weekday reach) }
    requires fit { fits ≡ true → Fits (places.BracketDash weekday reach) next }
    ensures computed { result ≡ bracket_dash weekday reach next fits }
    ensures good { IfSome result (λ move. IsGood (places.BracketDash weekday reach) next move) }
{
    match next {
        Some(TokenKind::Number { value, digits }) if fits => complete(
            Piece::PlaceBack {
                weekday,
                number: written(value, digits),
            },
            Place::BracketEnd {
                weekday,
                reach: back_reach(reach, value),
            },
        ),
        _ => None,
    }
}

/// `We[1`
pub fn nth(weekday: u8, number: Digits, reach: u16, next: Option<TokenKind>) -> Option<Move>
    requires sound { IsPlace (places.Nth weekday number reach) }
    ensures computed { result ≡ nth weekday number reach next }
    ensures good { IfSome result (λ move. IsGood (places.Nth weekday number reach) next move) }
{
    match next {
        Some(TokenKind::Dash) => take(Place::NthDash {
            weekday,
            number,
            reach,
        }),
        _ => give(
            Piece::Places {
                weekday,
                first: number,
                last: None,
            },
            Place::BracketEnd {
                weekday,
                reach: front_reach(reach, number.value),
            },
        ),
    }
}

/// `We[1-`
#[tactic(auto, using(crate::proofs::GoodItems::nth_dash_good))]
pub fn nth_dash(
    weekday: u8,
    first: Digits,
    reach: u16,
    next: Option<TokenKind>,
    fits: bool,
) -> Option<Move>
    requires sound { IsPlace (places.NthDash weekday first reach) }
    requires fit { fits ≡ true → Fits (places.NthDash weekday first reach) next }
    ensures computed { result ≡ nth_dash weekday first reach next fits }
    ensures good { IfSome result (λ move. IsGood (places.NthDash weekday first reach) next move) }
{
    match next {
        Some(TokenKind::Number { value, digits }) if fits => complete(
            Piece::Places {
                weekday,
                first,
                last: Some(written(value, digits)),
            },
            Place::BracketEnd {
                weekday,
                reach: front_reach(reach, value),
            },
        ),
        _ => None,
    }
}

/// `We[1-2`, `We[-1`
pub fn bracket_end(weekday: u8, reach: u16, next: Option<TokenKind>) -> Option<Move>
    requires sound { IsPlace (places.BracketEnd weekday reach) }
    ensures computed { result ≡ bracket_end weekday reach next }
    ensures good { IfSome result (λ move. IsGood (places.BracketEnd weekday reach) next move) }
{
    match next {
        Some(TokenKind::Comma) => take(Place::Bracket { weekday, reach }),
        Some(TokenKind::CloseBracket) => take(Place::PlacesEnd(reach)),
        _ => None,
    }
}
