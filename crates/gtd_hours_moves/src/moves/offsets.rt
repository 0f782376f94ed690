//! The moves behind places in brackets, where an offset may follow.

ghost use Rattle.std.specs.Prelude.{◌≡◌, true, IfSome};
ghost use Rattle.gtd_hours_moves.specs.declared.place.Place.TheVariants as places;
ghost use Rattle.gtd_hours_moves.specs.Moves.{back_most, back_reach, front_reach, offset_number, offset_sign, places_end};
ghost use Rattle.gtd_hours_moves.specs.Runs.{IsGood};
ghost use Rattle.gtd_hours_moves.specs.Sound.{Fits, IsPlace};

use crate::moves::moving::{complete, give, take, written};
use crate::place::{Move, Place};
use crate::stage::Stage;
use gtd_hours_parts::{Offset, Piece};
use gtd_hours_tokens::TokenKind;

/// The reach with one place more from the beginning of the month.
pub fn front_reach(reach: u16, place: u16) -> u16
    ensures { result ≡ front_reach reach place }
{
    if place <= 4 { reach } else { 0 }
}

// One more than the days that an offset may have before a place from the end of the month.
fn back_most(place: u16) -> u16
    ensures { result ≡ back_most place }
{
    if place <= 4 { 29 - 7 * place } else { 0 }
}

/// The reach with one place more from the end of the month.
pub fn back_reach(reach: u16, place: u16) -> u16
    ensures { result ≡ back_reach reach place }
{
    let most = back_most(place);
    if reach <= most { reach } else { most }
}

/// `We[1]`
pub fn places_end(reach: u16, next: Option<TokenKind>) -> Option<Move>
    ensures computed { result ≡ places_end reach next }
    ensures good { IfSome result (λ move. IsGood (places.PlacesEnd reach) next move) }
{
    match next {
        Some(TokenKind::Plus) => {
            if 1 <= reach {
                take(Place::OffsetSign {
                    is_before: false,
                    reach,
                })
            } else {
                None
            }
        }
        Some(TokenKind::Dash) => {
            if 2 <= reach {
                take(Place::OffsetSign {
                    is_before: true,
                    reach,
                })
            } else {
                None
            }
        }
        _ => give(
            Piece::PlacesEnd { offset: None },
            Place::After(Stage::Weekdays),
        ),
    }
}

/// `We[1] -`
pub fn offset_sign(is_before: bool, reach: u16, next: Option<TokenKind>, fits: bool) -> Option<Move>
    requires fit { fits ≡ true → Fits (places.OffsetSign is_before reach) next }
    ensures computed { result ≡ offset_sign is_before next fits }
    ensures good { IfSome result (λ move. IsGood (places.OffsetSign is_before reach) next move) }
{
    match next {
        Some(TokenKind::Number { value, digits }) if fits => {
            let days = written(value, digits);
            take(Place::OffsetNumber(Offset { is_before, days }))
        }
        _ => None,
    }
}

/// `We[1] -2`
pub fn offset_number(offset: Offset, next: Option<TokenKind>) -> Option<Move>
    requires sound { IsPlace (places.OffsetNumber offset) }
    ensures computed { result ≡ offset_number offset next }
    ensures good { IfSome result (λ move. IsGood (places.OffsetNumber offset) next move) }
{
    match next {
        Some(TokenKind::Day) => complete(
            Piece::PlacesEnd {
                offset: Some(offset),
            },
            Place::After(Stage::Weekdays),
        ),
        _ => None,
    }
}
