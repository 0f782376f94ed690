//! The moves in a list of times.

ghost use Rattle.std.specs.Prelude.{◌≡◌, true, IfSome};
ghost use Rattle.gtd_hours_moves.specs.declared.place.Place.TheVariants as places;
ghost use Rattle.gtd_hours_moves.specs.Moves.{time, time_dash};
ghost use Rattle.gtd_hours_moves.specs.Runs.{IsGood};
ghost use Rattle.gtd_hours_moves.specs.Sound.{Fits, IsPlace};

use crate::moves::moving::{clock, complete, take};
use crate::place::{Move, Place};
use crate::stage::Stage;
use gtd_hours_parts::{ClockTime, Piece};
use gtd_hours_tokens::TokenKind;

/// `08:00`
pub fn time(t: ClockTime, next: Option<TokenKind>) -> Option<Move>
    requires sound { IsPlace (places.Time t) }
    ensures computed { result ≡ time t next }
    ensures good { IfSome result (λ move. IsGood (places.Time t) next move) }
{
    match next {
        Some(TokenKind::Dash) => take(Place::TimeDash(t)),
        _ => None,
    }
}

/// `08:00-`
#[tactic(auto, using(crate::proofs::GoodItems::time_dash_good))]
pub fn time_dash(begin: ClockTime, next: Option<TokenKind>, fits: bool) -> Option<Move>
    requires sound { IsPlace (places.TimeDash begin) }
    requires fit { fits ≡ true → Fits (places.TimeDash begin) next }
    ensures computed { result ≡ time_dash begin next fits }
    ensures good { IfSome result (λ move. IsGood (places.TimeDash begin) next move) }
{
    match next {
        Some(TokenKind::Time { hour, minute }) if fits => {
            let last = clock(hour, minute);
            complete(Piece::Times { begin, last }, Place::After(Stage::Times))
        }
        _ => None,
    }
}
