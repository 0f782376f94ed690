//! What a move is.

ghost use Rattle.std.specs.Prelude.{◌≡◌};
ghost use Rattle.gtd_hours_moves.specs.Moves.{clock, complete, give, take, written};

use crate::place::{Move, Place};
use gtd_hours_parts::{ClockTime, Digits, Piece};

/// The token is used up.
pub fn take(to: Place) -> Option<Move>
    ensures { result ≡ take to }
{
    Some(Move {
        to,
        piece: None,
        takes: true,
    })
}

/// The token is used up, and a piece is complete.
pub fn complete(piece: Piece, to: Place) -> Option<Move>
    ensures { result ≡ complete piece to }
{
    Some(Move {
        to,
        piece: Some(piece),
        takes: true,
    })
}

/// A piece was complete before the token.
pub fn give(piece: Piece, to: Place) -> Option<Move>
    ensures { result ≡ give piece to }
{
    Some(Move {
        to,
        piece: Some(piece),
        takes: false,
    })
}

/// The number of a token.
pub fn written(value: u16, digits: u8) -> Digits
    ensures { result ≡ written value digits }
{
    Digits {
        value,
        count: digits,
    }
}

/// The time of a token.
pub fn clock(hour: u8, minute: u8) -> ClockTime
    ensures { result ≡ clock hour minute }
{
    ClockTime { hour, minute }
}
