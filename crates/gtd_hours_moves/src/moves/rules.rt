//! The moves at the beginning of a rule, and behind a part of one.

ghost use Rattle.std.specs.Prelude.{◌≡◌, true, IfSome};
ghost use Rattle.gtd_hours_moves.specs.declared.place.Place.TheVariants as places;
ghost use Rattle.gtd_hours_moves.specs.Moves.{after, always, comma, front, later, listed, listed_number, next_goes_on, slash};
ghost use Rattle.gtd_hours_moves.specs.Runs.{IsGood, IsLater};
ghost use Rattle.gtd_hours_moves.specs.Sound.{Fits, IsPlace};

use crate::moves::moving::{clock, complete, give, take, written};
use crate::place::{Move, Place};
use crate::stage::Stage;
use gtd_hours::Link;
use gtd_hours_parts::{Digits, Piece};
use gtd_hours_tokens::TokenKind;

/// At the beginning of a rule
pub fn front(next: Option<TokenKind>, fits: bool) -> Option<Move>
    requires fit { fits ≡ true → Fits places.Front next }
    ensures computed { result ≡ front next fits }
    ensures good { IfSome result (λ move. IsGood places.Front next move) }
{
    match next {
        Some(TokenKind::Number { value, digits }) => {
            if value == 24 && digits == 2 {
                take(Place::TwentyFour)
            } else if fits {
                complete(Piece::Kind, Place::Year(written(value, digits)))
            } else {
                None
            }
        }
        _ => later(Stage::Front, next, fits),
    }
}

/// `24`, at the beginning of a rule
pub fn slash(next: Option<TokenKind>) -> Option<Move>
    ensures computed { result ≡ slash next }
    ensures good { IfSome result (λ move. IsGood places.TwentyFour next move) }
{
    match next {
        Some(TokenKind::Slash) => take(Place::TwentyFourSlash),
        _ => None,
    }
}

/// `24/`
#[tactic(auto, using(crate::proofs::GoodRules::always_good))]
pub fn always(next: Option<TokenKind>, fits: bool) -> Option<Move>
    requires fit { fits ≡ true → Fits places.TwentyFourSlash next }
    ensures computed { result ≡ always next fits }
    ensures good { IfSome result (λ move. IsGood places.TwentyFourSlash next move) }
{
    match next {
        Some(TokenKind::Number { .. }) if fits => take(Place::After(Stage::Always)),
        _ => None,
    }
}

/// A part of a rule, and what is the last of its list
pub fn after(s: Stage, next: Option<TokenKind>, fits: bool) -> Option<Move>
    requires sound { IsPlace (places.After s) }
    requires fit { fits ≡ true → Fits (places.After s) next }
    ensures computed { result ≡ after s next fits }
    ensures good { IfSome result (λ move. IsGood (places.After s) next move) }
{
    match next {
        Some(TokenKind::Semicolon) => complete(Piece::Rule(Link::Instead), Place::Front),
        Some(TokenKind::Comma) => take(Place::Comma(s)),
        Some(TokenKind::Colon) if s.precedes(Stage::Colon) => take(Place::After(Stage::Colon)),
        Some(TokenKind::Number { value, digits }) if fits && s.precedes(Stage::MonthDays) => {
            complete(Piece::Kind, Place::DateYear(written(value, digits)))
        }
        _ => later(s, next, fits),
    }
}

/// A comma after a part of a rule
pub fn comma(s: Stage, next: Option<TokenKind>, fits: bool) -> Option<Move>
    requires sound { IsPlace (places.Comma s) }
    requires fit { fits ≡ true → Fits (places.Comma s) next }
    ensures computed { result ≡ comma s next fits }
    ensures good { IfSome result (λ move. IsGood (places.Comma s) next move) }
{
    if next_goes_on(s, next) {
        listed(s, next, fits)
    } else {
        give(Piece::Rule(Link::Also), Place::Front)
    }
}

// Whether the list goes on.
fn next_goes_on(s: Stage, next: Option<TokenKind>) -> bool
    ensures { result ≡ next_goes_on s next }
{
    match next {
        Some(kind) => s.goes_on(kind),
        None => false,
    }
}

// The list goes on.
fn listed(s: Stage, next: Option<TokenKind>, fits: bool) -> Option<Move>
    requires goes_on { next_goes_on s next ≡ true }
    requires fit { fits ≡ true → Fits (places.Comma s) next }
    ensures computed { result ≡ listed s next fits }
    ensures good { IfSome result (λ move. IsGood (places.Comma s) next move) }
{
    match next {
        Some(TokenKind::Number { value, digits }) if fits => {
            listed_number(s, written(value, digits))
        }
        Some(TokenKind::Month(month)) if fits => take(Place::Month(month)),
        Some(TokenKind::Weekday(weekday)) if fits => take(Place::Weekday(weekday)),
        Some(TokenKind::Time { hour, minute }) if fits => take(Place::Time(clock(hour, minute))),
        _ => None,
    }
}

// The list goes on with a number.
fn listed_number(s: Stage, n: Digits) -> Option<Move>
    ensures { result ≡ listed_number s n }
{
    match s {
        Stage::Years => take(Place::ListedYear(n)),
        Stage::MonthDays => take(Place::DateYear(n)),
        Stage::Weeks => take(Place::Week(n)),
        _ => None,
    }
}

// A later part of a rule begins.
fn later(s: Stage, next: Option<TokenKind>, fits: bool) -> Option<Move>
    requires fit { fits ≡ true → Fits (places.After s) next }
    ensures computed { result ≡ later s next fits }
    ensures good { IfSome result (λ move. IsLater s next move) }
{
    match next {
        Some(TokenKind::Month(month)) if fits && s.precedes(Stage::MonthDays) => {
            complete(Piece::Kind, Place::Month(month))
        }
        Some(TokenKind::Week) if s.precedes(Stage::Weeks) => {
            complete(Piece::Kind, Place::WeekWord)
        }
        Some(TokenKind::Weekday(weekday)) if fits && s.precedes(Stage::Weekdays) => {
            complete(Piece::Kind, Place::Weekday(weekday))
        }
        Some(TokenKind::Time { hour, minute }) if fits && s.precedes(Stage::Times) => {
            take(Place::Time(clock(hour, minute)))
        }
        Some(TokenKind::Open) if s.precedes(Stage::Modifier) => {
            take(Place::After(Stage::Modifier))
        }
        Some(TokenKind::Closed) if s.precedes(Stage::Modifier) => {
            complete(Piece::Closed, Place::After(Stage::Modifier))
        }
        _ => None,
    }
}
