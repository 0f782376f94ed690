//! Single tokens of a range, and their faults.

ghost use Rattle.std.specs.Prelude.{◌≡◌, ◌≤◌, Ok};
ghost use Rattle.gtd_hours_moving.specs.Kinds.{is_bracket, is_closing, is_day};
ghost use Rattle.gtd_hours_moving.specs.Reading.{behind_read, days_front, fault_at, is_up_to, misfit, misfit_kind, month_at};
ghost use Rattle.gtd_hours_moving.specs.Reading.{month_front, number_at, place_front, token_front, weekday_of, year_at};
ghost use Rattle.gtd_hours_moving.specs.Reading.{year_front, year_in};

use crate::kinds::{is_bracket, is_closing, is_day, is_weekday, later};
use gtd_hours_grammar::{FaultKind, HoursFault};
use gtd_hours_tokens::{Token, TokenKind};

/// A fault of this kind at a place.
pub fn fault_at(kind: FaultKind, place: usize) -> HoursFault
    ensures { result ≡ fault_at kind place }
{
    HoursFault { kind, place }
}

// What is wrong with a token that cannot stand where it does.
fn misfit_kind(kind: TokenKind) -> FaultKind
    ensures { result ≡ misfit_kind kind }
{
    match kind {
        TokenKind::Unsupported => FaultKind::Unsupported,
        _ => FaultKind::Unexpected,
    }
}

/// What is wrong where tokens do not go on: with the first of them, or that they end too early.
pub fn misfit(tokens: &[Token], end: usize) -> HoursFault
    ensures { result ≡ misfit tokens.now end }
{
    match tokens.first() {
        None => fault_at(FaultKind::Incomplete, end),
        Some(token) => fault_at(misfit_kind(token.kind), token.from),
    }
}

/// The first token, if it is an opening bracket.
pub fn bracket_front(tokens: &[Token], end: usize) -> Result<Token, HoursFault>
    ensures { result ≡ token_front is_bracket tokens.now end }
{
    match tokens {
        [token, ..] => {
            if is_bracket(token.kind) {
                Ok(*token)
            } else {
                Err(misfit(tokens, end))
            }
        }
        [] => Err(misfit(tokens, end)),
    }
}

/// The first token, if it is a closing bracket.
pub fn closing_front(tokens: &[Token], end: usize) -> Result<Token, HoursFault>
    ensures { result ≡ token_front is_closing tokens.now end }
{
    match tokens {
        [token, ..] => {
            if is_closing(token.kind) {
                Ok(*token)
            } else {
                Err(misfit(tokens, end))
            }
        }
        [] => Err(misfit(tokens, end)),
    }
}

/// The first token, if it is `day` or `days`.
pub fn day_front(tokens: &[Token], end: usize) -> Result<Token, HoursFault>
    ensures { result ≡ token_front is_day tokens.now end }
{
    match tokens {
        [token, ..] => {
            if is_day(token.kind) {
                Ok(*token)
            } else {
                Err(misfit(tokens, end))
            }
        }
        [] => Err(misfit(tokens, end)),
    }
}

fn month_at(from: usize, kind: TokenKind) -> Result<u8, HoursFault>
    ensures { result ≡ month_at from kind }
{
    match kind {
        TokenKind::Month(month) => Ok(month),
        _ => Err(fault_at(misfit_kind(kind), from)),
    }
}

/// The month that the tokens begin with.
pub fn month_front(tokens: &[Token], end: usize) -> Result<u8, HoursFault>
    ensures { result ≡ month_front tokens.now end }
{
    match tokens {
        [token, ..] => month_at(token.from, token.kind),
        [] => Err(misfit(tokens, end)),
    }
}

/// The weekday that a token is.
pub fn weekday_of(kind: TokenKind) -> u8
    ensures { result ≡ weekday_of kind }
{
    match kind {
        TokenKind::Weekday(weekday) => weekday,
        _ => 0,
    }
}

// A number of at most so many digits, from 1 to another number.
fn is_up_to(digits: u8, most: u8, value: u16, count: u8) -> bool
    ensures { result ≡ is_up_to digits most value count }
{
    count <= digits && 1 <= value && value <= u16::from(most)
}

fn small(value: u16) -> u8
    requires { value ≤ 255 }
    ensures { result ≡ value }
{
    value as u8
}

/// The number that a token is: of at most so many digits, and from 1 to another number.
pub fn number_at(digits: u8, most: u8, from: usize, kind: TokenKind) -> Result<u8, HoursFault>
    ensures { result ≡ number_at digits most from kind }
{
    match kind {
        TokenKind::Number {
            value,
            digits: count,
        } => {
            if is_up_to(digits, most, value, count) {
                Ok(small(value))
            } else {
                Err(fault_at(FaultKind::Range, from))
            }
        }
        _ => Err(fault_at(misfit_kind(kind), from)),
    }
}

/// The place of a weekday, 1 to 4.
pub fn place_front(tokens: &[Token], end: usize) -> Result<u8, HoursFault>
    ensures { result ≡ place_front tokens.now end }
{
    match tokens {
        [token, ..] => number_at(1, 4, token.from, token.kind),
        [] => Err(misfit(tokens, end)),
    }
}

/// The days of the offset of a place, 1 to 27.
pub fn place_days_front(tokens: &[Token], end: usize) -> Result<u8, HoursFault>
    ensures { result ≡ days_front 2 27 tokens.now end }
{
    match tokens {
        [token, ..] => {
            if is_weekday(token.kind) {
                Err(fault_at(FaultKind::Unsupported, token.from))
            } else {
                number_at(2, 27, token.from, token.kind)
            }
        }
        [] => Err(misfit(tokens, end)),
    }
}

// A number of one to three digits, from 1 to 366.
fn days_at(from: usize, kind: TokenKind) -> Result<u16, HoursFault>
    ensures { result ≡ number_at 3 366 from kind }
{
    match kind {
        TokenKind::Number {
            value,
            digits: count,
        } => {
            if count <= 3 && 1 <= value && value <= 366 {
                Ok(value)
            } else {
                Err(fault_at(FaultKind::Range, from))
            }
        }
        _ => Err(fault_at(misfit_kind(kind), from)),
    }
}

/// The days of the offset of Easter, 1 to 366.
pub fn easter_days_front(tokens: &[Token], end: usize) -> Result<u16, HoursFault>
    ensures { result ≡ days_front 3 366 tokens.now end }
{
    match tokens {
        [token, ..] => {
            if is_weekday(token.kind) {
                Err(fault_at(FaultKind::Unsupported, token.from))
            } else {
                days_at(token.from, token.kind)
            }
        }
        [] => Err(misfit(tokens, end)),
    }
}

fn year_in(from: usize, value: u16) -> Result<Option<u16>, HoursFault>
    ensures { result ≡ year_in from value }
{
    if 1800 <= value && value <= 2799 {
        Ok(Some(value))
    } else {
        Err(fault_at(FaultKind::Range, from))
    }
}

fn year_at(from: usize, kind: TokenKind) -> Result<Option<u16>, HoursFault>
    ensures { result ≡ year_at from kind }
{
    match kind {
        TokenKind::Number { value, digits } => {
            if digits == 4 {
                year_in(from, value)
            } else {
                Ok(None)
            }
        }
        _ => Ok(None),
    }
}

/// The year that the tokens begin with, if they begin with a number of four digits.
pub fn year_front(tokens: &[Token]) -> Result<Option<u16>, HoursFault>
    ensures { result ≡ year_front tokens.now }
{
    match tokens {
        [token, ..] => year_at(token.from, token.kind),
        [] => Ok(None),
    }
}

/// What is behind a year that has been read, if there is one.
pub fn behind_read(year: Option<u16>, tokens: &[Token]) -> &[Token]
    ensures { result.now ≡ behind_read year tokens.now }
{
    match year {
        None => tokens,
        Some(_) => later(tokens),
    }
}
