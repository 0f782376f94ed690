//! From bytes to tokens and loose spaces.

ghost use Rattle.std.specs.Prelude.{◌≡◌, ◌+◌, ◌≤◌, ◌<◌, ◌^◌, IfOk, IfSome, drop, length};
ghost use Rattle.gtd_hours_tokens2.specs.Clock as clock;
ghost use Rattle.gtd_hours_tokens2.specs.Tokens as tokens;
ghost use Rattle.gtd_hours_tokens2.specs.Cursors.{IsRawNext};
ghost use Rattle.gtd_hours_tokens2.specs.declared.token.Piece.TheVariants as pieces;

use crate::clock::digits_front;
use crate::found::Found;
use crate::runs::{split_digits, split_letters};
use crate::signs::{loose_space, sign_front};
use crate::token::{DayNames, Piece, Token, TokenFault, TokenFaultKind, TokenKind};
use crate::words::{Name, is_capital, is_lower, is_upper, name_of};

/// What bytes go on with.
#[derive(Clone, Copy)]
pub(crate) enum Raw {
    /// A plain space.
    Blank,
    /// A loose space of so many bytes.
    Space(usize),
    /// A token.
    Token(Found),
    /// No token, or one that is refused.
    Fault(TokenFaultKind),
}

fn found(kind: TokenKind, used: usize, is_loose: bool) -> Result<Found, TokenFaultKind>
    ensures { result ≡ clock.found kind used is_loose }
{
    Ok(Found {
        kind,
        length: used,
        is_loose,
    })
}

// A full stop directly after the name of a month or weekday belongs to it.
fn with_stop(
    kind: TokenKind,
    is_loose: bool,
    used: usize,
    rest: &[u8],
) -> Result<Found, TokenFaultKind>
    requires room { used + length rest.now < 2 ^ 63 }
    ensures front { result ≡ tokens.with_stop kind is_loose used rest.now }
    ensures more { IfOk result (λ x. used ≤ x.length) }
    ensures within { IfOk result (λ x. x.length ≤ used + length rest.now) }
{
    match rest {
        [] => found(kind, used, is_loose),
        [byte, ..] => {
            if *byte == b'.' {
                found(kind, used + 1, true)
            } else {
                found(kind, used, is_loose)
            }
        }
    }
}

fn named(kind: TokenKind, is_loose: bool, used: usize, rest: &[u8]) -> Result<Found, TokenFaultKind>
    requires room { used + length rest.now < 2 ^ 63 }
    ensures front { result ≡ tokens.named kind is_loose used rest.now }
    ensures more { IfOk result (λ x. used ≤ x.length) }
    ensures within { IfOk result (λ x. x.length ≤ used + length rest.now) }
{
    match kind {
        TokenKind::Month(_) => with_stop(kind, is_loose, used, rest),
        TokenKind::Weekday(_) => with_stop(kind, is_loose, used, rest),
        _ => found(kind, used, is_loose),
    }
}

fn german(names: DayNames, weekday: u8, used: usize, rest: &[u8]) -> Result<Found, TokenFaultKind>
    requires room { used + length rest.now < 2 ^ 63 }
    ensures front { result ≡ tokens.german names weekday used rest.now }
    ensures more { IfOk result (λ x. used ≤ x.length) }
    ensures within { IfOk result (λ x. x.length ≤ used + length rest.now) }
{
    match names {
        DayNames::Unsaid => Err(TokenFaultKind::Ambiguous),
        DayNames::German => with_stop(TokenKind::Weekday(weekday), true, used, rest),
    }
}

#[inline(always)]
fn word_front(
    names: DayNames,
    letters: &[u8],
    rest: &[u8],
    name: Option<Name>,
) -> Result<Found, TokenFaultKind>
    requires room { length letters.now + length rest.now < 2 ^ 63 }
    ensures front { result ≡ tokens.word_front names letters.now rest.now name }
    ensures more { IfOk result (λ x. length letters.now ≤ x.length) }
    ensures within { IfOk result (λ x. x.length ≤ length letters.now + length rest.now) }
{
    let used = letters.len();
    match name {
        None => Err(TokenFaultKind::BadToken),
        Some(Name::Capital(kind)) => named(kind, !is_capital(letters), used, rest),
        Some(Name::Upper(kind)) => named(kind, !is_upper(letters), used, rest),
        Some(Name::Lower(kind)) => named(kind, !is_lower(letters), used, rest),
        Some(Name::Other(kind)) => named(kind, true, used, rest),
        Some(Name::German(weekday)) => german(names, weekday, used, rest),
    }
}

// The token that begins with this byte and goes on with these.
#[inline(always)]
fn front(names: DayNames, bytes: &[u8]) -> Result<Found, TokenFaultKind>
    ensures front { result ≡ tokens.front names bytes.now }
    ensures some { IfOk result (λ x. 1 ≤ x.length) }
    ensures within { IfOk result (λ x. x.length ≤ length bytes.now) }
{
    match bytes {
        [] => Err(TokenFaultKind::BadToken),
        [byte, rest @ ..] => {
            if byte.is_ascii_alphabetic() {
                let (letters, later) = split_letters(bytes);
                word_front(names, letters, later, name_of(letters))
            } else if byte.is_ascii_digit() {
                let (digits, later) = split_digits(bytes);
                digits_front(digits, later)
            } else {
                sign_front(*byte, rest)
            }
        }
    }
}

// What bytes go on with, of which there are some.
#[inline(always)]
fn raw_at(names: DayNames, bytes: &[u8]) -> Raw
    requires some { 1 ≤ length bytes.now }
    ensures raw { result ≡ tokens.raw_front names bytes.now }
    ensures some { 1 ≤ tokens.raw_length result }
    ensures within { tokens.raw_length result ≤ length bytes.now }
{
    match bytes {
        [] => Raw::Fault(TokenFaultKind::BadToken),
        [byte, rest @ ..] => {
            if *byte == b' ' {
                return Raw::Blank;
            }
            let space = loose_space(*byte, rest);
            if space > 0 {
                return Raw::Space(space);
            }
            match front(names, bytes) {
                Ok(found) => Raw::Token(found),
                Err(kind) => Raw::Fault(kind),
            }
        }
    }
}

/// The next token or loose space from a place of a text on, and the place after it.
#[inline(always)]
pub(crate) fn next_raw(
    names: DayNames,
    text: &[u8],
    from: usize,
) -> Result<Option<(Piece, usize)>, TokenFault>
    requires inside { from ≤ length text.now }
    requires room { length text.now ≤ 65_536 }
    ensures next { IsRawNext names text.now from result }
    ensures past { IfOk result (λ next. IfSome next (λ x. from < x.1)) }
    ensures inside { IfOk result (λ next. IfSome next (λ x. x.1 ≤ length text.now)) }
{
    let mut place = from;
    while place < text.len() {
        let rest = bytes_from(text, place);
        match raw_at(names, rest) {
            Raw::Blank => place += 1,
            Raw::Space(length) => return Ok(Some((Piece::Space(place), place + length))),
            Raw::Token(found) => return Ok(Some(placed(place, found))),
            Raw::Fault(kind) => return Err(TokenFault { kind, place }),
        }
    }
    Ok(None)
}

fn bytes_from(text: &[u8], place: usize) -> &[u8]
    requires { place ≤ length text.now }
    ensures { result.now ≡ drop place text.now }
{
    &text[place..]
}

fn placed(place: usize, found: Found) -> (Piece, usize)
    requires some { 1 ≤ found.length }
    requires room { place + found.length ≤ 65_536 }
    ensures piece { result.0 ≡ pieces.Token (tokens.placed place found) }
    ensures to { result.1 ≡ place + found.length }
{
    let to = place + found.length;
    let token = Token {
        kind: found.kind,
        from: place as u16,
        to: to as u32,
        is_loose: found.is_loose,
    };
    (Piece::Token(token), to)
}
