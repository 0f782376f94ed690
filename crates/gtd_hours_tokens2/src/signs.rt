//! Signs and comments of opening hours, and the loose spaces.

ghost use Rattle.std.specs.Prelude.{◌≡◌, ◌+◌, ◌≤◌, IfOk, IfSome, length};
ghost use Rattle.gtd_hours_tokens2.specs.Signs as signs;

use crate::found::Found;
use crate::token::{TokenFaultKind, TokenKind};

/// The sign or the comment that begins with this byte and goes on with these.
pub(crate) fn sign_front(byte: u8, rest: &[u8]) -> Result<Found, TokenFaultKind>
    ensures front { result ≡ signs.sign_front byte rest.now }
    ensures some { IfOk result (λ x. 1 ≤ x.length) }
    ensures within { IfOk result (λ x. x.length ≤ length rest.now + 1) }
{
    match byte {
        b'"' => comment(false, quoted(false, 1, rest)),
        b'|' => bars_front(rest),
        226 => wide_front(rest),
        _ => sign(sign_of(byte)),
    }
}

fn sign(kind: Option<TokenKind>) -> Result<Found, TokenFaultKind>
    ensures front { result ≡ signs.sign kind }
    ensures one { IfOk result (λ x. x.length ≡ 1) }
{
    match kind {
        None => Err(TokenFaultKind::BadToken),
        Some(kind) => Ok(Found {
            kind,
            length: 1,
            is_loose: false,
        }),
    }
}

fn sign_of(byte: u8) -> Option<TokenKind>
    ensures { result ≡ signs.sign_of byte }
{
    match byte {
        b',' => Some(TokenKind::Comma),
        b';' => Some(TokenKind::Semicolon),
        b'-' => Some(TokenKind::Dash),
        b'/' => Some(TokenKind::Slash),
        b':' => Some(TokenKind::Colon),
        b'[' => Some(TokenKind::Open),
        b']' => Some(TokenKind::Close),
        b'+' => Some(TokenKind::Plus),
        b'(' => Some(TokenKind::Paren),
        b')' => Some(TokenKind::Unparen),
        _ => None,
    }
}

// The second bar of `||`, after the first.
fn bars_front(rest: &[u8]) -> Result<Found, TokenFaultKind>
    ensures front { result ≡ signs.bars_front rest.now }
    ensures some { IfOk result (λ x. 1 ≤ x.length) }
    ensures within { IfOk result (λ x. x.length ≤ length rest.now + 1) }
{
    match rest {
        [b'|', ..] => Ok(Found {
            kind: TokenKind::Bars,
            length: 2,
            is_loose: false,
        }),
        _ => Err(TokenFaultKind::BadToken),
    }
}

// Whether these are the second and third byte of a dash of a text processor.
fn is_dash(second: u8, third: u8) -> bool
    ensures { result ≡ signs.is_dash second third }
{
    (second == 128 && (144 <= third && third <= 148)) || (second == 136 && third == 146)
}

// Whether these are the second and third byte of a quote of a text processor.
fn is_quote(second: u8, third: u8) -> bool
    ensures { result ≡ signs.is_quote second third }
{
    second == 128 && (156 <= third && third <= 158)
}

fn quote_length(rest: &[u8]) -> usize
    ensures count { result ≡ signs.quote_length rest.now }
    ensures within { result ≤ length rest.now + 1 }
{
    match rest {
        [second, third, ..] => { if is_quote(*second, *third) { 3 } else { 0 } }
        _ => 0,
    }
}

// How many bytes the sign has that ends a comment, if one begins with this byte and goes on with these.
fn end_length(wide: bool, byte: u8, rest: &[u8]) -> usize
    ensures count { result ≡ signs.end_length wide byte rest.now }
    ensures within { result ≤ length rest.now + 1 }
{
    if byte == b'"' {
        1
    } else if wide && byte == 226 {
        quote_length(rest)
    } else {
        0
    }
}

fn is_control(byte: u8) -> bool
    ensures { result ≡ signs.is_control byte }
{
    byte < 32 || byte == 127
}

// How many bytes a comment has, with its first quote of so many.
fn quoted(wide: bool, first: usize, bytes: &[u8]) -> Option<usize>
    requires few { first ≤ 3 }
    ensures count { result ≡ signs.quoted wide first bytes.now }
    ensures more { IfSome result (λ n. first ≤ n) }
    ensures within { IfSome result (λ n. n ≤ first + length bytes.now) }
{
    let mut rest = bytes;
    let mut passed = first;
    while let Some((byte, later)) = rest.split_first() {
        let end = end_length(wide, *byte, later);
        if end > 0 {
            return Some(passed + end);
        }
        if is_control(*byte) {
            return None;
        }
        passed += 1;
        rest = later;
    }
    None
}

fn comment(is_loose: bool, length: Option<usize>) -> Result<Found, TokenFaultKind>
    ensures { result ≡ signs.comment is_loose length }
{
    match length {
        None => Err(TokenFaultKind::BadToken),
        Some(length) => Ok(Found {
            kind: TokenKind::Comment,
            length,
            is_loose,
        }),
    }
}

// A dash or a comment of a text processor, after its first byte.
fn wide_front(rest: &[u8]) -> Result<Found, TokenFaultKind>
    ensures front { result ≡ signs.wide_front rest.now }
    ensures some { IfOk result (λ x. 1 ≤ x.length) }
    ensures within { IfOk result (λ x. x.length ≤ length rest.now + 1) }
{
    match rest {
        [second, third, later @ ..] => {
            if is_dash(*second, *third) {
                return Ok(Found {
                    kind: TokenKind::Dash,
                    length: 3,
                    is_loose: true,
                });
            }
            if is_quote(*second, *third) {
                return comment(true, quoted(true, 3, later));
            }
            Err(TokenFaultKind::BadToken)
        }
        _ => Err(TokenFaultKind::BadToken),
    }
}

/// How many bytes the loose space has that begins with this byte and goes on with these, none if there is none.
pub(crate) fn loose_space(byte: u8, rest: &[u8]) -> usize
    ensures count { result ≡ signs.loose_space byte rest.now }
    ensures within { result ≤ length rest.now + 1 }
{
    match byte {
        b'\t' => 1,
        194 => second_of_two(rest),
        226 => last_of_three(rest),
        _ => 0,
    }
}

fn second_of_two(rest: &[u8]) -> usize
    ensures count { result ≡ signs.second_of_two rest.now }
    ensures within { result ≤ length rest.now + 1 }
{
    match rest {
        [160, ..] => 2,
        _ => 0,
    }
}

fn last_of_three(rest: &[u8]) -> usize
    ensures count { result ≡ signs.last_of_three rest.now }
    ensures within { result ≤ length rest.now + 1 }
{
    match rest {
        [second, third, ..] => {
            if *second == 128 && *third == 175 {
                3
            } else {
                0
            }
        }
        _ => 0,
    }
}
