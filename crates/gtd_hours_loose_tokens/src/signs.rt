//! The signs of opening hours, and the spaces.

ghost use Rattle.std.specs.Prelude.{◌≡◌, ◌+◌, ◌≤◌, IfSome, length};
ghost use Rattle.gtd_hours_loose_tokens.specs.Signs.{bars_front, comment_length, end_length, is_dash, is_quote, last_of_three};
ghost use Rattle.gtd_hours_loose_tokens.specs.Signs.{mark_front, other_space, quote_length, quoted_length, second_of_two};
ghost use Rattle.gtd_hours_loose_tokens.specs.Signs.{sign_front, sign_of, space_length};

use crate::runs::comment_bytes;
use crate::token::LooseKind;

/// The sign or the comment that begins with this byte and goes on with these, and its length.
pub fn sign_front(byte: u8, rest: &[u8]) -> Option<(LooseKind, usize)>
    ensures front { result ≡ sign_front byte rest.now }
    ensures some { IfSome result (λ x. 1 ≤ x.1) }
    ensures within { IfSome result (λ x. x.1 ≤ length rest.now + 1) }
{
    match byte {
        b'"' => Some((LooseKind::Comment, comment_length(rest))),
        b'|' => bars_front(rest),
        226 => mark_front(rest),
        _ => match sign_of(byte) {
            Some(kind) => Some((kind, 1)),
            None => None,
        },
    }
}

// The second bar of `||`, after the first.
fn bars_front(rest: &[u8]) -> Option<(LooseKind, usize)>
    ensures front { result ≡ bars_front rest.now }
    ensures some { IfSome result (λ x. 1 ≤ x.1) }
    ensures within { IfSome result (λ x. x.1 ≤ length rest.now + 1) }
{
    match rest {
        [b'|', ..] => Some((LooseKind::Unread, 2)),
        _ => None,
    }
}

// How long a comment is, with its first quote, after which come these bytes.
fn comment_length(rest: &[u8]) -> usize
    ensures count { result ≡ comment_length rest.now }
    ensures some { 1 ≤ result }
    ensures within { result ≤ length rest.now + 1 }
{
    let inside = comment_bytes(rest);
    if inside < rest.len() {
        inside + 2
    } else {
        inside + 1
    }
}

// Whether these are the second and third byte of a dash of a text processor.
fn is_dash(second: u8, third: u8) -> bool
    ensures { result ≡ is_dash second third }
{
    (second == 128 && (144 <= third && third <= 148)) || (second == 136 && third == 146)
}

// Whether these are the second and third byte of a quote of a text processor.
fn is_quote(second: u8, third: u8) -> bool
    ensures { result ≡ is_quote second third }
{
    second == 128 && (156 <= third && third <= 158)
}

fn quote_length(rest: &[u8]) -> usize
    ensures count { result ≡ quote_length rest.now }
    ensures within { result ≤ length rest.now + 1 }
{
    match rest {
        [second, third, ..] => { if is_quote(*second, *third) { 3 } else { 0 } }
        _ => 0,
    }
}

/// How many bytes the sign has that ends a comment of a text processor, if one begins with this byte and goes on with these.
pub fn end_length(byte: u8, rest: &[u8]) -> usize
    ensures count { result ≡ end_length byte rest.now }
    ensures within { result ≤ length rest.now + 1 }
{
    match byte {
        b'"' => 1,
        226 => quote_length(rest),
        _ => 0,
    }
}

// How long a comment of a text processor is behind its first quote.
fn quoted_length(bytes: &[u8]) -> usize
    ensures count { result ≡ quoted_length bytes.now }
    ensures within { result ≤ length bytes.now }
{
    let mut rest = bytes;
    let mut passed = 0;
    while let Some((byte, later)) = rest.split_first() {
        let end = end_length(*byte, later);
        if end > 0 {
            return passed + end;
        }
        passed += 1;
        rest = later;
    }
    passed
}

// A dash or a comment of a text processor, behind its first byte.
fn mark_front(rest: &[u8]) -> Option<(LooseKind, usize)>
    ensures front { result ≡ mark_front rest.now }
    ensures some { IfSome result (λ x. 1 ≤ x.1) }
    ensures within { IfSome result (λ x. x.1 ≤ length rest.now + 1) }
{
    match rest {
        [second, third, later @ ..] => {
            if is_dash(*second, *third) {
                Some((LooseKind::Dash, 3))
            } else if is_quote(*second, *third) {
                Some((LooseKind::Quoted, quoted_length(later) + 3))
            } else {
                None
            }
        }
        _ => None,
    }
}

fn sign_of(byte: u8) -> Option<LooseKind>
    ensures { result ≡ sign_of byte }
{
    match byte {
        b',' => Some(LooseKind::Comma),
        b';' => Some(LooseKind::Semicolon),
        b'-' => Some(LooseKind::Dash),
        b'/' => Some(LooseKind::Slash),
        b':' => Some(LooseKind::Colon),
        b'[' => Some(LooseKind::OpenBracket),
        b']' => Some(LooseKind::CloseBracket),
        b'(' => Some(LooseKind::OpenParenthesis),
        b')' => Some(LooseKind::CloseParenthesis),
        b'+' => Some(LooseKind::Unread),
        _ => None,
    }
}

/// How many bytes the space has with which these begin, none if they begin with no space.
pub fn space_length(bytes: &[u8]) -> usize
    ensures count { result ≡ space_length bytes.now }
    ensures within { result ≤ length bytes.now }
{
    match bytes {
        [] => 0,
        [byte, rest @ ..] => {
            if *byte == b' ' {
                1
            } else {
                other_space(*byte, rest)
            }
        }
    }
}

/// How many bytes a space other than the one of ASCII has that begins with this byte and goes on with these.
pub fn other_space(byte: u8, rest: &[u8]) -> usize
    ensures count { result ≡ other_space byte rest.now }
    ensures within { result ≤ length rest.now + 1 }
{
    match byte {
        b'\t' => 1,
        194 => second_of_two(rest),
        226 => last_of_three(rest),
        _ => 0,
    }
}

fn second_of_two(rest: &[u8]) -> usize
    ensures count { result ≡ second_of_two rest.now }
    ensures within { result ≤ length rest.now + 1 }
{
    match rest {
        [160, ..] => 2,
        _ => 0,
    }
}

fn last_of_three(rest: &[u8]) -> usize
    ensures count { result ≡ last_of_three rest.now }
    ensures within { result ≤ length rest.now + 1 }
{
    match rest {
        [second, third, ..] => {
            if *second == 128 && *third == 175 {
                3
            } else {
                0
            }
        }
        _ => 0,
    }
}
