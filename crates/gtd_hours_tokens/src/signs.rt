//! The signs of opening hours.

ghost use Rattle.std.specs.Prelude.{◌≡◌, ◌≤◌, length};
ghost use Rattle.std.specs.List.{prefix_len};
ghost use Rattle.gtd_hours_tokens.specs.Lexing.{is_no_quote};
ghost use Rattle.gtd_hours_tokens.specs.TokenAt.{bars_front, comment_length, sign_front, sign_of};

use crate::token::TokenKind;

/// The sign or the comment that begins with this byte and goes on with these, and its length.
pub fn sign_front(byte: u8, rest: &[u8]) -> Option<(TokenKind, usize)>
    ensures { result ≡ sign_front byte rest.now }
{
    match byte {
        b'"' => Some((TokenKind::Unsupported, comment_length(rest))),
        b'|' => bars_front(rest),
        _ => match sign_of(byte) {
            Some(kind) => Some((kind, 1)),
            None => None,
        },
    }
}

// The second bar of `||`, after the first.
fn bars_front(rest: &[u8]) -> Option<(TokenKind, usize)>
    ensures { result ≡ bars_front rest.now }
{
    match rest {
        [b'|', ..] => Some((TokenKind::Unsupported, 2)),
        _ => None,
    }
}

// How long a comment is, with its first quote, after which come these bytes.
fn comment_length(rest: &[u8]) -> usize
    ensures { result ≡ comment_length rest.now }
{
    let inside = comment_bytes(rest);
    if inside < rest.len() {
        inside + 2
    } else {
        inside + 1
    }
}

// How many bytes a comment holds, after its first quote.
fn comment_bytes(bytes: &[u8]) -> usize
    ensures count { result ≡ prefix_len is_no_quote bytes.now }
    ensures within { result ≤ length bytes.now }
{
    bytes.iter().take_while(|byte| **byte != b'"').count()
}

fn sign_of(byte: u8) -> Option<TokenKind>
    ensures { result ≡ sign_of byte }
{
    match byte {
        b',' => Some(TokenKind::Comma),
        b';' => Some(TokenKind::Semicolon),
        b'-' => Some(TokenKind::Dash),
        b'/' => Some(TokenKind::Slash),
        b':' => Some(TokenKind::Colon),
        b'[' => Some(TokenKind::OpenBracket),
        b']' => Some(TokenKind::CloseBracket),
        b'+' => Some(TokenKind::Plus),
        _ => None,
    }
}
