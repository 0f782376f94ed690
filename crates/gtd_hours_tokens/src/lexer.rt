//! From bytes to tokens.

ghost use Rattle.std.specs.Prelude.{◌≡◌, ◌≤◌, ◌<◌, length, IfErr, IfOk, IfSome, List};
ghost use Rattle.gtd_hours_tokens.specs.Lexing.{AreTokens, IsNext, IsTokenFault};
ghost use Rattle.gtd_hours_tokens.specs.TokenAt.{front, token_at};
ghost use Rattle.gtd_hours_tokens.specs.facts.WholeText.{HasRead};
ghost use Rattle.gtd_hours_tokens.specs.declared.token.Token.{Token};

use crate::numbers::number_front;
use crate::signs::sign_front;
use crate::token::{BadToken, Token, TokenKind};
use crate::words::word_front;
use gtd_scan::{after_digits, after_spaces, digits_at_front, letters_at_front};

/// The next token from a place on: the first after spaces, `None` where at most spaces are left, or the place of the first
/// byte after spaces where no token begins. The next call begins at the end of the token. Takes no memory.
pub fn next_token(text: &[u8], place: usize) -> Result<Option<Token>, BadToken>
    requires { place ≤ length text.now }
    ensures next { IsNext text.now place result }
    // A token has a byte at least, and ends in the text.
    ensures past { IfOk result (λ next. IfSome next (λ token. place < token.to)) }
    ensures inside { IfOk result (λ next. IfSome next (λ token. token.to ≤ length text.now)) }
{
    let from = after_spaces(text, place);
    if from == text.len() {
        return Ok(None);
    }
    match token_at(text, from) {
        Some(token) => Ok(Some(token)),
        None => Err(BadToken { place: from }),
    }
}

/// Whether a text that is tokens up to a place is tokens to its end, or the place of the first byte that is no space and with
/// which no token begins. Takes no memory.
pub fn check_tokens(text: &[u8], from: usize) -> Result<(), BadToken>
    requires inside { from ≤ length text.now }
    requires read { HasRead text.now from }
    ensures tokens { IfOk result (λ done. (tokens : List Token) × AreTokens text.now tokens) }
    ensures fault { IfErr result (λ bad. IsTokenFault text.now bad.place) }
{
    let mut place = from;
    while let Some(token) = next_token(text, place)? {
        place = token.to;
    }
    Ok(())
}

// The token that begins at this place, if one does.
fn token_at(text: &[u8], place: usize) -> Option<Token>
    requires { place ≤ length text.now }
    ensures { result ≡ token_at text.now place }
{
    let (kind, length) = front(&text[place..])?;
    Some(Token {
        kind,
        from: place,
        to: place + length,
    })
}

// The token that the bytes begin with, and its length.
fn front(bytes: &[u8]) -> Option<(TokenKind, usize)>
    ensures { result ≡ front bytes.now }
{
    match bytes {
        [] => None,
        [byte, rest @ ..] => {
            if byte.is_ascii_alphabetic() {
                word_front(letters_at_front(bytes))
            } else if byte.is_ascii_digit() {
                number_front(digits_at_front(bytes), after_digits(bytes))
            } else {
                sign_front(*byte, rest)
            }
        }
    }
}
