//! From bytes to tokens.

ghost use Rattle.std.specs.Prelude.{◌≡◌, ◌+◌, ◌≤◌, ◌<◌, ◌^◌, ◌++◌, ◌∷◌, [], OnOk, IfErr, IfOk, IfSome, Ok, drop, length};
ghost use Rattle.gtd_hours_loose_tokens.specs.Lexing.{front, full_stop, is_ambiguous, tokens_of, word_front};
ghost use Rattle.gtd_hours_loose_tokens.specs.Stops.{IsFaultHere, IsFound, IsTokenStop};
ghost use Rattle.gtd_hours_loose_tokens.specs.Words.{name_of};

use crate::clock::digits_front;
use crate::signs::{sign_front, space_length};
use crate::stop::LooseStop;
use crate::token::{DayNames, LooseKind, LooseToken, TokenFault};
use crate::words::{name_of, word_of};
use gtd_scan::{after_digits, after_letters, digits_at_front, letters_at_front};
use std::alloc::{AllocError, Global};

/// The tokens of a text in letters of lower case, or the first place where one is wrong.
pub fn tokens_of(alloc: Global, names: DayNames, text: &[u8]) -> Result<Vec<LooseToken>, LooseStop>
    ensures tokens { IfOk result (λ tokens. tokens_of names text.now ≡ Ok tokens.items) }
    ensures fault { IfErr result (λ stop. IsTokenStop (tokens_of names text.now) stop) }
{
    let mut tokens = Vec::new(alloc);
    let mut place = 0;
    while place < text.len() {
        let rest = bytes_from(text, place);
        let space = space_length(rest);
        if space > 0 {
            place += space;
            continue;
        }
        let token = match token_at(names, rest, place) {
            Ok(token) => token,
            Err(bad) => return Err(LooseStop::Token(bad)),
        };
        push_token(&mut tokens, token)?;
        place = token.to;
    }
    Ok(tokens)
}

fn bytes_from(text: &[u8], place: usize) -> &[u8]
    requires { place ≤ length text.now }
    ensures { result.now ≡ drop place text.now }
{
    &text[place..]
}

fn push_token(tokens: &mut Vec<LooseToken>, token: LooseToken) -> Result<(), AllocError>
    ensures { OnOk result (tokens.new.items ≡ tokens.old.items ++ token ∷ []) }
{
    tokens.push(token)?;
    Ok(())
}

// The token that these bytes at a place begin with.
fn token_at(names: DayNames, bytes: &[u8], place: usize) -> Result<LooseToken, TokenFault>
    requires { place + length bytes.now < 2 ^ 64 }
    ensures found { IfOk result (λ token. IsFound place (front names bytes.now) token) }
    ensures within { IfOk result (λ token. token.to ≤ place + length bytes.now) }
    ensures fault { IfErr result (λ bad. IsFaultHere place (front names bytes.now) bad) }
{
    match front(names, bytes) {
        None => Err(TokenFault::BadToken { place }),
        Some((kind, used)) => {
            if is_ambiguous(kind) {
                return Err(TokenFault::Ambiguous { place });
            }
            Ok(LooseToken {
                kind,
                from: place,
                to: place + used,
            })
        }
    }
}

fn is_ambiguous(kind: LooseKind) -> bool
    ensures { result ≡ is_ambiguous kind }
{
    match kind {
        LooseKind::Ambiguous => true,
        _ => false,
    }
}

fn front(names: DayNames, bytes: &[u8]) -> Option<(LooseKind, usize)>
    ensures front { result ≡ front names bytes.now }
    ensures some { IfSome result (λ x. 1 ≤ x.1) }
    ensures within { IfSome result (λ x. x.1 ≤ length bytes.now) }
{
    match bytes {
        [] => None,
        [byte, rest @ ..] => {
            if byte.is_ascii_alphabetic() {
                let letters = letters_at_front(bytes);
                word_front(letters, after_letters(bytes), name_of(names, letters))
            } else if byte.is_ascii_digit() {
                digits_front(digits_at_front(bytes), after_digits(bytes))
            } else {
                sign_front(*byte, rest)
            }
        }
    }
}

fn word_front(letters: &[u8], rest: &[u8], name: Option<LooseKind>) -> Option<(LooseKind, usize)>
    requires some { 1 ≤ length letters.now }
    requires room { length letters.now + length rest.now < 2 ^ 63 }
    ensures front { result ≡ word_front letters.now rest.now name }
    ensures some { IfSome result (λ x. 1 ≤ x.1) }
    ensures within { IfSome result (λ x. x.1 ≤ length letters.now + length rest.now) }
{
    match name {
        Some(kind) => Some((kind, letters.len() + full_stop(rest))),
        None => match word_of(letters) {
            Some(kind) => Some((kind, letters.len())),
            None => None,
        },
    }
}

// A full stop directly behind a name belongs to it.
fn full_stop(rest: &[u8]) -> usize
    ensures count { result ≡ full_stop rest.now }
    ensures within { result ≤ length rest.now }
{
    match rest {
        [b'.', ..] => 1,
        _ => 0,
    }
}
