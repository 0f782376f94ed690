//! What tokens are, and with which ones tokens begin.

ghost use Rattle.std.specs.Prelude.{◌≡◌};
ghost use Rattle.gtd_hours_moving.specs.Kinds.{begins, is_bracket, is_closing, is_dash, is_day, is_month, is_number, is_plus};
ghost use Rattle.gtd_hours_moving.specs.Kinds.{is_sign, is_weekday, is_year, later};

use gtd_hours_tokens::{Token, TokenKind};

/// Whether it is a month.
pub fn is_month(kind: TokenKind) -> bool
    ensures { result ≡ is_month kind }
{
    match kind {
        TokenKind::Month(_) => true,
        _ => false,
    }
}

/// Whether it is a weekday.
pub fn is_weekday(kind: TokenKind) -> bool
    ensures { result ≡ is_weekday kind }
{
    match kind {
        TokenKind::Weekday(_) => true,
        _ => false,
    }
}

/// Whether it is a number.
pub fn is_number(kind: TokenKind) -> bool
    ensures { result ≡ is_number kind }
{
    match kind {
        TokenKind::Number { .. } => true,
        _ => false,
    }
}

/// Whether it is a dash.
pub fn is_dash(kind: TokenKind) -> bool
    ensures { result ≡ is_dash kind }
{
    match kind {
        TokenKind::Dash => true,
        _ => false,
    }
}

/// Whether it is `day` or `days`.
pub fn is_day(kind: TokenKind) -> bool
    ensures { result ≡ is_day kind }
{
    match kind {
        TokenKind::Day => true,
        _ => false,
    }
}

/// Whether it is an opening bracket.
pub fn is_bracket(kind: TokenKind) -> bool
    ensures { result ≡ is_bracket kind }
{
    match kind {
        TokenKind::OpenBracket => true,
        _ => false,
    }
}

/// Whether it is a closing bracket.
pub fn is_closing(kind: TokenKind) -> bool
    ensures { result ≡ is_closing kind }
{
    match kind {
        TokenKind::CloseBracket => true,
        _ => false,
    }
}

// Whether it is a number of four digits.
fn is_year(kind: TokenKind) -> bool
    ensures { result ≡ is_year kind }
{
    match kind {
        TokenKind::Number { digits, .. } => digits == 4,
        _ => false,
    }
}

// Whether it is a plus.
fn is_plus(kind: TokenKind) -> bool
    ensures { result ≡ is_plus kind }
{
    match kind {
        TokenKind::Plus => true,
        _ => false,
    }
}

// Whether it is the sign of an offset.
fn is_sign(kind: TokenKind) -> bool
    ensures { result ≡ is_sign kind }
{
    match kind {
        TokenKind::Plus => true,
        TokenKind::Dash => true,
        _ => false,
    }
}

/// Whether the first token is a month.
pub fn begins_month(tokens: &[Token]) -> bool
    ensures { result ≡ begins is_month tokens.now }
{
    match tokens.first() {
        None => false,
        Some(token) => is_month(token.kind),
    }
}

/// Whether the first token is a weekday.
pub fn begins_weekday(tokens: &[Token]) -> bool
    ensures { result ≡ begins is_weekday tokens.now }
{
    match tokens.first() {
        None => false,
        Some(token) => is_weekday(token.kind),
    }
}

/// Whether the first token is a number.
pub fn begins_number(tokens: &[Token]) -> bool
    ensures { result ≡ begins is_number tokens.now }
{
    match tokens.first() {
        None => false,
        Some(token) => is_number(token.kind),
    }
}

/// Whether the first token is a dash.
pub fn begins_dash(tokens: &[Token]) -> bool
    ensures { result ≡ begins is_dash tokens.now }
{
    match tokens.first() {
        None => false,
        Some(token) => is_dash(token.kind),
    }
}

/// Whether the first token is `day` or `days`.
pub fn begins_day(tokens: &[Token]) -> bool
    ensures { result ≡ begins is_day tokens.now }
{
    match tokens.first() {
        None => false,
        Some(token) => is_day(token.kind),
    }
}

/// Whether the first token is an opening bracket.
pub fn begins_bracket(tokens: &[Token]) -> bool
    ensures { result ≡ begins is_bracket tokens.now }
{
    match tokens.first() {
        None => false,
        Some(token) => is_bracket(token.kind),
    }
}

/// Whether the first token is a closing bracket.
pub fn begins_closing(tokens: &[Token]) -> bool
    ensures { result ≡ begins is_closing tokens.now }
{
    match tokens.first() {
        None => false,
        Some(token) => is_closing(token.kind),
    }
}

/// Whether the first token is a number of four digits.
pub fn begins_year(tokens: &[Token]) -> bool
    ensures { result ≡ begins is_year tokens.now }
{
    match tokens.first() {
        None => false,
        Some(token) => is_year(token.kind),
    }
}

/// Whether the first token is a plus.
pub fn begins_plus(tokens: &[Token]) -> bool
    ensures { result ≡ begins is_plus tokens.now }
{
    match tokens.first() {
        None => false,
        Some(token) => is_plus(token.kind),
    }
}

/// Whether the first token is the sign of an offset.
pub fn begins_sign(tokens: &[Token]) -> bool
    ensures { result ≡ begins is_sign tokens.now }
{
    match tokens.first() {
        None => false,
        Some(token) => is_sign(token.kind),
    }
}

/// The tokens behind the first one.
pub fn later(tokens: &[Token]) -> &[Token]
    ensures { result.now ≡ later tokens.now }
{
    match tokens {
        [] => tokens,
        [_, rest @ ..] => rest,
    }
}
