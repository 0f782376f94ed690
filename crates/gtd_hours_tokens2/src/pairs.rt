//! Two numbers of four digits with a dash between: years, or times.

ghost use Rattle.std.specs.Prelude.{◌≡◌};
ghost use Rattle.gtd_hours_tokens2.specs.Tokens as tokens;

use crate::token::{Token, TokenKind};

/// What came before a token.
#[derive(Clone, Copy, Debug, PartialEq, Eq)]
pub(crate) enum Before {
    /// A weekday, `]` or a holiday: two numbers after it can be no years.
    Day,
    /// The first of two times, and maybe the dash after it.
    Times,
    /// The first of two years, and maybe the dash after it.
    Years,
    /// Something else, or nothing.
    Other,
}

/// What becomes of a token.
#[derive(Clone, Copy)]
pub(crate) struct Paired {
    /// The token as it is, or as a time.
    pub token: Token,
    /// What it is to the next token.
    pub before: Before,
    /// Whether it is the first of two times.
    pub is_time: bool,
    /// Where it is, if it is the first of two years.
    pub year: Option<usize>,
}

/// The value of a number of four digits.
pub(crate) fn four(kind: TokenKind) -> Option<u16>
    ensures { result ≡ tokens.four kind }
{
    match kind {
        TokenKind::Number { value, digits } => { if digits == 4 { Some(value) } else { None } }
        _ => None,
    }
}

/// Whether it is a dash.
pub(crate) fn is_dash_kind(kind: TokenKind) -> bool
    ensures { result ≡ tokens.is_dash_kind kind }
{
    match kind {
        TokenKind::Dash => true,
        _ => false,
    }
}

fn is_clock(value: u16) -> bool
    ensures { result ≡ tokens.is_clock value }
{
    value % 100 < 60 && value <= 4800
}

fn are_times(is_day: bool, first: u16, second: u16) -> bool
    ensures { result ≡ tokens.are_times is_day first second }
{
    (first < 1800 || is_day) && (is_clock(first) && is_clock(second))
}

// The number as a time, if it can be one.
fn as_time(token: Token, value: u16) -> Token
    ensures { result ≡ tokens.as_time token value }
{
    if is_clock(value) {
        Token {
            kind: TokenKind::Time {
                hour: (value / 100) as u8,
                minute: (value % 100) as u8,
            },
            from: token.from,
            to: token.to,
            is_loose: true,
        }
    } else {
        token
    }
}

/// What a token is to the next one.
pub(crate) fn after_kind(kind: TokenKind) -> Before
    ensures { result ≡ tokens.after_kind kind }
{
    match kind {
        TokenKind::Weekday(_) => Before::Day,
        TokenKind::Close => Before::Day,
        TokenKind::PublicHoliday => Before::Day,
        TokenKind::SchoolHoliday => Before::Day,
        _ => Before::Other,
    }
}

fn plain(token: Token, before: Before) -> Paired
    ensures { result ≡ tokens.plain token before }
{
    Paired {
        token,
        before,
        is_time: false,
        year: None,
    }
}

fn first_of(are_times: bool, token: Token, value: u16) -> Paired
    ensures { result ≡ tokens.first_of are_times token value }
{
    if are_times {
        Paired {
            token: as_time(token, value),
            before: Before::Times,
            is_time: true,
            year: None,
        }
    } else {
        Paired {
            token,
            before: Before::Years,
            is_time: false,
            year: Some(usize::from(token.from)),
        }
    }
}

fn at_first(is_day: bool, token: Token, first: Option<u16>, second: Option<u16>) -> Paired
    ensures { result ≡ tokens.at_first is_day token first second }
{
    match first {
        None => plain(token, after_kind(token.kind)),
        Some(first) => match second {
            None => plain(token, after_kind(token.kind)),
            Some(second) => first_of(are_times(is_day, first, second), token, first),
        },
    }
}

fn at_second_time(token: Token, value: Option<u16>) -> Paired
    ensures { result ≡ tokens.at_second_time token value }
{
    match value {
        Some(value) => plain(as_time(token, value), Before::Other),
        None => plain(token, Before::Times),
    }
}

fn at_second_year(token: Token, value: Option<u16>) -> Paired
    ensures { result ≡ tokens.at_second_year token value }
{
    match value {
        Some(_) => plain(token, Before::Other),
        None => plain(token, Before::Years),
    }
}

/// What becomes of a token, by what came before, with the second number of four digits after it.
pub(crate) fn pair_of(before: Before, token: Token, second: Option<u16>) -> Paired
    ensures { result ≡ tokens.paired before token second }
{
    let value = four(token.kind);
    match before {
        Before::Other => at_first(false, token, value, second),
        Before::Day => at_first(true, token, value, second),
        Before::Times => at_second_time(token, value),
        Before::Years => at_second_year(token, value),
    }
}
