//! Where a range of days that moves, or Easter of a year, can begin among the tokens of a text.

ghost use Rattle.std.specs.Prelude.{◌≡◌};
ghost use Rattle.gtd_hours_items.specs.Fronts.{IsFrontAt, before_after, before_dash, before_number, before_sign};
ghost use Rattle.gtd_hours_items.specs.Fronts.{before_token, may_begin};

use gtd_hours_moving::{MovingFront, moving_front};
use gtd_hours_tokens::{Token, TokenKind};

/// What stands directly before a token, as far as it matters to such a range.
#[derive(Clone, Copy)]
pub enum Before {
    /// A number of years or of weeks.
    Year,
    /// A sign or `week`, behind which a number is one of years or of weeks.
    Years,
    /// A month: a number behind it is a day of it.
    Month,
    /// An opening bracket, or a number or a sign behind it: a number is a place of a weekday.
    Places,
    /// The dash of a range, with or without a number behind it: the range goes on.
    Dash,
    /// Something else.
    Other,
}

fn before_dash(before: Before) -> Before
    ensures { result ≡ before_dash before }
{
    match before {
        Before::Year => Before::Years,
        Before::Years => Before::Years,
        Before::Places => Before::Places,
        _ => Before::Dash,
    }
}

fn before_number(before: Before, digits: u8) -> Before
    ensures { result ≡ before_number before digits }
{
    match before {
        Before::Dash => Before::Dash,
        Before::Month => Before::Other,
        Before::Places => Before::Places,
        Before::Other => {
            if digits == 4 {
                Before::Year
            } else {
                Before::Other
            }
        }
        _ => Before::Year,
    }
}

fn before_sign(before: Before) -> Before
    ensures { result ≡ before_sign before }
{
    match before {
        Before::Year => Before::Years,
        Before::Years => Before::Years,
        Before::Places => Before::Places,
        _ => Before::Other,
    }
}

fn before_token(before: Before, kind: TokenKind) -> Before
    ensures { result ≡ before_token before kind }
{
    match kind {
        TokenKind::Dash => before_dash(before),
        TokenKind::Number { digits, .. } => before_number(before, digits),
        TokenKind::Comma => before_sign(before),
        TokenKind::Slash => before_sign(before),
        TokenKind::Plus => before_sign(before),
        TokenKind::Week => Before::Years,
        TokenKind::Month(_) => Before::Month,
        TokenKind::OpenBracket => Before::Places,
        _ => Before::Other,
    }
}

/// What stands before the token behind an item that begins with a token of this kind, and with such a range or not.
pub fn before_after(before: Before, kind: TokenKind, front: Option<MovingFront>) -> Before
    ensures { result ≡ before_after before kind front }
{
    match front {
        None => before_token(before, kind),
        Some(_) => Before::Other,
    }
}

// Whether such a range can begin with a token of this kind.
fn may_begin(before: Before, kind: TokenKind) -> bool
    ensures { result ≡ may_begin before kind }
{
    match before {
        Before::Dash => false,
        Before::Years => match kind {
            TokenKind::Month(_) => true,
            TokenKind::Unsupported => true,
            _ => false,
        },
        Before::Month | Before::Places => match kind {
            TokenKind::Number { .. } => false,
            _ => true,
        },
        _ => true,
    }
}

/// The range that tokens of a text begin with behind this.
pub fn front_at(text: &[u8], before: Before, tokens: &[Token]) -> Option<MovingFront>
    ensures { IsFrontAt text.now before tokens.now result }
{
    let first = tokens.first()?;
    if may_begin(before, first.kind) {
        moving_front(text, tokens)
    } else {
        None
    }
}
