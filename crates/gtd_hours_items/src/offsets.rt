//! Offsets of public holidays, among tokens.

ghost use Rattle.std.specs.Prelude.{◌≡◌, ◌≤◌};
ghost use Rattle.gtd_hours_items.specs.Offsets.{earlier, is_day, is_few, later, offset_by, offset_front, offset_of};

use gtd_hours_days::Offset;
use gtd_hours_tokens::{Token, TokenKind};

/// So many days later.
pub fn later(days: u16) -> Offset
    requires { days ≤ 366 }
    ensures { result ≡ later days }
{
    Offset {
        days: i64::from(days),
    }
}

fn earlier(days: u16) -> Offset
    requires { days ≤ 366 }
    ensures { result ≡ earlier days }
{
    Offset {
        days: -i64::from(days),
    }
}

// A number of one to three digits, from 1 to 366.
fn is_few(value: u16, digits: u8) -> bool
    ensures { result ≡ is_few value digits }
{
    digits <= 3 && 1 <= value && value <= 366
}

fn offset_by(sign: TokenKind, days: u16) -> Option<Offset>
    requires { days ≤ 366 }
    ensures { result ≡ offset_by sign days }
{
    match sign {
        TokenKind::Plus => Some(later(days)),
        TokenKind::Dash => Some(earlier(days)),
        _ => None,
    }
}

fn offset_of(sign: TokenKind, number: TokenKind) -> Option<Offset>
    ensures { result ≡ offset_of sign number }
{
    match number {
        TokenKind::Number { value, digits } => {
            if is_few(value, digits) {
                offset_by(sign, value)
            } else {
                None
            }
        }
        _ => None,
    }
}

fn is_day(kind: TokenKind) -> bool
    ensures { result ≡ is_day kind }
{
    match kind {
        TokenKind::Day => true,
        _ => false,
    }
}

/// The offset that tokens begin with, a sign, a number and `day`, and where it ends.
pub fn offset_front(tokens: &[Token]) -> Option<(Offset, usize)>
    ensures { result ≡ offset_front tokens.now }
{
    match tokens {
        [sign, number, day, ..] => {
            if is_day(day.kind) {
                let offset = offset_of(sign.kind, number.kind)?;
                Some((offset, day.to))
            } else {
                None
            }
        }
        _ => None,
    }
}
