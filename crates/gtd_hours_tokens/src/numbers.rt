//! Numbers and times.

ghost use Rattle.std.specs.Prelude.{◌≡◌, length, true};
ghost use Rattle.std.specs.Char.{is_ascii_digit};
ghost use Rattle.std.specs.List.{list_all};
ghost use Rattle.std.specs.Str.Parse.{digits_value};
ghost use Rattle.gtd_hours_tokens.specs.Lexing.{begins_minutes};
ghost use Rattle.gtd_hours_tokens.specs.TokenAt.{number, number_front, time, time_front};

use crate::token::TokenKind;
use gtd_scan::{after_digits, digits_at_front, digits_value, two_digits_value};

/// The number or the time that begins with this longest run of digits and goes on with these bytes, and its length.
pub fn number_front(digits: &[u8], rest: &[u8]) -> Option<(TokenKind, usize)>
    requires { list_all is_ascii_digit digits.now ≡ true }
    ensures { result ≡ number_front digits.now rest.now }
{
    if begins_minutes(rest) {
        time_front(digits, &rest[1..])
    } else {
        number(digits)
    }
}

// Whether there is a colon with a digit behind it.
fn begins_minutes(bytes: &[u8]) -> bool
    ensures { result ≡ begins_minutes bytes.now }
{
    match bytes {
        [b':', digit, ..] => digit.is_ascii_digit(),
        _ => false,
    }
}

fn number(digits: &[u8]) -> Option<(TokenKind, usize)>
    requires { list_all is_ascii_digit digits.now ≡ true }
    ensures { result ≡ number digits.now }
{
    if digits.len() > 4 {
        return None;
    }
    let value = digits_value(digits);
    let kind = TokenKind::Number {
        value,
        digits: digits.len() as u8,
    };
    Some((kind, digits.len()))
}

fn time_front(hour: &[u8], bytes: &[u8]) -> Option<(TokenKind, usize)>
    requires { list_all is_ascii_digit hour.now ≡ true }
    ensures { result ≡ time_front hour.now bytes.now }
{
    time(hour, digits_at_front(bytes), after_digits(bytes))
}

fn time(hour: &[u8], minute: &[u8], rest: &[u8]) -> Option<(TokenKind, usize)>
    requires hours { list_all is_ascii_digit hour.now ≡ true }
    requires minutes { list_all is_ascii_digit minute.now ≡ true }
    ensures { result ≡ time hour.now minute.now rest.now }
{
    if hour.len() != 2 || minute.len() != 2 || begins_minutes(rest) {
        return None;
    }
    let kind = TokenKind::Time {
        hour: two_digits_value(hour),
        minute: two_digits_value(minute),
    };
    Some((kind, 5))
}
