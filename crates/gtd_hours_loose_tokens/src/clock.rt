//! Numbers, and times however they are written, in letters of lower case.

ghost use Rattle.std.specs.Prelude.{◌≡◌, ◌+◌, ◌≤◌, ◌<◌, ◌^◌, length, true, IfSome};
ghost use Rattle.std.specs.Char.{is_ascii_digit};
ghost use Rattle.std.specs.List.{list_all};
ghost use Rattle.std.specs.Str.Parse.{digits_value};
ghost use Rattle.gtd_hours_loose_tokens.specs.Clock.{begins_digit, begins_letter, begins_part, clock_front, digits_front};
ghost use Rattle.gtd_hours_loose_tokens.specs.Clock.{few_digits};
ghost use Rattle.gtd_hours_loose_tokens.specs.Clock.{half_day, hour_letter, hour_or_number, is_evening, is_morning, minute_front};
ghost use Rattle.gtd_hours_loose_tokens.specs.Clock.{minute_of, number_front, up_to_word, with_uhr, word_behind};

use crate::runs::{after_spaces, space_count};
use crate::token::LooseKind;
use gtd_scan::{after_digits, digits_at_front, digits_value, letters_at_front, two_digits_value};

/// The number or the time that begins with this longest run of digits and goes on with these bytes, and its length.
pub fn digits_front(digits: &[u8], rest: &[u8]) -> Option<(LooseKind, usize)>
    requires all { list_all is_ascii_digit digits.now ≡ true }
    requires some { 1 ≤ length digits.now }
    requires room { length digits.now + length rest.now < 2 ^ 63 }
    ensures front { result ≡ digits_front digits.now rest.now }
    ensures some { IfSome result (λ x. 1 ≤ x.1) }
    ensures within { IfSome result (λ x. x.1 ≤ length digits.now + length rest.now) }
{
    if digits.len() <= 2 {
        few_digits(digits, rest)
    } else {
        number_front(digits, rest)
    }
}

fn few_digits(digits: &[u8], rest: &[u8]) -> Option<(LooseKind, usize)>
    requires all { list_all is_ascii_digit digits.now ≡ true }
    requires few { length digits.now ≤ 2 }
    requires some { 1 ≤ length digits.now }
    requires room { length digits.now + length rest.now < 2 ^ 63 }
    ensures front { result ≡ few_digits digits.now rest.now (minute_front rest.now) }
    ensures some { IfSome result (λ x. 1 ≤ x.1) }
    ensures within { IfSome result (λ x. x.1 ≤ length digits.now + length rest.now) }
{
    match minute_front(rest) {
        None => hour_or_number(digits, rest),
        Some((minute, taken)) => {
            let hour = two_digits_value(digits);
            clock_front(hour, minute, digits.len() + taken, &rest[taken..])
        }
    }
}

fn hour_or_number(digits: &[u8], rest: &[u8]) -> Option<(LooseKind, usize)>
    requires all { list_all is_ascii_digit digits.now ≡ true }
    requires few { length digits.now ≤ 2 }
    requires some { 1 ≤ length digits.now }
    requires room { length digits.now + length rest.now < 2 ^ 63 }
    ensures front { result ≡ hour_or_number digits.now rest.now }
    ensures some { IfSome result (λ x. 1 ≤ x.1) }
    ensures within { IfSome result (λ x. x.1 ≤ length digits.now + length rest.now) }
{
    if is_morning(rest) || is_evening(rest) {
        clock_front(two_digits_value(digits), 0, digits.len(), rest)
    } else {
        number_front(digits, rest)
    }
}

fn number_front(digits: &[u8], rest: &[u8]) -> Option<(LooseKind, usize)>
    requires all { list_all is_ascii_digit digits.now ≡ true }
    requires some { 1 ≤ length digits.now }
    ensures front { result ≡ number_front digits.now rest.now }
    ensures some { IfSome result (λ x. 1 ≤ x.1) }
    ensures within { IfSome result (λ x. x.1 ≤ length digits.now + length rest.now) }
{
    if digits.len() > 4 || begins_part(b':', rest) {
        return None;
    }
    let value = digits_value(digits);
    let kind = LooseKind::Number {
        value,
        digits: digits.len() as u8,
    };
    Some((kind, digits.len()))
}

// A time of so many bytes, and what stands behind it.
fn clock_front(hour: u8, minute: u8, used: usize, rest: &[u8]) -> Option<(LooseKind, usize)>
    requires some { 1 ≤ used }
    requires room { used + length rest.now < 2 ^ 63 }
    ensures front { result ≡ clock_front hour minute used rest.now }
    ensures some { IfSome result (λ x. 1 ≤ x.1) }
    ensures within { IfSome result (λ x. x.1 ≤ used + length rest.now) }
{
    if is_morning(rest) {
        half_day(0, hour, minute, used, rest)
    } else if is_evening(rest) {
        half_day(12, hour, minute, used, rest)
    } else {
        Some(with_uhr(hour, minute, used, rest))
    }
}

// A time of half a day, with `am` or `pm` behind it.
fn half_day(noon: u8, hour: u8, minute: u8, used: usize, rest: &[u8]) -> Option<(LooseKind, usize)>
    requires noon { noon ≤ 12 }
    requires some { 1 ≤ used }
    requires room { used + length rest.now < 2 ^ 63 }
    ensures front { result ≡ half_day noon hour minute used rest.now }
    ensures some { IfSome result (λ x. 1 ≤ x.1) }
    ensures within { IfSome result (λ x. x.1 ≤ used + length rest.now) }
{
    if hour == 12 {
        return Some((LooseKind::Ambiguous, used));
    }
    if 1 <= hour && hour < 12 {
        let more = up_to_word(rest);
        return Some(with_uhr(noon + hour, minute, used + more, &rest[more..]));
    }
    None
}

// A time of so many bytes, with `Uhr` behind it or not.
fn with_uhr(hour: u8, minute: u8, used: usize, rest: &[u8]) -> (LooseKind, usize)
    requires room { used + length rest.now < 2 ^ 63 }
    ensures front { result ≡ with_uhr hour minute used rest.now }
    ensures more { used ≤ result.1 }
    ensures within { result.1 ≤ used + length rest.now }
{
    let kind = LooseKind::Time { hour, minute };
    if word_behind(rest) == b"uhr".as_slice() {
        (kind, used + up_to_word(rest))
    } else {
        (kind, used)
    }
}

fn is_morning(rest: &[u8]) -> bool
    ensures { result ≡ is_morning rest.now }
{
    word_behind(rest) == b"am".as_slice()
}

fn is_evening(rest: &[u8]) -> bool
    ensures { result ≡ is_evening rest.now }
{
    word_behind(rest) == b"pm".as_slice()
}

// A word behind spaces or none.
fn word_behind(rest: &[u8]) -> &[u8]
    ensures { result.now ≡ word_behind rest.now }
{
    letters_at_front(after_spaces(rest))
}

// How many bytes these spaces and the word take.
fn up_to_word(rest: &[u8]) -> usize
    ensures count { result ≡ up_to_word rest.now }
    ensures within { result ≤ length rest.now }
{
    space_count(rest) + word_behind(rest).len()
}

// The minute behind an hour, and how many bytes it takes with the sign before it.
fn minute_front(bytes: &[u8]) -> Option<(u8, usize)>
    ensures minute { result ≡ minute_front bytes.now }
    ensures within { IfSome result (λ x. x.1 ≤ length bytes.now) }
    ensures few { IfSome result (λ x. x.1 ≤ 3) }
{
    match bytes {
        [] => None,
        [sign, rest @ ..] => {
            let (minute, behind) = (digits_at_front(rest), after_digits(rest));
            match *sign {
                b':' => minute_of(b':', minute, behind),
                b'.' => minute_of(b'.', minute, behind),
                b'h' => hour_letter(minute, behind),
                _ => None,
            }
        }
    }
}

// `:30` or `.30`, behind its sign.
fn minute_of(sign: u8, minute: &[u8], rest: &[u8]) -> Option<(u8, usize)>
    requires { list_all is_ascii_digit minute.now ≡ true }
    ensures { result ≡ minute_of sign minute.now rest.now }
{
    if minute.len() == 2 && !begins_part(sign, rest) {
        Some((two_digits_value(minute), 3))
    } else {
        None
    }
}

// `h` or `h30`, behind the letter.
fn hour_letter(minute: &[u8], rest: &[u8]) -> Option<(u8, usize)>
    requires { list_all is_ascii_digit minute.now ≡ true }
    ensures { result ≡ hour_letter minute.now rest.now }
{
    if begins_letter(rest) {
        return None;
    }
    match minute.len() {
        0 => Some((0, 1)),
        2 => Some((two_digits_value(minute), 3)),
        _ => None,
    }
}

fn begins_letter(bytes: &[u8]) -> bool
    ensures { result ≡ begins_letter bytes.now }
{
    match bytes {
        [] => false,
        [byte, ..] => byte.is_ascii_alphabetic(),
    }
}

fn begins_digit(bytes: &[u8]) -> bool
    ensures { result ≡ begins_digit bytes.now }
{
    match bytes {
        [] => false,
        [byte, ..] => byte.is_ascii_digit(),
    }
}

// Whether there is this sign with a digit behind it.
fn begins_part(sign: u8, bytes: &[u8]) -> bool
    ensures { result ≡ begins_part sign bytes.now }
{
    match bytes {
        [] => false,
        [byte, rest @ ..] => *byte == sign && begins_digit(rest),
    }
}
