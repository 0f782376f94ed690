//! Numbers, and times however they are written.

ghost use Rattle.std.specs.Prelude.{◌≡◌, ◌+◌, ◌≤◌, ◌<◌, ◌^◌, length, true, IfOk, IfSome, Ok};
ghost use Rattle.std.specs.Char.{is_ascii_digit};
ghost use Rattle.std.specs.List.{list_all};
ghost use Rattle.gtd_hours_tokens2.specs.Clock as clock;
ghost use Rattle.gtd_hours_tokens2.specs.declared.token.TokenKind.TheVariants as kinds;

use crate::found::Found;
use crate::runs::{after_spaces, space_count, split_digits};
use crate::token::{TokenFaultKind, TokenKind};
use gtd_scan::{digits_value, letters_at_front, two_digits_value};

/// The minute after an hour.
#[derive(Clone, Copy)]
pub(crate) struct Minute {
    /// The minute.
    pub value: u8,
    /// How many bytes it takes with the sign before it.
    pub length: usize,
    /// Whether it is written loosely.
    pub is_loose: bool,
}

/// What comes after a time.
#[derive(Clone, Copy)]
pub(crate) enum Suffix {
    /// `am`
    Morning,
    /// `pm`
    Evening,
    /// `Uhr`
    Clock,
    /// None of these.
    Nothing,
}

/// The number or the time that begins with this longest run of digits and goes on with these bytes.
pub(crate) fn digits_front(digits: &[u8], rest: &[u8]) -> Result<Found, TokenFaultKind>
    requires all { list_all is_ascii_digit digits.now ≡ true }
    requires some { 1 ≤ length digits.now }
    requires room { length digits.now + length rest.now < 2 ^ 63 }
    ensures front { result ≡ clock.digits_front digits.now rest.now }
    ensures some { IfOk result (λ x. 1 ≤ x.length) }
    ensures within { IfOk result (λ x. x.length ≤ length digits.now + length rest.now) }
{
    if digits.len() <= 2 {
        few_digits(digits, rest)
    } else {
        number_front(digits, rest)
    }
}

fn few_digits(digits: &[u8], rest: &[u8]) -> Result<Found, TokenFaultKind>
    requires all { list_all is_ascii_digit digits.now ≡ true }
    requires few { length digits.now ≤ 2 }
    requires some { 1 ≤ length digits.now }
    requires room { length digits.now + length rest.now < 2 ^ 63 }
    ensures front { result ≡ clock.few_digits digits.now rest.now (clock.minute_front rest.now) }
    ensures some { IfOk result (λ x. 1 ≤ x.length) }
    ensures within { IfOk result (λ x. x.length ≤ length digits.now + length rest.now) }
{
    match minute_front(rest) {
        None => hour_or_number(digits, rest),
        Some(minute) => {
            let hour = two_digits_value(digits);
            let is_loose = is_loose_hour(minute, digits);
            let used = digits.len() + minute.length;
            clock_front(hour, minute.value, used, is_loose, &rest[minute.length..])
        }
    }
}

// An hour is strictly written with two digits.
fn is_loose_hour(minute: Minute, digits: &[u8]) -> bool
    ensures { result ≡ clock.is_loose_hour minute digits.now }
{
    minute.is_loose || digits.len() != 2
}

fn hour_or_number(digits: &[u8], rest: &[u8]) -> Result<Found, TokenFaultKind>
    requires all { list_all is_ascii_digit digits.now ≡ true }
    requires few { length digits.now ≤ 2 }
    requires some { 1 ≤ length digits.now }
    requires room { length digits.now + length rest.now < 2 ^ 63 }
    ensures front { result ≡ clock.hour_or_number digits.now rest.now (clock.suffix_after rest.now) }
    ensures some { IfOk result (λ x. 1 ≤ x.length) }
    ensures within { IfOk result (λ x. x.length ≤ length digits.now + length rest.now) }
{
    match suffix_after(rest) {
        Suffix::Morning => half_day(0, two_digits_value(digits), 0, digits.len(), rest),
        Suffix::Evening => half_day(12, two_digits_value(digits), 0, digits.len(), rest),
        _ => number_front(digits, rest),
    }
}

fn number_front(digits: &[u8], rest: &[u8]) -> Result<Found, TokenFaultKind>
    requires all { list_all is_ascii_digit digits.now ≡ true }
    requires some { 1 ≤ length digits.now }
    ensures front { result ≡ clock.number_front digits.now rest.now }
    ensures some { IfOk result (λ x. 1 ≤ x.length) }
    ensures within { IfOk result (λ x. x.length ≤ length digits.now + length rest.now) }
{
    if digits.len() > 4 || begins_part(b':', rest) {
        return Err(TokenFaultKind::BadToken);
    }
    let value = digits_value(digits);
    let kind = TokenKind::Number {
        value,
        digits: digits.len() as u8,
    };
    Ok(Found {
        kind,
        length: digits.len(),
        is_loose: false,
    })
}

// A time of so many bytes, and what comes after it.
fn clock_front(
    hour: u8,
    minute: u8,
    used: usize,
    is_loose: bool,
    rest: &[u8],
) -> Result<Found, TokenFaultKind>
    requires some { 1 ≤ used }
    requires room { used + length rest.now < 2 ^ 63 }
    ensures front { result ≡ clock.clock_front hour minute used is_loose rest.now (clock.suffix_after rest.now) }
    ensures some { IfOk result (λ x. 1 ≤ x.length) }
    ensures within { IfOk result (λ x. x.length ≤ used + length rest.now) }
{
    match suffix_after(rest) {
        Suffix::Morning => half_day(0, hour, minute, used, rest),
        Suffix::Evening => half_day(12, hour, minute, used, rest),
        Suffix::Clock => Ok(time(hour, minute, used + up_to_word(rest), true)),
        Suffix::Nothing => Ok(time(hour, minute, used, is_loose)),
    }
}

fn time(hour: u8, minute: u8, length: usize, is_loose: bool) -> Found
    ensures { Ok result ≡ clock.found (kinds.Time hour minute) length is_loose }
{
    Found {
        kind: TokenKind::Time { hour, minute },
        length,
        is_loose,
    }
}

// A time of half a day, with `am` or `pm` after it.
fn half_day(
    noon: u8,
    hour: u8,
    minute: u8,
    used: usize,
    rest: &[u8],
) -> Result<Found, TokenFaultKind>
    requires noon { noon ≤ 12 }
    requires some { 1 ≤ used }
    requires room { used + length rest.now < 2 ^ 63 }
    ensures front { result ≡ clock.half_day noon hour minute used rest.now }
    ensures some { IfOk result (λ x. 1 ≤ x.length) }
    ensures within { IfOk result (λ x. x.length ≤ used + length rest.now) }
{
    if hour == 12 {
        return Err(TokenFaultKind::Ambiguous);
    }
    if 1 <= hour && hour < 12 {
        let more = up_to_word(rest);
        return Ok(with_uhr(noon + hour, minute, used + more, &rest[more..]));
    }
    Err(TokenFaultKind::BadToken)
}

// A loose time of so many bytes, with `Uhr` after it or not.
fn with_uhr(hour: u8, minute: u8, used: usize, rest: &[u8]) -> Found
    requires room { used + length rest.now < 2 ^ 63 }
    ensures front { Ok result ≡ clock.by_uhr hour minute used true rest.now (clock.suffix_after rest.now) }
    ensures more { used ≤ result.length }
    ensures within { result.length ≤ used + length rest.now }
{
    match suffix_after(rest) {
        Suffix::Clock => time(hour, minute, used + up_to_word(rest), true),
        _ => time(hour, minute, used, true),
    }
}

// A small or a large letter.
fn is_letter(small: u8, large: u8, byte: u8) -> bool
    ensures { result ≡ clock.is_letter small large byte }
{
    byte == small || byte == large
}

fn suffix_of(letters: &[u8]) -> Suffix
    ensures { result ≡ clock.suffix_of letters.now }
{
    match letters {
        [x, y] => half_suffix(*x, *y),
        [x, y, z] => clock_suffix(*x, *y, *z),
        _ => Suffix::Nothing,
    }
}

fn half_suffix(first: u8, second: u8) -> Suffix
    ensures { result ≡ clock.half_suffix first second }
{
    if !is_letter(b'm', b'M', second) {
        Suffix::Nothing
    } else if is_letter(b'a', b'A', first) {
        Suffix::Morning
    } else if is_letter(b'p', b'P', first) {
        Suffix::Evening
    } else {
        Suffix::Nothing
    }
}

fn clock_suffix(first: u8, second: u8, third: u8) -> Suffix
    ensures { result ≡ clock.clock_suffix first second third }
{
    if is_letter(b'u', b'U', first)
        && (is_letter(b'h', b'H', second) && is_letter(b'r', b'R', third))
    {
        Suffix::Clock
    } else {
        Suffix::Nothing
    }
}

fn suffix_after(rest: &[u8]) -> Suffix
    ensures { result ≡ clock.suffix_after rest.now }
{
    suffix_of(word_after(rest))
}

// A word after spaces or none.
fn word_after(rest: &[u8]) -> &[u8]
    ensures { result.now ≡ clock.word_after rest.now }
{
    letters_at_front(after_spaces(rest))
}

// How many bytes these spaces and the word take.
fn up_to_word(rest: &[u8]) -> usize
    ensures count { result ≡ clock.up_to_word rest.now }
    ensures within { result ≤ length rest.now }
{
    space_count(rest) + word_after(rest).len()
}

fn minute_front(bytes: &[u8]) -> Option<Minute>
    ensures minute { result ≡ clock.minute_front bytes.now }
    ensures within { IfSome result (λ x. x.length ≤ length bytes.now) }
    ensures few { IfSome result (λ x. x.length ≤ 3) }
{
    match bytes {
        [] => None,
        [sign, rest @ ..] => match *sign {
            b':' => minute_of(b':', rest),
            b'.' => minute_of(b'.', rest),
            b'H' => hour_letter(rest),
            b'h' => hour_letter(rest),
            _ => None,
        },
    }
}

// `:30` or `.30`, after its sign.
fn minute_of(sign: u8, bytes: &[u8]) -> Option<Minute>
    ensures minute { result ≡ clock.minute_of sign (clock.digits_of bytes.now) (clock.after_digits bytes.now) }
    ensures within { IfSome result (λ x. x.length ≤ length bytes.now + 1) }
{
    let (minute, rest) = split_digits(bytes);
    if minute.len() == 2 && !begins_part(sign, rest) {
        Some(Minute {
            value: two_digits_value(minute),
            length: 3,
            is_loose: sign != b':',
        })
    } else {
        None
    }
}

// `h` or `h30`, after the letter.
fn hour_letter(bytes: &[u8]) -> Option<Minute>
    ensures minute { result ≡ clock.hour_letter (clock.digits_of bytes.now) (clock.after_digits bytes.now) }
    ensures within { IfSome result (λ x. x.length ≤ length bytes.now + 1) }
{
    let (minute, rest) = split_digits(bytes);
    if begins_letter(rest) {
        return None;
    }
    match minute.len() {
        0 => Some(Minute {
            value: 0,
            length: 1,
            is_loose: true,
        }),
        2 => Some(Minute {
            value: two_digits_value(minute),
            length: 3,
            is_loose: true,
        }),
        _ => None,
    }
}

fn begins_letter(bytes: &[u8]) -> bool
    ensures { result ≡ clock.begins_letter bytes.now }
{
    match bytes {
        [] => false,
        [byte, ..] => byte.is_ascii_alphabetic(),
    }
}

fn begins_digit(bytes: &[u8]) -> bool
    ensures { result ≡ clock.begins_digit bytes.now }
{
    match bytes {
        [] => false,
        [byte, ..] => byte.is_ascii_digit(),
    }
}

// Whether there is this sign with a digit after it.
fn begins_part(sign: u8, bytes: &[u8]) -> bool
    ensures { result ≡ clock.begins_part sign bytes.now }
{
    match bytes {
        [] => false,
        [byte, rest @ ..] => *byte == sign && begins_digit(rest),
    }
}
