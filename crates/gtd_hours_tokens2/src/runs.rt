//! The longest runs of spaces, of letters and of digits at the front of bytes.

ghost use Rattle.std.specs.Prelude.{◌≡◌, ◌+◌, ◌≤◌, ◌-◌, drop, length, true};
ghost use Rattle.std.specs.List.{list_all, prefix_len};
ghost use Rattle.std.specs.Char.{is_ascii_digit};
ghost use Rattle.gtd_hours_tokens2.specs.Clock.{after_digits, digits_of, is_space};
ghost use Rattle.gtd_hours_tokens2.specs.Tokens.{after_letters, letters_of};

use gtd_scan::{digits_at_front, letters_at_front};

/// How many spaces there are.
pub(crate) fn space_count(bytes: &[u8]) -> usize
    ensures count { result ≡ prefix_len is_space bytes.now }
    ensures within { result ≤ length bytes.now }
{
    bytes.iter().take_while(|byte| **byte == b' ').count()
}

/// What comes after the spaces.
pub(crate) fn after_spaces(bytes: &[u8]) -> &[u8]
    ensures after { result.now ≡ drop (prefix_len is_space bytes.now) bytes.now }
    ensures long { length result.now ≡ length bytes.now - prefix_len is_space bytes.now }
{
    &bytes[space_count(bytes)..]
}

/// The letters that the bytes begin with, and what comes after them.
pub(crate) fn split_letters(bytes: &[u8]) -> (&[u8], &[u8])
    ensures letters { result.0.now ≡ letters_of bytes.now }
    ensures after { result.1.now ≡ after_letters bytes.now }
    ensures whole { length result.0.now + length result.1.now ≡ length bytes.now }
{
    let letters = letters_at_front(bytes);
    (letters, &bytes[letters.len()..])
}

/// The digits that the bytes begin with, and what comes after them.
pub(crate) fn split_digits(bytes: &[u8]) -> (&[u8], &[u8])
    ensures digits { result.0.now ≡ digits_of bytes.now }
    ensures after { result.1.now ≡ after_digits bytes.now }
    ensures whole { length result.0.now + length result.1.now ≡ length bytes.now }
    ensures all { list_all is_ascii_digit result.0.now ≡ true }
{
    let digits = digits_at_front(bytes);
    (digits, &bytes[digits.len()..])
}
