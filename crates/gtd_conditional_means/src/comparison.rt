//! Comparisons, as `weight>7.5`, and their normal form.

ghost use Rattle.std.specs.Prelude.{◌≡◌, ◌≤◌, ◌++◌, length, option_map, IfOk, OnOk};
ghost use Rattle.std.specs.Char.{is_ascii_lowercase};
ghost use Rattle.std.specs.List.{list_all, prefix_len, suffix_len};
ghost use Rattle.gtd_conditional_means.specs.Comparisons as spec;

use crate::words::{is_some_text, is_word_byte};
use gtd_scan::{after_digits, digits_at_front};
use std::alloc::{AllocError, Global};

fn word_length(text: &[u8]) -> usize
    ensures count { result ≡ prefix_len spec.is_word_byte text.now }
    ensures within { result ≤ length text.now }
{
    text.iter().take_while(|byte| is_word_byte(**byte)).count()
}

fn space_count(text: &[u8]) -> usize
    ensures count { result ≡ prefix_len spec.is_space text.now }
    ensures within { result ≤ length text.now }
{
    text.iter().take_while(|byte| **byte == b' ').count()
}

fn zero_count(text: &[u8]) -> usize
    ensures count { result ≡ prefix_len spec.is_zero text.now }
    ensures within { result ≤ length text.now }
{
    text.iter().take_while(|byte| **byte == b'0').count()
}

fn after_spaces(text: &[u8]) -> &[u8]
    ensures { result.now ≡ spec.after spec.is_space text.now }
{
    &text[space_count(text)..]
}

fn begins_with(byte: u8, text: &[u8]) -> bool
    ensures { result ≡ spec.begins_with byte text.now }
{
    match text.split_first() {
        Some((first, _)) => *first == byte,
        None => false,
    }
}

fn sign_length(text: &[u8]) -> usize
    ensures count { result ≡ spec.sign_length text.now }
    ensures within { result ≤ length text.now }
{
    let Some((first, rest)) = text.split_first() else {
        return 0;
    };
    if *first == b'=' {
        1
    } else if *first == b'<' || *first == b'>' {
        if begins_with(b'=', rest) { 2 } else { 1 }
    } else {
        0
    }
}

fn fraction_digits(text: &[u8]) -> &[u8]
    ensures { result.now ≡ spec.fraction_digits text.now }
{
    let Some((first, rest)) = text.split_first() else {
        return text;
    };
    if *first == b'.' {
        digits_at_front(rest)
    } else {
        &rest[..0]
    }
}

fn after_fraction(text: &[u8]) -> &[u8]
    ensures { result.now ≡ spec.after_fraction text.now }
{
    let Some((first, rest)) = text.split_first() else {
        return text;
    };
    if *first == b'.' {
        after_digits(rest)
    } else {
        text
    }
}

// The text from the sign on.
fn from_sign(text: &[u8]) -> &[u8]
    ensures { result.now ≡ spec.from_sign text.now }
{
    after_spaces(&text[word_length(text)..])
}

// The text from the number on.
fn from_number(text: &[u8]) -> &[u8]
    ensures { result.now ≡ spec.from_number text.now }
{
    let signed = from_sign(text);
    after_spaces(&signed[sign_length(signed)..])
}

// The sign of a comparison.
fn sign_of(text: &[u8]) -> &[u8]
    ensures { result.now ≡ spec.sign_of text.now }
{
    let signed = from_sign(text);
    &signed[..sign_length(signed)]
}

// Whether there are digits after a point, if there is one.
fn is_number_end(text: &[u8]) -> bool
    ensures { result ≡ spec.is_number_end text.now }
{
    !begins_with(b'.', text) || is_some_text(fraction_digits(text))
}

// Whether a text is lower case letters, or empty.
fn is_unit(text: &[u8]) -> bool
    ensures { result ≡ list_all is_ascii_lowercase text.now }
{
    text.iter().all(|byte| byte.is_ascii_lowercase())
}

fn word_of(text: &[u8]) -> &[u8]
    ensures { result.now ≡ spec.word_of text.now }
{
    &text[..word_length(text)]
}

fn whole_of(text: &[u8]) -> &[u8]
    ensures { result.now ≡ spec.whole_of text.now }
{
    digits_at_front(from_number(text))
}

// The text from behind the first digits of the number on.
fn from_point(text: &[u8]) -> &[u8]
    ensures { result.now ≡ spec.from_point text.now }
{
    after_digits(from_number(text))
}

fn unit_of(text: &[u8]) -> &[u8]
    ensures { result.now ≡ spec.unit_of text.now }
{
    after_spaces(after_fraction(from_point(text)))
}

fn is_comparison(text: &[u8]) -> bool
    ensures { result ≡ spec.is_comparison text.now }
{
    is_some_text(word_of(text))
        && is_some_text(sign_of(text))
        && is_some_text(whole_of(text))
        && is_number_end(from_point(text))
        && is_unit(unit_of(text))
}

// The digits without zeros at the front, but one of them at least.
fn short_whole(digits: &[u8]) -> &[u8]
    ensures { result.now ≡ spec.short_whole digits.now }
{
    let short = &digits[zero_count(digits)..];
    if is_some_text(short) { short } else { b"0" }
}

// How many zeros there are at the end.
fn zeros_at_end(digits: &[u8]) -> usize
    ensures count { result ≡ suffix_len spec.is_zero digits.now }
    ensures within { result ≤ length digits.now }
{
    digits
        .iter()
        .rev()
        .take_while(|byte| **byte == b'0')
        .count()
}

// The digits without zeros at the end.
fn without_end(digits: &[u8]) -> &[u8]
    ensures { result.now ≡ spec.without_end digits.now }
{
    &digits[..digits.len() - zeros_at_end(digits)]
}

// Adds a fraction with its point, if there is one.
fn add_fraction(out: &mut Vec<u8>, digits: &[u8]) -> Result<(), AllocError>
    ensures { OnOk result (out.new.items ≡ out.old.items ++ spec.short_fraction digits.now) }
{
    let short = without_end(digits);
    if is_some_text(short) {
        out.push(b'.')?;
        out.extend_from_slice(short)?;
    }
    Ok(())
}

// The unit, unless it is the one that is meant where there is none.
fn short_unit<'a>(word: &[u8], unit: &'a [u8]) -> &'a [u8]
    ensures { result.now ≡ spec.short_unit word.now unit.now }
{
    if unit == b"t".as_slice() {
        return &unit[..0];
    }
    if unit == b"m".as_slice() && is_of_length(word) {
        return &unit[..0];
    }
    unit
}

fn is_of_length(word: &[u8]) -> bool
    ensures { result ≡ spec.is_of_length word.now }
{
    word == b"length".as_slice() || word == b"width".as_slice() || word == b"height".as_slice()
}

/// The normal form of a comparison, or `None` if the text is none: a word of lower case letters and `_`, then `=`, `<`, `<=`,
/// `>` or `>=`, then a number, and a unit of lower case letters or none, with spaces or none between them. The normal form has
/// no spaces, no zeros that say nothing, and no unit if that is `t`, or `m` for `length`, `width` and `height`. `AllocError` is
/// answered only if memory was refused.
pub fn normal_form(alloc: Global, text: &[u8]) -> Result<Option<Vec<u8>>, AllocError>
    ensures form { IfOk result (λ form. option_map (λ v. v.items) form ≡ spec.normal_of text.now) }
{
    if !is_comparison(text) {
        return Ok(None);
    }
    let mut out = Vec::new(alloc);
    out.extend_from_slice(word_of(text))?;
    out.extend_from_slice(sign_of(text))?;
    out.extend_from_slice(short_whole(whole_of(text)))?;
    add_fraction(&mut out, fraction_digits(from_point(text)))?;
    out.extend_from_slice(short_unit(word_of(text), unit_of(text)))?;
    Ok(Some(out))
}
