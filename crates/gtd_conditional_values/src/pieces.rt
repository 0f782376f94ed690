//! The pieces of a part: its name and its condition.

ghost use Rattle.std.specs.Prelude.{◌≡◌, ◌≤◌, ◌+◌, false, length, nat_eq, option_map, IfSome};
ghost use Rattle.std.specs.List.{prefix_len, suffix_len};
ghost use Rattle.gtd_conditional_values.specs.Pieces as spec;

use crate::nesting::{nested, quoted};

/// How many spaces a text begins with. Takes no memory.
pub fn front_spaces(text: &[u8]) -> usize
    ensures count { result ≡ spec.front_spaces text.now }
    ensures within { result ≤ length text.now }
{
    text.iter().take_while(|byte| **byte == b' ').count()
}

fn end_spaces(text: &[u8]) -> usize
    ensures count { result ≡ suffix_len spec.is_space text.now }
    ensures within { result ≤ length text.now }
{
    text.iter().rev().take_while(|byte| **byte == b' ').count()
}

fn without_end(text: &[u8]) -> &[u8]
    ensures { result.now ≡ spec.without_end text.now }
{
    &text[..text.len() - end_spaces(text)]
}

/// A text without the spaces at both ends. Takes no memory.
pub fn trimmed(text: &[u8]) -> &[u8]
    ensures text { result.now ≡ spec.trimmed text.now }
{
    without_end(&text[front_spaces(text)..])
}

fn name_bytes(part: &[u8]) -> usize
    ensures count { result ≡ prefix_len spec.is_no_at part.now }
{
    part.iter().take_while(|byte| **byte != b'@').count()
}

/// The place of the first `@` of a part, or `None` if it has none. The name is before it, and the condition after it. Takes no
/// memory.
pub fn at_sign(part: &[u8]) -> Option<usize>
    ensures place { result ≡ spec.at_sign part.now }
{
    let place = name_bytes(part);
    if place < part.len() {
        Some(place)
    } else {
        None
    }
}

// Whether a byte is a `)` that closes the only parenthesis that is open.
fn is_closing(comment: bool, depth: usize, byte: u8) -> bool
    ensures { result ≡ spec.is_closing comment depth byte }
{
    !comment && depth == 1 && byte == b')'
}

// How many bytes a text has before that `)`; all, if there is none.
fn closed_length(text: &[u8]) -> usize
    ensures bytes { result ≡ spec.closed_length false 0 text.now }
    ensures within { result ≤ length text.now }
{
    let mut depth = 0;
    let mut comment = false;
    for place in 0..text.len() {
        let byte = text[place];
        if is_closing(comment, depth, byte) {
            return place;
        }
        depth = nested(comment, depth, byte);
        comment = quoted(comment, byte);
    }
    text.len()
}

fn begins_inside(text: &[u8]) -> bool
    ensures { result ≡ spec.begins_inside text.now }
{
    match text.split_first() {
        Some((byte, _)) => *byte == b'(',
        None => false,
    }
}

// Whether a place is that of the last of so many bytes.
fn is_last(place: usize, bytes: usize) -> bool
    ensures { result ≡ nat_eq (place + 1) bytes }
{
    place < bytes && place + 1 == bytes
}

// Whether the first byte of a text is a `(`, and its last byte closes that.
fn is_enclosed(text: &[u8]) -> bool
    ensures { result ≡ spec.is_enclosed text.now }
{
    begins_inside(text) && is_last(closed_length(text), text.len())
}

/// What stands in the parentheses of a text whose first byte is a `(` and whose last byte closes that, or `None` if it is none
/// such. Takes no memory.
pub fn enclosed(text: &[u8]) -> Option<&[u8]>
    ensures inside { option_map (λ inside. inside.now) result ≡ spec.enclosed text.now }
    ensures shorter { IfSome result (λ inside. length inside.now + 2 ≤ length text.now) }
{
    if text.len() < 2 || !is_enclosed(text) {
        return None;
    }
    Some(&text[1..text.len() - 1])
}
