//! The terms of a condition.

ghost use Rattle.std.specs.Prelude.{◌≡◌, ◌≤◌, false, length};
ghost use Rattle.gtd_conditional_values.specs.Terms as spec;

use crate::nesting::{is_free, nested, quoted};

// Whether a text does not begin with a letter or a digit.
fn is_apart(text: &[u8]) -> bool
    ensures { result ≡ spec.is_apart text.now }
{
    match text.split_first() {
        Some((byte, _)) => !byte.is_ascii_alphanumeric(),
        None => true,
    }
}

// Whether a text begins with `AND` or `and`, and no letter or digit comes after it.
fn begins_with_and(text: &[u8]) -> bool
    ensures { result ≡ spec.begins_with_and text.now }
{
    let [a, n, d, rest @ ..] = text else {
        return false;
    };
    is_and_word(*a, *n, *d) && is_apart(rest)
}

// Whether a text begins with an `AND` or `and` that separates.
fn is_and(joined: bool, comment: bool, depth: usize, text: &[u8]) -> bool
    ensures { result ≡ spec.is_and joined comment depth text.now }
{
    is_free(comment, depth) && !joined && begins_with_and(text)
}

// Whether the three bytes are `AND` or `and`.
fn is_and_word(a: u8, n: u8, d: u8) -> bool
    ensures { result ≡ spec.is_and_word a n d }
{
    (a == b'A' && n == b'N' && d == b'D') || (a == b'a' && n == b'n' && d == b'd')
}

/// How many bytes a condition has before the first `AND` or `and` that separates: no parenthesis and no comment is open there,
/// and no letter or digit stands directly before it or after it. All, if there is none. Takes no memory.
pub fn term_length(text: &[u8]) -> usize
    ensures bytes { result ≡ spec.term_length false false 0 text.now }
    ensures within { result ≤ length text.now }
{
    let mut depth = 0;
    let mut comment = false;
    let mut joined = false;
    for place in 0..text.len() {
        let byte = text[place];
        if is_and(joined, comment, depth, &text[place..]) {
            return place;
        }
        depth = nested(comment, depth, byte);
        comment = quoted(comment, byte);
        joined = byte.is_ascii_alphanumeric();
    }
    text.len()
}
