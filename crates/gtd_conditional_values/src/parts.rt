//! The parts of a value.

ghost use Rattle.std.specs.Prelude.{◌≡◌, ◌≤◌, false, length};
ghost use Rattle.gtd_conditional_values.specs.Parts as spec;

use crate::nesting::{is_free, nested, quoted};

// Whether a byte is a `;` at which nothing is open.
fn is_separator(comment: bool, depth: usize, byte: u8) -> bool
    ensures { result ≡ spec.is_separator comment depth byte }
{
    is_free(comment, depth) && byte == b';'
}

/// How many bytes a value has before the first `;` at which no parenthesis and no comment is open; all, if there is none. Takes
/// no memory.
pub fn part_length(text: &[u8]) -> usize
    ensures bytes { result ≡ spec.part_length false 0 text.now }
    ensures within { result ≤ length text.now }
{
    let mut depth = 0;
    let mut comment = false;
    for place in 0..text.len() {
        let byte = text[place];
        if is_separator(comment, depth, byte) {
            return place;
        }
        depth = nested(comment, depth, byte);
        comment = quoted(comment, byte);
    }
    text.len()
}
