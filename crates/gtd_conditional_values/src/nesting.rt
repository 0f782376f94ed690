//! Parentheses and comments.

ghost use Rattle.std.specs.Prelude.{◌≡◌, ◌≤◌, ◌<◌, ◌+◌, false};
ghost use Rattle.gtd_conditional_values.specs.Nesting as spec;

/// Whether a place is in a comment, if the place before this byte is or is not.
pub(crate) fn quoted(comment: bool, byte: u8) -> bool
    ensures is { result ≡ spec.quoted comment byte }
{
    if byte == b'"' { !comment } else { comment }
}

/// In how many parentheses a place is, if the place before this byte is in so many and in a comment or not.
pub(crate) fn nested(comment: bool, depth: usize, byte: u8) -> usize
    requires few { depth < 18446744073709551615 }
    ensures depth { result ≡ spec.nested comment depth byte }
    ensures more { result ≤ depth + 1 }
{
    if comment {
        depth
    } else if byte == b'(' {
        depth + 1
    } else if byte == b')' {
        depth.saturating_sub(1)
    } else {
        depth
    }
}

/// Whether nothing is open at a place.
pub(crate) fn is_free(comment: bool, depth: usize) -> bool
    ensures is { result ≡ spec.is_free comment depth }
{
    !comment && depth == 0
}

// Whether a byte is a `)` too many.
fn is_too_many(comment: bool, depth: usize, byte: u8) -> bool
    ensures { result ≡ spec.is_too_many comment depth byte }
{
    is_free(comment, depth) && byte == b')'
}

/// The first place at which a text does not fit what is open: a `)` too many, or its end, if a parenthesis or a comment is open
/// there. `None` if there is none. Takes no memory.
pub fn first_unnested(text: &[u8]) -> Option<usize>
    ensures first { result ≡ spec.unnested false 0 text.now }
{
    let mut depth = 0;
    let mut comment = false;
    for place in 0..text.len() {
        let byte = text[place];
        if is_too_many(comment, depth, byte) {
            return Some(place);
        }
        depth = nested(comment, depth, byte);
        comment = quoted(comment, byte);
    }
    if is_free(comment, depth) {
        return None;
    }
    Some(text.len())
}
