//! Whether comments end, and have bytes that can be written.

ghost use Rattle.std.specs.Prelude.{◌≡◌, drop};
ghost use Rattle.gtd_hours_items.specs.Comments.{goes_to_quote, is_whole, is_written};

use crate::items::is_comment;
use gtd_hours_moving::stretch;
use gtd_hours_tokens::Token;

// Whether a byte is no control byte.
fn is_written(byte: u8) -> bool
    ensures { result ≡ is_written byte }
{
    32 <= byte && byte != 127
}

// Whether the bytes are written up to a quote.
fn goes_to_quote(bytes: &[u8]) -> bool
    ensures { result ≡ goes_to_quote bytes.now }
{
    let mut rest = bytes;
    while let Some((byte, later)) = rest.split_first() {
        if *byte == b'"' {
            return true;
        }
        if !is_written(*byte) {
            return false;
        }
        rest = later;
    }
    false
}

// The bytes behind the first one.
fn behind_first(bytes: &[u8]) -> &[u8]
    ensures { result.now ≡ drop 1 bytes.now }
{
    match bytes.split_first() {
        None => bytes,
        Some((_, later)) => later,
    }
}

/// Whether a token is no comment, or one that has a second quote, and no byte below a space and no 127 before it.
pub fn is_whole(text: &[u8], token: Token) -> bool
    ensures { result ≡ is_whole text.now token }
{
    if is_comment(text, token) {
        goes_to_quote(behind_first(stretch(text, token.from, token.to)))
    } else {
        true
    }
}
