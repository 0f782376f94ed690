//! Words and comments of rules.

ghost use Rattle.std.specs.Prelude.{◌≡◌, ◌-◌, drop};
ghost use Rattle.gtd_hours_reading2.specs.Reading.{begins_plain, comment_of, said_at, word_of};

use gtd_hours_tokens2::{Token, Word};
use gtd_hours2::{CommentRange, RuleWord};

pub(crate) fn word_of(word: Word) -> RuleWord
    ensures { result ≡ word_of word }
{
    match word {
        Word::Open => RuleWord::Open,
        Word::Off => RuleWord::Off,
        Word::Unknown => RuleWord::Unknown,
    }
}

pub(crate) fn said_at(word: Option<RuleWord>, before: u16, offset: u16) -> u16
    ensures { result ≡ said_at word before offset }
{
    match word {
        None => offset,
        Some(_) => before,
    }
}

// Whether the byte at an offset is a plain quote.
fn is_plain_at(text: &[u8], offset: usize) -> bool
    ensures { result ≡ begins_plain (drop offset text.now) }
{
    if offset >= text.len() {
        return false;
    }
    match &text[offset..] {
        [] => false,
        [byte, ..] => *byte == b'"',
    }
}

/// The bytes between the quotes of a comment.
pub(crate) fn comment_of(text: &[u8], token: Token) -> CommentRange
    ensures { result ≡ comment_of text.now token }
{
    let before = if token.is_loose { 3 } else { 1 };
    let after = if is_plain_at(text, token.to.saturating_sub(1) as usize) {
        1
    } else {
        3
    };
    CommentRange {
        from: u32::from(token.from) + before,
        to: token.to.saturating_sub(after),
    }
}
