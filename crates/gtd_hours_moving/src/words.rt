//! Words of a text that plain hours do not have.

ghost use Rattle.std.specs.Prelude.{◌≡◌};
ghost use Rattle.gtd_hours_moving.specs.Words.{begins_easter, is_unread, is_word, stretch};

use gtd_hours_tokens::{Token, TokenKind};

/// From one place of a text up to but not including another.
pub fn stretch(text: &[u8], from: usize, to: usize) -> &[u8]
    ensures stretch { result.now ≡ stretch text.now from to }
{
    let end = if to < text.len() { to } else { text.len() };
    if from < end {
        &text[from..end]
    } else {
        &text[..0]
    }
}

/// Whether it is one of the words and signs that plain hours do not have.
pub fn is_unread(kind: TokenKind) -> bool
    ensures unread { result ≡ is_unread kind }
{
    match kind {
        TokenKind::Unsupported => true,
        _ => false,
    }
}

/// Whether a token is this word, one of those that plain hours do not have.
pub fn is_word(text: &[u8], token: Token, word: &[u8]) -> bool
    ensures word { result ≡ is_word text.now token word.now }
{
    is_unread(token.kind) && stretch(text, token.from, token.to) == word
}

/// Whether the first token is `easter`.
pub fn begins_easter(text: &[u8], tokens: &[Token]) -> bool
    ensures easter { result ≡ begins_easter text.now tokens.now }
{
    match tokens.first() {
        None => false,
        Some(token) => is_word(text, *token, b"easter"),
    }
}
