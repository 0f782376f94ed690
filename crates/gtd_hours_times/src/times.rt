//! What tokens are for the forms of times.

ghost use Rattle.std.specs.Prelude.{◌≡◌, ◌<◌, length};
ghost use Rattle.gtd_hours_times.specs.Tokens.{begins_quoted, event_of, is_of_rules, kind_of, parenthesis, parenthesis_at};
ghost use Rattle.gtd_hours_times.specs.Tokens.{stretch, time_token, unread};

use crate::moment::Event;
use gtd_hours_tokens::{Token, TokenKind};

/// What a token is, as far as forms of times ask.
#[derive(Clone, Copy, Debug)]
pub enum TimeKind {
    /// Two digits, a colon, and two digits.
    Time {
        /// The number before the colon.
        hour: u8,
        /// The number after the colon.
        minute: u8,
    },
    /// `sunrise`, `sunset`, `dawn` or `dusk`.
    Event(Event),
    /// One to four digits.
    Number(u16),
    /// `(`
    Opening,
    /// `)`
    Closing,
    /// `+`
    Plus,
    /// `-`
    Dash,
    /// `/`
    Slash,
    /// A word or a sign that is not read here.
    Unread,
    /// Another token.
    Other,
}

/// A token, and its place in the text.
#[derive(Clone, Copy, Debug)]
pub struct TimeToken {
    /// What it is.
    pub kind: TimeKind,
    /// The number of bytes before it.
    pub from: usize,
    /// The number of bytes up to its end.
    pub to: usize,
}

/// From one place of a text up to but not including another.
pub fn stretch(text: &[u8], from: usize, to: usize) -> &[u8]
    ensures { result.now ≡ stretch text.now from to }
{
    let end = if to < text.len() { to } else { text.len() };
    if from < end {
        &text[from..end]
    } else {
        &text[..0]
    }
}

fn event_of(word: &[u8]) -> Option<Event>
    ensures { result ≡ event_of word.now }
{
    if word == b"sunrise".as_slice() {
        Some(Event::Sunrise)
    } else if word == b"sunset".as_slice() {
        Some(Event::Sunset)
    } else if word == b"dawn".as_slice() {
        Some(Event::Dawn)
    } else if word == b"dusk".as_slice() {
        Some(Event::Dusk)
    } else {
        None
    }
}

fn begins_quoted(word: &[u8]) -> bool
    ensures { result ≡ begins_quoted word.now }
{
    match word {
        [byte, ..] => *byte == b'"',
        [] => false,
    }
}

// Whether it is a holiday, `unknown`, `||` or a comment.
fn is_of_rules(word: &[u8]) -> bool
    ensures { result ≡ is_of_rules word.now }
{
    word == b"PH".as_slice()
        || word == b"SH".as_slice()
        || word == b"unknown".as_slice()
        || word == b"||".as_slice()
        || begins_quoted(word)
}

fn unread(event: Option<Event>, of_rules: bool) -> TimeKind
    ensures { result ≡ unread event of_rules }
{
    match event {
        Some(event) => TimeKind::Event(event),
        None => {
            if of_rules {
                TimeKind::Other
            } else {
                TimeKind::Unread
            }
        }
    }
}

fn kind_of(kind: TokenKind, written: &[u8]) -> TimeKind
    ensures { result ≡ kind_of kind written.now }
{
    match kind {
        TokenKind::Time { hour, minute } => TimeKind::Time { hour, minute },
        TokenKind::Number { value, .. } => TimeKind::Number(value),
        TokenKind::Plus => TimeKind::Plus,
        TokenKind::Dash => TimeKind::Dash,
        TokenKind::Slash => TimeKind::Slash,
        TokenKind::Unsupported => unread(event_of(written), is_of_rules(written)),
        _ => TimeKind::Other,
    }
}

/// What a token of opening hours is here.
pub fn time_token(text: &[u8], token: Token) -> TimeToken
    ensures { result ≡ time_token text.now token }
{
    TimeToken {
        kind: kind_of(token.kind, stretch(text, token.from, token.to)),
        from: token.from,
        to: token.to,
    }
}

fn parenthesis(byte: u8) -> Option<TimeKind>
    ensures { result ≡ parenthesis byte }
{
    match byte {
        b'(' => Some(TimeKind::Opening),
        b')' => Some(TimeKind::Closing),
        _ => None,
    }
}

/// The parenthesis at a place.
pub fn parenthesis_at(text: &[u8], place: usize) -> Option<TimeToken>
    requires { place < length text.now }
    ensures { result ≡ parenthesis_at text.now place }
{
    match parenthesis(text[place]) {
        None => None,
        Some(kind) => Some(TimeToken {
            kind,
            from: place,
            to: place + 1,
        }),
    }
}
