//! What a text of opening hours is made of.

use thiserror::Error;

/// What a token is.
#[derive(Clone, Copy, Debug, PartialEq, Eq)]
pub enum TokenKind {
    /// `Jan` is 1, `Dec` is 12.
    Month(u8),
    /// `Su` is 1, `Sa` is 7.
    Weekday(u8),
    /// `week`
    Week,
    /// `open` or `on`
    Open,
    /// `closed` or `off`
    Closed,
    /// `day` or `days`
    Day,
    /// A word or a sign that OpenStreetMap has and that is not read here: `PH`, `SH`, `easter`, `sunrise`, `sunset`, `dawn`,
    /// `dusk`, `unknown`, `||`, or a comment from `"` to the next `"` or the end of the text.
    Unsupported,
    /// One to four digits.
    Number {
        /// The number that the digits stand for.
        value: u16,
        /// How many digits there are, including leading zeros.
        digits: u8,
    },
    /// Two digits, a colon, and two digits. They may be any: `99:99` is a token too.
    Time {
        /// The number before the colon.
        hour: u8,
        /// The number after the colon.
        minute: u8,
    },
    /// `,`
    Comma,
    /// `;`
    Semicolon,
    /// `-`
    Dash,
    /// `/`
    Slash,
    /// `:`
    Colon,
    /// `[`
    OpenBracket,
    /// `]`
    CloseBracket,
    /// `+`
    Plus,
}

/// A token, and its place in the text.
#[derive(Clone, Copy, Debug, PartialEq, Eq)]
pub struct Token {
    /// What it is.
    pub kind: TokenKind,
    /// The number of bytes before it.
    pub from: usize,
    /// The number of bytes up to its end: its text is the bytes from `from` up to but not including `to`.
    pub to: usize,
}

/// No token begins at a byte that is not a space.
#[derive(Clone, Copy, Debug, PartialEq, Eq, Error)]
#[error("BadToken at {place}")]
pub struct BadToken {
    /// The number of bytes before it.
    pub place: usize,
}
