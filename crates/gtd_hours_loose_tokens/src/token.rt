//! What a loosely written text of opening hours is made of.

use thiserror::Error;

/// What a written token stands for.
#[derive(Clone, Copy)]
pub enum LooseKind {
    /// A name of a month. January is 1.
    Month(u8),
    /// A name of a weekday. Sunday is 1.
    Weekday(u8),
    /// `week`
    Week,
    /// `open` or `on`
    Open,
    /// `closed` or `off`
    Closed,
    /// `PH`
    PublicHoliday,
    /// `SH`
    SchoolHoliday,
    /// `sunrise`, `sunset`, `dawn` or `dusk`
    Event,
    /// Another word or sign that OpenStreetMap has and that is not read.
    Unread,
    /// From `"` to the next `"` or the end of the text.
    Comment,
    /// From one of the quotes U+201C to U+201E to the next of these or `"`, or the end of the text.
    Quoted,
    /// One to four digits.
    Number {
        /// The number that the digits stand for.
        value: u16,
        /// How many digits there are.
        digits: u8,
    },
    /// A time, however it is written.
    Time {
        /// The hour, of 24.
        hour: u8,
        /// The minute.
        minute: u8,
    },
    /// `,`
    Comma,
    /// `;`
    Semicolon,
    /// `-`, or a dash of a text processor
    Dash,
    /// `/`
    Slash,
    /// `:`
    Colon,
    /// `[`
    OpenBracket,
    /// `]`
    CloseBracket,
    /// `(`
    OpenParenthesis,
    /// `)`
    CloseParenthesis,
    /// A name or a time that is refused, since people read it in two ways.
    Ambiguous,
}

/// A token, and its place in the text.
#[derive(Clone, Copy)]
pub struct LooseToken {
    /// What it stands for.
    pub kind: LooseKind,
    /// The number of bytes before it.
    pub from: usize,
    /// The number of bytes up to its end.
    pub to: usize,
}

/// What `Di`, `Do` and `So` are.
#[derive(Clone, Copy, Debug, PartialEq, Eq)]
pub enum DayNames {
    /// Refused: people read them in two ways.
    Unsaid,
    /// German names: Tuesday, Thursday and Sunday.
    German,
}

/// What is wrong with a text at its tokens.
#[derive(Clone, Copy, Debug, PartialEq, Eq, Error)]
pub enum TokenFault {
    /// No token begins here.
    #[error("BadToken at {place}")]
    BadToken {
        /// The number of bytes before it.
        place: usize,
    },
    /// People read what stands here in two ways.
    #[error("Ambiguous at {place}")]
    Ambiguous {
        /// The number of bytes before it.
        place: usize,
    },
}
