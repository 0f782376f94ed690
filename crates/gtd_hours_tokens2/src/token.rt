//! What a text of opening hours is made of.

/// An event of the sun.
#[derive(Clone, Copy, Debug, PartialEq, Eq)]
pub enum Event {
    /// `sunrise`
    Sunrise,
    /// `sunset`
    Sunset,
    /// `dawn`
    Dawn,
    /// `dusk`
    Dusk,
}

/// What a rule says.
#[derive(Clone, Copy, Debug, PartialEq, Eq)]
pub enum Word {
    /// `open`, `on`
    Open,
    /// `off`, `closed`
    Off,
    /// `unknown`
    Unknown,
}

/// What a token means.
#[derive(Clone, Copy, Debug, PartialEq, Eq)]
pub enum TokenKind {
    /// One to four digits.
    Number {
        /// Their value.
        value: u16,
        /// How many they are.
        digits: u8,
    },
    /// `08:00`
    Time {
        /// The hour, of 24 where it is written with `am` or `pm`, and any two digits elsewhere.
        hour: u8,
        /// The minute: any two digits.
        minute: u8,
    },
    /// A month. January is 1.
    Month(u8),
    /// A weekday. Sunday is 1.
    Weekday(u8),
    /// `PH`
    PublicHoliday,
    /// `SH`
    SchoolHoliday,
    /// `easter`
    Easter,
    /// `week`
    Week,
    /// `sunrise`
    Event(Event),
    /// `off`
    Word(Word),
    /// `day`, `days`
    Day,
    /// `"ring"`
    Comment,
    /// `,`
    Comma,
    /// `;`
    Semicolon,
    /// `||`
    Bars,
    /// `-`
    Dash,
    /// `/`
    Slash,
    /// `:`
    Colon,
    /// `[`
    Open,
    /// `]`
    Close,
    /// `+`
    Plus,
    /// `(`
    Paren,
    /// `)`
    Unparen,
}

/// A token, where it is in its text, and whether it is written loosely.
#[derive(Clone, Copy, Debug, PartialEq, Eq)]
pub struct Token {
    /// What it means.
    pub kind: TokenKind,
    /// The number of bytes before it.
    pub from: u16,
    /// The number of bytes up to its end.
    pub to: u32,
    /// Whether its strict form is another one.
    pub is_loose: bool,
}

/// A token, or a space that is written loosely: a tab, or one that does not break.
#[derive(Clone, Copy, Debug, PartialEq, Eq)]
pub enum Piece {
    /// A token.
    Token(Token),
    /// A loose space, by the number of bytes before it.
    Space(usize),
}

/// What `Di`, `Do` and `So` are.
#[derive(Clone, Copy, Debug, PartialEq, Eq)]
pub enum DayNames {
    /// Refused: people read them in two ways.
    Unsaid,
    /// German names: Tuesday, Thursday and Sunday.
    German,
}

/// What is wrong with a text at its tokens.
#[derive(Clone, Copy, Debug, PartialEq, Eq)]
pub enum TokenFaultKind {
    /// No token begins here.
    BadToken,
    /// People read it in two ways.
    Ambiguous,
    /// The text has more than 65,536 bytes.
    TooLong,
}

/// The first fault of the tokens of a text.
#[derive(Clone, Copy, Debug, PartialEq, Eq)]
pub struct TokenFault {
    /// What is wrong.
    pub kind: TokenFaultKind,
    /// The number of bytes before it.
    pub place: usize,
}
