//! What a token is to the grammar.

/// What a token is to the grammar. [`accepted`](crate::accepted) lists classes in this order.
#[derive(Clone, Copy, Debug, PartialEq, Eq)]
pub enum Class {
    Year, // four digits
    Twenty, // `24`
    Number, // other digits
    Time, // `08:00`
    Month, // `Dec`
    Weekday, // `Mo`
    PublicHoliday, // `PH`
    SchoolHoliday, // `SH`
    Easter, // `easter`
    Week, // `week`
    Event, // `sunrise`
    Word, // `open`, `off`, `unknown`
    Day, // `day`
    Comment, // `"ring"`
    Comma, // `,`
    Semicolon, // `;`
    Bars, // `||`
    Dash, // `-`
    Slash, // `/`
    Colon, // `:`
    Open, // `[`
    Close, // `]`
    Plus, // `+`
    Paren, // `(`
    Unparen, // `)`
    End, // the end of the text
}
