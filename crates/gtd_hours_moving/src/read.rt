//! Ends and ranges that have been read.

use gtd_hours_ranges::{WrittenEnd, WrittenRange};
use gtd_hours_tokens::Token;

/// An end that has been read.
#[derive(Clone, Copy)]
pub struct ReadEnd {
    /// The end.
    pub end: WrittenEnd,
    /// Its last token.
    pub last: Token,
}

/// A range that has been read.
#[derive(Clone, Copy)]
pub struct ReadRange {
    /// The range.
    pub range: WrittenRange,
    /// Whether it is one day, which is written once.
    pub is_one: bool,
    /// Its last token.
    pub last: Token,
}
