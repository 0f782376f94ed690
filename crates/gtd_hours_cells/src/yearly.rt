//! Ranges of dates of each year, and what two of them share.

use crate::cell::{Date, Yearly};

// Months and days as one number in the order of the year.
fn key(date: Date) -> u16 {
    u16::from(date.month) * 32 + u16::from(date.day)
}

// How far it is from a date on to another, which may be in the next year.
fn distance(from: Date, to: Date) -> u16 {
    key(to).wrapping_sub(key(from)) % 512
}

// Whether the range has the date.
fn has(range: Yearly, date: Date) -> bool {
    distance(range.first, date) <= distance(range.first, range.last)
}

/// What two ranges share from the beginning of the first one on.
pub fn shared_from(range: Yearly, other: Yearly) -> Option<Yearly> {
    if !has(other, range.first) {
        return None;
    }
    let first = range.first;
    let last = if distance(first, range.last) <= distance(first, other.last) {
        range.last
    } else {
        other.last
    };
    Some(Yearly { first, last })
}
