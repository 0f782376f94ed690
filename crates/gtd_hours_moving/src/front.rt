//! The range that tokens begin with.

ghost use Rattle.gtd_hours_ranges.specs.Days.{IsDaysOf};
ghost use Rattle.gtd_hours_moving.specs.Moving.{IsFrontOf, IsMovingFront};

use crate::begins::begins_moving;
use crate::range::{range_front, range_tokens};
use crate::read::ReadRange;
use crate::reading::fault_at;
use gtd_hours::Selector;
use gtd_hours_days::EasterRange;
use gtd_hours_grammar::{FaultKind, HoursFault};
use gtd_hours_ranges::{RangeDays, days_of, easter_place};
use gtd_hours_tokens::Token;

/// A range of days that moves, or Easter of a year, with which tokens begin.
#[derive(Clone, Copy, Debug, PartialEq, Eq)]
pub enum MovingFront {
    /// The first tokens, so many, are a range with these days, and end behind so many bytes of the text.
    Range {
        /// The days: of each year, or dates if years are written.
        days: Selector,
        /// How many tokens the range is.
        tokens: usize,
        /// How many bytes of the text come before its end.
        to: usize,
    },
    /// They are a range to or from Easter without a year, whose days are known in some years alone.
    Easter {
        /// The days.
        days: EasterRange,
        /// How many bytes of the text come before its first `easter`.
        place: usize,
        /// How many tokens the range is.
        tokens: usize,
        /// How many bytes of the text come before its end.
        to: usize,
    },
    /// They begin a range, which has this fault.
    Fault(HoursFault),
}

// The days of a range that has been read.
fn front_with(read: ReadRange, days: RangeDays) -> MovingFront
    ensures { IsDaysOf read.range days → IsFrontOf read result }
{
    match days {
        RangeDays::Always(days) => MovingFront::Range {
            days,
            tokens: range_tokens(read),
            to: read.last.to,
        },
        RangeDays::Easter(days) => MovingFront::Easter {
            days,
            place: easter_place(read.range.first, read.range.last),
            tokens: range_tokens(read),
            to: read.last.to,
        },
    }
}

// What a range comes to that has been read.
fn front_of(read: ReadRange) -> MovingFront
    ensures { IsFrontOf read result }
{
    match days_of(read.range) {
        Some(days) => front_with(read, days),
        None => MovingFront::Fault(fault_at(FaultKind::Range, read.last.from)),
    }
}

/// The range of days that moves, such as `Mar Su[-1]-Oct Su[1]` or `easter-Oct 31`, or Easter of a year, such as `2026 easter`,
/// with which tokens of a text begin, or its first fault. `None` exactly if the kinds of the tokens do not begin one. Where
/// tokens are missing, the fault is told at the end of the text. Takes no memory.
pub fn moving_front(text: &[u8], tokens: &[Token]) -> Option<MovingFront>
    ensures front { IsMovingFront text.now tokens.now result }
{
    if !begins_moving(text, tokens) {
        return None;
    }
    match range_front(text, tokens) {
        Ok(read) => Some(front_of(read)),
        Err(bad) => Some(MovingFront::Fault(bad)),
    }
}
