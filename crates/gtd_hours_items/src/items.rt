//! The items of a text: its tokens, of which some are holidays, ranges of days that move, years without a last one, comments, or
//! of rules that fall back or are unknown.

ghost use Rattle.std.specs.Prelude.{◌≡◌, ◌++◌, IfOk, List};
ghost use Rattle.gtd_hours_moving.specs.Words.{is_easter};
ghost use Rattle.gtd_hours_items.specs.Items.{AreItems, begins_quoted, easter_with, is_comment, is_public, is_school, item_at};
ghost use Rattle.gtd_hours_items.specs.Items.{item_by, more_at, more_by, more_of_range, public_with, range_item, token_with};
ghost use Rattle.gtd_hours_items.specs.Items.{what_of};

use crate::every::every_front;
use crate::fronts::{Before, before_after, front_at};
use crate::offsets::{later, offset_front};
use gtd_hours::Selector;
use gtd_hours_days::{EasterDays, Listed, Offset};
use gtd_hours_grammar::HoursFault;
use gtd_hours_moving::{MovingFront, is_unread, is_word, stretch};
use gtd_hours_tokens::{Token, TokenKind};
use std::alloc::{AllocError, Global};

/// What an item is.
#[derive(Clone, Copy)]
pub enum What {
    /// A token.
    Token(TokenKind),
    /// A holiday, with its offset.
    Holiday(Listed),
    /// A range of days that moves, or Easter of a year.
    Dates(Selector),
    /// The first token of such a range that has a fault.
    NoDates {
        /// The fault.
        bad: HoursFault,
        /// Whether the token is `easter`.
        is_easter: bool,
    },
    /// Days of Easter, without a year.
    Easter {
        /// The days.
        days: EasterDays,
        /// The number of bytes before the first `easter`.
        place: usize,
    },
    /// Years without a last one, `2025/2`, of which there are more than a domain holds.
    Every {
        /// The number of bytes before the slash.
        place: usize,
    },
    /// A comment.
    Comment,
    /// `||`, the sign of a fallback rule.
    Fallback,
    /// `unknown`
    Unknown,
}

/// An item, and its place in the text.
#[derive(Clone, Copy)]
pub struct Item {
    /// What it is.
    pub what: What,
    /// The number of bytes before it.
    pub from: usize,
    /// The number of bytes up to its end.
    pub to: usize,
}

fn is_public(text: &[u8], token: Token) -> bool
    ensures { result ≡ is_public text.now token }
{
    is_word(text, token, b"PH")
}

fn is_school(text: &[u8], token: Token) -> bool
    ensures { result ≡ is_school text.now token }
{
    is_word(text, token, b"SH")
}

fn is_easter(text: &[u8], token: Token) -> bool
    ensures { result ≡ is_easter text.now token }
{
    is_word(text, token, b"easter")
}

fn begins_quoted(bytes: &[u8]) -> bool
    ensures { result ≡ begins_quoted bytes.now }
{
    match bytes.first() {
        None => false,
        Some(byte) => *byte == b'"',
    }
}

/// Whether a token is a comment.
pub fn is_comment(text: &[u8], token: Token) -> bool
    ensures { result ≡ is_comment text.now token }
{
    is_unread(token.kind) && begins_quoted(stretch(text, token.from, token.to))
}

// What a token is that is no public holiday.
fn what_of(text: &[u8], token: Token) -> What
    ensures { result ≡ what_of text.now token }
{
    if is_school(text, token) {
        What::Holiday(Listed::School)
    } else if is_comment(text, token) {
        What::Comment
    } else if is_word(text, token, b"||") {
        What::Fallback
    } else if is_word(text, token, b"unknown") {
        What::Unknown
    } else {
        What::Token(token.kind)
    }
}

// A public holiday, with the offset behind it if there is one.
fn public_with(token: Token, offset: Option<(Offset, usize)>) -> Item
    ensures { result ≡ public_with token offset }
{
    match offset {
        None => Item {
            what: What::Holiday(Listed::Public { offset: later(0) }),
            from: token.from,
            to: token.to,
        },
        Some((offset, to)) => Item {
            what: What::Holiday(Listed::Public { offset }),
            from: token.from,
            to,
        },
    }
}

// Easter Sunday, with the offset behind it if there is one.
fn easter_with(token: Token, offset: Option<(Offset, usize)>) -> Item
    ensures { result ≡ easter_with token offset }
{
    match offset {
        None => Item {
            what: What::Easter {
                days: EasterDays::Day { offset: later(0) },
                place: token.from,
            },
            from: token.from,
            to: token.to,
        },
        Some((offset, to)) => Item {
            what: What::Easter {
                days: EasterDays::Day { offset },
                place: token.from,
            },
            from: token.from,
            to,
        },
    }
}

// Years without a last one that end there, if they do, or what the token is by itself.
fn token_with(text: &[u8], token: Token, every: Option<(usize, usize)>) -> Item
    ensures { result ≡ token_with text.now token every }
{
    match every {
        None => Item {
            what: what_of(text, token),
            from: token.from,
            to: token.to,
        },
        Some((place, to)) => Item {
            what: What::Every { place },
            from: token.from,
            to,
        },
    }
}

// The item that begins with a token, where these come behind it.
fn item_at(text: &[u8], token: Token, later: &[Token]) -> Item
    ensures { result ≡ item_at text.now token later.now }
{
    if is_public(text, token) {
        return public_with(token, offset_front(later));
    }
    if is_easter(text, token) {
        return easter_with(token, offset_front(later));
    }
    token_with(text, token, every_front(token, later))
}

// How many of the tokens behind the first one of an item belong to it.
fn more_at(text: &[u8], token: Token, later: &[Token]) -> u8
    ensures { result ≡ more_at text.now token later.now }
{
    if is_public(text, token) || is_easter(text, token) {
        if offset_front(later).is_some() { 3 } else { 0 }
    } else if every_front(token, later).is_some() {
        2
    } else {
        0
    }
}

// The item that begins with a token with which a range of days that moves begins.
fn range_item(text: &[u8], token: Token, found: MovingFront) -> Item
    ensures { result ≡ range_item text.now token found }
{
    match found {
        MovingFront::Range { days, to, .. } => Item {
            what: What::Dates(days),
            from: token.from,
            to,
        },
        MovingFront::Easter {
            days,
            place,
            to,
            ..
        } => Item {
            what: What::Easter {
                days: EasterDays::Range(days),
                place,
            },
            from: token.from,
            to,
        },
        MovingFront::Fault(bad) => Item {
            what: What::NoDates {
                bad,
                is_easter: is_easter(text, token),
            },
            from: token.from,
            to: token.to,
        },
    }
}

// How many of the tokens behind the first one belong to it.
fn more_of_range(found: MovingFront) -> usize
    ensures { result ≡ more_of_range found }
{
    match found {
        MovingFront::Range { tokens, .. } => tokens.saturating_sub(1),
        MovingFront::Easter { tokens, .. } => tokens.saturating_sub(1),
        MovingFront::Fault(_) => 0,
    }
}

// The item that begins with a token, where these come behind it and a range of days that moves begins with it or not.
fn item_by(text: &[u8], token: Token, later: &[Token], front: Option<MovingFront>) -> Item
    ensures { result ≡ item_by text.now token later.now front }
{
    match front {
        None => item_at(text, token, later),
        Some(found) => range_item(text, token, found),
    }
}

// How many of the tokens behind the first one of that item belong to it.
fn more_by(text: &[u8], token: Token, later: &[Token], front: Option<MovingFront>) -> usize
    ensures { result ≡ more_by text.now token later.now front }
{
    match front {
        None => usize::from(more_at(text, token, later)),
        Some(found) => more_of_range(found),
    }
}

/// The items of a text with these tokens.
pub fn items_of(alloc: Global, text: &[u8], tokens: &[Token]) -> Result<Vec<Item>, AllocError>
    ensures items { IfOk result (λ items. AreItems text.now tokens.now items.items) }
{
    let mut items = Vec::new(alloc);
    let mut before = Before::Other;
    let mut skipped: usize = 0;
    let mut rest = tokens;
    while let Some((token, later)) = rest.split_first() {
        if skipped > 0 {
            skipped -= 1;
        } else {
            let front = front_at(text, before, rest);
            items.push(item_by(text, *token, later, front))?;
            skipped = more_by(text, *token, later, front);
            before = before_after(before, token.kind, front);
        }
        rest = later;
    }
    Ok(items)
}
