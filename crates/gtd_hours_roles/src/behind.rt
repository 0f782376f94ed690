//! What stands behind the items of a text, and what becomes of the next one there.

ghost use Rattle.std.specs.Prelude.{◌≡◌};
ghost use Rattle.gtd_hours_roles.specs.Behind.{after, after_close, after_colon, after_dated, after_leading, after_listed};
ghost use Rattle.gtd_hours_roles.specs.Behind.{after_month, after_number, after_open, after_token, after_weekday};
ghost use Rattle.gtd_hours_roles.specs.Behind.{after_what, behind_after, front, is_commented, is_faulty, last_holiday};
ghost use Rattle.gtd_hours_roles.specs.Behind.{last_easter, last_of, last_token};

use crate::role::Role;
use gtd_hours_days::{EasterDays, Listed};
use gtd_hours_grammar::HoursFault;
use gtd_hours_items::{Item, What};
use gtd_hours_tokens::TokenKind;

/// What stands behind the items of a text so far.
#[derive(Clone, Copy)]
pub enum Behind {
    /// Nothing of a rule.
    Front,
    /// Years.
    Years,
    /// Months and dates.
    MonthDays,
    /// Ranges of days that move, and Easter.
    Moving {
        /// Whether months or dates stand in the same list.
        beside: bool,
    },
    /// Weeks.
    Weeks,
    /// One of these, and a colon.
    Colon,
    /// A list of days in which there are only holidays so far.
    Holidays,
    /// Leading holidays.
    Led {
        /// The place where they begin.
        from: usize,
    },
    /// A list of days with weekdays.
    Weekdays {
        /// Whether holidays lead it.
        led: bool,
    },
    /// Places of a weekday, in brackets.
    Places {
        /// Whether holidays lead the list.
        led: bool,
    },
    /// A list of days with weekdays, and a holiday directly behind it.
    Mixed,
    /// Times.
    Times,
    /// What no list follows: a modifier, or `24/7`.
    Done,
    /// A comment that says something of its rule: only another rule follows.
    Commented,
}

/// What the last item is, as far as this matters.
#[derive(Clone, Copy)]
pub enum Last {
    /// A comma.
    Comma,
    /// A number or a plus: no selector of days ends here.
    Unfinished,
    /// The dash of an offset or of a range.
    Dash,
    /// A public holiday.
    Public,
    /// A range of days that moves.
    Dates,
    /// Easter.
    Easter,
    /// The beginning of a range of days that moves, which has this fault.
    NoDates(HoursFault),
    /// The bracket behind places.
    Bracket,
    /// A word that says whether a rule is open: a comment directly behind it says why.
    Modifier,
    /// The word `week`, or a comment: no comment stands directly behind it.
    NoComment,
    /// Something else.
    Other,
}

/// Where a text has been read to.
#[derive(Clone, Copy)]
pub struct Position {
    /// What stands behind the items.
    pub behind: Behind,
    /// What the last of them is.
    pub last: Last,
}

/// Where nothing has been read.
pub fn front() -> Position
    ensures { result ≡ front }
{
    Position {
        behind: Behind::Front,
        last: Last::Other,
    }
}

/// Whether it is a comment that says something of its rule.
pub fn is_commented(behind: Behind) -> bool
    ensures { result ≡ is_commented behind }
{
    match behind {
        Behind::Commented => true,
        _ => false,
    }
}

/// Whether it is the beginning of a range of days that has a fault.
pub fn is_faulty(last: Last) -> bool
    ensures { result ≡ is_faulty last }
{
    match last {
        Last::NoDates(_) => true,
        _ => false,
    }
}

fn after_leading(behind: Behind, from: usize) -> Behind
    ensures { result ≡ after_leading behind from }
{
    match behind {
        Behind::Led { .. } => behind,
        _ => Behind::Led { from },
    }
}

fn after_listed(behind: Behind) -> Behind
    ensures { result ≡ after_listed behind }
{
    match behind {
        Behind::Front => Behind::Holidays,
        Behind::Years => Behind::Holidays,
        Behind::MonthDays => Behind::Holidays,
        Behind::Moving { .. } => Behind::Holidays,
        Behind::Weeks => Behind::Holidays,
        Behind::Colon => Behind::Holidays,
        Behind::Weekdays { .. } => Behind::Mixed,
        _ => behind,
    }
}

fn after_number(behind: Behind, digits: u8) -> Behind
    ensures { result ≡ after_number behind digits }
{
    match behind {
        Behind::Front => {
            if digits == 4 {
                Behind::Years
            } else {
                Behind::Done
            }
        }
        _ => behind,
    }
}

fn after_month(behind: Behind) -> Behind
    ensures { result ≡ after_month behind }
{
    match behind {
        Behind::Front => Behind::MonthDays,
        Behind::Years => Behind::MonthDays,
        Behind::Moving { .. } => Behind::Moving { beside: true },
        _ => behind,
    }
}

fn after_dated(behind: Behind) -> Behind
    ensures { result ≡ after_dated behind }
{
    match behind {
        Behind::Front => Behind::Moving { beside: false },
        Behind::Years => Behind::Moving { beside: false },
        Behind::MonthDays => Behind::Moving { beside: true },
        _ => behind,
    }
}

fn after_weekday(behind: Behind) -> Behind
    ensures { result ≡ after_weekday behind }
{
    match behind {
        Behind::Led { .. } => Behind::Weekdays { led: true },
        Behind::Weekdays { led } => Behind::Weekdays { led },
        Behind::Places { led } => Behind::Weekdays { led },
        _ => Behind::Weekdays { led: false },
    }
}

fn after_open(behind: Behind) -> Behind
    ensures { result ≡ after_open behind }
{
    match behind {
        Behind::Weekdays { led } => Behind::Places { led },
        _ => behind,
    }
}

fn after_close(behind: Behind) -> Behind
    ensures { result ≡ after_close behind }
{
    match behind {
        Behind::Places { led } => Behind::Weekdays { led },
        _ => behind,
    }
}

fn after_colon(behind: Behind) -> Behind
    ensures { result ≡ after_colon behind }
{
    match behind {
        Behind::Years => Behind::Colon,
        Behind::MonthDays => Behind::Colon,
        Behind::Moving { .. } => Behind::Colon,
        Behind::Weeks => Behind::Colon,
        _ => behind,
    }
}

fn after_token(behind: Behind, kind: TokenKind) -> Behind
    ensures { result ≡ after_token behind kind }
{
    match kind {
        TokenKind::Number { digits, .. } => after_number(behind, digits),
        TokenKind::Month(_) => after_month(behind),
        TokenKind::Weekday(_) => after_weekday(behind),
        TokenKind::Week => Behind::Weeks,
        TokenKind::Time { .. } => Behind::Times,
        TokenKind::Open => Behind::Done,
        TokenKind::Closed => Behind::Done,
        TokenKind::OpenBracket => after_open(behind),
        TokenKind::CloseBracket => after_close(behind),
        TokenKind::Colon => after_colon(behind),
        _ => behind,
    }
}

fn after_what(behind: Behind, what: What) -> Behind
    ensures { result ≡ after_what behind what }
{
    match what {
        What::Token(kind) => after_token(behind, kind),
        What::Every { .. } => after_number(behind, 4),
        _ => behind,
    }
}

fn behind_after(behind: Behind, role: Role, item: Item) -> Behind
    ensures { result ≡ behind_after behind role item }
{
    match role {
        Role::Begins(_) => Behind::Front,
        Role::Fallback => Behind::Front,
        Role::Leading(_) => after_leading(behind, item.from),
        Role::Listed(_) => after_listed(behind),
        Role::Dated(_) => after_dated(behind),
        Role::Known { .. } => after_dated(behind),
        Role::Misfit => behind,
        Role::Silent => Behind::Done,
        Role::UnknownWord => Behind::Done,
        Role::Remark => Behind::Commented,
        Role::UnknownComment => Behind::Commented,
        _ => after_what(behind, item.what),
    }
}

fn last_token(kind: TokenKind) -> Last
    ensures { result ≡ last_token kind }
{
    match kind {
        TokenKind::Comma => Last::Comma,
        TokenKind::Number { .. } => Last::Unfinished,
        TokenKind::Plus => Last::Unfinished,
        TokenKind::Dash => Last::Dash,
        TokenKind::Open => Last::Modifier,
        TokenKind::Closed => Last::Modifier,
        TokenKind::Week => Last::NoComment,
        TokenKind::CloseBracket => Last::Bracket,
        _ => Last::Other,
    }
}

fn last_holiday(holiday: Listed) -> Last
    ensures { result ≡ last_holiday holiday }
{
    match holiday {
        Listed::Public { .. } => Last::Public,
        _ => Last::Other,
    }
}

fn last_easter(days: EasterDays) -> Last
    ensures { result ≡ last_easter days }
{
    match days {
        EasterDays::Day { .. } => Last::Easter,
        EasterDays::Range(_) => Last::Dates,
    }
}

fn last_of(what: What) -> Last
    ensures { result ≡ last_of what }
{
    match what {
        What::Token(kind) => last_token(kind),
        What::Holiday(holiday) => last_holiday(holiday),
        What::Dates(_) => Last::Dates,
        What::NoDates { bad, .. } => Last::NoDates(bad),
        What::Easter { days, .. } => last_easter(days),
        What::Every { .. } => Last::Unfinished,
        What::Comment => Last::NoComment,
        What::Unknown => Last::Modifier,
        What::Fallback => Last::Other,
    }
}

/// Behind an item of which this becomes.
pub fn after(position: Position, role: Role, item: Item) -> Position
    ensures { result ≡ after position role item }
{
    Position {
        behind: behind_after(position.behind, role, item),
        last: last_of(item.what),
    }
}
