//! How faults of the checked text are told.

ghost use Rattle.std.specs.Prelude.{◌≡◌};
ghost use Rattle.gtd_hours_items.specs.Coming.{begins};
ghost use Rattle.gtd_hours_holiday_rules.specs.Told.{begins_days, begins_easter, behind_first, easter_first, fault_at, fault_by};
ghost use Rattle.gtd_hours_holiday_rules.specs.Told.{fault_in_range, first_place, has_offset, instead_of, is_dates, is_day};
ghost use Rattle.gtd_hours_holiday_rules.specs.Told.{is_count, is_foreign};
ghost use Rattle.gtd_hours_holiday_rules.specs.Told.{is_misfit, is_sign, kind_among, led_instead, misfit_fault, misfit_kind};
ghost use Rattle.gtd_hours_holiday_rules.specs.Told.{plus_kind, sign_fault, told_at, told_fault, unfit_fault, unread_instead};

use gtd_hours_grammar::{FaultKind, HoursFault};
use gtd_hours_items::{Item, What, begins_weekday, is_weekday};
use gtd_hours_roles::{Behind, Last, Position, Role, is_commented};
use gtd_hours_tokens::TokenKind;
use thiserror::Error;

/// How a fault of the checked text is told.
#[derive(Clone, Copy, Debug)]
pub enum Instead {
    /// People read what stands here in two ways.
    Ambiguous {
        /// The number of bytes before it.
        place: usize,
    },
    /// As this fault.
    Fault(HoursFault),
    /// As it is, but at this place.
    Place(usize),
}

/// A place at which a fault of the checked text is told otherwise.
#[derive(Clone, Copy, Debug)]
pub struct Told {
    /// The place in the checked text.
    pub at: usize,
    /// How it is told.
    pub instead: Instead,
}

/// What is wrong with a text with holidays.
#[derive(Clone, Copy, Debug, PartialEq, Eq, Error)]
pub enum HolidayFault {
    /// A fault of opening hours.
    #[error("{0}")]
    Hours(HoursFault),
    /// People read what stands here in two ways.
    #[error("Ambiguous at {place}")]
    Ambiguous {
        /// The number of bytes before it.
        place: usize,
    },
}

fn is_day(what: What) -> bool
    ensures { result ≡ is_day what }
{
    match what {
        What::Token(TokenKind::Day) => true,
        _ => false,
    }
}

fn begins_day(items: &[Item]) -> bool
    ensures { result ≡ begins is_day items.now }
{
    match items.first() {
        None => false,
        Some(item) => is_day(item.what),
    }
}

fn is_count(what: What) -> bool
    ensures { result ≡ is_count what }
{
    match what {
        What::Token(TokenKind::Number { .. }) => true,
        _ => false,
    }
}

// A number and `day`.
fn begins_days(items: &[Item]) -> bool
    ensures { result ≡ begins_days items.now }
{
    match items.split_first() {
        None => false,
        Some((item, later)) => is_count(item.what) && begins_day(later),
    }
}

fn first_place(end: usize, items: &[Item]) -> usize
    ensures { result ≡ first_place end items.now }
{
    match items.first() {
        None => end,
        Some(item) => item.from,
    }
}

fn is_sign(what: What) -> bool
    ensures { result ≡ is_sign what }
{
    match what {
        What::Token(TokenKind::Plus) => true,
        What::Token(TokenKind::Dash) => true,
        _ => false,
    }
}

// Whether it may have an offset of days.
fn has_offset(last: Last) -> bool
    ensures { result ≡ has_offset last }
{
    match last {
        Last::Public => true,
        Last::Easter => true,
        _ => false,
    }
}

fn is_dates(last: Last) -> bool
    ensures { result ≡ is_dates last }
{
    match last {
        Last::Dates => true,
        _ => false,
    }
}

// What is wrong at the sign of an offset that is none.
fn sign_fault(last: Last, place: usize, later: &[Item]) -> HoursFault
    ensures { result ≡ sign_fault last place later.now }
{
    if has_offset(last) && begins_days(later) {
        HoursFault {
            kind: FaultKind::Range,
            place: first_place(place, later),
        }
    } else if has_offset(last) && begins_weekday(later) {
        HoursFault {
            kind: FaultKind::Unsupported,
            place: first_place(place, later),
        }
    } else {
        HoursFault {
            kind: FaultKind::Unexpected,
            place,
        }
    }
}

fn easter_first(what: What, from: usize) -> bool
    ensures { result ≡ easter_first what from }
{
    match what {
        What::Easter { place, .. } => place == from,
        What::NoDates { is_easter, .. } => is_easter,
        _ => false,
    }
}

// Whether an item begins with `easter`.
fn begins_easter(item: Item) -> bool
    ensures { result ≡ begins_easter item }
{
    easter_first(item.what, item.from)
}

// A word or a sign that is not read there.
fn is_foreign(what: What) -> bool
    ensures { result ≡ is_foreign what }
{
    match what {
        What::Token(TokenKind::Unsupported) => true,
        What::Token(TokenKind::Plus) => true,
        _ => false,
    }
}

// What is wrong at an item that nothing of its kind can follow: behind a comment on its rule, or a range that moves.
fn fault_at(item: Item) -> HoursFault
    ensures { result ≡ fault_at item }
{
    if is_foreign(item.what) || begins_easter(item) {
        HoursFault {
            kind: FaultKind::Unsupported,
            place: item.from,
        }
    } else {
        HoursFault {
            kind: FaultKind::Unexpected,
            place: item.from,
        }
    }
}

// What is wrong at an item that cannot stand where it does.
fn unfit_fault(position: Position, item: Item, later: &[Item]) -> HoursFault
    ensures { result ≡ unfit_fault position item later.now }
{
    if is_commented(position.behind) || is_dates(position.last) {
        fault_at(item)
    } else if is_sign(item.what) {
        sign_fault(position.last, item.from, later)
    } else {
        HoursFault {
            kind: FaultKind::Unexpected,
            place: item.from,
        }
    }
}

// What is wrong with a `+` that cannot stand behind an item.
fn plus_kind(before: What) -> FaultKind
    ensures { result ≡ plus_kind before }
{
    match before {
        What::Token(TokenKind::Number { digits, .. }) => {
            if digits == 4 {
                FaultKind::Unexpected
            } else {
                FaultKind::Unsupported
            }
        }
        What::Token(TokenKind::Weekday(_)) => FaultKind::Unexpected,
        What::Token(TokenKind::Plus) => FaultKind::Unexpected,
        _ => FaultKind::Unsupported,
    }
}

// The same with any item: a token that a range of days does not go on with has this kind of fault.
fn misfit_kind(before: What, what: What, kind: FaultKind) -> FaultKind
    ensures { result ≡ misfit_kind before what kind }
{
    match what {
        What::Token(TokenKind::Plus) => plus_kind(before),
        What::Token(_) => kind,
        What::Easter { .. } => kind,
        What::Every { .. } => kind,
        What::NoDates { .. } => kind,
        _ => FaultKind::Unexpected,
    }
}

// What is wrong with the item of this fault among these behind another.
fn kind_among(before: What, bad: HoursFault, items: &[Item]) -> FaultKind
    ensures { result ≡ kind_among before bad items.now }
{
    let mut last = before;
    let mut rest = items;
    while let Some((item, later)) = rest.split_first() {
        if item.from == bad.place {
            return misfit_kind(last, item.what, bad.kind);
        }
        last = item.what;
        rest = later;
    }
    bad.kind
}

// Whether it is a token that cannot stand where it does.
fn is_misfit(kind: FaultKind) -> bool
    ensures { result ≡ is_misfit kind }
{
    match kind {
        FaultKind::Unexpected => true,
        FaultKind::Unsupported => true,
        _ => false,
    }
}

// What is wrong with a range of days whose first token comes directly before an item.
fn fault_in_range(bad: HoursFault, item: Item, later: &[Item]) -> HoursFault
    ensures { result ≡ fault_in_range bad item later.now }
{
    if is_misfit(bad.kind) {
        HoursFault {
            kind: kind_among(item.what, bad, later),
            place: bad.place,
        }
    } else {
        bad
    }
}

// The same, or what is wrong with the range of days before it.
fn misfit_fault(position: Position, item: Item, later: &[Item]) -> HoursFault
    ensures { result ≡ misfit_fault position item later.now }
{
    match position.last {
        Last::NoDates(bad) => fault_in_range(bad, item, later),
        _ => unfit_fault(position, item, later),
    }
}

// A fault at a weekday behind leading holidays is told where these begin.
fn led_instead(behind: Behind, what: What) -> Option<Instead>
    ensures { result ≡ led_instead behind what }
{
    match behind {
        Behind::Led { from } => {
            if is_weekday(what) {
                Some(Instead::Place(from))
            } else {
                None
            }
        }
        _ => None,
    }
}

// `easter` that cannot stand where it does is not read there.
fn unread_instead(item: Item) -> Option<Instead>
    ensures { result ≡ unread_instead item }
{
    if begins_easter(item) {
        Some(Instead::Fault(HoursFault {
            kind: FaultKind::Unsupported,
            place: item.from,
        }))
    } else {
        None
    }
}

/// How a fault at an item is told, of which this becomes and which these items follow, if not as it is.
pub fn instead_of(position: Position, role: Role, item: Item, later: &[Item]) -> Option<Instead>
    ensures { result ≡ instead_of position role item later.now }
{
    match role {
        Role::Doubtful => Some(Instead::Ambiguous { place: item.from }),
        Role::Misfit => Some(Instead::Fault(misfit_fault(position, item, later))),
        Role::Known { .. } => unread_instead(item),
        Role::Undated => unread_instead(item),
        Role::Remark => Some(Instead::Place(item.from)),
        Role::UnknownComment => Some(Instead::Place(item.from)),
        _ => led_instead(position.behind, item.what),
    }
}

fn behind_first(item: Item) -> usize
    ensures { result ≡ behind_first item }
{
    if item.from < item.to {
        item.from + 1
    } else {
        item.from
    }
}

/// Where a fault at an item of which this becomes stands in the checked text: the word for a comment stands behind a space.
pub fn told_at(role: Role, item: Item) -> usize
    ensures { result ≡ told_at role item }
{
    match role {
        Role::Remark => behind_first(item),
        Role::UnknownComment => behind_first(item),
        _ => item.from,
    }
}

fn fault_by(bad: HoursFault, instead: Instead) -> HolidayFault
    ensures { result ≡ fault_by bad instead }
{
    match instead {
        Instead::Ambiguous { place } => HolidayFault::Ambiguous { place },
        Instead::Fault(other) => HolidayFault::Hours(other),
        Instead::Place(place) => HolidayFault::Hours(HoursFault {
            kind: bad.kind,
            place,
        }),
    }
}

/// How a fault of the checked text is told.
pub fn told_fault(bad: HoursFault, told: &[Told]) -> HolidayFault
    ensures told { result ≡ told_fault bad told.now }
{
    let mut rest = told;
    while let Some((first, later)) = rest.split_first() {
        if first.at == bad.place {
            return fault_by(bad, first.instead);
        }
        rest = later;
    }
    HolidayFault::Hours(bad)
}
