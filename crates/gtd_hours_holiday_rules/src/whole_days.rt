//! The rules that say days alone, and behind which a comma begins another rule.

ghost use Rattle.std.specs.Prelude.{◌≡◌, ◌++◌, IfOk, OnOk};
ghost use Rattle.gtd_hours_holiday_rules.specs.WholeDays.{after_part, begins_days, days_from, is_of_days, list_of};
ghost use Rattle.gtd_hours_holiday_rules.specs.WholeDays.{place_before, place_behind, place_of, says_days, says_first_days};
ghost use Rattle.gtd_hours_holiday_rules.specs.WholeDays.{whole_days_of, with_item};

use crate::parts::Part;
use crate::rules::link_behind;
use gtd_hours::Link;
use gtd_hours_items::{Item, What};
use gtd_hours_tokens::TokenKind;
use std::alloc::{AllocError, Global};

/// What a rule has said so far.
#[derive(Clone, Copy)]
pub enum SoFar {
    /// Nothing.
    Nothing,
    /// Days alone.
    Days {
        /// The number of bytes before the first of them.
        place: usize,
    },
    /// More than days.
    More,
}

// Whether a token says on which days a rule holds.
fn is_of_days(kind: TokenKind) -> bool
    ensures { result ≡ is_of_days kind }
{
    match kind {
        TokenKind::Open => false,
        TokenKind::Closed => false,
        TokenKind::Unsupported => false,
        TokenKind::Time { .. } => false,
        TokenKind::Semicolon => false,
        _ => true,
    }
}

// A number begins a rule of days if it is a year: that of `24/7` has two digits.
fn begins_days(kind: TokenKind) -> bool
    ensures { result ≡ begins_days kind }
{
    match kind {
        TokenKind::Number { digits, .. } => digits == 4,
        _ => is_of_days(kind),
    }
}

fn says_days(what: What) -> bool
    ensures { result ≡ says_days what }
{
    match what {
        What::Token(kind) => is_of_days(kind),
        What::Holiday(_) => true,
        What::Dates(_) => true,
        What::Easter { .. } => true,
        What::Every { .. } => true,
        _ => false,
    }
}

fn says_first_days(what: What) -> bool
    ensures { result ≡ says_first_days what }
{
    match what {
        What::Token(kind) => begins_days(kind),
        _ => says_days(what),
    }
}

fn days_from(days: bool, place: usize) -> SoFar
    ensures { result ≡ days_from days place }
{
    if days {
        SoFar::Days { place }
    } else {
        SoFar::More
    }
}

fn with_item(so_far: SoFar, item: Item) -> SoFar
    ensures { result ≡ with_item so_far item }
{
    match so_far {
        SoFar::Nothing => days_from(says_first_days(item.what), item.from),
        SoFar::Days { place } => days_from(says_days(item.what), place),
        SoFar::More => SoFar::More,
    }
}

// What a rule has said behind an item, or another one that begins there.
fn after_part(so_far: SoFar, link: Option<Link>, item: Item) -> SoFar
    ensures { result ≡ after_part so_far link item }
{
    match link {
        None => with_item(so_far, item),
        Some(_) => SoFar::Nothing,
    }
}

fn place_of(so_far: SoFar) -> Option<usize>
    ensures { result ≡ place_of so_far }
{
    match so_far {
        SoFar::Days { place } => Some(place),
        _ => None,
    }
}

// Where a rule begins that has said days alone, if the next one has this link.
fn place_before(so_far: SoFar, link: Link) -> Option<usize>
    ensures { result ≡ place_before so_far link }
{
    match link {
        Link::Also => place_of(so_far),
        _ => None,
    }
}

fn place_behind(so_far: SoFar, link: Option<Link>) -> Option<usize>
    ensures { result ≡ place_behind so_far link }
{
    match link {
        None => None,
        Some(link) => place_before(so_far, link),
    }
}

fn push_place(places: &mut Vec<usize>, so_far: SoFar, link: Option<Link>) -> Result<(), AllocError>
    ensures { OnOk result (places.new.items ≡ places.old.items ++ list_of (place_behind so_far link)) }
{
    match place_behind(so_far, link) {
        None => Ok(()),
        Some(place) => {
            places.push(place)?;
            Ok(())
        }
    }
}

/// The places of such rules in a text with these parts.
pub fn whole_days_of(alloc: Global, parts: &[Part]) -> Result<Vec<usize>, AllocError>
    ensures { IfOk result (λ places. places.items ≡ whole_days_of parts.now) }
{
    let mut places = Vec::new(alloc);
    let mut so_far = SoFar::Nothing;
    let mut rest = parts;
    while let Some((part, later)) = rest.split_first() {
        let link = link_behind(part.role);
        push_place(&mut places, so_far, link)?;
        so_far = after_part(so_far, link, part.item);
        rest = later;
    }
    Ok(places)
}
