//! The parts of a value.

ghost use Rattle.std.specs.Prelude.{◌≡◌, ◌≤◌, ◌<◌, ◌+◌, ◌∷◌, ◌++◌, [], ℕ, length, None, Some, IfOk, IfErr, MatchOption, OnOk};
ghost use Rattle.std.specs.Prelude.{is_some};
ghost use Rattle.gtd_conditional_values.specs.Pieces.{at_sign};
ghost use Rattle.gtd_hours_options.specs.Readings.{how_read};
ghost use Rattle.gtd_conditional_parts.specs.Parts.{AreParts, IsPart, IsPartStop, IsPartsStop, LacksAt, unread_by};

use crate::cuts::text_from;
use crate::said::{Subject, said_of};
use crate::terms::read_condition;
use crate::value::{Part, UnreadValue, ValueFault};
use gtd_conditional_means::Means;
use gtd_conditional_values::{UnreadTerm, at_sign, front_spaces, part_length, trimmed};
use gtd_hours_options::HoursReading;
use std::alloc::{AllocError, Global};

// By what parts are read.
#[derive(Clone, Copy)]
struct Reading<'a> {
    means: &'a Means,
    hours: HoursReading<'a>,
    subject: Subject,
}

// Whether a part has an `@`.
fn has_at(part: &[u8]) -> bool
    ensures { result ≡ is_some (at_sign part.now) }
{
    at_sign(part).is_some()
}

/// The place of the first part without `@`, of its first byte but spaces; `None`, if each part has one. Takes no memory.
pub(crate) fn first_without_at(text: &[u8]) -> Option<usize>
    ensures first { MatchOption result ((place : ℕ) → LacksAt 0 text.now place → ⊥) (λ place. LacksAt 0 text.now place) }
{
    let mut at = 0;
    let mut rest = text;
    loop {
        let bytes = part_length(rest);
        let part = &rest[..bytes];
        if !has_at(part) {
            return Some(at + front_spaces(part));
        }
        if rest.len() - bytes < 1 {
            return None;
        }
        at += bytes + 1;
        rest = text_from(rest, bytes + 1);
    }
}

// The place of the `@` of a part that has one.
fn at_of(part: &[u8]) -> usize
    requires has { at_sign part.now ≡ None → ⊥ }
    ensures place { at_sign part.now ≡ Some result }
    ensures inside { result < length part.now }
{
    match at_sign(part) {
        Some(at) => at,
        None => unreachable!(),
    }
}

// Why a part is not read, one of whose terms is not.
fn unread(why: UnreadTerm) -> UnreadValue
    ensures { result ≡ unread_by why }
{
    match why {
        UnreadTerm::Fault(bad) => UnreadValue::Fault(ValueFault::Term(bad)),
        UnreadTerm::NoMemory => UnreadValue::NoMemory,
    }
}

// What the part that stands at a place says.
fn read_part(alloc: Global, by: Reading<'_>, place: usize, part: &[u8]) -> Result<Part, UnreadValue>
    requires fits { place + length part.now ≤ 18446744073709551615 }
    requires has { at_sign part.now ≡ None → ⊥ }
    ensures part { IfOk result (λ read.
        IsPart by.entry.subject (how_read by.entry.hours) by.entry.means.now.rows.items place part.now read) }
    ensures fault { IfErr result (λ why.
        IsPartStop by.entry.subject (how_read by.entry.hours) by.entry.means.now.rows.items place part.now why) }
{
    let at = at_of(part);
    let name = &part[..at];
    match said_of(by.means, by.subject, trimmed(name)) {
        None => Err(UnreadValue::Fault(ValueFault::Value {
            place: place + front_spaces(name),
        })),
        Some(said) => match read_condition(
            alloc,
            by.means,
            by.hours,
            place + (at + 1),
            text_from(part, at + 1),
        ) {
            Ok(terms) => Ok(Part { said, terms }),
            Err(why) => Err(unread(why)),
        },
    }
}

fn push_part(parts: &mut Vec<Part>, part: Part) -> Result<(), AllocError>
    ensures { OnOk result (parts.new.items ≡ parts.old.items ++ part ∷ []) }
{
    parts.push(part)?;
    Ok(())
}

/// The parts of a text, each of which has an `@`, whose hours are read so; or why they are not read. `NoMemory` is answered only
/// if memory was refused.
pub(crate) fn read_parts(
    alloc: Global,
    means: &Means,
    reading: HoursReading<'_>,
    subject: Subject,
    text: &[u8],
) -> Result<Vec<Part>, UnreadValue>
    requires have { (place : ℕ) → LacksAt 0 text.now place → ⊥ }
    ensures parts { IfOk result (λ parts. AreParts subject (how_read reading.entry) means.now.rows.items 0 text.now parts.items) }
    ensures fault { IfErr result (λ why. IsPartsStop subject (how_read reading.entry) means.now.rows.items 0 text.now why) }
{
    let by = Reading {
        means,
        hours: reading,
        subject,
    };
    let mut parts = Vec::new(alloc);
    let mut at = 0;
    let mut rest = text;
    loop {
        let bytes = part_length(rest);
        let part = match read_part(alloc, by, at, &rest[..bytes]) {
            Ok(part) => part,
            Err(why) => return Err(why),
        };
        push_part(&mut parts, part)?;
        if rest.len() - bytes < 1 {
            return Ok(parts);
        }
        at += bytes + 1;
        rest = text_from(rest, bytes + 1);
    }
}
