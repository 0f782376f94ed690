//! States that questions about elements with many rows share.

ghost use Rattle.std.specs.Prelude.{◌<◌, List, length, IfOk, IfSome, OnOk};
ghost use Rattle.std.specs.List.{All};
ghost use Rattle.gtd_core.specs.Seconds.{IsHorizonSecond, IsMomentSecond};
ghost use Rattle.gtd_records.specs.Closing.{Restriction};
ghost use Rattle.gtd_ask.specs.Known.{IsHeld, IsKnown};
ghost use Rattle.gtd_ask.specs.Sharing.{IsSharing};

use crate::asked::{Asked, Group, asked_of, is_shared, last_beside, last_near};
use crate::crowded::Crowded;
use crate::held::{Held, Known, held_alone, joined, known_by};
use crate::question::Question;
use crate::walk::{Walk, held_here, no_walk, open_walk, walk_to};
use gtd_core::{Horizon, Sec};
use gtd_records::Records;
use gtd_rows::Direction;
use std::alloc::{AllocError, Global};

/// The most days of a walk after its last question.
const MOST_DAYS: i64 = 36_500;

/// After how many times the days to which a walk goes on it ends.
const TIMES_NEAR: i64 = 4;

/// The states that are held so far, the walk that is under way, and to a question after how many days it goes on.
#[derive(Drop)]
struct Sharing {
    held: Vec<Held>,
    walk: Walk,
    days: i64,
}

// Whether the state that was held last answers a question.
fn is_told(held: &[Held], one: Asked) -> bool {
    match held.last() {
        Some(last) => known_by(last, one.group(), one.second).is_some(),
        None => false,
    }
}

// The days of a walk that begins at a question: to the last one to which it goes on, and some more.
fn days_of_walk(asked: &[Asked], at: usize, one: Asked, near: i64) -> Option<Horizon> {
    let last = last_near(asked, at.saturating_add(1), one, near);
    let more = near.saturating_mul(TIMES_NEAR).saturating_add(2);
    let end = last.second.day().saturating_add(more.min(MOST_DAYS));
    match Horizon::new(one.second.day(), end) {
        Ok(days) => Some(days),
        Err(_) => None,
    }
}

// Opens a walk for a question, unless that under way goes on to it.
fn go_near(
    alloc: Global,
    found: &Records,
    asked: &[Asked],
    at: usize,
    sharing: &mut Sharing,
) -> Result<(), AllocError>
    requires inside { at < length asked.now }
    requires sharing { IsSharing found.now sharing.old }
    ensures sharing { OnOk result (IsSharing found.now sharing.new) }
{
    let one = asked[at];
    let group = one.group();
    if sharing.walk.is_near(group, one.second, sharing.days) {
        return Ok(());
    }
    if let Some(days) = days_of_walk(asked, at, one, sharing.days) {
        sharing.walk = open_walk(alloc, found, group, days)?;
    }
    Ok(())
}

// The state that a walk finds at a question's second, if it also finds when that changes.
fn held_walking(
    alloc: Global,
    found: &Records,
    asked: &[Asked],
    at: usize,
    sharing: &mut Sharing,
) -> Result<Option<Held>, AllocError>
    requires inside { at < length asked.now }
    requires sharing { IsSharing found.now sharing.old }
    ensures sharing { IfOk result (λ held. IsSharing found.now sharing.new) }
    ensures held { IfOk result (λ held. IfSome held (IsHeld found.now)) }
{
    go_near(alloc, found, asked, at, sharing)?;
    if !walk_to(&mut sharing.walk, found, asked[at].second) {
        return Ok(None);
    }
    let held = held_here(&sharing.walk, found);
    if held.is_change {
        return Ok(Some(held));
    }
    Ok(None)
}

// The state at a question's second as for one question alone. If it does not change, that holds for the others of the group, too,
// as far as the last of them shows.
fn held_far(alloc: Global, found: &Records, asked: &[Asked], at: usize) -> Result<Held, AllocError>
    requires inside { at < length asked.now }
    ensures held { IfOk result (IsHeld found.now) }
{
    let one = asked[at];
    let held = held_alone(alloc, found, one.group(), one.second)?;
    if held.is_change {
        return Ok(held);
    }
    let last = last_beside(asked, at.saturating_add(1), one);
    if last.second.day() == one.second.day() {
        return Ok(held);
    }
    let later = held_alone(alloc, found, last.group(), last.second)?;
    Ok(joined(held, later))
}

// The state at a question's second: as a walk finds it, or as for one question alone.
fn held_for(
    alloc: Global,
    found: &Records,
    asked: &[Asked],
    at: usize,
    sharing: &mut Sharing,
) -> Result<Held, AllocError>
    requires inside { at < length asked.now }
    requires sharing { IsSharing found.now sharing.old }
    ensures sharing { IfOk result (λ held. IsSharing found.now sharing.new) }
    ensures held { IfOk result (IsHeld found.now) }
{
    if let Some(held) = held_walking(alloc, found, asked, at, sharing)? {
        return Ok(held);
    }
    held_far(alloc, found, asked, at)
}

// Holds the state at a question's second, if another question of its group is beside it and no held state answers it yet.
fn hold_one(
    alloc: Global,
    found: &Records,
    asked: &[Asked],
    at: usize,
    sharing: &mut Sharing,
) -> Result<(), AllocError>
    requires inside { at < length asked.now }
    requires sharing { IsSharing found.now sharing.old }
    ensures sharing { OnOk result (IsSharing found.now sharing.new) }
{
    let one = asked[at];
    if !is_shared(asked, at, one) || is_told(sharing.held.as_slice(), one) {
        return Ok(());
    }
    let held = held_for(alloc, found, asked, at, sharing)?;
    sharing.held.push(held)?;
    Ok(())
}

// Holds the states at the seconds of questions, one after the other.
fn hold_all(
    alloc: Global,
    found: &Records,
    crowded: &Crowded,
    asked: &[Asked],
    sharing: &mut Sharing,
) -> Result<(), AllocError>
    requires sharing { IsSharing found.now sharing.old }
    ensures sharing { OnOk result (IsSharing found.now sharing.new) }
{
    for at in 0..asked.len() {
        sharing.days = crowded.near_days(asked[at].group().element);
        hold_one(alloc, found, asked, at, sharing)?;
    }
    Ok(())
}

// No states, and a walk over no days.
fn no_sharing(alloc: Global) -> Option<Sharing>
    ensures sharing { (found : List Restriction) → IfSome result (IsSharing found) }
{
    let Ok(days) = Horizon::new(0, 1) else {
        return None;
    };
    let group = Group {
        element: 0,
        direction: Direction::Positive,
        vehicle: 1,
    };
    let walk = no_walk(group, days);
    let held = Vec::new(alloc);
    Some(Sharing {
        held,
        walk,
        days: 0,
    })
}

/// The states that the questions about elements with many rows share, in the order of their groups and seconds.
pub(crate) fn held_of(
    alloc: Global,
    found: &Records,
    questions: &[Question],
) -> Result<Vec<Held>, AllocError>
    requires in_range { All (λ q. IsMomentSecond q.second.0) questions.now }
    ensures held { IfOk result (λ held. All (IsHeld found.now) held.items) }
{
    let crowded = Crowded::new(alloc, found)?;
    let asked = asked_of(alloc, &crowded, questions)?;
    let Some(mut sharing) = no_sharing(alloc) else {
        return Ok(Vec::new(alloc));
    };
    hold_all(alloc, found, &crowded, asked.as_slice(), &mut sharing)?;
    Ok(sharing.held)
}

// Whether a state is held from a later second than a group's, or of a later group.
fn is_after(held: &Held, number: u64, second: Sec) -> bool {
    let other = held.group().number();
    other > number || (other == number && held.from > second)
}

// How many states are not after a second of a group.
fn count_until(held: &[Held], number: u64, second: Sec) -> usize {
    let mut from = 0usize;
    let mut until = held.len();
    for _ in 0..64 {
        if from >= until {
            return from;
        }
        let middle = from.saturating_add(until.saturating_sub(from) / 2);
        match held.get(middle) {
            Some(one) if !is_after(one, number, second) => from = middle.saturating_add(1),
            _ => until = middle,
        }
    }
    from
}

/// The state of a group at a second and its change, if one of the held states shows both.
pub(crate) fn known_among(held: &[Held], group: Group, second: Sec) -> Option<Known>
    requires in_range { IsHorizonSecond second.0 }
    ensures known { (found : List Restriction) → All (IsHeld found) held.now
        → IfSome result (IsKnown found group second.0) }
{
    let count = count_until(held, group.number(), second);
    let Some(one) = held.get(count.wrapping_sub(1)) else {
        return None;
    };
    known_by(one, group, second)
}
