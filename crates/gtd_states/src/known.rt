//! When elements change next, found once for those that rows with the same domains close.

ghost use Rattle.std.specs.Prelude.{◌≡◌, ◌<◌, IfOk, IfSome, length, slice_index_or};
ghost use Rattle.std.specs.List.{Contains};
ghost use Rattle.gtd_alike.specs.Alike.{AreOpenAlike};
ghost use Rattle.gtd_core.specs.Seconds.{IsHorizonSecond};
ghost use Rattle.gtd_records.specs.Closing.{IsOpen};
ghost use Rattle.gtd_states.specs.Known.{AreAllKnown, AreRight, IsRightChange};
ghost use Rattle.gtd_states.specs.States.{IsState, state_of};
ghost use Rattle.gtd_states.specs.declared.known.KnownChange.{KnownChange};

use crate::change::change_after;
use crate::state::ElementState;
use gtd_alike::first_alike;
use gtd_core::Sec;
use gtd_records::Records;
use gtd_rows::DirectedElement;
use std::alloc::{AllocError, Global};

/// An element in a direction, and when its state changes next.
#[derive(Clone, Copy, Debug)]
pub struct KnownChange {
    /// The element and the direction.
    pub at: DirectedElement,
    /// The first later second at which its state differs; `None` if there is none among those that are looked at.
    pub change: Option<Sec>,
}

/// An element in a direction, for a vehicle type and at a second.
#[derive(Clone, Copy)]
struct Question {
    at: DirectedElement,
    vehicle: u8,
    second: Sec,
}

// When the element changes next: when the one that is known to be open at the same seconds does, if that is known.
fn change_by(
    alloc: Global,
    found: &Records,
    known: &[KnownChange],
    first: usize,
    question: Question,
) -> Result<Option<Sec>, AllocError>
    requires in_range { IsHorizonSecond question.second.0 }
    requires right { AreRight found.now question.vehicle question.second.0 known.now }
    requires alike { (d : KnownChange) → first < length known.now
        → AreOpenAlike found.now question.vehicle (slice_index_or known.now first d).at question.at }
    ensures right { IfOk result (λ change. IsRightChange found.now question.vehicle question.second.0 question.at change) }
{
    if let Some(earlier) = known.get(first) {
        return Ok(earlier.change);
    }
    let (element, direction) = (question.at.element, question.at.direction);
    change_after(
        alloc,
        found,
        element,
        direction,
        question.vehicle,
        question.second,
    )
}

/// When each of these elements changes next in its direction, as [`change_after`] answers it. Of elements that rows with the same
/// domains close it is found once. The second must be on a day that a horizon may have. `AllocError` is answered only if memory
/// was refused.
pub fn changes_of(
    alloc: Global,
    found: &Records,
    asked: &[DirectedElement],
    vehicle: u8,
    second: Sec,
) -> Result<Vec<KnownChange>, AllocError>
    requires in_range { IsHorizonSecond second.0 }
    ensures all { IfOk result (λ known. AreAllKnown asked.now known.items) }
    ensures right { IfOk result (λ known. AreRight found.now vehicle second.0 known.items) }
{
    let firsts = first_alike(alloc, found, asked, vehicle)?;
    let mut known = Vec::new(alloc);
    for place in 0..asked.len() {
        let at = asked[place];
        let question = Question {
            at,
            vehicle,
            second,
        };
        let change = change_by(alloc, found, known.as_slice(), firsts[place], question)?;
        known.push(KnownChange { at, change })?;
    }
    Ok(known)
}

// The number of those of elements below this one, if they stand in ascending order.
fn count_below(known: &[KnownChange], element: u64) -> usize {
    let mut from = 0usize;
    let mut until = known.len();
    for _ in 0..64 {
        if from >= until {
            return from;
        }
        let middle = from.saturating_add(until.saturating_sub(from) / 2);
        match known.get(middle) {
            Some(one) if one.at.element < element => from = middle.saturating_add(1),
            _ => until = middle,
        }
    }
    from
}

// The one at a place, if it is of this element in this direction.
fn known_there(known: &[KnownChange], place: usize, at: DirectedElement) -> Option<KnownChange>
    ensures same { IfSome result (λ one. one.at ≡ at) }
    ensures listed { IfSome result (Contains known.now) }
{
    let Some(one) = known.get(place) else {
        return None;
    };
    if one.at == at {
        return Some(*one);
    }
    None
}

/// The one of an element in a direction, if it is found among these. In ascending order of the elements it is.
pub fn known_of(known: &[KnownChange], at: DirectedElement) -> Option<KnownChange>
    ensures same { IfSome result (λ one. one.at ≡ at) }
    ensures listed { IfSome result (Contains known.now) }
{
    let below = count_below(known, at.element);
    if let Some(one) = known_there(known, below, at) {
        return Some(one);
    }
    known_there(known, below.saturating_add(1), at)
}

/// The state of an element in a direction, as [`state_at`](crate::state_at) answers it, if it is known when it changes next.
pub fn state_by(
    alloc: Global,
    found: &Records,
    known: KnownChange,
    vehicle: u8,
    second: Sec,
) -> Result<ElementState, AllocError>
    requires in_range { IsHorizonSecond second.0 }
    requires right { IsRightChange found.now vehicle second.0 known.at known.change }
    ensures state { IfOk result (λ state. IsState found.now known.at.element known.at.direction vehicle second.0
        (state_of state)) }
{
    let rows = found.closing_rows(alloc, known.at.element, known.at.direction, vehicle, second)?;
    Ok(ElementState {
        change: known.change,
        rows,
    })
}
