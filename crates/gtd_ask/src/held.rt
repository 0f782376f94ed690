//! States that hold for some seconds.

ghost use Rattle.std.specs.Prelude.{◌≡◌, ◌*ℤ◌, pos, ℤ, List, IfOk, IfSome, IsTrue, ◌≤ℤ◌};
ghost use Rattle.gtd_core.specs.Limits.{day_seconds};
ghost use Rattle.gtd_core.specs.Seconds.{day_of_second, IsHorizonSecond};
ghost use Rattle.gtd_records.specs.Closing.{Restriction};
ghost use Rattle.gtd_states.specs.States.{IsLookEnd};
ghost use Rattle.gtd_ask.specs.Known.{IsHeld, IsKnown, group_held};

use crate::asked::Group;
use gtd_core::Sec;
use gtd_core::limits::{DAY_SECONDS, HORIZONS_END, MOST_HORIZON_DAYS};
use gtd_records::Records;
use gtd_rows::Direction;
use gtd_states::change_after;
use std::alloc::{AllocError, Global};

/// The state of an element in a direction for a vehicle type, from a second on and before another, and whether it changes then.
#[derive(Clone, Copy)]
pub(crate) struct Held {
    pub(crate) element: u64,
    pub(crate) from: Sec,
    pub(crate) until: Sec,
    pub(crate) direction: Direction,
    pub(crate) vehicle: u8,
    pub(crate) is_open: bool,
    pub(crate) is_change: bool,
}

/// The state that a question asks for, and when it changes.
#[derive(Clone, Copy)]
pub(crate) struct Known {
    pub(crate) is_open: bool,
    pub(crate) change: Option<Sec>,
}

// The second before which a change is looked for, if it comes after this one.
fn look_end(second: Sec) -> Sec
    requires in_range { IsHorizonSecond second.0 }
    ensures end { (last : ℤ) × IsLookEnd (day_of_second second.0) last × (result.0 ≡ last *ℤ pos day_seconds) }
{
    let last = second.day() + MOST_HORIZON_DAYS;
    if last <= HORIZONS_END {
        Sec(last * DAY_SECONDS)
    } else {
        Sec(HORIZONS_END * DAY_SECONDS)
    }
}

impl Held {
    /// What it is about.
    pub(crate) fn group(&self) -> Group
        ensures group { result ≡ group_held self.now }
    {
        Group {
            element: self.element,
            direction: self.direction,
            vehicle: self.vehicle,
        }
    }
}

/// The state of a group from a second on.
pub(crate) fn held_from(group: Group, from: Sec, is_open: bool, until: Sec, is_change: bool) -> Held
    ensures value { result ≡ record {
      element = group.element;
      from = from;
      until = until;
      direction = group.direction;
      vehicle = group.vehicle;
      is_open = is_open;
      is_change = is_change;
    } }
{
    let Group {
        element,
        direction,
        vehicle,
    } = group;
    Held {
        element,
        from,
        until,
        direction,
        vehicle,
        is_open,
        is_change,
    }
}

/// The state of a group at a second, and until when it holds, found as for one question alone.
pub(crate) fn held_alone(
    alloc: Global,
    found: &Records,
    group: Group,
    second: Sec,
) -> Result<Held, AllocError>
    requires in_range { IsHorizonSecond second.0 }
    ensures held { IfOk result (IsHeld found.now) }
{
    let (element, direction, vehicle) = (group.element, group.direction, group.vehicle);
    let closed = found.closed_at(element, direction, vehicle, second);
    let change = change_after(alloc, found, element, direction, vehicle, second)?;
    match change {
        Some(until) => Ok(held_from(group, second, !closed, until, true)),
        None => {
            let end = look_end(second);
            Ok(held_from(group, second, !closed, end, false))
        }
    }
}

// Whether it is the state of this group.
fn is_of(held: &Held, group: Group) -> bool
    ensures same { IsTrue result → group_held held.now ≡ group }
{
    held.group() == group
}

// Whether a later state is the same, and begins where an earlier one ends, or before.
fn goes_on(earlier: &Held, later: &Held) -> bool
    ensures group { IsTrue result → group_held earlier.now ≡ group_held later.now }
    ensures open { IsTrue result → earlier.now.is_open ≡ later.now.is_open }
    ensures meet { IsTrue result → later.now.from.0 ≤ℤ earlier.now.until.0 }
{
    is_of(earlier, later.group())
        && earlier.is_open == later.is_open
        && later.from.0 <= earlier.until.0
}

/// The two as one, if the later one goes on where the earlier one ends or before; otherwise the earlier one.
pub(crate) fn joined(earlier: Held, later: Held) -> Held
    ensures held { (found : List Restriction) → IsHeld found earlier → IsHeld found later → IsHeld found result }
{
    if !goes_on(&earlier, &later) {
        return earlier;
    }
    Held {
        from: earlier.from,
        ..later
    }
}

/// The state of a group at a second and its change, if a held state shows both.
pub(crate) fn known_by(held: &Held, group: Group, second: Sec) -> Option<Known>
    requires in_range { IsHorizonSecond second.0 }
    ensures known { (found : List Restriction) → IsHeld found held.now → IfSome result (IsKnown found group second.0) }
{
    if !is_of(held, group) || second.0 < held.from.0 || held.until.0 <= second.0 {
        return None;
    }
    let is_open = held.is_open;
    if look_end(second).0 <= held.until.0 {
        return Some(Known {
            is_open,
            change: None,
        });
    }
    if !held.is_change {
        return None;
    }
    Some(Known {
        is_open,
        change: Some(held.until),
    })
}
