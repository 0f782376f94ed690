//! Next changes.

ghost use Rattle.std.specs.Prelude.{◌≡◌, ◌≤◌, ◌↔◌, IfSome, IsSome};
ghost use Rattle.gtd_core.specs.Seconds.{Within};
ghost use Rattle.gtd_core.specs.Whole.{to_day, whole};
ghost use Rattle.gtd_eval.specs.Membership.{InDomain};
ghost use Rattle.gtd_records.specs.Closing.{IsOpen};
ghost use Rattle.gtd_spans.specs.Change.{IsNextChange};
ghost use Rattle.gtd_handles.specs.Answers.{day_begin, direction_of, gtd_kind, gtd_memory, gtd_no, gtd_range, gtd_yes};
ghost use Rattle.gtd_c.specs.Changes.{HasRange, IsHorizonAfter, IsWayHorizon, StaysUntil};
ghost use Rattle.gtd_handles.specs.Handles.{OfDomain, OfRecords};
ghost use Rattle.gtd_handles.specs.Holding.{thing_of};

use crate::horizons::is_vehicle;
use crate::records::{Way, way_of};
use gtd_core::{Domain, Horizon, Sec};
use gtd_handles::{Handle, KIND, MEMORY, NO, RANGE, Thing, YES};
use gtd_records::{Records, next_change};
use gtd_rows::DirectedElement;
use std::alloc::Global;

// The horizon from the day of the second up to the other day.
fn horizon_after(second: i64, until_day: i64) -> Option<Horizon>
    ensures exists { IsSome result ↔ IsHorizonAfter second until_day }
    ensures whole { IfSome result (λ h. (to_day h ≡ until_day) × Within (whole h) second) }
{
    match Horizon::new(Sec(second).day(), until_day) {
        Ok(horizon) => Some(horizon),
        Err(_) => None,
    }
}

// Writes a change that was found.
fn write_change(change: &mut i64, found: Sec) -> u32
    ensures answer { result ≡ gtd_yes }
    ensures written { change.new ≡ found.0 }
{
    *change = found.0;
    YES
}

// The next change of the domain in the horizon.
fn domain_change(
    alloc: Global,
    domain: &Domain,
    second: Sec,
    horizon: Horizon,
    change: &mut i64,
) -> u32
    requires inside { Within (whole horizon) second.0 }
    ensures change { (result ≡ gtd_yes)
        → IsNextChange (InDomain domain.now) second.0 (whole horizon).until change.new }
    ensures none { (result ≡ gtd_no) → StaysUntil (InDomain domain.now) second.0 (whole horizon).until }
    ensures answers { (result ≤ gtd_memory) × ((result ≡ gtd_range) → ⊥) × ((result ≡ gtd_kind) → ⊥) }
    ensures untouched { ((result ≡ gtd_yes) → ⊥) → change.new ≡ change.old }
{
    match gtd_eval::next_change(alloc, domain, second, horizon) {
        Ok(Some(found)) => write_change(change, found),
        Ok(None) => NO,
        Err(_) => MEMORY,
    }
}

// The next change of the domain before the day.
fn domain_next(alloc: Global, domain: &Domain, second: i64, until_day: i64, change: &mut i64) -> u32
    ensures change { (result ≡ gtd_yes)
        → IsNextChange (InDomain domain.now) second (day_begin until_day) change.new }
    ensures none { (result ≡ gtd_no) → StaysUntil (InDomain domain.now) second (day_begin until_day) }
    ensures range { HasRange (IsHorizonAfter second until_day) result }
    ensures answers { (result ≤ gtd_memory) × ((result ≡ gtd_kind) → ⊥) }
    ensures untouched { ((result ≡ gtd_yes) → ⊥) → change.new ≡ change.old }
{
    let Some(horizon) = horizon_after(second, until_day) else {
        return RANGE;
    };
    domain_change(alloc, domain, Sec(second), horizon, change)
}

/// The first later second before the day at which membership in the domain changes: yes, and that second; or no, if there
/// is none. The days from that of the second up to the day must be a horizon.
#[unsafe(no_mangle)]
pub extern "C" fn gtd_domain_next(
    alloc: Global,
    domain: &mut Handle,
    second: i64,
    until_day: i64,
    change: &mut i64,
) -> u32
    ensures kept { thing_of domain.new ≡ thing_of domain.old }
    ensures change { OfDomain (thing_of domain.old) result
        (λ found. (result ≡ gtd_yes) → IsNextChange (InDomain found) second (day_begin until_day) change.new) }
    ensures none { OfDomain (thing_of domain.old) result
        (λ found. (result ≡ gtd_no) → StaysUntil (InDomain found) second (day_begin until_day)) }
    ensures range { OfDomain (thing_of domain.old) result
        (λ found. HasRange (IsHorizonAfter second until_day) result) }
    ensures answers { OfDomain (thing_of domain.old) result (λ found. (result ≤ gtd_memory) × ((result ≡ gtd_kind) → ⊥)) }
    ensures untouched { ((result ≡ gtd_yes) → ⊥) → change.new ≡ change.old }
{
    let Some(thing) = domain.take(alloc) else {
        return KIND;
    };
    let answer = match &*thing {
        Thing::Domain(domain) => domain_next(alloc, domain, second, until_day, change),
        _ => KIND,
    };
    *domain = Handle::of(thing);
    answer
}

// The horizon from the day of the second up to the other day, for a vehicle type.
fn way_horizon(way: Way, second: i64, until_day: i64) -> Option<Horizon>
    ensures exists { IsSome result ↔ IsWayHorizon way.vehicle second until_day }
    ensures whole { IfSome result (λ h. (to_day h ≡ until_day) × Within (whole h) second) }
{
    if !is_vehicle(way.vehicle) {
        return None;
    }
    horizon_after(second, until_day)
}

// The next change of the way in the horizon.
fn way_change(
    alloc: Global,
    records: &Records,
    way: Way,
    second: Sec,
    horizon: Horizon,
    change: &mut i64,
) -> u32
    requires inside { Within (whole horizon) second.0 }
    ensures change { (result ≡ gtd_yes) → IsNextChange (IsOpen records.now way.element way.direction way.vehicle)
        second.0 (whole horizon).until change.new }
    ensures none { (result ≡ gtd_no) → StaysUntil (IsOpen records.now way.element way.direction way.vehicle)
        second.0 (whole horizon).until }
    ensures answers { (result ≤ gtd_memory) × ((result ≡ gtd_range) → ⊥) × ((result ≡ gtd_kind) → ⊥) }
    ensures untouched { ((result ≡ gtd_yes) → ⊥) → change.new ≡ change.old }
{
    let at = DirectedElement {
        element: way.element,
        direction: way.direction,
    };
    match next_change(alloc, records, at, way.vehicle, second, horizon) {
        Ok(Some(found)) => write_change(change, found),
        Ok(None) => NO,
        Err(_) => MEMORY,
    }
}

// The next change of the way before the day.
fn way_next(
    alloc: Global,
    records: &Records,
    way: Way,
    second: i64,
    until_day: i64,
    change: &mut i64,
) -> u32
    ensures change { (result ≡ gtd_yes) → IsNextChange (IsOpen records.now way.element way.direction way.vehicle)
        second (day_begin until_day) change.new }
    ensures none { (result ≡ gtd_no) → StaysUntil (IsOpen records.now way.element way.direction way.vehicle)
        second (day_begin until_day) }
    ensures range { HasRange (IsWayHorizon way.vehicle second until_day) result }
    ensures answers { (result ≤ gtd_memory) × ((result ≡ gtd_kind) → ⊥) }
    ensures untouched { ((result ≡ gtd_yes) → ⊥) → change.new ≡ change.old }
{
    let Some(horizon) = way_horizon(way, second, until_day) else {
        return RANGE;
    };
    way_change(alloc, records, way, Sec(second), horizon, change)
}

/// The first later second before the day at which the element is opened or closed: yes, and that second; or no, if there is
/// none. The days from that of the second up to the day must be a horizon.
#[unsafe(no_mangle)]
pub extern "C" fn gtd_records_next(
    alloc: Global,
    records: &mut Handle,
    element: u64,
    negative: bool,
    vehicle: u8,
    second: i64,
    until_day: i64,
    change: &mut i64,
) -> u32
    ensures kept { thing_of records.new ≡ thing_of records.old }
    ensures change { OfRecords (thing_of records.old) result (λ found. (result ≡ gtd_yes)
        → IsNextChange (IsOpen found element (direction_of negative) vehicle) second (day_begin until_day) change.new) }
    ensures none { OfRecords (thing_of records.old) result (λ found. (result ≡ gtd_no)
        → StaysUntil (IsOpen found element (direction_of negative) vehicle) second (day_begin until_day)) }
    ensures range { OfRecords (thing_of records.old) result
        (λ found. HasRange (IsWayHorizon vehicle second until_day) result) }
    ensures answers { OfRecords (thing_of records.old) result (λ found. (result ≤ gtd_memory) × ((result ≡ gtd_kind) → ⊥)) }
    ensures untouched { ((result ≡ gtd_yes) → ⊥) → change.new ≡ change.old }
{
    let Some(thing) = records.take(alloc) else {
        return KIND;
    };
    let way = way_of(element, negative, vehicle);
    let answer = match &*thing {
        Thing::Records(shared) => way_next(alloc, shared.records(), way, second, until_day, change),
        _ => KIND,
    };
    *records = Handle::of(thing);
    answer
}
