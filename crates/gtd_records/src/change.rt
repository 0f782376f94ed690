//! When an element is opened or closed.

ghost use Rattle.std.specs.Prelude.{◌↔◌, ℤ, IfOk, IfSome, MatchOption};
ghost use Rattle.gtd_core.specs.Seconds.{Within};
ghost use Rattle.gtd_core.specs.Whole.{whole};
ghost use Rattle.gtd_eval.specs.Membership.{InDomain};
ghost use Rattle.gtd_records.specs.Closing.{IsClosed, IsOpen};
ghost use Rattle.gtd_spans.specs.Change.{IsNextChange, NeverChanges};

use crate::index::Records;
use crate::schedule::open_seconds;
use crate::week::all_begin_daily;
use gtd_core::{Domain, Horizon, Sec};
use gtd_eval::days_to_look;
use gtd_rows::DirectedElement;
use std::alloc::{AllocError, Global};

// How often the records are asked how long they stay as they are, before anything else is tried, at least and at most.
const LEAST_STAYS: usize = 3;

const FEW_STAYS: usize = 16;

// An element with n records is asked for MOST_STAYS / (n + 1) stays where its spans are short, before they are gone over.
const MOST_STAYS: usize = 8192;

// The least later second of the horizon at which the element's state differs from that at the given one, found span by
// span. Where all records repeat weekly, so does the state, and a week is enough.
fn change_by_spans(
    alloc: Global,
    records: &Records,
    at: DirectedElement,
    vehicle: u8,
    second: Sec,
    horizon: Horizon,
) -> Result<Option<Sec>, AllocError>
    requires inside { Within (whole horizon) second.0 }
    ensures change { IfOk result (λ change. MatchOption change
        (NeverChanges (IsOpen records.now at.element at.direction vehicle) second.0 (whole horizon).until)
        (λ c. IsNextChange (IsOpen records.now at.element at.direction vehicle) second.0 (whole horizon).until c.0)) }
{
    let weekly = records.period(at.element, at.direction, vehicle).is_some();
    let days = days_to_look(weekly, second, horizon);
    let mut open = open_seconds(alloc, records, at.element, at.direction, vehicle, days)?;
    Ok(gtd_spans::next_change(&mut open, second, days.until()))
}

// The same, if it is found in so many stays: where records stay as they are for long, what happens in the others meanwhile is not
// looked at.
fn change_by_stays(
    records: &Records,
    at: DirectedElement,
    vehicle: u8,
    second: Sec,
    horizon: Horizon,
    most: usize,
) -> Option<Option<Sec>>
    requires inside { Within (whole horizon) second.0 }
    ensures change { IfSome result (λ change. MatchOption change
        (NeverChanges (IsOpen records.now at.element at.direction vehicle) second.0 (whole horizon).until)
        (λ c. IsNextChange (IsOpen records.now at.element at.direction vehicle) second.0 (whole horizon).until c.0)) }
{
    let DirectedElement { element, direction } = at;
    let first = records.stay(element, direction, vehicle, second, horizon);
    let mut until = first.until;
    for _ in 0..most {
        if until.0 >= horizon.until().0 {
            return Some(None);
        }
        if records.closed_at(element, direction, vehicle, until) != first.holds {
            return Some(Some(until));
        }
        let stay = records.stay(element, direction, vehicle, until, horizon);
        until = stay.until;
    }
    None
}

// The domain at whose seconds alone the records close the element, where it is one domain.
fn sole_domain(records: &Records, at: DirectedElement, vehicle: u8) -> Option<&Domain>
    ensures sole { IfSome result (λ domain. (t : ℤ)
        → IsClosed records.now at.element at.direction vehicle t ↔ InDomain domain.now t) }
{
    let row = records.sole_row(at.element, at.direction, vehicle)?;
    records.rows()[row].domain()
}

// Whether the domain of one of the element's records has a part that begins each hour or minute: then its spans may be many.
fn has_short_spans(records: &Records, element: u64) -> bool {
    for place in records.places_of_element(element) {
        if let Some(record) = records.rows().get(place.row as usize) {
            if let Some(domain) = record.domain() {
                if !all_begin_daily(domain.expr()) {
                    return true;
                }
            }
        }
    }
    false
}

// How many stays are looked at first. Each goes over all records of the element, so that there are fewer where these are many.
fn first_stays(records: &Records, element: u64) -> usize {
    (MOST_STAYS / (records.places_of_element(element).len() + 1)).clamp(LEAST_STAYS, FEW_STAYS)
}

// How many stays are looked at next, before its spans. None where these are few, or where the records repeat weekly: to go over
// them takes less.
fn most_stays(records: &Records, at: DirectedElement, vehicle: u8) -> usize {
    if records.period(at.element, at.direction, vehicle).is_some() {
        return 0;
    }
    if !has_short_spans(records, at.element) {
        return 0;
    }
    MOST_STAYS / (records.places_of_element(at.element).len() + 1)
}

// The same where the first stays do not show it. One domain is asked for its own next change. More domains are asked for more
// stays where their spans are short, and are then gone over span by span.
fn change_by_rows(
    alloc: Global,
    records: &Records,
    at: DirectedElement,
    vehicle: u8,
    second: Sec,
    horizon: Horizon,
) -> Result<Option<Sec>, AllocError>
    requires inside { Within (whole horizon) second.0 }
    ensures change { IfOk result (λ change. MatchOption change
        (NeverChanges (IsOpen records.now at.element at.direction vehicle) second.0 (whole horizon).until)
        (λ c. IsNextChange (IsOpen records.now at.element at.direction vehicle) second.0 (whole horizon).until c.0)) }
{
    if let Some(domain) = sole_domain(records, at, vehicle) {
        return gtd_eval::next_change(alloc, domain, second, horizon);
    }
    let most = most_stays(records, at, vehicle);
    if most > 0 {
        if let Some(change) = change_by_stays(records, at, vehicle, second, horizon, most) {
            return Ok(change);
        }
    }
    change_by_spans(alloc, records, at, vehicle, second, horizon)
}

/// The least later second of the horizon at which the element is opened or closed in the direction for the vehicle type,
/// or `None` exactly if there is none. The second must be in the horizon, and the vehicle type from 1 to 99. An element
/// that no record names is open throughout. Where records stay as they are for long, what happens in the others meanwhile
/// is not looked at. Where one domain alone closes it, the change is found as that of the domain. `AllocError` is answered only
/// if memory was refused.
pub fn next_change(
    alloc: Global,
    records: &Records,
    at: DirectedElement,
    vehicle: u8,
    second: Sec,
    horizon: Horizon,
) -> Result<Option<Sec>, AllocError>
    requires inside { Within (whole horizon) second.0 }
    ensures change { IfOk result (λ change. MatchOption change
        (NeverChanges (IsOpen records.now at.element at.direction vehicle) second.0 (whole horizon).until)
        (λ c. IsNextChange (IsOpen records.now at.element at.direction vehicle) second.0 (whole horizon).until c.0)) }
{
    let first = first_stays(records, at.element);
    if let Some(change) = change_by_stays(records, at, vehicle, second, horizon, first) {
        return Ok(change);
    }
    change_by_rows(alloc, records, at, vehicle, second, horizon)
}
