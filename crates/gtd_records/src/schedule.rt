//! The seconds in which an element is open.

ghost use Rattle.std.specs.Prelude.{IfOk};
ghost use Rattle.gtd_eval.specs.Cursors.{cursor_list, IsAtStart};
ghost use Rattle.gtd_eval.specs.Membership.{IsNormalOver};
ghost use Rattle.gtd_records.specs.Closing.{IsOpen};

use crate::always::is_always_closed;
use crate::closed_when::ClosedWhen;
use crate::index::Records;
use gtd_core::Horizon;
use gtd_eval::KeptCursor;
use gtd_rows::{DirectedElement, Direction};
use gtd_spans::SpanList;
use std::alloc::{AllocError, Global};

/// The same as [`open_seconds`], without a look whether a record without a domain closes the element. So it is for an element in
/// a direction of which it is known that records with domains close it, by [`Records::closed_directions`].
/// `AllocError` is answered only if memory was refused.
pub fn open_by_domains(
    alloc: Global,
    records: &Records,
    at: DirectedElement,
    vehicle: u8,
    horizon: Horizon,
) -> Result<KeptCursor, AllocError>
    ensures seconds { IfOk result
        (λ c. IsNormalOver (IsOpen records.now at.element at.direction vehicle) horizon (cursor_list c)) }
    ensures start { IfOk result IsAtStart }
{
    let always = is_always_closed(alloc, records, at, vehicle, horizon)?;
    if always {
        return KeptCursor::any(alloc, Vec::new(alloc), horizon);
    }
    let closing = records.closing(alloc, at.element, at.direction, vehicle, horizon)?;
    closing.outside(alloc, horizon)
}

/// The seconds of the horizon in which no record closes the element in the direction for the vehicle type, span by
/// span. The vehicle type must be from 1 to 99. An element that no record names is open throughout. The spans of a period are
/// kept, at most 4,096, and handed out again: those that all records that repeat leave open, and of what repeats in the others.
/// Where no record closes it, or one without a domain does, no cursor of a record is opened, and no memory is taken. Where those
/// that repeat close it at every second, a period of them is looked at, and no more.
/// `AllocError` is answered only if memory was refused.
pub fn open_seconds(
    alloc: Global,
    records: &Records,
    element: u64,
    direction: Direction,
    vehicle: u8,
    horizon: Horizon,
) -> Result<KeptCursor, AllocError>
    ensures seconds { IfOk result
        (λ c. IsNormalOver (IsOpen records.now element direction vehicle) horizon (cursor_list c)) }
    ensures start { IfOk result IsAtStart }
{
    let at = DirectedElement { element, direction };
    match records.closed_when(at, vehicle) {
        ClosedWhen::Never => Ok(KeptCursor::whole(horizon)),
        ClosedWhen::Always => KeptCursor::any(alloc, Vec::new(alloc), horizon),
        ClosedWhen::ByDomains => open_by_domains(alloc, records, at, vehicle, horizon),
    }
}

/// The seconds of the horizon in which no record closes the element in the direction for the vehicle type, which must
/// be from 1 to 99. An element that no record names is open throughout. `AllocError` is answered only if memory was
/// refused.
pub fn schedule_of(
    alloc: Global,
    records: &Records,
    element: u64,
    direction: Direction,
    vehicle: u8,
    horizon: Horizon,
) -> Result<SpanList, AllocError>
    ensures seconds { IfOk result
        (λ list. IsNormalOver (IsOpen records.now element direction vehicle) horizon list) }
{
    let mut open = open_seconds(alloc, records, element, direction, vehicle, horizon)?;
    SpanList::collect(alloc, &mut open)
}
