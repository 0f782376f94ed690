//! Whether records that repeat close an element at every second, which their spans do not show: they touch without an end.

ghost use Rattle.std.specs.Prelude.{◌≡◌, ◌≤◌, ◌+◌, ◌≤ℤ◌, ◌<ℤ◌, ℤ, IfOk, IfSome, IsTrue, pos, vec_len};
ghost use Rattle.gtd_core.specs.Limits.{most_nodes};
ghost use Rattle.gtd_core.specs.Seconds.{IsHorizonSecond, Within};
ghost use Rattle.gtd_core.specs.Whole.{from_day, whole};
ghost use Rattle.gtd_eval.specs.Cursors.{SomeHolds, total_nodes};
ghost use Rattle.gtd_records.specs.Closing.{IsClosed};

use crate::closing_cursors::ClosingCursors;
use crate::index::Records;
use gtd_core::{Horizon, Sec, Span};
use gtd_eval::Cursor;
use gtd_rows::DirectedElement;
use gtd_spans::SpanSource;
use std::alloc::{AllocError, Global};

/// The days of a week.
const WEEK_DAYS: i64 = 7;

// Whether a record that repeats closes the element at a second.
fn closes_repeating(records: &Records, at: DirectedElement, vehicle: u8, second: Sec) -> bool
    requires in_range { IsHorizonSecond second.0 }
{
    for place in records.places_of_element(at.element) {
        if let Some(row) = records.rows().get(place.row as usize) {
            if row.period().is_some() && row.closes(at.direction, vehicle, second) {
                return true;
            }
        }
    }
    false
}

// The same at a clock time of the first day of a horizon.
fn is_closed_at(
    records: &Records,
    at: DirectedElement,
    vehicle: u8,
    horizon: Horizon,
    time: i64,
) -> bool
    requires early { pos 0 ≤ℤ time }
    requires late { time <ℤ pos 86_400 }
{
    closes_repeating(records, at, vehicle, Sec(horizon.from().0 + time))
}

// Whether records that repeat close the element at each of some clock times of the first day of a horizon. Nearly every element
// that they do not always close is open at one of them.
fn is_closed_at_times(
    records: &Records,
    at: DirectedElement,
    vehicle: u8,
    horizon: Horizon,
) -> bool {
    is_closed_at(records, at, vehicle, horizon, 43_259)
        && is_closed_at(records, at, vehicle, horizon, 11_177)
        && is_closed_at(records, at, vehicle, horizon, 0)
        && is_closed_at(records, at, vehicle, horizon, 73_843)
        && is_closed_at(records, at, vehicle, horizon, 27_131)
        && is_closed_at(records, at, vehicle, horizon, 61_204)
        && is_closed_at(records, at, vehicle, horizon, 34_445)
}

// So many days from the first of a horizon on; `None` if no horizon has these.
fn first_days(horizon: Horizon, count: i64) -> Option<Horizon>
    requires few { count ≤ℤ pos 7 }
    requires some { pos 1 ≤ℤ count }
    ensures first { IfSome result (λ days. from_day days ≡ from_day horizon) }
{
    let day = horizon.from_day();
    match Horizon::new(day, day + count) {
        Ok(days) => Some(days),
        Err(_) => None,
    }
}

// Whether a span has each second of some days.
fn has_days(span: Span, days: Horizon) -> bool
    ensures from { IsTrue result → span.from ≤ℤ (whole days).from }
    ensures until { IsTrue result → (whole days).until ≤ℤ span.until }
{
    span.from().0 <= days.from().0 && days.until().0 <= span.until().0
}

// Whether cursors over some days have each second of them together.
fn have_all(alloc: Global, cursors: Vec<Cursor>, days: Horizon) -> Result<bool, AllocError>
    requires few { total_nodes cursors.items + vec_len cursors ≤ most_nodes }
    ensures all { IfOk result (λ all. IsTrue all → (t : ℤ) → Within (whole days) t → SomeHolds cursors.items t) }
{
    let mut joined = Cursor::any(alloc, cursors, days)?;
    match joined.next() {
        Some(span) => Ok(has_days(span, days)),
        None => Ok(false),
    }
}

// Whether the records that repeat close the element at each second of some days, and repeat after a period that these have.
fn are_closing_for_ever(
    alloc: Global,
    records: &Records,
    at: DirectedElement,
    vehicle: u8,
    days: Horizon,
) -> Result<bool, AllocError>
    ensures always { IfOk result (λ yes. IsTrue yes → (t : ℤ) → (whole days).from ≤ℤ t
        → IsClosed records.now at.element at.direction vehicle t) }
{
    let closing = records.closing(alloc, at.element, at.direction, vehicle, days)?;
    let ClosingCursors {
        repeating,
        period,
        ..
    } = closing;
    if period.seconds() > days.until().0 - days.from().0 {
        return Ok(false);
    }
    have_all(alloc, repeating, days)
}

/// Whether the records that repeat close the element at every second from the first of the horizon on, as far as a look at a day and
/// at a week shows. Where the element is open at one of some clock times, no cursor is opened.
pub(crate) fn is_always_closed(
    alloc: Global,
    records: &Records,
    at: DirectedElement,
    vehicle: u8,
    horizon: Horizon,
) -> Result<bool, AllocError>
    ensures always { IfOk result (λ yes. IsTrue yes → (t : ℤ) → (whole horizon).from ≤ℤ t
        → IsClosed records.now at.element at.direction vehicle t) }
{
    if !is_closed_at_times(records, at, vehicle, horizon) {
        return Ok(false);
    }
    let Some(day) = first_days(horizon, 1) else {
        return Ok(false);
    };
    if are_closing_for_ever(alloc, records, at, vehicle, day)? {
        return Ok(true);
    }
    let Some(week) = first_days(horizon, WEEK_DAYS) else {
        return Ok(false);
    };
    are_closing_for_ever(alloc, records, at, vehicle, week)
}
