//! The records of a file.

ghost use Rattle.std.specs.Prelude.{◌≡◌, ◌≤◌, ◌<◌, ◌⊎◌, Ok, Err, IfOk};
ghost use Rattle.std.specs.Prelude.{IfErr, MatchResult, None, Some, length};
ghost use Rattle.gtd_core.specs.Horizons.{IsHorizon};
ghost use Rattle.gtd_core.specs.Limits.{most_rows};
ghost use Rattle.gtd_eval.specs.Cursors.{cursor_list};
ghost use Rattle.gtd_spans.specs.Normal.{IsNormalFor};
ghost use Rattle.gtd_records.specs.Closing.{IsOpen};
ghost use Rattle.gtd_records.specs.File.{IsFile, IsOfFile};
ghost use Rattle.gtd_report.specs.Run.{IsVehicleType};
ghost use Rattle.gtd_handles.specs.Answers.{IsRange, day_begin, direction_of, gtd_kind, gtd_memory, gtd_no, gtd_range, gtd_yes};
ghost use Rattle.gtd_c.specs.Changes.{IsClosedAnswer};
ghost use Rattle.gtd_c.specs.Faults.{IsFirstRecordFault};
ghost use Rattle.gtd_handles.specs.Handles.{AreRecordsOf, AreSpansOf, IsElementAt, IsElementCount, OfRecords};
ghost use Rattle.gtd_handles.specs.Holding.{thing_of};

use crate::faults::{RecordFaultNumbers, numbers_of_record_fault};
use crate::horizons::{direction_of, is_second, is_vehicle};
use gtd_core::{Horizon, Sec};
use gtd_eval::KeptCursor;
use gtd_handles::{
    Given, Handle, KIND, MEMORY, NO, RANGE, SharedRecords, Thing, YES, open, open_spans,
};
use gtd_records::{RecordFault, Records, open_seconds, read_records};
use gtd_rows::Direction;
use std::alloc::Global;

// The records of a file of these bytes, or its first fault; or memory was refused.
fn read(alloc: Global, bytes: &[u8]) -> Result<Records, RecordFault>
    ensures file { MatchResult result (λ found. IsFile bytes.now (Ok found)) (λ why. (why ≡ RecordFault.NoMemory)
        ⊎ (IsOfFile why × IsFile bytes.now (Err why))) }
    ensures few { IfOk result (λ found. length found ≤ most_rows) }
{
    let Ok(copy) = Vec::from_slice(alloc, bytes) else {
        return Err(RecordFault::NoMemory);
    };
    read_records(alloc, &mut Given::new(copy))
}

/// Opens the records of a whole file: yes; or no, with the first fault of the file, and the handle is left as it was.
#[unsafe(no_mangle)]
pub extern "C" fn gtd_records_open(
    alloc: Global,
    records: &mut Handle,
    bytes: &[u8],
    fault: &mut RecordFaultNumbers,
) -> u32
    ensures opened { (result ≡ gtd_yes) → AreRecordsOf bytes.now (thing_of records.new) }
    ensures refused { (result ≡ gtd_no) → IsFirstRecordFault bytes.now fault.new }
    ensures kept { (result ≡ gtd_no) → thing_of records.new ≡ thing_of records.old }
    ensures emptied { (result ≡ gtd_memory) → thing_of records.new ≡ None }
    ensures untouched { ((result ≡ gtd_no) → ⊥) → fault.new ≡ fault.old }
    ensures answers { (result ≤ gtd_memory) × ((result ≡ gtd_range) → ⊥) × ((result ≡ gtd_kind) → ⊥) }
{
    match read(alloc, bytes) {
        Ok(found) => match SharedRecords::new(alloc, found) {
            Ok(shared) => open(alloc, records, Thing::Records(shared)),
            Err(_) => {
                *records = Handle::none(alloc);
                MEMORY
            }
        },
        Err(RecordFault::NoMemory) => {
            *records = Handle::none(alloc);
            MEMORY
        }
        Err(why) => {
            *fault = numbers_of_record_fault(why);
            NO
        }
    }
}

/// The number of elements that the records name.
#[unsafe(no_mangle)]
pub extern "C" fn gtd_records_count(
    alloc: Global,
    records: &mut Handle,
    elements: &mut usize,
) -> u32
    ensures kept { thing_of records.new ≡ thing_of records.old }
    ensures count { OfRecords (thing_of records.old) result
        (λ found. (result ≡ gtd_yes) × IsElementCount found elements.new) }
    ensures untouched { ((result ≡ gtd_yes) → ⊥) → elements.new ≡ elements.old }
{
    let Some(thing) = records.take(alloc) else {
        return KIND;
    };
    let answer = match &*thing {
        Thing::Records(shared) => {
            *elements = shared.records().elements().len();
            YES
        }
        _ => KIND,
    };
    *records = Handle::of(thing);
    answer
}

// The element at a place.
fn element_at(records: &Records, place: usize, element: &mut u64) -> u32
    ensures element { IsElementAt records.now place result element.new }
    ensures untouched { ((result ≡ gtd_yes) → ⊥) → element.new ≡ element.old }
{
    let elements = records.elements();
    if place < elements.len() {
        *element = elements[place];
        YES
    } else {
        NO
    }
}

/// The element at a place, from 0, among those that the records name, in ascending order: yes, and the element; or no, past
/// the last.
#[unsafe(no_mangle)]
pub extern "C" fn gtd_records_element(
    alloc: Global,
    records: &mut Handle,
    place: usize,
    element: &mut u64,
) -> u32
    ensures kept { thing_of records.new ≡ thing_of records.old }
    ensures element { OfRecords (thing_of records.old) result (λ found. IsElementAt found place result element.new) }
    ensures untouched { ((result ≡ gtd_yes) → ⊥) → element.new ≡ element.old }
{
    let Some(thing) = records.take(alloc) else {
        return KIND;
    };
    let answer = match &*thing {
        Thing::Records(shared) => element_at(shared.records(), place, element),
        _ => KIND,
    };
    *records = Handle::of(thing);
    answer
}

/// Whether some record closes the element.
pub(crate) fn closed_at(
    records: &Records,
    element: u64,
    negative: bool,
    vehicle: u8,
    second: i64,
) -> u32
    ensures closed { IsClosedAnswer records.now element negative vehicle second result }
{
    if !is_vehicle(vehicle) || !is_second(second) {
        return RANGE;
    }
    let closed = records.closed_at(element, direction_of(negative), vehicle, Sec(second));
    if closed { YES } else { NO }
}

/// Whether some record closes the element in the direction for the vehicle type at the second. An element that no record names
/// is open.
#[unsafe(no_mangle)]
pub extern "C" fn gtd_records_closed_at(
    alloc: Global,
    records: &mut Handle,
    element: u64,
    negative: bool,
    vehicle: u8,
    second: i64,
) -> u32
    ensures kept { thing_of records.new ≡ thing_of records.old }
    ensures closed { OfRecords (thing_of records.old) result
        (λ found. IsClosedAnswer found element negative vehicle second result) }
{
    let Some(thing) = records.take(alloc) else {
        return KIND;
    };
    let answer = match &*thing {
        Thing::Records(shared) => closed_at(shared.records(), element, negative, vehicle, second),
        _ => KIND,
    };
    *records = Handle::of(thing);
    answer
}

/// An element in a direction, for a vehicle type.
#[derive(Clone, Copy)]
pub(crate) struct Way {
    pub(crate) element: u64,
    pub(crate) direction: Direction,
    pub(crate) vehicle: u8,
}

/// The way of an element in the direction that a truth value names.
pub(crate) fn way_of(element: u64, negative: bool, vehicle: u8) -> Way
    ensures element { result.element ≡ element }
    ensures direction { result.direction ≡ direction_of negative }
    ensures vehicle { result.vehicle ≡ vehicle }
{
    Way {
        element,
        direction: direction_of(negative),
        vehicle,
    }
}

// The spans in which the way is open over the days, or why there are none.
fn spans_of(
    alloc: Global,
    records: &Records,
    way: Way,
    from_day: i64,
    until_day: i64,
) -> Result<KeptCursor, u32>
    ensures spans { IfOk result (λ c. IsNormalFor (IsOpen records.now way.element way.direction way.vehicle)
        (day_begin from_day) (day_begin until_day) (cursor_list c)) }
    ensures refused { IfErr result (λ why.
        ((why ≡ gtd_range) × ((IsVehicleType way.vehicle × IsHorizon from_day until_day) → ⊥))
        ⊎ ((why ≡ gtd_memory) × (IsVehicleType way.vehicle × IsHorizon from_day until_day))) }
    ensures ranged { IfOk result (λ c. IsVehicleType way.vehicle × IsHorizon from_day until_day) }
{
    if !is_vehicle(way.vehicle) {
        return Err(RANGE);
    }
    let Ok(horizon) = Horizon::new(from_day, until_day) else {
        return Err(RANGE);
    };
    match open_seconds(
        alloc,
        records,
        way.element,
        way.direction,
        way.vehicle,
        horizon,
    ) {
        Ok(cursor) => Ok(cursor),
        Err(_) => Err(MEMORY),
    }
}

/// Opens the spans in which the element is open in the direction for the vehicle type, from a day up to another, which is not
/// included.
#[unsafe(no_mangle)]
pub extern "C" fn gtd_records_spans(
    alloc: Global,
    records: &mut Handle,
    element: u64,
    negative: bool,
    vehicle: u8,
    from_day: i64,
    until_day: i64,
    spans: &mut Handle,
) -> u32
    ensures kept { thing_of records.new ≡ thing_of records.old }
    ensures spans { (result ≡ gtd_yes) → OfRecords (thing_of records.old) result
        (λ found. AreSpansOf (IsOpen found element (direction_of negative) vehicle) from_day until_day (thing_of spans.new)) }
    ensures range { OfRecords (thing_of records.old) result
        (λ found. IsRange (IsVehicleType vehicle × IsHorizon from_day until_day) result) }
    ensures emptied { (result ≡ gtd_memory) → thing_of spans.new ≡ None }
    ensures untouched { ((result ≡ gtd_yes) → ⊥) → ((result ≡ gtd_memory) → ⊥) → thing_of spans.new ≡ thing_of spans.old }
    ensures answers { (result ≤ gtd_memory) × ((result ≡ gtd_no) → ⊥) }
{
    let Some(thing) = records.take(alloc) else {
        return KIND;
    };
    let way = way_of(element, negative, vehicle);
    let opened = match &*thing {
        Thing::Records(shared) => spans_of(alloc, shared.records(), way, from_day, until_day),
        _ => Err(KIND),
    };
    *records = Handle::of(thing);
    open_spans(alloc, spans, opened)
}
