//! The rows that close an element.

ghost use Rattle.std.specs.Prelude.{◌≡◌, ◌≤◌, ◌⊎◌, IfErr, IfOk, length};
ghost use Rattle.gtd_core.specs.Limits.{most_rows};
ghost use Rattle.gtd_core.specs.Seconds.{IsHorizonSecond};
ghost use Rattle.gtd_records.specs.ClosingRows.{AreClosingRows};
ghost use Rattle.gtd_report.specs.Run.{IsVehicleType};
ghost use Rattle.gtd_handles.specs.Answers.{IsRange, direction_of, gtd_memory, gtd_range, gtd_short, gtd_yes};
ghost use Rattle.gtd_handles.specs.Handles.{OfRecords};
ghost use Rattle.gtd_c.specs.Rows.{AreClosersWritten, AreRowNumbers};
ghost use Rattle.gtd_handles.specs.Writing.{IsWritten};
ghost use Rattle.gtd_handles.specs.Holding.{thing_of};

use crate::horizons::{is_second, is_vehicle};
use crate::records::{Way, way_of};
use gtd_core::Sec;
use gtd_handles::{Handle, KIND, MEMORY, RANGE, SHORT, Thing, YES};
use gtd_records::Records;
use std::alloc::Global;

// The number of a row, in 32 bits.
fn row_number(number: usize) -> u32
    requires { number ≤ most_rows }
    ensures same { result ≡ number }
{
    number as u32
}

// Writes the numbers of rows, and how many there are.
fn write_rows(found: &[usize], rows: &mut [u32], count: &mut usize) -> u32
    requires few { AreRowNumbers found.now }
    ensures rows { IsWritten found.now result rows.old rows.new count.new }
{
    *count = found.len();
    if found.len() > rows.len() {
        return SHORT;
    }
    for at in 0..found.len() {
        rows[at] = row_number(found[at]);
    }
    YES
}

// Writes the numbers of rows that were found, and how many there are, or answers why there are none.
fn write_found(found: Result<Vec<usize>, u32>, rows: &mut [u32], count: &mut usize) -> u32
    requires few { IfOk found (λ numbers. AreRowNumbers numbers.items) }
    ensures rows { IfOk found (λ numbers. IsWritten numbers.items result rows.old rows.new count.new) }
    ensures refused { IfErr found (λ why. (result ≡ why) × (rows.new ≡ rows.old) × (count.new ≡ count.old)) }
{
    match found {
        Ok(numbers) => write_rows(numbers.as_slice(), rows, count),
        Err(why) => why,
    }
}

// The rows that close the way at the second.
fn closers_of(alloc: Global, records: &Records, way: Way, second: i64) -> Result<Vec<usize>, u32>
    requires few { length records.now ≤ most_rows }
    ensures rows { IfOk result (λ rows. AreClosingRows records.now way.element way.direction way.vehicle second rows.items) }
    ensures few { IfOk result (λ rows. AreRowNumbers rows.items) }
    ensures refused { IfErr result (λ why.
        ((why ≡ gtd_range) × ((IsVehicleType way.vehicle × IsHorizonSecond second) → ⊥))
        ⊎ ((why ≡ gtd_memory) × (IsVehicleType way.vehicle × IsHorizonSecond second))) }
    ensures ranged { IfOk result (λ rows. IsVehicleType way.vehicle × IsHorizonSecond second) }
{
    if !is_vehicle(way.vehicle) || !is_second(second) {
        return Err(RANGE);
    }
    match records.closing_rows(alloc, way.element, way.direction, way.vehicle, Sec(second)) {
        Ok(found) => Ok(found),
        Err(_) => Err(MEMORY),
    }
}

/// The numbers of the rows that close the element in the direction for the vehicle type at the second, from 1 and ascending:
/// yes, and how many there are; none, if it is open. If there is too little room, how many there are alone.
#[unsafe(no_mangle)]
pub extern "C" fn gtd_records_closers(
    alloc: Global,
    records: &mut Handle,
    element: u64,
    negative: bool,
    vehicle: u8,
    second: i64,
    rows: &mut [u32],
    count: &mut usize,
) -> u32
    ensures kept { thing_of records.new ≡ thing_of records.old }
    ensures rows { ((result ≡ gtd_yes) ⊎ (result ≡ gtd_short)) → OfRecords (thing_of records.old) result (λ found.
        AreClosersWritten found element (direction_of negative) vehicle second result rows.old rows.new count.new) }
    ensures range { OfRecords (thing_of records.old) result
        (λ found. IsRange (IsVehicleType vehicle × IsHorizonSecond second) result) }
    ensures answers { OfRecords (thing_of records.old) result
        (λ found. ((result ≡ gtd_yes) ⊎ (result ≡ gtd_short)) ⊎ ((result ≡ gtd_range) ⊎ (result ≡ gtd_memory))) }
    ensures untouched { ((result ≡ gtd_yes) → ⊥) → rows.new ≡ rows.old }
    ensures uncounted { ((result ≡ gtd_yes) → ⊥) → ((result ≡ gtd_short) → ⊥) → count.new ≡ count.old }
{
    let Some(thing) = records.take(alloc) else {
        return KIND;
    };
    let way = way_of(element, negative, vehicle);
    let found = match &*thing {
        Thing::Records(shared) => closers_of(alloc, shared.records(), way, second),
        _ => Err(KIND),
    };
    *records = Handle::of(thing);
    write_found(found, rows, count)
}
