//! Schedules.

ghost use Rattle.std.specs.Prelude.{◌≡◌, ◌≤◌, ◌⊎◌, IfOk, IfErr, None, length};
ghost use Rattle.gtd_core.specs.Horizons.{IsHorizon};
ghost use Rattle.gtd_core.specs.Limits.{most_rows};
ghost use Rattle.gtd_report.specs.Run.{IsVehicleType};
ghost use Rattle.gtd_handles.specs.Answers.{IsRange, gtd_memory, gtd_no, gtd_range, gtd_yes};
ghost use Rattle.gtd_handles.specs.Handles.{IsTextOf, OfRecords};
ghost use Rattle.gtd_c.specs.Schedules.{IsScheduleText};
ghost use Rattle.gtd_handles.specs.Holding.{thing_of};

use crate::horizons::is_vehicle;
use gtd_core::Horizon;
use gtd_handles::{Collected, Handle, KIND, MEMORY, RANGE, Thing, open_text};
use gtd_records::Records;
use gtd_report::{Printer, Report};
use gtd_schedule::Schedule;
use std::alloc::Global;

// The schedule of the records over the days, or why there is none.
fn schedule_of(
    alloc: Global,
    records: &Records,
    from_day: i64,
    until_day: i64,
    vehicle: u8,
) -> Result<Vec<u8>, u32>
    requires few { length records.now ≤ most_rows }
    ensures schedule { IfOk result (λ bytes. IsScheduleText records.now vehicle from_day until_day bytes.items) }
    ensures refused { IfErr result (λ why.
        ((why ≡ gtd_range) × ((IsVehicleType vehicle × IsHorizon from_day until_day) → ⊥))
        ⊎ ((why ≡ gtd_memory) × (IsVehicleType vehicle × IsHorizon from_day until_day))) }
    ensures ranged { IfOk result (λ bytes. IsVehicleType vehicle × IsHorizon from_day until_day) }
{
    if !is_vehicle(vehicle) {
        return Err(RANGE);
    }
    let Ok(horizon) = Horizon::new(from_day, until_day) else {
        return Err(RANGE);
    };
    let schedule = Schedule { horizon, vehicle };
    let mut output = Collected::new(alloc);
    let mut printer = Printer::new(alloc);
    match schedule.put(&mut output, &mut printer, records) {
        Ok(()) => Ok(output.into_bytes()),
        Err(_) => Err(MEMORY),
    }
}

/// Opens the whole schedule of the records for the vehicle type, from a day up to another, which is not included.
#[unsafe(no_mangle)]
pub extern "C" fn gtd_records_schedule(
    alloc: Global,
    records: &mut Handle,
    from_day: i64,
    until_day: i64,
    vehicle: u8,
    text: &mut Handle,
) -> u32
    ensures kept { thing_of records.new ≡ thing_of records.old }
    ensures schedule { (result ≡ gtd_yes) → OfRecords (thing_of records.old) result
        (λ found. IsTextOf (IsScheduleText found vehicle from_day until_day) (thing_of text.new)) }
    ensures range { OfRecords (thing_of records.old) result
        (λ found. IsRange (IsVehicleType vehicle × IsHorizon from_day until_day) result) }
    ensures emptied { (result ≡ gtd_memory) → thing_of text.new ≡ None }
    ensures untouched { ((result ≡ gtd_yes) → ⊥) → ((result ≡ gtd_memory) → ⊥) → thing_of text.new ≡ thing_of text.old }
    ensures answers { (result ≤ gtd_memory) × ((result ≡ gtd_no) → ⊥) }
{
    let Some(thing) = records.take(alloc) else {
        return KIND;
    };
    let made = match &*thing {
        Thing::Records(shared) => schedule_of(
            alloc,
            shared.records(),
            from_day,
            until_day,
            vehicle,
        ),
        _ => Err(KIND),
    };
    *records = Handle::of(thing);
    open_text(alloc, text, made)
}
