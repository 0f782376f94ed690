//! The table of holidays that several files of opening hours share.

ghost use Rattle.std.specs.Prelude.{◌≡◌, ◌<◌, ℕ, Bool, Some};
ghost use Rattle.gtdesk_tool.specs.HolidayTables.{HasReadTable, HasToldFaults, failures_after_table};
ghost use Rattle.gtdesk_tool.specs.Telling.{telling};

use crate::refusal::RunRefusal;
use crate::text_hours::list_faults;
use gtd_core::limits::MOST_FILE_BYTES;
use gtd_devices::{Input, InputFault, Output, read_whole};
use gtd_hours_holidays::{Holidays, HolidaysFault, Unread, read_holidays};
use gtd_records::RecordFault;
use std::alloc::Global;

// Tells the faults of the table with this path.
fn tell_faults<E: Output>(
    alloc: Global,
    errors: &mut E,
    path: &str,
    faults: &[HolidaysFault],
) -> Result<Option<Holidays>, RunRefusal>
    requires tellable { E.failure_count errors.old < u64.MAX }
    ensures told { HasToldFaults path.now faults.now
        (telling (E.taken errors.old) (E.taken errors.new) (E.failure_count errors.old) (E.failure_count errors.new)) result }
{
    match list_faults(alloc, errors, path, faults) {
        Ok(_) => Ok(None),
        Err(refusal) => Err(refusal),
    }
}

// The table with these bytes; or none, and its faults are told.
fn table_of<E: Output>(
    alloc: Global,
    bytes: &[u8],
    errors: &mut E,
    path: &str,
) -> Result<Option<Holidays>, RunRefusal>
    requires tellable { E.failure_count errors.old < u64.MAX }
    ensures read { (silent : Bool) → HasReadTable path.now (Some bytes.now) silent
        (telling (E.taken errors.old) (E.taken errors.new) (E.failure_count errors.old) (E.failure_count errors.new)) result }
    ensures unread { (n : ℕ) → n ≡ failures_after_table result n }
{
    match read_holidays(alloc, bytes) {
        Ok(table) => Ok(Some(table)),
        Err(Unread::Faults(faults)) => tell_faults(alloc, errors, path, faults.as_slice()),
        Err(Unread::NoMemory) => Err(RunRefusal::Memory),
    }
}

/// The table of holidays with this path, which the input brings; or none, if it is at fault: then all its faults are told on the
/// output for errors. If that output fails, a first part of them stands, and the answer is the same.
///
/// `Records` says why the input failed, and `Memory` that memory was refused. Before the call, the failures of each device must
/// be below `u64::MAX`.
pub(crate) fn read_table<I: Input, E: Output>(
    alloc: Global,
    input: &mut I,
    errors: &mut E,
    path: &str,
) -> Result<Option<Holidays>, RunRefusal>
    requires readable { I.failure_count input.old < u64.MAX }
    requires tellable { E.failure_count errors.old < u64.MAX }
    ensures read { HasReadTable path.now (I.to_come input.old) (I.may_fall_silent input.old)
        (telling (E.taken errors.old) (E.taken errors.new) (E.failure_count errors.old) (E.failure_count errors.new)) result }
    ensures read_faults { I.failure_count input.new ≡ failures_after_table result (I.failure_count input.old) }
{
    match read_whole(alloc, input, MOST_FILE_BYTES) {
        Ok(bytes) => table_of(alloc, bytes.as_slice(), errors, path),
        Err(InputFault::TooLarge) => tell_faults(alloc, errors, path, &[HolidaysFault::TooLarge]),
        Err(InputFault::ReadFault) => Err(RunRefusal::Records(RecordFault::ReadFault)),
        Err(InputFault::Endless) => Err(RunRefusal::Records(RecordFault::Endless)),
        Err(InputFault::NoMemory) => Err(RunRefusal::Memory),
    }
}
