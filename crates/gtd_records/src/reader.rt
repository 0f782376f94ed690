//! The records that an input brings.

ghost use Rattle.std.specs.Prelude.{◌≡◌, ◌<◌, ◌≤◌, length, Ok, Err, IfOk, MatchResult, IfSome, IsErrOf, IsTrue};
ghost use Rattle.gtd_core.specs.Limits.{most_rows};
ghost use Rattle.gtd_records.specs.File.{IsFile, IsOfFile};
ghost use Rattle.gtd_records.specs.Reading.{failures_after_records};

use crate::fault::RecordFault;
use crate::file::read_table;
use crate::index::Records;
use crate::record::Record;
use gtd_core::limits::MOST_FILE_BYTES;
use gtd_devices::{Input, read_whole};
use std::alloc::Global;

// The records of the rows of the file that an input brings, or its first fault. The bytes of the file are dropped.
fn read_rows<I: Input>(alloc: Global, input: &mut I) -> Result<Vec<Record>, RecordFault>
    requires countable { I.failure_count input.old < u64.MAX }
    ensures file { IfSome (I.to_come input.old) (λ bytes. MatchResult result
        (λ found. IsFile bytes (Ok found.items))
        (λ why. IsOfFile why → IsFile bytes (Err why))) }
    ensures few { IfOk result (λ found. length found.items ≤ most_rows) }
    ensures endless { IsErrOf result RecordFault.Endless → IsTrue (I.may_fall_silent input.old) }
    ensures failures { I.failure_count input.new
        ≡ failures_after_records result (I.failure_count input.old) }
{
    let bytes = read_whole(alloc, input, MOST_FILE_BYTES)?;
    read_table(alloc, bytes.as_slice())
}

/// The records of the file that an input brings, or its first fault.
///
/// The whole input is pulled first: `ReadFault` if it failed, `TooLarge` if more than 16,777,216 bytes came, `Endless`
/// if 1,000 pulls in a row gave no byte, whichever happens first. Then come `Header`, and row by row `TooManyRows`,
/// `FieldCount`, `Element`, `Direction`, `Vehicle`, `Domain`. `NoMemory` is answered only if memory was refused. Before
/// the call, the input's failures must be below `u64::MAX`.
///
/// ```
/// let file = b"element,direction,vehicle,domain\n17,negative,11,\n";
/// let mut input = MemoryIn::new(Vec::from_slice(alloc, file)?, 4096, None, None);
/// let records = read_records(alloc, &mut input)?;
/// assert_eq!(rt; records.elements(), [17u64].as_slice());
/// assert!(rt; records.closed_at(17, Direction::Negative, 11, Sec(0)));
/// ```
pub fn read_records<I: Input>(alloc: Global, input: &mut I) -> Result<Records, RecordFault>
    requires countable { I.failure_count input.old < u64.MAX }
    // If the input tells its bytes, they are a file of these records, or have this first fault.
    ensures file { IfSome (I.to_come input.old) (λ bytes. MatchResult result
        (λ found. IsFile bytes (Ok found))
        (λ why. IsOfFile why → IsFile bytes (Err why))) }
    ensures few { IfOk result (λ found. length found ≤ most_rows) }
    ensures endless { IsErrOf result RecordFault.Endless → IsTrue (I.may_fall_silent input.old) }
    // `ReadFault` exactly if the input failed in this call.
    ensures failures { I.failure_count input.new
        ≡ failures_after_records result (I.failure_count input.old) }
{
    let rows = read_rows(alloc, input)?;
    match Records::new(alloc, rows) {
        Ok(found) => Ok(found),
        Err(_) => Err(RecordFault::NoMemory),
    }
}
