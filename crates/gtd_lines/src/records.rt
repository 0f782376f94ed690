//! The records of a file whose bytes were read already.

ghost use Rattle.std.specs.Prelude.{◌≢◌, ◌≤◌, IfOk, MatchResult, Ok, Err, length};
ghost use Rattle.gtd_core.specs.Limits.{most_rows};
ghost use Rattle.gtd_records.specs.File.{IsFile};

use crate::device::ReadBytes;
use gtd_records::{RecordFault, Records, read_records};
use std::alloc::Global;

/// The records of the file with these bytes, or its first fault, as [`read_records`] answers it for an input that brings them.
/// `NoMemory` is answered only if memory was refused.
pub fn records_of(alloc: Global, bytes: &[u8]) -> Result<Records, RecordFault>
    ensures file { MatchResult result
        (λ found. IsFile bytes.now (Ok found))
        (λ why. (why ≢ RecordFault.NoMemory → IsFile bytes.now (Err why)) × (why ≢ RecordFault.ReadFault)
        × (why ≢ RecordFault.Endless)) }
    ensures few { IfOk result (λ found. length found ≤ most_rows) }
{
    let mut input = ReadBytes { left: bytes };
    read_records(alloc, &mut input)
}
