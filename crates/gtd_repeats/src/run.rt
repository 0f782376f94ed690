//! The run that lists what the rows of a record file say more than once.

ghost use Rattle.std.specs.Prelude.{◌≡◌, ◌≢◌, ◌<◌, ◌≤◌, ℕ, Ok, Err, IfOk, IfSome, IsErrOf, IsTrue};
ghost use Rattle.std.specs.Prelude.{MatchResult, OnOk, length, string_bytes};
ghost use Rattle.gtd_core.specs.Limits.{most_file_bytes, most_rows};
ghost use Rattle.gtd_records.specs.Closing.{Restriction};
ghost use Rattle.gtd_records.specs.File.{IsFile, IsOfFile};
ghost use Rattle.gtd_report.specs.Run.{failures_after_read, failures_after_write};
ghost use Rattle.gtd_repeats.specs.Listing.{IsListing};
ghost use Rattle.gtd_repeats.specs.Run.{HasListed, HasPut, KeepsRefused};

use crate::findings::findings_of;
use crate::lines::text_of;
use gtd_core::limits::MOST_FILE_BYTES;
use gtd_devices::{Input, Output, read_whole};
use gtd_lines::records_of;
use gtd_records::{RecordFault, Records};
use gtd_report::{Progress, RunFault, finish, put_line};
use std::alloc::{AllocError, Global};

/// Memory was refused before anything was put.
const NO_MEMORY: RunFault = RunFault::NoMemory { written: 0 };

// Puts a text, and ends the output. Answers this number.
fn put_text<O: Output>(output: &mut O, text: &str, number: u64) -> Result<u64, RunFault>
    requires writable { O.failure_count output.old < u64.MAX }
    ensures put { HasPut text.now number (O.taken output.old) (O.taken output.new) result }
    ensures ended { OnOk result (IsTrue (O.is_ended output.new)) }
    ensures failures { O.failure_count output.new ≡ failures_after_write result (O.failure_count output.old) }
{
    let mut progress = Progress::new();
    if put_line(output, &mut progress, text.as_bytes()).is_err() {
        return Err(RunFault::WriteFault {
            written: progress.written,
        });
    }
    match finish(output) {
        Ok(()) => Ok(number),
        Err(_) => Err(RunFault::WriteFault {
            written: progress.written,
        }),
    }
}

// What is listed of records.
#[derive(Drop)]
struct Listing {
    text: String,
    count: u64,
}

// The list of a file with this path, these bytes and these records.
fn listing_of(
    alloc: Global,
    path: &str,
    bytes: &[u8],
    found: &Records,
) -> Result<Listing, AllocError>
    requires few { length found.now ≤ most_rows }
    requires file { IsFile bytes.now (Ok found.now) }
    ensures listing { IfOk result (λ listing. IsListing path.now bytes.now found.now listing.count (string_bytes listing.text)) }
{
    let findings = findings_of(alloc, found.rows())?;
    let text = text_of(alloc, path, bytes, findings.as_slice())?;
    Ok(Listing {
        text,
        count: findings.len() as u64,
    })
}

// Puts the list of the file with this path and these bytes.
fn put_listing<O: Output>(
    alloc: Global,
    output: &mut O,
    path: &str,
    bytes: &[u8],
) -> Result<u64, RunFault>
    requires writable { O.failure_count output.old < u64.MAX }
    ensures listed { HasListed path.now bytes.now (O.taken output.old) (O.taken output.new) result }
    ensures kept { KeepsRefused (O.taken output.old) (O.taken output.new) result }
    ensures ended { OnOk result (IsTrue (O.is_ended output.new)) }
    ensures vehicle { IsErrOf result RunFault.VehicleRange → ⊥ }
    ensures year { IsErrOf result RunFault.YearRange → ⊥ }
    ensures element { IsErrOf result RunFault.NoElement → ⊥ }
    ensures endless { IsErrOf result (RunFault.Records RecordFault.Endless) → ⊥ }
    ensures read_faults { (count : ℕ) → count ≡ failures_after_read result count }
    ensures write_faults { O.failure_count output.new ≡ failures_after_write result (O.failure_count output.old) }
{
    let found = match records_of(alloc, bytes) {
        Ok(found) => found,
        Err(why) => return Err(RunFault::Records(why)),
    };
    let Ok(listing) = listing_of(alloc, path, bytes, &found) else {
        return Err(NO_MEMORY);
    };
    put_text(output, listing.text.as_str(), listing.count)
}

/// Puts what the rows of the record file that an input brings say more than once, and answers the number of lines. Each has the
/// file's path, as [`gtd_faults::Printable`] shows it, the line of the file on which its row begins, the row, and what is said
/// of it: `same as row M`, the first earlier row of the same element, directions, vehicle types and seconds; otherwise
/// `within row M`, the first of the first 64 rows of its element that closes each direction, vehicle type and second that it
/// closes; and `same domain as row M`, if the row is the first with its canonical text, and the earlier row M is
/// the first with the same seconds. The seconds are those from 1901-01-01 to 2699-12-31: all time, where no start gives a year.
///
/// The first fault of reading the file comes first (`Records`); then `WriteFault` or `NoMemory`. Nothing is put until the whole
/// file has been read and accepted. Before the call, the failures of both devices must be below `u64::MAX`.
pub fn run_repeats<I: Input, O: Output>(
    alloc: Global,
    input: &mut I,
    output: &mut O,
    path: &str,
) -> Result<u64, RunFault>
    requires readable { I.failure_count input.old < u64.MAX }
    requires writable { O.failure_count output.old < u64.MAX }
    // What the output took, by the answer: the list of a file or, after a failure, its first bytes.
    ensures listed { IfSome (I.to_come input.old)
        (λ bytes. HasListed path.now bytes (O.taken output.old) (O.taken output.new) result) }
    // Nothing was put where the file or memory was refused, whatever the input tells of its bytes.
    ensures kept { KeepsRefused (O.taken output.old) (O.taken output.new) result }
    // An output that took the whole list was then ended.
    ensures ended { OnOk result (IsTrue (O.is_ended output.new)) }
    ensures vehicle { IsErrOf result RunFault.VehicleRange → ⊥ }
    ensures year { IsErrOf result RunFault.YearRange → ⊥ }
    ensures element { IsErrOf result RunFault.NoElement → ⊥ }
    ensures endless { IsErrOf result (RunFault.Records RecordFault.Endless) → IsTrue (I.may_fall_silent input.old) }
    ensures read_faults { I.failure_count input.new
        ≡ failures_after_read result (I.failure_count input.old) }
    ensures write_faults { O.failure_count output.new
        ≡ failures_after_write result (O.failure_count output.old) }
{
    match read_whole(alloc, input, MOST_FILE_BYTES) {
        Ok(bytes) => put_listing(alloc, output, path, bytes.as_slice()),
        Err(why) => Err(RunFault::Records(RecordFault::from(why))),
    }
}
