//! The run that mends a record file.

ghost use Rattle.std.specs.Prelude.{◌≡◌, ◌≢◌, ◌<◌, IfErr, IfSome, IsErrOf, IsTrue, MatchBool, OnOk, true};
ghost use Rattle.std.specs.Io.KnownBytes.{Appends, Keeps};
ghost use Rattle.gtd_faults.specs.Run.{TookSome};
ghost use Rattle.gtd_mend.specs.Run.{HasMended, HasPut, IsAfterReading, failures_after_listing, failures_after_reading};
ghost use Rattle.gtd_mend.specs.Run.{failures_after_text, failures_after_writing};

use crate::fault::{MendFault, fault_of_input};
use crate::mend::{Answer, mend};
use gtd_core::limits::MOST_FILE_BYTES;
use gtd_devices::{Input, Output, read_whole};
use gtd_report::{Progress, finish, put_line};
use std::alloc::Global;

// Puts a text, and ends the output; says whether it took all.
fn put_text<O: Output>(output: &mut O, text: &[u8]) -> bool
    requires writable { O.failure_count output.old < u64.MAX }
    ensures put { MatchBool result (Appends (O.taken output.old) (O.taken output.new) text.now)
        (TookSome (O.taken output.old) (O.taken output.new) text.now) }
    ensures ended { result ≡ true → IsTrue (O.is_ended output.new) }
    ensures failures { O.failure_count output.new ≡ failures_after_text result (O.failure_count output.old) }
{
    let mut progress = Progress::new();
    match put_line(output, &mut progress, text) {
        Ok(()) => finish(output).is_ok(),
        Err(_) => false,
    }
}

// Puts a mended file, and then the lines of its changes. Answers this number.
fn put_both<O: Output, L: Output>(
    output: &mut O,
    listing: &mut L,
    bytes: &[u8],
    lines: &[u8],
    count: u64,
) -> Result<u64, MendFault>
    requires writable { O.failure_count output.old < u64.MAX }
    requires listable { L.failure_count listing.old < u64.MAX }
    ensures put { HasPut bytes.now lines.now count (O.taken output.old) (O.taken output.new)
        (L.taken listing.old) (L.taken listing.new) result }
    ensures ended { OnOk result (IsTrue (O.is_ended output.new) × IsTrue (L.is_ended listing.new)) }
    ensures write_faults { O.failure_count output.new ≡ failures_after_writing result (O.failure_count output.old) }
    ensures listing_faults { L.failure_count listing.new ≡ failures_after_listing result (L.failure_count listing.old) }
{
    if !put_text(output, bytes) {
        return Err(MendFault::WriteFault);
    }
    if !put_text(listing, lines) {
        return Err(MendFault::ListingFault);
    }
    Ok(count)
}

// Puts what is put of the file with this path and these bytes.
fn put_mended<O: Output, L: Output>(
    alloc: Global,
    output: &mut O,
    listing: &mut L,
    path: &str,
    bytes: &[u8],
) -> Result<u64, MendFault>
    requires writable { O.failure_count output.old < u64.MAX }
    requires listable { L.failure_count listing.old < u64.MAX }
    ensures mended { HasMended path.now bytes.now (O.taken output.old) (O.taken output.new)
        (L.taken listing.old) (L.taken listing.new) result }
    ensures cause { IfErr result IsAfterReading }
    ensures ended { OnOk result (IsTrue (O.is_ended output.new) × IsTrue (L.is_ended listing.new)) }
    ensures write_faults { O.failure_count output.new ≡ failures_after_writing result (O.failure_count output.old) }
    ensures listing_faults { L.failure_count listing.new ≡ failures_after_listing result (L.failure_count listing.old) }
{
    match mend(alloc, path, bytes) {
        Ok(Answer::Same) => put_both(output, listing, bytes, b"", 0),
        Ok(
            Answer::Mended {
                bytes,
                lines,
                count,
            },
        ) => put_both(output, listing, bytes.as_slice(), lines.as_bytes(), count),
        Err(_) => Err(MendFault::NoMemory),
    }
}

/// Puts the record file that an input brings, with what can be mended without a guess, and lists each change. Answers the number
/// of changes.
///
/// An accepted file is put byte for byte, and so is a file that has no header, whatever its fields are separated by. Of any
/// other file the rows are put in their order, each field mended by its column, with commas, an LF at the end of each row, and
/// quotes only where a field needs them. Such a file may still have faults: nothing is checked. Each change has a line in the
/// listing: the file's path, as [`gtd_faults::Printable`] shows it; line 1 for a change of the whole file; for one of a field
/// the line on which its row begins, and the field's number.
///
/// `ReadFault`, `TooLarge`, `Endless` and `NoMemory` come before anything is put. The listing is put after the mended file:
/// nothing of it at `WriteFault`. Before the call, the failures of the three devices must be below `u64::MAX`.
pub fn run_mend<I: Input, O: Output, L: Output>(
    alloc: Global,
    input: &mut I,
    output: &mut O,
    listing: &mut L,
    path: &str,
) -> Result<u64, MendFault>
    requires readable { I.failure_count input.old < u64.MAX }
    requires writable { O.failure_count output.old < u64.MAX }
    requires listable { L.failure_count listing.old < u64.MAX }
    // What the output and the listing took, by the answer: the mended file and the lines of its changes or, after a failure, a
    // first part of them.
    ensures mended { IfSome (I.to_come input.old) (λ bytes. HasMended path.now bytes (O.taken output.old) (O.taken output.new)
        (L.taken listing.old) (L.taken listing.new) result) }
    // If the input failed or memory was refused, nothing was put.
    ensures kept { IfErr result (λ why. why ≢ MendFault.WriteFault → why ≢ MendFault.ListingFault
        → Keeps (O.taken output.old) (O.taken output.new) × Keeps (L.taken listing.old) (L.taken listing.new)) }
    // If both took everything, both were then ended.
    ensures ended { OnOk result (IsTrue (O.is_ended output.new) × IsTrue (L.is_ended listing.new)) }
    ensures endless { IsErrOf result MendFault.Endless → IsTrue (I.may_fall_silent input.old) }
    ensures read_faults { I.failure_count input.new ≡ failures_after_reading result (I.failure_count input.old) }
    ensures write_faults { O.failure_count output.new ≡ failures_after_writing result (O.failure_count output.old) }
    ensures listing_faults { L.failure_count listing.new ≡ failures_after_listing result (L.failure_count listing.old) }
{
    match read_whole(alloc, input, MOST_FILE_BYTES) {
        Ok(bytes) => put_mended(alloc, output, listing, path, bytes.as_slice()),
        Err(why) => Err(fault_of_input(why)),
    }
}
