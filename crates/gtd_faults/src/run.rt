//! The run that lists the faults of a record file.

ghost use Rattle.std.specs.Prelude.{◌≡◌, ◌≢◌, ◌⊎◌, ◌<◌, ◌≤◌, ℕ, IfErr, IfSome, IsErrOf, IsTrue, List, OnErr, OnOk, Option};
ghost use Rattle.std.specs.Prelude.{length};
ghost use Rattle.gtd_core.specs.Limits.{most_file_bytes};
ghost use Rattle.std.specs.Io.KnownBytes.{Appends, Keeps};
ghost use Rattle.gtd_warnings.specs.declared.file.Asked.{Asked};
ghost use Rattle.gtd_faults.specs.Run.{HasListed, HasPut, TookSome, failures_after_listing, failures_after_reading};

use crate::lines::FaultLines;
use crate::list_fault::{ListFault, fault_of_input};
use crate::listing::list_of;
use gtd_core::limits::MOST_FILE_BYTES;
use gtd_devices::{Input, InputFault, Output, read_whole};
use gtd_report::{Progress, finish, put_line};
use gtd_warnings::Asked;
use std::alloc::Global;

// Puts a text, and ends the output.
fn put_text<O: Output>(output: &mut O, text: &str) -> Result<(), ListFault>
    requires writable { O.failure_count output.old < u64.MAX }
    ensures whole { OnOk result (Appends (O.taken output.old) (O.taken output.new) text.now) }
    ensures part { OnErr result (TookSome (O.taken output.old) (O.taken output.new) text.now) }
    ensures ended { OnOk result (IsTrue (O.is_ended output.new)) }
    ensures cause { IfErr result (λ why. why ≡ ListFault.WriteFault) }
    ensures failures { O.failure_count output.new
        ≡ failures_after_listing result (O.failure_count output.old) }
{
    let mut progress = Progress::new();
    match put_line(output, &mut progress, text.as_bytes()) {
        Ok(()) => match finish(output) {
            Ok(()) => Ok(()),
            Err(_) => Err(ListFault::WriteFault),
        },
        Err(_) => Err(ListFault::WriteFault),
    }
}

// Puts a text, and ends the output. Answers this number.
fn put_numbered<O: Output>(output: &mut O, text: &str, number: usize) -> Result<usize, ListFault>
    requires writable { O.failure_count output.old < u64.MAX }
    ensures put { HasPut text.now number (O.taken output.old) (O.taken output.new) result }
    ensures cause { IfErr result (λ why. why ≡ ListFault.WriteFault) }
    ensures ended { OnOk result (IsTrue (O.is_ended output.new)) }
    ensures failures { O.failure_count output.new
        ≡ failures_after_listing result (O.failure_count output.old) }
{
    match put_text(output, text) {
        Ok(()) => Ok(number),
        Err(why) => Err(why),
    }
}

// Puts the list of the file with this path and these bytes, with its warnings if they are asked for.
fn put_list<O: Output>(
    alloc: Global,
    output: &mut O,
    path: &str,
    bytes: &[u8],
    asked: &Option<Asked>,
) -> Result<usize, ListFault>
    requires few { length bytes.now ≤ most_file_bytes }
    requires writable { O.failure_count output.old < u64.MAX }
    ensures listed { HasListed path.now asked.now bytes.now (O.taken output.old) (O.taken output.new) result }
    ensures cause { IfErr result (λ why. (why ≡ ListFault.WriteFault) ⊎ ((why ≡ ListFault.NoMemory)
        × Keeps (O.taken output.old) (O.taken output.new))) }
    ensures ended { OnOk result (IsTrue (O.is_ended output.new)) }
    ensures failures { O.failure_count output.new
        ≡ failures_after_listing result (O.failure_count output.old) }
{
    let Ok(list) = list_of(alloc, path, bytes, asked) else {
        return Err(ListFault::NoMemory);
    };
    put_numbered(output, list.text.as_str(), list.faults.len())
}

// Puts the list of a file with this path and too many bytes: its only fault, and no warnings.
fn put_too_large<O: Output>(alloc: Global, output: &mut O, path: &str) -> Result<usize, ListFault>
    requires writable { O.failure_count output.old < u64.MAX }
    ensures listed { (bytes : List ℕ) (asked : Option Asked) → most_file_bytes < length bytes
        → HasListed path.now asked bytes (O.taken output.old) (O.taken output.new) result }
    ensures cause { IfErr result (λ why. (why ≡ ListFault.WriteFault) ⊎ ((why ≡ ListFault.NoMemory)
        × Keeps (O.taken output.old) (O.taken output.new))) }
    ensures ended { OnOk result (IsTrue (O.is_ended output.new)) }
    ensures failures { O.failure_count output.new
        ≡ failures_after_listing result (O.failure_count output.old) }
{
    let Ok(list) = FaultLines::too_large(alloc, path) else {
        return Err(ListFault::NoMemory);
    };
    put_numbered(output, list.text.as_str(), 1)
}

/// Puts the list of all faults of the record file that an input brings, and answers their number. If they are asked for, the
/// list goes on with the lines of all warnings. Each fault has a line: the file's path, as
/// [`crate::Printable`] shows it, the line of the file on which its row begins, the row, and its kind. Below it is the field at
/// fault with a caret at the place, or the first line of a file that has no header.
///
/// Each row that stands for no restriction is listed, in order; `TooManyRows` follows the faults of the first 65,536 rows;
/// `TooLarge` or `Header` is listed alone, with line 1. No fault is listed exactly if the file is accepted, and the first line
/// names the fault for which [`gtd_records::read_records`] refuses it. Nothing is put before the whole file has been read.
/// Before the call, the failures of both devices must be below `u64::MAX`.
pub fn run_faults<I: Input, O: Output>(
    alloc: Global,
    input: &mut I,
    output: &mut O,
    path: &str,
    asked: &Option<Asked>,
) -> Result<usize, ListFault>
    requires readable { I.failure_count input.old < u64.MAX }
    requires writable { O.failure_count output.old < u64.MAX }
    // What the output took, by the answer: all lines of the file's list or, after a failure, a first part of them.
    ensures listed { IfSome (I.to_come input.old)
        (λ bytes. HasListed path.now asked.now bytes (O.taken output.old) (O.taken output.new) result) }
    // If the input failed or memory was refused, nothing was put.
    ensures kept { IfErr result (λ why. why ≢ ListFault.WriteFault → Keeps (O.taken output.old) (O.taken output.new)) }
    // An output that took the whole list was then ended.
    ensures ended { OnOk result (IsTrue (O.is_ended output.new)) }
    ensures endless { IsErrOf result ListFault.Endless → IsTrue (I.may_fall_silent input.old) }
    ensures read_faults { I.failure_count input.new
        ≡ failures_after_reading result (I.failure_count input.old) }
    ensures write_faults { O.failure_count output.new
        ≡ failures_after_listing result (O.failure_count output.old) }
{
    match read_whole(alloc, input, MOST_FILE_BYTES) {
        Ok(bytes) => put_list(alloc, output, path, bytes.as_slice(), asked),
        Err(InputFault::TooLarge) => put_too_large(alloc, output, path),
        Err(why) => Err(fault_of_input(why)),
    }
}
