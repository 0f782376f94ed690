//! The run that translates a file of hours to a record file.

ghost use Rattle.std.specs.Prelude.{◌≡◌, ◌<◌, ◌≤◌, ℕ, [], List, Some, IfErr, IfOk, IsErrOf, IsTrue, OnOk, length};
ghost use Rattle.std.specs.List.{All};
ghost use Rattle.gtd_core.specs.Limits.{most_rows};
ghost use Rattle.gtd_hours_options.specs.Readings.{HowRead, how_read};
ghost use Rattle.gtd_hours_file.specs.HoursFile.{AreOfFile};
ghost use Rattle.gtd_hours_file.specs.PuttingRows.{IsWithin, answer_of};
ghost use Rattle.gtd_hours_file.specs.Warnings as warned;
ghost use Rattle.gtd_hours_file.specs.Warnings.{IsWarned};
ghost use Rattle.gtd_hours_file.specs.Run.{HasTranslated, IsRefusal, IsStop, failures_after_putting, failures_after_reading};

use crate::fault::HoursFileFault;
use crate::fault_list::lines_of;
use crate::file::read_file;
use crate::row::HoursRow;
use crate::translated::Translated;
use crate::translation::put_records;
use crate::untranslated::Untranslated;
use crate::warnings::warnings_of;
use gtd_core::limits::MOST_FILE_BYTES;
use gtd_devices::{Input, InputFault, Output, read_whole};
use gtd_hours_options::HoursReading;
use gtd_report::{Progress, Stop};
use std::alloc::Global;

// The answer for a file at fault: the list of its faults.
fn refusal(alloc: Global, path: &str, bytes: &[u8], faults: &[HoursFileFault]) -> Untranslated
    ensures list { IsRefusal path.now bytes.now faults.now result }
{
    match lines_of(alloc, path, bytes, faults) {
        Ok(text) => Untranslated::Faults(text),
        Err(_) => Untranslated::NoMemory { written: 0 },
    }
}

// The answer of a run that put its text, or that stopped.
fn answer(put: Result<(), Stop>, progress: Progress) -> Result<u64, Untranslated>
    ensures value { result ≡ answer_of put progress }
{
    match put {
        Ok(()) => Ok(progress.lines),
        Err(Stop::Output) => Err(Untranslated::WriteFault {
            written: progress.written,
        }),
        Err(Stop::Memory) => Err(Untranslated::NoMemory {
            written: progress.written,
        }),
    }
}

// Puts what these rows are translated to, which may be those of a file with these bytes.
fn put_sound<O: Output>(
    alloc: Global,
    output: &mut O,
    bytes: &[u8],
    rows: &[HoursRow],
) -> Result<u64, Untranslated>
    requires writable { O.failure_count output.old < u64.MAX }
    requires few { length rows.now ≤ most_rows }
    requires within { All IsWithin rows.now }
    ensures stands { (how : HowRead) (path : List ℕ) → AreOfFile how bytes.now rows.now []
        → HasTranslated how path (Some bytes.now) (O.taken output.old) (O.taken output.new) result }
    ensures cause { IfErr result IsStop }
    ensures ended { OnOk result (IsTrue (O.is_ended output.new)) }
    ensures failures { O.failure_count output.new
        ≡ failures_after_putting result (O.failure_count output.old) }
{
    let mut progress = Progress::new();
    let put = put_records(alloc, output, &mut progress, rows);
    answer(put, progress)
}

// The answer of a run with these warnings.
fn with_warnings(
    answer: Result<u64, Untranslated>,
    warnings: Vec<u8>,
) -> Result<Translated, Untranslated>
    ensures lines { warned.lines_of result ≡ answer }
    ensures warnings { IfOk result (λ done. done.warnings ≡ warnings) }
{
    match answer {
        Ok(lines) => Ok(Translated { lines, warnings }),
        Err(why) => Err(why),
    }
}

// Puts what these rows are translated to, and answers their warnings; they may be those of a file with this path and these bytes.
fn put_warned<O: Output>(
    alloc: Global,
    output: &mut O,
    path: &str,
    bytes: &[u8],
    rows: &[HoursRow],
) -> Result<Translated, Untranslated>
    requires writable { O.failure_count output.old < u64.MAX }
    requires few { length rows.now ≤ most_rows }
    requires within { All IsWithin rows.now }
    ensures stands { (how : HowRead) → AreOfFile how bytes.now rows.now []
        → HasTranslated how path.now (Some bytes.now) (O.taken output.old) (O.taken output.new) (warned.lines_of result) }
    ensures warned { (how : HowRead) → AreOfFile how bytes.now rows.now [] → IsWarned how path.now (Some bytes.now) result }
    ensures cause { IfErr result IsStop }
    ensures ended { OnOk result (IsTrue (O.is_ended output.new)) }
    ensures failures { O.failure_count output.new
        ≡ failures_after_putting result (O.failure_count output.old) }
{
    let Ok(warnings) = warnings_of(alloc, path, bytes, rows) else {
        return Err(Untranslated::NoMemory { written: 0 });
    };
    with_warnings(put_sound(alloc, output, bytes, rows), warnings)
}

// Puts what the file with this path and these bytes is translated to, if it is not at fault.
fn put_file<O: Output>(
    alloc: Global,
    output: &mut O,
    path: &str,
    bytes: &[u8],
    reading: HoursReading<'_>,
) -> Result<Translated, Untranslated>
    requires writable { O.failure_count output.old < u64.MAX }
    ensures stands { HasTranslated (how_read reading.entry) path.now (Some bytes.now) (O.taken output.old)
        (O.taken output.new) (warned.lines_of result) }
    ensures warned { IsWarned (how_read reading.entry) path.now (Some bytes.now) result }
    ensures cause { IfErr result IsStop }
    ensures ended { OnOk result (IsTrue (O.is_ended output.new)) }
    ensures failures { O.failure_count output.new
        ≡ failures_after_putting result (O.failure_count output.old) }
{
    let Ok(found) = read_file(alloc, bytes, reading) else {
        return Err(Untranslated::NoMemory { written: 0 });
    };
    if !found.faults.is_empty() {
        return Err(refusal(alloc, path, bytes, found.faults.as_slice()));
    }
    put_warned(alloc, output, path, bytes, found.sound.as_slice())
}

/// Puts the record file of version 2 that a file of hours stands for, which an input brings and whose texts are read in this
/// manner, with what is known of holidays, and with what is given for times: its rows in their order, each with the canonical
/// text of a domain that contains exactly the seconds at which its hours are open, and with none if it has no hours. Answers the
/// number of lines, the header included, and the warnings of the rows: where a text of hours is written loosely; which comments
/// stand on open rules without a word that says so; which fallback rules are unknown; in which years its holidays are known, or
/// else which of its rules hide hours; and that no rule opens.
///
/// Errors, in their order: `ReadFault`, `Endless` or `NoMemory` while the input is read; `Faults` if the file is at fault,
/// with the list of all its faults for this path; then `WriteFault` or `NoMemory`, whichever happens first. Nothing is put
/// until the whole file has been read and no row is at fault. Before the call, the failures of both devices must be below
/// `u64::MAX`.
pub fn run_hours_records<I: Input, O: Output>(
    alloc: Global,
    input: &mut I,
    output: &mut O,
    path: &str,
    reading: HoursReading<'_>,
) -> Result<Translated, Untranslated>
    requires readable { I.failure_count input.old < u64.MAX }
    requires writable { O.failure_count output.old < u64.MAX }
    // What each answer means. The number of lines: of a file of hours, the output took the record file that its rows are
    // translated to. `Faults`: the text lists all faults of the bytes, and nothing was put. `WriteFault`, or `NoMemory`
    // after the whole file was read: the output took a first part of the lines of the first rows.
    ensures stands { HasTranslated (how_read reading.entry) path.now (I.to_come input.old) (O.taken output.old)
        (O.taken output.new) (warned.lines_of result) }
    // The warnings of a file of hours are those of the texts of its rows, and of those that never close, each with the line on
    // which the row begins.
    ensures warned { IsWarned (how_read reading.entry) path.now (I.to_come input.old) result }
    // An output that took the whole text was then ended, last of all.
    ensures ended { OnOk result (IsTrue (O.is_ended output.new)) }
    ensures endless { IsErrOf result Untranslated.Endless → IsTrue (I.may_fall_silent input.old) }
    ensures read_faults { I.failure_count input.new
        ≡ failures_after_reading result (I.failure_count input.old) }
    ensures write_faults { O.failure_count output.new
        ≡ failures_after_putting result (O.failure_count output.old) }
{
    match read_whole(alloc, input, MOST_FILE_BYTES) {
        Ok(bytes) => put_file(alloc, output, path, bytes.as_slice(), reading),
        Err(InputFault::TooLarge) => Err(refusal(alloc, path, &[], &[HoursFileFault::TooLarge])),
        Err(InputFault::ReadFault) => Err(Untranslated::ReadFault),
        Err(InputFault::Endless) => Err(Untranslated::Endless),
        Err(InputFault::NoMemory) => Err(Untranslated::NoMemory { written: 0 }),
    }
}
