//! The run that translates a file of tags to a record file.

ghost use Rattle.std.specs.Prelude.{◌≡◌, ◌≤◌, ◌<◌, ℕ, [], List, Ok, Some, IfErr, IfOk, IsErrOf, IsTrue, OnOk, length};
ghost use Rattle.gtd_conditional_means.specs.Table.{IsTable};
ghost use Rattle.gtd_core.specs.Limits.{most_rows};
ghost use Rattle.gtd_conditional_file.specs.Run as spec;
ghost use Rattle.gtd_conditional_file.specs.Run.{HasConverted, lines_of};
ghost use Rattle.gtd_conditional_file.specs.Warned.{IsWarned};
ghost use Rattle.gtd_hours_options.specs.Readings.{HowRead, how_read};

use crate::converted::Converted;
use crate::lists::{means_refusal, tags_refusal};
use crate::paths::ConditionsReading;
use crate::putting::put_records;
use crate::unconverted::Unconverted;
use gtd_conditional_elements::{ConditionsFault, ElementRow, read_elements};
use gtd_conditional_means::{Means, MeansFault, Unread, read_means};
use gtd_conditional_tags::TagsFault;
use gtd_core::limits::{MOST_FILE_BYTES, MOST_ROWS};
use gtd_devices::{Input, InputFault, Output, read_whole};
use gtd_report::{Progress, Stop};
use std::alloc::Global;

// The answer of a run that put its text, or that stopped.
fn answer(put: Result<(), Stop>, progress: Progress) -> Result<u64, Unconverted>
    ensures value { result ≡ spec.answer_of put progress }
{
    match put {
        Ok(()) => Ok(progress.lines),
        Err(Stop::Output) => Err(Unconverted::WriteFault {
            written: progress.written,
        }),
        Err(Stop::Memory) => Err(Unconverted::NoMemory {
            written: progress.written,
        }),
    }
}

// Puts the record file of the rows of a file's elements, which are not too many for one.
fn put_few<O: Output>(
    alloc: Global,
    output: &mut O,
    rows: &[ElementRow],
) -> Result<u64, Unconverted>
    requires writable { O.failure_count output.old < u64.MAX }
    requires few { length rows.now ≤ most_rows }
    ensures stands { (how : HowRead) (paths : spec.TwoPaths) (means tags : List ℕ) → spec.AreRowsOf how means tags rows.now
        → HasConverted how paths (Some means) (Some tags) (O.taken output.old) (O.taken output.new) result }
    ensures cause { IfErr result spec.IsPutStop }
    ensures ended { OnOk result (IsTrue (O.is_ended output.new)) }
    ensures failures { O.failure_count output.new
        ≡ spec.failures_after_putting result (O.failure_count output.old) }
{
    let mut progress = Progress::new();
    let put = put_records(alloc, output, &mut progress, rows);
    answer(put, progress)
}

// Puts the record file of the rows of a file's elements, if they are not too many for one.
#[tactic(auto, using(crate::proofs::RunFacts::too_many))]
fn put_sound<O: Output>(
    alloc: Global,
    output: &mut O,
    rows: &[ElementRow],
) -> Result<u64, Unconverted>
    requires writable { O.failure_count output.old < u64.MAX }
    ensures stands { (how : HowRead) (paths : spec.TwoPaths) (means tags : List ℕ) → spec.AreRowsOf how means tags rows.now
        → HasConverted how paths (Some means) (Some tags) (O.taken output.old) (O.taken output.new) result }
    ensures cause { IfErr result spec.IsPutStop }
    ensures ended { OnOk result (IsTrue (O.is_ended output.new)) }
    ensures failures { O.failure_count output.new
        ≡ spec.failures_after_putting result (O.failure_count output.old) }
{
    if rows.len() > MOST_ROWS as usize {
        return Err(Unconverted::TooManyRows {
            rows: rows.len() as u64,
        });
    }
    put_few(alloc, output, rows)
}

// The answer of a run with these warnings.
fn with_warnings(
    answer: Result<u64, Unconverted>,
    warnings: Vec<u8>,
) -> Result<Converted, Unconverted>
    ensures lines { lines_of result ≡ answer }
    ensures warnings { IfOk result (λ done. done.warnings ≡ warnings) }
{
    match answer {
        Ok(lines) => Ok(Converted { lines, warnings }),
        Err(why) => Err(why),
    }
}

// Puts what the file of tags with these bytes stands for, if it is not at fault.
fn put_tags<O: Output>(
    alloc: Global,
    output: &mut O,
    bytes: &[u8],
    means: &Means,
    reading: ConditionsReading<'_>,
) -> Result<Converted, Unconverted>
    requires writable { O.failure_count output.old < u64.MAX }
    ensures stands { (table : List ℕ) → IsTable table (Ok means.now.rows.items)
        → HasConverted (how_read reading.entry.hours) (spec.paths_of reading.entry.paths) (Some table) (Some bytes.now)
        (O.taken output.old) (O.taken output.new) (lines_of result) }
    ensures warned { (table : List ℕ) → IsTable table (Ok means.now.rows.items)
        → IsWarned (how_read reading.entry.hours) (spec.paths_of reading.entry.paths) (Some table) (Some bytes.now) result }
    ensures cause { IfErr result spec.IsPutStop }
    ensures ended { OnOk result (IsTrue (O.is_ended output.new)) }
    ensures failures { O.failure_count output.new
        ≡ spec.failures_after_putting result (O.failure_count output.old) }
{
    let Ok(file) = read_elements(alloc, means, reading.hours, reading.paths.tags, bytes) else {
        return Err(Unconverted::NoMemory { written: 0 });
    };
    if !file.faults.is_empty() {
        return Err(tags_refusal(alloc, reading.paths.tags, bytes, file.faults.as_slice()));
    }
    let put = put_sound(alloc, output, file.rows.as_slice());
    with_warnings(put, file.warnings)
}

// Puts what a file of tags stands for, which an input brings, by a table of means.
fn run_tags<I: Input, O: Output>(
    alloc: Global,
    tags: &mut I,
    output: &mut O,
    means: &Means,
    reading: ConditionsReading<'_>,
) -> Result<Converted, Unconverted>
    requires readable { I.failure_count tags.old < u64.MAX }
    requires writable { O.failure_count output.old < u64.MAX }
    ensures stands { (table : List ℕ) → IsTable table (Ok means.now.rows.items)
        → HasConverted (how_read reading.entry.hours) (spec.paths_of reading.entry.paths) (Some table) (I.to_come tags.old)
        (O.taken output.old) (O.taken output.new) (lines_of result) }
    ensures warned { (table : List ℕ) → IsTable table (Ok means.now.rows.items)
        → IsWarned (how_read reading.entry.hours) (spec.paths_of reading.entry.paths) (Some table) (I.to_come tags.old) result }
    ensures cause { IfErr result spec.IsTagsStop }
    ensures ended { OnOk result (IsTrue (O.is_ended output.new)) }
    ensures endless { IsErrOf result Unconverted.TagsEndless → IsTrue (I.may_fall_silent tags.old) }
    ensures read_faults { I.failure_count tags.new
        ≡ spec.failures_after_tags result (I.failure_count tags.old) }
    ensures write_faults { O.failure_count output.new
        ≡ spec.failures_after_putting result (O.failure_count output.old) }
{
    match read_whole(alloc, tags, MOST_FILE_BYTES) {
        Ok(bytes) => put_tags(alloc, output, bytes.as_slice(), means, reading),
        Err(InputFault::TooLarge) => Err(tags_refusal(
            alloc,
            reading.paths.tags,
            &[],
            &[ConditionsFault::Row(TagsFault::TooLarge)],
        )),
        Err(InputFault::ReadFault) => Err(Unconverted::TagsReadFault),
        Err(InputFault::Endless) => Err(Unconverted::TagsEndless),
        Err(InputFault::NoMemory) => Err(Unconverted::NoMemory { written: 0 }),
    }
}

// Puts what a file of tags stands for, which an input brings, by the table of means with these bytes, if that is not at fault.
fn run_with<I: Input, O: Output>(
    alloc: Global,
    tags: &mut I,
    output: &mut O,
    bytes: &[u8],
    reading: ConditionsReading<'_>,
) -> Result<Converted, Unconverted>
    requires readable { I.failure_count tags.old < u64.MAX }
    requires writable { O.failure_count output.old < u64.MAX }
    ensures stands { HasConverted (how_read reading.entry.hours) (spec.paths_of reading.entry.paths) (Some bytes.now)
        (I.to_come tags.old) (O.taken output.old) (O.taken output.new) (lines_of result) }
    ensures warned { IsWarned (how_read reading.entry.hours) (spec.paths_of reading.entry.paths) (Some bytes.now)
        (I.to_come tags.old) result }
    ensures cause { IfErr result spec.IsTagsStop }
    ensures ended { OnOk result (IsTrue (O.is_ended output.new)) }
    ensures endless { IsErrOf result Unconverted.TagsEndless → IsTrue (I.may_fall_silent tags.old) }
    ensures read_faults { I.failure_count tags.new
        ≡ spec.failures_after_tags result (I.failure_count tags.old) }
    ensures write_faults { O.failure_count output.new
        ≡ spec.failures_after_putting result (O.failure_count output.old) }
{
    match read_means(alloc, bytes) {
        Ok(means) => run_tags(alloc, tags, output, &means, reading),
        Err(Unread::Faults(faults)) => Err(means_refusal(
            alloc,
            reading.paths.means,
            bytes,
            faults.as_slice(),
        )),
        Err(Unread::NoMemory) => Err(Unconverted::NoMemory { written: 0 }),
    }
}

/// Puts the record file of version 2 that a file of tags stands for by a table of means, which two inputs bring: the elements
/// in the order in which they first come, of each first the rows of access and then those of one-way traffic. In each direction
/// the rows of an element close it for a vehicle type at a second exactly if its tags do. Hours in values are read in the
/// manner that is given, with what is known of holidays, and with what is given for times. Answers the number of lines, the
/// header included, and the warnings of these hours: where they are written loosely; which comments stand on open rules without a
/// word that says so; which fallback rules are unknown; which of their rules hide hours; and in which years their holidays are
/// known.
///
/// Errors, in their order: `MeansReadFault`, `MeansEndless` or `NoMemory` while the table is read; `Faults` if it is at fault,
/// before the file of tags is pulled; `TagsReadFault`, `TagsEndless` or `NoMemory` while that is read; `Faults` if it or a value
/// in it is at fault; `TooManyRows` if the record file would have more than 65,536 rows; then `WriteFault` or `NoMemory`,
/// whichever happens first. `Faults` has the list of all faults, and nothing is put then, nor after `TooManyRows`. Before the
/// call, the failures of the three devices must be below `u64::MAX`.
pub fn run_conditions<I: Input, J: Input, O: Output>(
    alloc: Global,
    tags: &mut I,
    means: &mut J,
    output: &mut O,
    reading: ConditionsReading<'_>,
) -> Result<Converted, Unconverted>
    requires readable { I.failure_count tags.old < u64.MAX }
    requires means_readable { J.failure_count means.old < u64.MAX }
    requires writable { O.failure_count output.old < u64.MAX }
    // What each result means. The number of lines: the output took the record file of the rows that these two files give, at most
    // 65,536. `TooManyRows`: there are more rows, exactly as many as it gives, and the output took nothing. `Faults`: the text
    // lists all faults of the table of means or, if the table has none, of the file of tags, and the output took nothing.
    // `WriteFault`, or `NoMemory` after both files were read: there are at most 65,536 rows, and the output took a first part of
    // their lines.
    ensures stands { HasConverted (how_read reading.entry.hours) (spec.paths_of reading.entry.paths) (J.to_come means.old)
        (I.to_come tags.old) (O.taken output.old) (O.taken output.new) (lines_of result) }
    // The warnings are those of the hours in the values, down to the last byte, each with the line on which the row begins.
    ensures warned { IsWarned (how_read reading.entry.hours) (spec.paths_of reading.entry.paths) (J.to_come means.old)
        (I.to_come tags.old) result }
    // An output that took the whole text was then ended, last of all.
    ensures ended { OnOk result (IsTrue (O.is_ended output.new)) }
    ensures tags_endless { IsErrOf result Unconverted.TagsEndless → IsTrue (I.may_fall_silent tags.old) }
    ensures means_endless { IsErrOf result Unconverted.MeansEndless → IsTrue (J.may_fall_silent means.old) }
    ensures tags_faults { I.failure_count tags.new
        ≡ spec.failures_after_tags result (I.failure_count tags.old) }
    ensures means_faults { J.failure_count means.new
        ≡ spec.failures_after_means result (J.failure_count means.old) }
    ensures write_faults { O.failure_count output.new
        ≡ spec.failures_after_putting result (O.failure_count output.old) }
{
    match read_whole(alloc, means, MOST_FILE_BYTES) {
        Ok(bytes) => run_with(alloc, tags, output, bytes.as_slice(), reading),
        Err(InputFault::TooLarge) => Err(means_refusal(
            alloc,
            reading.paths.means,
            &[],
            &[MeansFault::TooLarge],
        )),
        Err(InputFault::ReadFault) => Err(Unconverted::MeansReadFault),
        Err(InputFault::Endless) => Err(Unconverted::MeansEndless),
        Err(InputFault::NoMemory) => Err(Unconverted::NoMemory { written: 0 }),
    }
}
