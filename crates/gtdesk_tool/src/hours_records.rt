//! The command `records`: the record file of a file of opening hours.

ghost use Rattle.std.specs.Prelude.{◌≡◌, ◌<◌};
ghost use Rattle.gtd_hours_options.specs.Readings.{how_read};
ghost use Rattle.gtd_hours_file.specs.Warnings.{lines_of};
ghost use Rattle.gtdesk_tool.specs.Running.{IsToldOf, RanRecords, failures_after_read, failures_after_write, records_outcome};
ghost use Rattle.gtdesk_tool.specs.Telling.{Told, ToldIfSome, telling};

use crate::ending::Ending;
use crate::refusal::RunRefusal;
use gtd_devices::{Input, Output};
use gtd_hours_file::{Translated, Untranslated, run_hours_records};
use gtd_hours_options::HoursReading;
use gtd_records::RecordFault;
use gtd_report::{Progress, put_line};
use std::alloc::Global;

/// The path of a file of hours, and how its texts are read.
#[derive(Clone, Copy)]
pub(crate) struct RecordsTurn<'a> {
    /// The path.
    pub(crate) path: &'a str,
    /// How its texts are read.
    pub(crate) reading: HoursReading<'a>,
}

// The answer of `records`, from that of its run.
fn records_outcome(answer: &Result<Translated, Untranslated>) -> Result<Ending, RunRefusal>
    ensures value { result ≡ records_outcome (lines_of answer.now) }
{
    match answer {
        Ok(_) => Ok(Ending::Done),
        Err(Untranslated::Faults(_)) => Ok(Ending::FaultsListed),
        Err(Untranslated::ReadFault) => Err(RunRefusal::Records(RecordFault::ReadFault)),
        Err(Untranslated::Endless) => Err(RunRefusal::Records(RecordFault::Endless)),
        Err(Untranslated::WriteFault { .. }) => Err(RunRefusal::Write),
        Err(Untranslated::NoMemory { .. }) => Err(RunRefusal::Memory),
    }
}

/// Puts lines. If that fails, a first part of them stands, and nobody is told.
pub(crate) fn tell<E: Output>(errors: &mut E, lines: &[u8])
    requires tellable { E.failure_count errors.old < u64.MAX }
    ensures told { Told
        (telling (E.taken errors.old) (E.taken errors.new) (E.failure_count errors.old) (E.failure_count errors.new)) lines.now }
{
    let mut progress = Progress::new();
    let _ = put_line(errors, &mut progress, lines);
}

/// Puts lines, if there are any.
pub(crate) fn tell_if_some<E: Output>(errors: &mut E, lines: &[u8])
    requires tellable { E.failure_count errors.old < u64.MAX }
    ensures told { ToldIfSome
        (telling (E.taken errors.old) (E.taken errors.new) (E.failure_count errors.old) (E.failure_count errors.new)) lines.now }
{
    match lines.split_first() {
        Some(_) => tell(errors, lines),
        None => {}
    }
}

// Tells what the answer of a run says besides its record file: warnings of rows, or the list of the file's faults.
fn tell_answer<E: Output>(errors: &mut E, answer: &Result<Translated, Untranslated>)
    requires tellable { E.failure_count errors.old < u64.MAX }
    ensures told { IsToldOf
        (telling (E.taken errors.old) (E.taken errors.new) (E.failure_count errors.old) (E.failure_count errors.new)) answer.now }
{
    match answer {
        Ok(done) => tell_if_some(errors, done.warnings.as_slice()),
        Err(Untranslated::Faults(list)) => tell(errors, list.as_bytes()),
        Err(Untranslated::ReadFault) => {}
        Err(Untranslated::Endless) => {}
        Err(Untranslated::WriteFault { .. }) => {}
        Err(Untranslated::NoMemory { .. }) => {}
    }
}

/// Prints the record file of the file of hours that the input brings, whose texts are read so, and warnings of its rows on the
/// output for errors; or lists all its faults there.
pub(crate) fn print_records<I: Input, O: Output, E: Output>(
    alloc: Global,
    input: &mut I,
    output: &mut O,
    errors: &mut E,
    turn: RecordsTurn<'_>,
) -> Result<Ending, RunRefusal>
    requires readable { I.failure_count input.old < u64.MAX }
    requires writable { O.failure_count output.old < u64.MAX }
    requires tellable { E.failure_count errors.old < u64.MAX }
    ensures ran { RanRecords (how_read turn.entry.reading) turn.entry.path.now (I.to_come input.old) (O.taken output.old)
        (O.taken output.new) (I.may_fall_silent input.old) (O.is_ended output.new)
        (telling (E.taken errors.old) (E.taken errors.new) (E.failure_count errors.old) (E.failure_count errors.new)) result }
    ensures read_faults { I.failure_count input.new
        ≡ failures_after_read result (I.failure_count input.old) }
    ensures write_faults { O.failure_count output.new
        ≡ failures_after_write result (O.failure_count output.old) }
{
    let answer = run_hours_records(alloc, input, output, turn.path, turn.reading);
    tell_answer(errors, &answer);
    records_outcome(&answer)
}
