//! The record file that an input brings, put to an output as a file of version 2.

ghost use Rattle.std.specs.Prelude.{◌≡◌, ◌<◌, ◌≤◌, ⊤, None, length, map, IsErrOf, IsTrue, List, OnOk};
ghost use Rattle.gtd_core.specs.Limits.{most_rows};
ghost use Rattle.gtd_records.specs.Closing.{Restriction};
ghost use Rattle.gtd_report.specs.Putting.{Puts, failures_after_stop};
ghost use Rattle.gtd_report.specs.Run.{HasRun, failures_after_read, failures_after_write};
ghost use Rattle.gtd_migrate.specs.Migrated.{migrated, row_line};
ghost use Rattle.gtd_migrate.specs.Theorem.{MigrationClaim};

use crate::line::write_line;
use gtd_devices::{Input, Output};
use gtd_records::{Record, RecordFault, Records};
use gtd_report::{Printer, Report, RunFault, Stop, Subject, finish, put_line, run_report};
use std::alloc::Global;

// Puts the lines of records, in their order, after the header line.
fn put_rows<O: Output>(output: &mut O, printer: &mut Printer, rows: &[Record]) -> Result<(), Stop>
    requires countable { O.failure_count output.old < u64.MAX }
    requires few { length rows.now ≤ most_rows }
    requires written { printer.old.progress.written ≤ 34 }
    requires lines { printer.old.progress.lines ≤ 1 }
    ensures puts { Puts result (O.taken output.old) (O.taken output.new)
        printer.old.progress printer.new.progress (map row_line rows.now) }
    ensures failures { O.failure_count output.new
        ≡ failures_after_stop result (O.failure_count output.old) }
{
    for row in rows {
        write_line(printer.alloc, &mut printer.line, row)?;
        put_line(output, &mut printer.progress, printer.line.as_slice())?;
    }
    Ok(())
}

/// The report that puts a file of version 2.
#[derive(Clone, Copy, Debug, PartialEq, Eq)]
pub struct Migration;

impl Report for Migration {
    ghost subject = { λ report. record { vehicle = None; year = None; element = None } };

    ghost is_text = { λ report found lines. lines ≡ migrated found };

    fn subject(&self) -> Subject {
        Subject {
            vehicle: None,
            year: None,
            element: None,
        }
    }

    fn put<O: Output>(
        &self,
        output: &mut O,
        printer: &mut Printer,
        found: &Records,
    ) -> Result<(), Stop> {
        let header = b"element,direction,vehicles,domain\n";
        put_line(output, &mut printer.progress, header)?;
        put_rows(output, printer, found.rows())?;
        finish(output)
    }
}

/// Puts the record file that an input brings as a file of version 2: its rows in their order, with their repeats, each
/// in its canonical form. Answers the number of lines, the header included.
///
/// The first fault of reading the file comes first (`Records`); then `WriteFault` or `NoMemory`, whichever happens first.
/// Nothing is put until the whole file has been read and accepted. Before the call, the failures of both devices must be
/// below `u64::MAX`.
pub fn run_migrate<I: Input, O: Output>(
    alloc: Global,
    input: &mut I,
    output: &mut O,
) -> Result<u64, RunFault>
    requires readable { I.failure_count input.old < u64.MAX }
    requires writable { O.failure_count output.old < u64.MAX }
    // If neither device counted a failure, and there was memory and input: of a restriction file the output took the migrated
    // file, and the answer is the number of its lines; of any other file it took nothing, and the answer is the file's first
    // fault.
    ensures claim { I.failure_count input.new ≡ I.failure_count input.old
        → O.failure_count output.new ≡ O.failure_count output.old
        → MigrationClaim (I.to_come input.old) (O.taken output.old) (O.taken output.new) result }
    // What each answer means: after a failure or a refusal of memory, the first bytes of the migrated file.
    ensures stands { HasRun (λ found. ⊤) (λ found lines. lines ≡ migrated found)
        (I.to_come input.old) (O.taken output.old) (O.taken output.new) result }
    // An output that took the whole text was then ended, last of all.
    ensures ended { OnOk result (IsTrue (O.is_ended output.new)) }
    ensures vehicle { IsErrOf result RunFault.VehicleRange → ⊥ }
    ensures year { IsErrOf result RunFault.YearRange → ⊥ }
    ensures element { IsErrOf result RunFault.NoElement → ⊥ }
    ensures endless { IsErrOf result (RunFault.Records RecordFault.Endless) → IsTrue (I.may_fall_silent input.old) }
    ensures read_faults { I.failure_count input.new
        ≡ failures_after_read result (I.failure_count input.old) }
    ensures write_faults { O.failure_count output.new
        ≡ failures_after_write result (O.failure_count output.old) }
{
    run_report(alloc, input, output, &Migration)
}
