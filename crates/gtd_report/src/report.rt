//! A text made from the records of a file, and the one run that puts it.

ghost use Rattle.std.specs.Prelude.{◌≡◌, ◌<◌, ◌≤◌, ◌↔◌, ℕ, List, length, IfOk, IsErrOf, IsTrue, OnOk};
ghost use Rattle.gtd_core.specs.Limits.{most_rows};
ghost use Rattle.gtd_records.specs.Closing.{Restriction};
ghost use Rattle.gtd_report.specs.declared.subject.Subject.{Subject};
ghost use Rattle.gtd_report.specs.Putting.{PutsText, failures_after_stop, nothing_put};
ghost use Rattle.gtd_report.specs.Run.{AcceptedFilesArePut, HasRun, IsLineCount};
ghost use Rattle.gtd_report.specs.Run.{RefusedFilesPutNothing, UnacceptedFilesPutNothing};
ghost use Rattle.gtd_report.specs.Run.{failures_after_read, failures_after_write, IsAccepted, IsVehicleInRange, IsYearInRange};

use crate::fault::RunFault;
use crate::output::{Printer, Stop};
use crate::subject::{Subject, is_accepted, is_vehicle_in_range, is_year_in_range};
use gtd_devices::{Input, Output};
use gtd_records::{RecordFault, Records, read_records};
use std::alloc::Global;

/// A text made from the records of a file.
pub trait Report {
    /// What the report is asked about.
    ghost subject: { Self → Subject };

    /// Which lines are its text.
    ghost is_text: { Self → List Restriction → List (List ℕ) → Type 0 };

    /// What the report is asked about.
    fn subject(&self) -> Subject
        ensures value { result ≡ subject self.now };

    /// Puts the text line by line, from its first line on, and ends the output. Before the call, the output's failures
    /// must be below `u64::MAX`.
    fn put<O: Output>(
        &self,
        output: &mut O,
        printer: &mut Printer,
        found: &Records,
    ) -> Result<(), Stop>
        requires countable { O.failure_count output.old < u64.MAX }
        requires begins { printer.old.progress ≡ nothing_put }
        requires few { length found.now ≤ most_rows }
        requires vehicle { IsVehicleInRange (subject self.now) }
        requires year { IsYearInRange (subject self.now) }
        ensures puts { PutsText (is_text self.now found.now) result
            (O.taken output.old) (O.taken output.new) printer.old.progress printer.new.progress }
        ensures ended { OnOk result (IsTrue (O.is_ended output.new)) }
        ensures failures { O.failure_count output.new
            ≡ failures_after_stop result (O.failure_count output.old) };
}

// The run, with the claims that hold at its end.
fn run<I: Input, O: Output, R: Report>(
    alloc: Global,
    input: &mut I,
    output: &mut O,
    report: &R,
) -> Result<u64, RunFault>
    requires readable { I.failure_count input.old < u64.MAX }
    requires writable { O.failure_count output.old < u64.MAX }
    ensures stands { HasRun (IsAccepted (R.subject report.now)) (R.is_text report.now)
        (I.to_come input.old) (O.taken output.old) (O.taken output.new) result }
    ensures lines { IfOk result (IsLineCount (R.is_text report.now)) }
    ensures ended { OnOk result (IsTrue (O.is_ended output.new)) }
    ensures vehicle { IsErrOf result RunFault.VehicleRange ↔ (IsVehicleInRange (R.subject report.now) → ⊥) }
    ensures year { IsErrOf result RunFault.YearRange
        ↔ (IsVehicleInRange (R.subject report.now) × (IsYearInRange (R.subject report.now) → ⊥)) }
    ensures element { IsErrOf result RunFault.NoElement
        → (found : List Restriction) × (IsAccepted (R.subject report.now) found → ⊥) }
    ensures endless { IsErrOf result (RunFault.Records RecordFault.Endless) → IsTrue (I.may_fall_silent input.old) }
    ensures read_faults { I.failure_count input.new
        ≡ failures_after_read result (I.failure_count input.old) }
    ensures write_faults { O.failure_count output.new
        ≡ failures_after_write result (O.failure_count output.old) }
{
    let subject = report.subject();
    if !is_vehicle_in_range(subject) {
        return Err(RunFault::VehicleRange);
    }
    if !is_year_in_range(subject) {
        return Err(RunFault::YearRange);
    }
    let found = match read_records(alloc, input) {
        Ok(found) => found,
        Err(fault) => return Err(RunFault::Records(fault)),
    };
    if !is_accepted(subject, &found) {
        return Err(RunFault::NoElement);
    }
    let mut printer = Printer::new(alloc);
    let put = report.put(output, &mut printer, &found);
    printer.progress.answer(put)
}

/// Puts a report of the record file that an input brings. Answers the number of its lines.
///
/// In order: `VehicleRange` if the vehicle type that it is asked about is not from 1 to 99; `YearRange` if the year is
/// not from 1901 to 2199; the first fault of reading the file (`Records`); `NoElement` if no record names the element;
/// then `WriteFault` or `NoMemory`, whichever happens first. Nothing is put until the whole file has been read and
/// accepted. Before the call, the failures of both devices must be below `u64::MAX`.
pub fn run_report<I: Input, O: Output, R: Report>(
    alloc: Global,
    input: &mut I,
    output: &mut O,
    report: &R,
) -> Result<u64, RunFault>
    requires readable { I.failure_count input.old < u64.MAX }
    requires writable { O.failure_count output.old < u64.MAX }
    // Accepted files are put: if no device failed, and there was memory and input, the output took the text of the file,
    // and the answer is the number of its lines.
    ensures accepted { IsVehicleInRange (R.subject report.now) → IsYearInRange (R.subject report.now)
        → I.failure_count input.new ≡ I.failure_count input.old → O.failure_count output.new ≡ O.failure_count output.old
        → AcceptedFilesArePut (IsAccepted (R.subject report.now)) (R.is_text report.now)
        (I.to_come input.old) (O.taken output.old) (O.taken output.new) result }
    // Refused files put nothing: if nothing hinders it, the answer is the first fault of the file.
    ensures refused { IsVehicleInRange (R.subject report.now) → IsYearInRange (R.subject report.now)
        → I.failure_count input.new ≡ I.failure_count input.old → O.failure_count output.new ≡ O.failure_count output.old
        → RefusedFilesPutNothing (I.to_come input.old) (O.taken output.old) (O.taken output.new) result }
    // Files that do not name the element put nothing: if nothing hinders it, the answer says so.
    ensures unnamed { IsVehicleInRange (R.subject report.now) → IsYearInRange (R.subject report.now)
        → I.failure_count input.new ≡ I.failure_count input.old → O.failure_count output.new ≡ O.failure_count output.old
        → UnacceptedFilesPutNothing (IsAccepted (R.subject report.now))
        (I.to_come input.old) (O.taken output.old) (O.taken output.new) result }
    // What each answer means: after a failure or a refusal of memory, the first bytes of the same text.
    ensures stands { HasRun (IsAccepted (R.subject report.now)) (R.is_text report.now)
        (I.to_come input.old) (O.taken output.old) (O.taken output.new) result }
    // The answer is the number of lines of a text, even if the input does not tell its bytes.
    ensures lines { IfOk result (IsLineCount (R.is_text report.now)) }
    // An output that took the whole text was then ended, last of all.
    ensures ended { OnOk result (IsTrue (O.is_ended output.new)) }
    ensures vehicle { IsErrOf result RunFault.VehicleRange ↔ (IsVehicleInRange (R.subject report.now) → ⊥) }
    ensures year { IsErrOf result RunFault.YearRange
        ↔ (IsVehicleInRange (R.subject report.now) × (IsYearInRange (R.subject report.now) → ⊥)) }
    ensures element { IsErrOf result RunFault.NoElement
        → (found : List Restriction) × (IsAccepted (R.subject report.now) found → ⊥) }
    ensures endless { IsErrOf result (RunFault.Records RecordFault.Endless) → IsTrue (I.may_fall_silent input.old) }
    ensures read_faults { I.failure_count input.new
        ≡ failures_after_read result (I.failure_count input.old) }
    ensures write_faults { O.failure_count output.new
        ≡ failures_after_write result (O.failure_count output.old) }
{
    run(alloc, input, output, report)
}
