//! What the record files that two inputs bring say differently, put to an output.

ghost use Rattle.std.specs.Prelude.{◌≡◌, ◌<◌, ◌≤◌, ◌↔◌, None, Some, IsErrOf, IsTrue, List, OnOk, length};
ghost use Rattle.std.proofs.Props.{props};
ghost use Rattle.gtd_core.specs.Limits.{most_rows};
ghost use Rattle.gtd_records.specs.Closing.{Restriction};
ghost use Rattle.gtd_report.specs.Run.{IsVehicleType};
ghost use Rattle.gtd_changes.specs.Forms.{IsTextIn};
ghost use Rattle.gtd_changes.specs.Run.{HasCompared, HasComparedIn, HeadlineIn, HeadlineOf, KeepsRefused, answer_for};
ghost use Rattle.gtd_changes.specs.Run.{failures_after_new, failures_after_old, failures_after_write};

use crate::elements::elements_of_both;
use crate::fault::ChangesFault;
use crate::form::{Asked, Form};
use crate::pair::Pair;
use crate::text::{ChangeLines, header_in};
use gtd_core::Horizon;
use gtd_devices::{Input, Output};
use gtd_records::{RecordFault, Records, read_records};
use gtd_report::{Printer, Report, RunFault, Stop, Subject, put_listed, run_report};
use std::alloc::Global;

// What two files say differently: the old one is read.
#[derive(Clone, Copy)]
struct Changes<'a> {
    old: &'a Records,
    asked: Asked,
    ghost few: { length old.now ≤ most_rows },
    ghost vehicle: { IsVehicleType asked.vehicle } by { Prim.hlevel props },
}

impl Report for Changes<'_> {
    ghost subject = { λ report. record { vehicle = Some report.asked.vehicle; year = None; element = None } };

    ghost is_text = { λ report found lines.
        IsTextIn report.asked.form report.old.now found report.asked.vehicle report.asked.horizon lines };

    fn subject(&self) -> Subject {
        Subject {
            vehicle: Some(self.asked.vehicle),
            year: None,
            element: None,
        }
    }

    fn put<O: Output>(
        &self,
        output: &mut O,
        printer: &mut Printer,
        found: &Records,
    ) -> Result<(), Stop> {
        let elements = elements_of_both(printer.alloc, self.old, found)?;
        let pair = Pair::new(printer.alloc, self.old, found)?;
        let lines = ChangeLines {
            pair: &pair,
            asked: self.asked,
        };
        let header = header_in(self.asked.form);
        put_listed(output, printer, found, elements.as_slice(), header, &lines)
    }
}

// Whether it is from 1 to 99.
fn is_vehicle_type(vehicle: u8) -> bool
    ensures { IsTrue result ↔ IsVehicleType vehicle }
{
    vehicle >= 1 && vehicle <= 99
}

// The answer for that of the run over the new file.
fn answer_for(answer: Result<u64, RunFault>) -> Result<u64, ChangesFault>
    ensures value { result ≡ answer_for answer }
{
    match answer {
        Ok(lines) => Ok(lines),
        Err(why) => Err(ChangesFault::Run(why)),
    }
}

/// Puts what the record files that two inputs bring say differently, over the days that are asked about and for a vehicle type
/// from 1 to 99: a header, and for each element that either names, in ascending order and positive before negative, its lines in
/// the form that is asked for. Answers the number of lines, the header included: 1 if and only if nothing differs.
///
/// In order: `VehicleRange`; then the first fault of reading the old file (`Old`), of which the new one is not read; then that of
/// reading the new one (`Run` of `Records`); then `WriteFault` or `NoMemory`, whichever happens first. Nothing is put until both
/// files have been read and accepted. An element whose rows are the same in both, in the same order, is not evaluated. No list of
/// an element's spans is kept, but at most 4,096 spans of each period that repeats in the rows of an element and a direction.
/// Lines with rows that have more than 1,009,829,376,000 bytes for an element in a direction end in `NoMemory`. Before the call,
/// the failures of all three devices must be below `u64::MAX`.
pub fn run_changes_in<I: Input, J: Input, O: Output>(
    alloc: Global,
    old: &mut I,
    new: &mut J,
    output: &mut O,
    asked: Asked,
) -> Result<u64, ChangesFault>
    requires old_readable { I.failure_count old.old < u64.MAX }
    requires new_readable { J.failure_count new.old < u64.MAX }
    requires writable { O.failure_count output.old < u64.MAX }
    // The headline. If no device counted a failure, and there was memory and input: of two record files the output took the
    // changes, and the answer is the number of their lines; otherwise it took nothing, and the answer is the first fault of the
    // old file, or else of the new one.
    ensures headline { IsVehicleType asked.vehicle → I.failure_count old.new ≡ I.failure_count old.old
        → J.failure_count new.new ≡ J.failure_count new.old → O.failure_count output.new ≡ O.failure_count output.old
        → HeadlineIn asked.form asked.vehicle asked.horizon (I.to_come old.old) (J.to_come new.old)
        (O.taken output.old) (O.taken output.new) result }
    // What each answer means: after a failure or a refusal of memory, the first bytes of the same text.
    ensures stands { HasComparedIn asked.form asked.vehicle asked.horizon (I.to_come old.old) (J.to_come new.old)
        (O.taken output.old) (O.taken output.new) result }
    // Nothing is put for files that are refused, even if an input does not tell its bytes.
    ensures kept { KeepsRefused (O.taken output.old) (O.taken output.new) result }
    // An output that took the whole text was then ended, last of all.
    ensures ended { OnOk result (IsTrue (O.is_ended output.new)) }
    ensures vehicle { IsErrOf result (ChangesFault.Run RunFault.VehicleRange) ↔ (IsVehicleType asked.vehicle → ⊥) }
    ensures year { IsErrOf result (ChangesFault.Run RunFault.YearRange) → ⊥ }
    ensures element { IsErrOf result (ChangesFault.Run RunFault.NoElement) → ⊥ }
    ensures old_endless { IsErrOf result (ChangesFault.Old RecordFault.Endless) → IsTrue (I.may_fall_silent old.old) }
    ensures new_endless { IsErrOf result (ChangesFault.Run (RunFault.Records RecordFault.Endless))
        → IsTrue (J.may_fall_silent new.old) }
    ensures old_faults { I.failure_count old.new ≡ failures_after_old result (I.failure_count old.old) }
    ensures new_faults { J.failure_count new.new ≡ failures_after_new result (J.failure_count new.old) }
    ensures write_faults { O.failure_count output.new ≡ failures_after_write result (O.failure_count output.old) }
{
    if !is_vehicle_type(asked.vehicle) {
        return Err(ChangesFault::Run(RunFault::VehicleRange));
    }
    let records = match read_records(alloc, old) {
        Ok(records) => records,
        Err(why) => return Err(ChangesFault::Old(why)),
    };
    let report = Changes {
        old: &records,
        asked,
    };
    answer_for(run_report(alloc, new, output, &report))
}

/// Puts the intervals in which one of the record files that two inputs bring alone closes an element, over the days of the
/// horizon and for a vehicle type from 1 to 99. It answers as [`run_changes_in`] does, and the same must hold before the call.
pub fn run_changes<I: Input, J: Input, O: Output>(
    alloc: Global,
    old: &mut I,
    new: &mut J,
    output: &mut O,
    horizon: Horizon,
    vehicle: u8,
) -> Result<u64, ChangesFault>
    requires old_readable { I.failure_count old.old < u64.MAX }
    requires new_readable { J.failure_count new.old < u64.MAX }
    requires writable { O.failure_count output.old < u64.MAX }
    // The headline. If no device counted a failure, and there was memory and input: of two record files the output took the
    // changes, and the answer is the number of their lines; otherwise it took nothing, and the answer is the first fault of the
    // old file, or else of the new one.
    ensures headline { IsVehicleType vehicle → I.failure_count old.new ≡ I.failure_count old.old
        → J.failure_count new.new ≡ J.failure_count new.old → O.failure_count output.new ≡ O.failure_count output.old
        → HeadlineOf vehicle horizon (I.to_come old.old) (J.to_come new.old)
        (O.taken output.old) (O.taken output.new) result }
    // What each answer means: after a failure or a refusal of memory, the first bytes of the same text.
    ensures stands { HasCompared vehicle horizon (I.to_come old.old) (J.to_come new.old)
        (O.taken output.old) (O.taken output.new) result }
    // Nothing is put for files that are refused, even if an input does not tell its bytes.
    ensures kept { KeepsRefused (O.taken output.old) (O.taken output.new) result }
    // An output that took the whole text was then ended, last of all.
    ensures ended { OnOk result (IsTrue (O.is_ended output.new)) }
    ensures vehicle { IsErrOf result (ChangesFault.Run RunFault.VehicleRange) ↔ (IsVehicleType vehicle → ⊥) }
    ensures year { IsErrOf result (ChangesFault.Run RunFault.YearRange) → ⊥ }
    ensures element { IsErrOf result (ChangesFault.Run RunFault.NoElement) → ⊥ }
    ensures old_endless { IsErrOf result (ChangesFault.Old RecordFault.Endless) → IsTrue (I.may_fall_silent old.old) }
    ensures new_endless { IsErrOf result (ChangesFault.Run (RunFault.Records RecordFault.Endless))
        → IsTrue (J.may_fall_silent new.old) }
    ensures old_faults { I.failure_count old.new ≡ failures_after_old result (I.failure_count old.old) }
    ensures new_faults { J.failure_count new.new ≡ failures_after_new result (J.failure_count new.old) }
    ensures write_faults { O.failure_count output.new ≡ failures_after_write result (O.failure_count output.old) }
{
    let asked = Asked {
        horizon,
        vehicle,
        form: Form::Intervals,
    };
    run_changes_in(alloc, old, new, output, asked)
}
