//! The command `now`: the state of the elements of a record file.

ghost use Rattle.std.specs.Prelude.{◌≡◌, ◌<◌, ◌↔◌, IfOk, IsTrue, Some, string_bytes};
ghost use Rattle.gtd_core.specs.Seconds.{IsHorizonSecond};
ghost use Rattle.gtd_now.specs.Query.{query_of};
ghost use Rattle.gtd_now.specs.Run.{entries_of};
ghost use Rattle.gtd_report.specs.Run.{IsVehicleType};
ghost use Rattle.gtdesk_tool.specs.Noted as spec;
ghost use Rattle.gtdesk_tool.specs.Noted.{IsNoted};
ghost use Rattle.gtdesk_tool.specs.Running.{RanNow, failures_after_read, failures_after_write, form_of, outcome_of};
ghost use Rattle.gtdesk_tool.specs.Telling.{telling};

use crate::ending::Ending;
use crate::hours_records::tell;
use crate::performer::run_refusal;
use crate::refusal::RunRefusal;
use gtd_devices::{Input, Output};
use gtd_faults::Printable;
use gtd_now::{Asked, Form, Shown, run_now};
use gtd_report::RunFault;
use gtdesk_plans::NowView;
use std::alloc::{AllocError, Global};
use std::fmt;
use std::fmt::{Display, Formatter};

/// What is asked of the record file with a path.
#[derive(Clone, Copy)]
pub(crate) struct NowTurn<'a> {
    pub(crate) path: &'a str,
    pub(crate) asked: Asked<'a>,
}

// That no row of a file is for a vehicle type.
#[derive(Clone, Copy)]
struct VehicleNote<'a> {
    path: &'a str,
    vehicle: u8,
}

impl Display for VehicleNote<'_> {
    ghost output = { λ note. Some (spec.vehicle_note note.path.now note.vehicle) };

    fn fmt<W: fmt::Write>(&self, f: &mut Formatter<W>) -> fmt::Result {
        let path = Printable(self.path.as_bytes());
        let vehicle = self.vehicle;
        write!(
            f,
            "gtdesk: {path}: note: no row is for vehicle type {vehicle}\n"
        )
    }
}

/// The form in which the state is printed.
pub(crate) fn form_of(view: &NowView) -> Form
    ensures value { result ≡ form_of view.now }
{
    if view.json {
        Form::Json
    } else if view.table {
        Form::Table
    } else {
        Form::Lines
    }
}

// Whether it is from 1 to 99.
fn is_vehicle_type(vehicle: u8) -> bool
    ensures { IsTrue result ↔ IsVehicleType vehicle }
{
    vehicle >= 1 && vehicle <= 99
}

// The note that no row of the file is for the vehicle type.
fn note_of(alloc: Global, path: &str, vehicle: u8) -> Result<String, AllocError>
    ensures note { IfOk result (λ note. string_bytes note ≡ spec.vehicle_note path.now vehicle) }
{
    let note = VehicleNote { path, vehicle };
    format!(in alloc; "{note}")
}

// The answer of the command, from that of its run.
fn now_outcome(answer: Result<Shown, RunFault>) -> Result<Ending, RunRefusal>
    ensures value { result ≡ outcome_of (entries_of answer) }
{
    match answer {
        Ok(_) => Ok(Ending::Done),
        Err(fault) => Err(run_refusal(fault)),
    }
}

// Tells the note about a file's vehicle type if the file was shown and no row of it is for the type.
fn tell_note<E: Output>(errors: &mut E, note: &str, answer: &Result<Shown, RunFault>)
    requires tellable { E.failure_count errors.old < u64.MAX }
    ensures noted { IsNoted note.now
        (telling (E.taken errors.old) (E.taken errors.new) (E.failure_count errors.old) (E.failure_count errors.new)) answer.now }
{
    match answer {
        Ok(shown) => {
            if !shown.is_for_some {
                tell(errors, note.as_bytes());
            }
        }
        Err(_) => {}
    }
}

/// Prints the state of the record file that the input brings. If no row of it is for the vehicle type, a note on the output for
/// errors says so. If that output fails, a first part of the note stands, and the answer is the same.
pub(crate) fn print_now<I: Input, O: Output, E: Output>(
    alloc: Global,
    input: &mut I,
    output: &mut O,
    errors: &mut E,
    turn: NowTurn<'_>,
) -> Result<Ending, RunRefusal>
    requires in_range { IsHorizonSecond turn.asked.second.0 }
    requires readable { I.failure_count input.old < u64.MAX }
    requires writable { O.failure_count output.old < u64.MAX }
    requires tellable { E.failure_count errors.old < u64.MAX }
    ensures ran { RanNow (query_of turn.entry.asked) turn.entry.path.now (I.to_come input.old)
        (O.taken output.old) (O.taken output.new)
        (I.may_fall_silent input.old) (O.is_ended output.new)
        (telling (E.taken errors.old) (E.taken errors.new) (E.failure_count errors.old) (E.failure_count errors.new)) result }
    ensures read_faults { I.failure_count input.new
        ≡ failures_after_read result (I.failure_count input.old) }
    ensures write_faults { O.failure_count output.new
        ≡ failures_after_write result (O.failure_count output.old) }
{
    let vehicle = turn.asked.vehicle;
    if !is_vehicle_type(vehicle) {
        return Err(run_refusal(RunFault::VehicleRange));
    }
    // The note is made before the file is read, so that a file that was shown does not lack it for want of memory.
    let note = match note_of(alloc, turn.path, vehicle) {
        Ok(note) => note,
        Err(_) => return Err(RunRefusal::Memory),
    };
    let answer = run_now(alloc, input, output, &turn.asked);
    tell_note(errors, note.as_str(), &answer);
    now_outcome(answer)
}
