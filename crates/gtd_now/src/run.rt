//! The state of the road elements of the record file that an input brings, put to an output.

ghost use Rattle.std.specs.Prelude.{◌≡◌, ◌<◌, ◌≤◌, ◌↔◌, ℕ, ⊤, Some, IfOk, IsErrOf, IsTrue, OnOk, length};
ghost use Rattle.std.proofs.Props.{props};
ghost use Rattle.gtd_core.specs.Seconds.{IsHorizonSecond};
ghost use Rattle.gtd_report.specs.Run.{AcceptedFilesArePut, HasRun, RefusedFilesPutNothing, failures_after_read};
ghost use Rattle.gtd_report.specs.Run.{failures_after_write, IsVehicleType};
ghost use Rattle.gtd_now.specs.Now as spec;
ghost use Rattle.gtd_now.specs.Now.{AreEntries, AreInOrder, AreToldLines, IsNow, IsNowOf};
ghost use Rattle.gtd_now.specs.Query.{query_of};
ghost use Rattle.gtd_now.specs.Run.{TellsVehicle, entries_of};
ghost use Rattle.gtd_states.specs.Known.{AreRight};

use crate::asked::{Asked, Form};
use crate::now::{View, in_order, is_shown, put_state};
use crate::shown::Shown;
use gtd_core::limits::MOST_FILE_BYTES;
use gtd_devices::{Input, Output, read_whole};
use gtd_lines::{lines_of, records_of};
use gtd_records::{RecordFault, Records};
use gtd_report::{
    DirectedElement, DirectionLines, ElementLines, Printer, RunFault, Stop, put_both,
    put_by_element,
};
use gtd_rows::Direction;
use gtd_states::{KnownChange, changes_of};
use gtd_warnings::is_some_row_for;
use std::alloc::{AllocError, Global};

/// Of fewer elements in a direction each change is looked for on its own.
const FEW: usize = 16;

/// Memory was refused before anything was put.
const NO_MEMORY: RunFault = RunFault::NoMemory { written: 0 };

/// The state of the elements that are asked about, in each direction. The second is on a day that a horizon may have, the
/// elements are in ascending order, and what is known of changes is right.
#[derive(Clone, Copy)]
struct State<'a> {
    view: View<'a>,
    ghost in_range: { IsHorizonSecond view.asked.second.0 },
    ghost order: { AreInOrder view.asked.elements.now view.ordered.now } by { Prim.hlevel props },
    ghost right: { AreRight view.found.now view.asked.vehicle view.asked.second.0 view.known.now } by { Prim.hlevel props },
}

impl DirectionLines for State<'_> {
    ghost are_lines = { λ state _. AreEntries state.view.lines.now state.view.found.now (query_of state.view.asked) };

    fn put_direction<O: Output>(
        &self,
        output: &mut O,
        printer: &mut Printer,
        _found: &Records,
        at: DirectedElement,
    ) -> Result<(), Stop> {
        put_state(output, printer, at, &self.view)
    }
}

impl ElementLines for State<'_> {
    ghost are_lines = { λ state _. AreEntries state.view.lines.now state.view.found.now (query_of state.view.asked) };

    fn put_element<O: Output>(
        &self,
        output: &mut O,
        printer: &mut Printer,
        found: &Records,
        element: u64,
    ) -> Result<(), Stop> {
        put_both(output, printer, found, element, self)
    }
}

// What a form begins with.
fn header_of(form: Form) -> &'static [u8]
    ensures value { result.now ≡ spec.header_of form }
    ensures short { length result.now ≤ 1000 }
{
    match form {
        Form::Lines => b"element,direction,vehicle,state,until,rows\n",
        Form::Json => b"",
        Form::Table => b"   element  direction  state   until                rows\n",
    }
}

// Whether it is from 1 to 99.
fn is_vehicle_type(vehicle: u8) -> bool
    ensures { IsTrue result ↔ IsVehicleType vehicle }
{
    vehicle >= 1 && vehicle <= 99
}

// The lines that are told of a file's rows: none, if the rows are not told.
fn told_lines(alloc: Global, bytes: &[u8], why: bool) -> Result<Vec<u64>, AllocError>
    ensures lines { IfOk result (λ lines. AreToldLines why bytes.now lines.items) }
{
    if why {
        lines_of(alloc, bytes)
    } else {
        Ok(Vec::new(alloc))
    }
}

// The answer of a run that put the state, or that stopped.
fn answer_with(answer: Result<u64, RunFault>, is_for_some: bool) -> Result<Shown, RunFault>
    ensures entries { entries_of result ≡ answer }
    ensures vehicle { IfOk result (λ shown. shown.is_for_some ≡ is_for_some) }
{
    match answer {
        Ok(entries) => Ok(Shown {
            entries,
            is_for_some,
        }),
        Err(why) => Err(why),
    }
}

// Appends an element in a direction, if its entry is put.
fn push_shown(
    shown: &mut Vec<DirectedElement>,
    found: &Records,
    at: DirectedElement,
    asked: &Asked<'_>,
    ordered: &[u64],
) -> Result<(), AllocError>
    requires in_range { IsHorizonSecond asked.now.second.0 }
    requires order { AreInOrder asked.now.elements.now ordered.now }
{
    if is_shown(found, at, asked, ordered) {
        shown.push(at)?;
    }
    Ok(())
}

// The elements whose entries are put, in ascending order and in each direction.
fn shown_of(
    alloc: Global,
    found: &Records,
    asked: &Asked<'_>,
    ordered: &[u64],
) -> Result<Vec<DirectedElement>, AllocError>
    requires in_range { IsHorizonSecond asked.now.second.0 }
    requires order { AreInOrder asked.now.elements.now ordered.now }
{
    let mut shown = Vec::new(alloc);
    for element in found.elements() {
        let positive = DirectedElement {
            element: *element,
            direction: Direction::Positive,
        };
        push_shown(&mut shown, found, positive, asked, ordered)?;
        let negative = DirectedElement {
            element: *element,
            direction: Direction::Negative,
        };
        push_shown(&mut shown, found, negative, asked, ordered)?;
    }
    Ok(shown)
}

// When elements change next whose entries are put; of few, nothing is known.
fn known_changes(
    alloc: Global,
    found: &Records,
    asked: &Asked<'_>,
    ordered: &[u64],
) -> Result<Vec<KnownChange>, AllocError>
    requires in_range { IsHorizonSecond asked.now.second.0 }
    requires order { AreInOrder asked.now.elements.now ordered.now }
    ensures right { IfOk result (λ known. AreRight found.now asked.now.vehicle asked.now.second.0 known.items) }
{
    let shown = shown_of(alloc, found, asked, ordered)?;
    if shown.len() < FEW {
        return Ok(Vec::new(alloc));
    }
    changes_of(alloc, found, shown.as_slice(), asked.vehicle, asked.second)
}

// Puts the state of the record file with these bytes.
fn put_now<O: Output>(
    alloc: Global,
    output: &mut O,
    bytes: &[u8],
    asked: &Asked<'_>,
) -> Result<Shown, RunFault>
    requires in_range { IsHorizonSecond asked.now.second.0 }
    requires writable { O.failure_count output.old < u64.MAX }
    ensures stands { HasRun
        (λ found. ⊤)
        (λ found. IsNow bytes.now found (query_of asked.now))
        (Some bytes.now) (O.taken output.old) (O.taken output.new) (entries_of result) }
    ensures vehicle_known { TellsVehicle asked.now.vehicle (Some bytes.now) result }
    ensures ended { OnOk result (IsTrue (O.is_ended output.new)) }
    ensures vehicle { IsErrOf result RunFault.VehicleRange → ⊥ }
    ensures year { IsErrOf result RunFault.YearRange → ⊥ }
    ensures element { IsErrOf result RunFault.NoElement → ⊥ }
    ensures endless { IsErrOf result (RunFault.Records RecordFault.Endless) → ⊥ }
    ensures read_faults { (count : ℕ) → count ≡ failures_after_read result count }
    ensures write_faults { O.failure_count output.new
        ≡ failures_after_write result (O.failure_count output.old) }
{
    let found = match records_of(alloc, bytes) {
        Ok(found) => found,
        Err(why) => return Err(RunFault::Records(why)),
    };
    let lines = match told_lines(alloc, bytes, asked.why) {
        Ok(lines) => lines,
        Err(_) => return Err(NO_MEMORY),
    };
    let ordered = match in_order(alloc, asked.elements) {
        Ok(ordered) => ordered,
        Err(_) => return Err(NO_MEMORY),
    };
    let known = match known_changes(alloc, &found, asked, ordered.as_slice()) {
        Ok(known) => known,
        Err(_) => return Err(NO_MEMORY),
    };
    let state = State {
        view: View {
            asked: *asked,
            ordered: ordered.as_slice(),
            lines: lines.as_slice(),
            found: &found,
            known: known.as_slice(),
        },
    };
    let is_for_some = is_some_row_for(&found, asked.vehicle);
    let mut printer = Printer::new(alloc);
    let put = put_by_element(output, &mut printer, &found, header_of(asked.form), &state);
    answer_with(printer.progress.answer(put), is_for_some)
}

// The run, with the claims that hold at its end.
fn run<I: Input, O: Output>(
    alloc: Global,
    input: &mut I,
    output: &mut O,
    asked: &Asked<'_>,
) -> Result<Shown, RunFault>
    requires in_range { IsHorizonSecond asked.now.second.0 }
    requires readable { I.failure_count input.old < u64.MAX }
    requires writable { O.failure_count output.old < u64.MAX }
    ensures stands { HasRun
        (λ found. ⊤)
        (λ found. IsNowOf (I.to_come input.old) found (query_of asked.now))
        (I.to_come input.old) (O.taken output.old) (O.taken output.new) (entries_of result) }
    ensures vehicle_known { TellsVehicle asked.now.vehicle (I.to_come input.old) result }
    ensures ended { OnOk result (IsTrue (O.is_ended output.new)) }
    ensures vehicle { IsErrOf result RunFault.VehicleRange ↔ (IsVehicleType asked.now.vehicle → ⊥) }
    ensures year { IsErrOf result RunFault.YearRange → ⊥ }
    ensures element { IsErrOf result RunFault.NoElement → ⊥ }
    ensures endless { IsErrOf result (RunFault.Records RecordFault.Endless) → IsTrue (I.may_fall_silent input.old) }
    ensures read_faults { I.failure_count input.new
        ≡ failures_after_read result (I.failure_count input.old) }
    ensures write_faults { O.failure_count output.new
        ≡ failures_after_write result (O.failure_count output.old) }
{
    if !is_vehicle_type(asked.vehicle) {
        return Err(RunFault::VehicleRange);
    }
    match read_whole(alloc, input, MOST_FILE_BYTES) {
        Ok(bytes) => put_now(alloc, output, bytes.as_slice(), asked),
        Err(why) => Err(RunFault::Records(RecordFault::from(why))),
    }
}

/// Puts the state, at a second, of the road elements of the record file that an input brings, for a vehicle type from 1
/// to 99: whether each that is asked about is open in each direction, until when, and which rows close it; in the form that is
/// asked for. An element that no record names has no entry. The second must be on a day that a horizon may have. Answers the
/// number of entries, and whether some row is for the vehicle type.
///
/// In order: `VehicleRange`; then the first fault of reading the file (`Records`); then `WriteFault` or `NoMemory`,
/// whichever happens first. Nothing is put until the whole file has been read and accepted. Before the call, the
/// failures of both devices must be below `u64::MAX`.
pub fn run_now<I: Input, O: Output>(
    alloc: Global,
    input: &mut I,
    output: &mut O,
    asked: &Asked<'_>,
) -> Result<Shown, RunFault>
    requires in_range { IsHorizonSecond asked.now.second.0 }
    requires readable { I.failure_count input.old < u64.MAX }
    requires writable { O.failure_count output.old < u64.MAX }
    // Accepted files are shown: if neither device counted a failure, and there was memory and input, the output took the
    // state of the file's elements, and the answer is the number of its entries, and one more.
    ensures accepted { IsVehicleType asked.now.vehicle
        → I.failure_count input.new ≡ I.failure_count input.old → O.failure_count output.new ≡ O.failure_count output.old
        → AcceptedFilesArePut
        (λ found. ⊤)
        (λ found. IsNowOf (I.to_come input.old) found (query_of asked.now))
        (I.to_come input.old) (O.taken output.old) (O.taken output.new) (entries_of result) }
    // Refused files print nothing: if nothing hinders it, the answer is the first fault of the file.
    ensures refused { IsVehicleType asked.now.vehicle
        → I.failure_count input.new ≡ I.failure_count input.old → O.failure_count output.new ≡ O.failure_count output.old
        → RefusedFilesPutNothing (I.to_come input.old) (O.taken output.old) (O.taken output.new) (entries_of result) }
    // What each answer means: after a failure or a refusal of memory, the first bytes of the same text.
    ensures stands { HasRun
        (λ found. ⊤)
        (λ found. IsNowOf (I.to_come input.old) found (query_of asked.now))
        (I.to_come input.old) (O.taken output.old) (O.taken output.new) (entries_of result) }
    // The answer says exactly whether some row of the file is for the vehicle type.
    ensures vehicle_known { TellsVehicle asked.now.vehicle (I.to_come input.old) result }
    // An output that took the whole text was then ended, last of all.
    ensures ended { OnOk result (IsTrue (O.is_ended output.new)) }
    ensures vehicle { IsErrOf result RunFault.VehicleRange ↔ (IsVehicleType asked.now.vehicle → ⊥) }
    ensures year { IsErrOf result RunFault.YearRange → ⊥ }
    ensures element { IsErrOf result RunFault.NoElement → ⊥ }
    ensures endless { IsErrOf result (RunFault.Records RecordFault.Endless) → IsTrue (I.may_fall_silent input.old) }
    ensures read_faults { I.failure_count input.new
        ≡ failures_after_read result (I.failure_count input.old) }
    ensures write_faults { O.failure_count output.new
        ≡ failures_after_write result (O.failure_count output.old) }
{
    run(alloc, input, output, asked)
}
