//! Putting the entry of an element in a direction, if it is asked about.

ghost use Rattle.std.specs.Prelude.{◌≡◌, ◌↔◌, ◌+◌, ◌<◌, ◌≤◌, ◌++◌, ◌^◌, length, IfOk, IsTrue, OnOk};
ghost use Rattle.std.specs.List.Sorted.{IsNonDecreasing};
ghost use Rattle.gtd_core.specs.Limits.{most_rows};
ghost use Rattle.gtd_core.specs.Seconds.{IsHorizonSecond};
ghost use Rattle.gtd_report.specs.Putting.{PutsText, failures_after_stop, most_direction_bytes};
ghost use Rattle.gtd_now.specs.Now as spec;
ghost use Rattle.gtd_now.specs.Now.{AreEntries, AreInOrder, IsEntry, IsShown, entry_in, told};
ghost use Rattle.gtd_now.specs.Query.{query_of};
ghost use Rattle.gtd_states.specs.Known.{AreRight};
ghost use Rattle.gtd_states.specs.States.{IsState, state_of};

use crate::asked::{Asked, Form};
use crate::entry::Entry;
use crate::line::push_line;
use crate::object::push_object;
use crate::reasons::push_reasons;
use crate::rows::FileRows;
use crate::table::push_table_row;
use gtd_devices::Output;
use gtd_records::Records;
use gtd_report::{DirectedElement, Printer, Stop, put_line};
use gtd_states::{ElementState, KnownChange, known_of, state_at, state_by};
use std::alloc::{AllocError, Global};

// No memory holds an entry of so many bytes: the bound keeps the count of all bytes within its type.
const MOST_ENTRY_BYTES: usize = 1_009_829_376_000;

/// A question and the file that answers it: the question, its elements in ascending order, the line of each row (none if rows are
/// not shown), the records, and the next changes of some elements.
#[derive(Clone, Copy)]
pub(crate) struct View<'a> {
    pub(crate) asked: Asked<'a>,
    pub(crate) ordered: &'a [u64],
    pub(crate) lines: &'a [u64],
    pub(crate) found: &'a Records,
    pub(crate) known: &'a [KnownChange],
}

/// The elements that are asked about, in ascending order: so each is found among many in few steps.
pub(crate) fn in_order(alloc: Global, wanted: &[u64]) -> Result<Vec<u64>, AllocError>
    ensures order { IfOk result (λ ordered. AreInOrder wanted.now ordered.items) }
{
    let mut ordered = Vec::new(alloc);
    ordered.extend_from_slice(wanted)?;
    ordered.sort_unstable();
    Ok(ordered)
}

// Whether an element is one of those that are asked about, which are in ascending order. If none is named, all are.
fn is_wanted(ordered: &[u64], element: u64) -> bool
    requires order { IsNonDecreasing ordered.now }
    ensures wanted { result ≡ spec.is_wanted ordered.now element }
{
    match ordered.split_first() {
        Some(_) => ordered.binary_search(&element).is_ok(),
        None => true,
    }
}

/// Whether the entry of an element in a direction is put.
pub(crate) fn is_shown(
    found: &Records,
    at: DirectedElement,
    asked: &Asked<'_>,
    ordered: &[u64],
) -> bool
    requires second { IsHorizonSecond asked.now.second.0 }
    requires order { AreInOrder asked.now.elements.now ordered.now }
    ensures { IsTrue result ↔ IsShown found.now (query_of asked.now) at.element at.direction }
{
    if !is_wanted(ordered, at.element) {
        return false;
    }
    if !asked.closed {
        return true;
    }
    found.closed_at(at.element, at.direction, asked.vehicle, asked.second)
}

// Appends the lines of the rows that close an element, if they are told.
fn push_told(
    alloc: Global,
    line: &mut Vec<u8>,
    rows: &FileRows<'_>,
    closing: &[usize],
    why: bool,
) -> Result<(), AllocError>
    ensures told { OnOk result (line.new.items
        ≡ line.old.items ++ told why rows.now.lines.now rows.now.records.now closing.now) }
{
    if why {
        push_reasons(alloc, line, rows, closing)
    } else {
        Ok(())
    }
}

// Appends an entry.
fn push_entry(
    alloc: Global,
    line: &mut Vec<u8>,
    rows: &FileRows<'_>,
    entry: &Entry<'_>,
    asked: &Asked<'_>,
) -> Result<(), AllocError>
    ensures entry { OnOk result (line.new.items ≡ line.old.items ++ entry_in asked.now.form asked.now.why rows.now.lines.now
        rows.now.records.now entry.now.at.element entry.now.at.direction entry.now.vehicle (state_of entry.now.state.now)) }
{
    let closing = entry.state.rows.as_slice();
    match asked.form {
        Form::Lines => {
            push_line(line, entry)?;
            push_told(alloc, line, rows, closing, asked.why)
        }
        Form::Json => push_object(alloc, line, rows, entry, asked.why),
        Form::Table => {
            push_table_row(line, entry)?;
            push_told(alloc, line, rows, closing, asked.why)
        }
    }
}

// Refuses an entry that is too long.
fn check_length(entry: &[u8]) -> Result<(), AllocError>
    ensures { OnOk result (length entry.now ≤ most_direction_bytes) }
{
    if entry.len() > MOST_ENTRY_BYTES {
        return Err(AllocError);
    }
    Ok(())
}

// The state of an element in a direction.
fn state_in(alloc: Global, at: DirectedElement, view: &View<'_>) -> Result<ElementState, AllocError>
    requires in_range { IsHorizonSecond view.now.asked.second.0 }
    requires right { AreRight view.now.found.now view.now.asked.vehicle view.now.asked.second.0 view.now.known.now }
    ensures state { IfOk result (λ state. IsState view.now.found.now at.element at.direction view.now.asked.vehicle
        view.now.asked.second.0 (state_of state)) }
{
    match known_of(view.known, at) {
        Some(known) => state_by(
            alloc,
            view.found,
            known,
            view.asked.vehicle,
            view.asked.second,
        ),
        None => state_at(alloc, view.found, at, view.asked.vehicle, view.asked.second),
    }
}

// Writes the entry of an element in a direction, in place of what the buffer held.
fn write_entry(
    alloc: Global,
    line: &mut Vec<u8>,
    at: DirectedElement,
    view: &View<'_>,
) -> Result<(), AllocError>
    requires in_range { IsHorizonSecond view.now.asked.second.0 }
    requires right { AreRight view.now.found.now view.now.asked.vehicle view.now.asked.second.0 view.now.known.now }
    ensures entry { OnOk result (IsEntry view.now.lines.now view.now.found.now (query_of view.now.asked)
        at.element at.direction line.new.items) }
    ensures short { OnOk result (length line.new.items ≤ most_direction_bytes) }
{
    let vehicle = view.asked.vehicle;
    let state = state_in(alloc, at, view)?;
    let entry = Entry {
        at,
        vehicle,
        state: &state,
    };
    let rows = FileRows {
        records: view.found.rows(),
        lines: view.lines,
    };
    line.clear();
    push_entry(alloc, line, &rows, &entry, &view.asked)?;
    check_length(line.as_slice())
}

/// Puts the entry of an element in a direction, if it is asked about.
pub(crate) fn put_state<O: Output>(
    output: &mut O,
    printer: &mut Printer,
    at: DirectedElement,
    view: &View<'_>,
) -> Result<(), Stop>
    requires countable { O.failure_count output.old < u64.MAX }
    requires in_range { IsHorizonSecond view.now.asked.second.0 }
    requires order { AreInOrder view.now.asked.elements.now view.now.ordered.now }
    requires right { AreRight view.now.found.now view.now.asked.vehicle view.now.asked.second.0 view.now.known.now }
    requires written { printer.old.progress.written + most_direction_bytes < 2 ^ 64 }
    requires lines { printer.old.progress.lines + 1 < 2 ^ 64 }
    ensures puts { PutsText (AreEntries view.now.lines.now view.now.found.now (query_of view.now.asked) at.element at.direction)
        result (O.taken output.old) (O.taken output.new) printer.old.progress printer.new.progress }
    ensures near { OnOk result ((printer.new.progress.written ≤ printer.old.progress.written + most_direction_bytes)
        × (printer.new.progress.lines ≤ printer.old.progress.lines + 1)) }
    ensures failures { O.failure_count output.new
        ≡ failures_after_stop result (O.failure_count output.old) }
{
    if !is_shown(view.found, at, &view.asked, view.ordered) {
        return Ok(());
    }
    write_entry(printer.alloc, &mut printer.line, at, view)?;
    put_line(output, &mut printer.progress, printer.line.as_slice())?;
    Ok(())
}
