//! The lines of all elements.

ghost use Rattle.std.specs.Prelude.{◌≡◌, ◌↔◌, ◌+◌, ◌*◌, ◌<◌, ◌≤◌, ◌^◌, ℤ, length, IsTrue, OnOk};
ghost use Rattle.gtd_core.specs.Limits.{most_rows};
ghost use Rattle.gtd_records.specs.Closing.{IsClosed};
ghost use Rattle.gtd_records.specs.declared.closed_when.ClosedWhen.TheVariants.{ByDomains};
ghost use Rattle.gtd_report.specs.Putting.{AreElementLines, AreLinesOf, PutsText, failures_after_stop};
ghost use Rattle.gtd_report.specs.Putting.{most_direction_bytes, most_direction_lines};
ghost use Rattle.gtd_schedule.specs.Asked.{IsClosedAsAsked};
ghost use Rattle.gtd_schedule.specs.OpenCursors.{AreRight, IsOf, IsStarted, wholes};
ghost use Rattle.gtd_schedule.specs.Schedule.{AreLines};

use crate::cursors::OpenCursors;
use crate::elements::{ScheduleText, put_direction_spans};
use gtd_devices::Output;
use gtd_eval::KeptCursor;
use gtd_records::{ClosedDirection, ClosedWhen, are_closed_alike};
use gtd_report::{Printer, Stop};
use gtd_rows::{DirectedElement, Direction};

/// An element in a direction, and when it is closed.
#[derive(Clone, Copy)]
struct AskedDirection {
    at: DirectedElement,
    closed: ClosedDirection,
}

/// An element in both directions.
#[derive(Clone, Copy)]
struct AskedDirections {
    positive: AskedDirection,
    negative: AskedDirection,
}

// Puts the lines of an element in a direction from the cursor in use.
fn put_from_used<O: Output>(
    output: &mut O,
    printer: &mut Printer,
    text: ScheduleText<'_>,
    cursors: &mut OpenCursors,
    at: DirectedElement,
) -> Result<(), Stop>
    requires countable { O.failure_count output.old < u64.MAX }
    requires written { printer.old.progress.written + most_direction_bytes < 2 ^ 64 }
    requires lines { printer.old.progress.lines + most_direction_lines < 2 ^ 64 }
    requires of { IsOf text.found.now text.lines.now.schedule at (wholes cursors.old) cursors.old.used }
    requires start { IsStarted cursors.old.list.items cursors.old.used }
    ensures puts { PutsText (AreLines text.entry.found.now text.entry.lines.now.schedule.vehicle
        text.entry.lines.now.schedule.horizon at.element at.direction)
        result (O.taken output.old) (O.taken output.new) printer.old.progress printer.new.progress }
    ensures near { OnOk result ((printer.new.progress.written ≤ printer.old.progress.written + most_direction_bytes)
        × (printer.new.progress.lines ≤ printer.old.progress.lines + most_direction_lines)) }
    ensures used { cursors.new.used ≡ cursors.old.used }
    ensures wholes { wholes cursors.new ≡ wholes cursors.old }
    ensures failures { O.failure_count output.new
        ≡ failures_after_stop result (O.failure_count output.old) }
{
    let known = &mut cursors.list[cursors.used];
    put_direction_spans(output, printer, text, at, &mut known.cursor)
}

// Puts the lines of an element in a direction. If rows close it, the cursor in use is then one of it.
fn put_direction<O: Output>(
    output: &mut O,
    printer: &mut Printer,
    text: ScheduleText<'_>,
    cursors: &mut OpenCursors,
    asked: AskedDirection,
) -> Result<(), Stop>
    requires countable { O.failure_count output.old < u64.MAX }
    requires written { printer.old.progress.written + most_direction_bytes < 2 ^ 64 }
    requires lines { printer.old.progress.lines + most_direction_lines < 2 ^ 64 }
    requires right { AreRight text.found.now text.lines.now.schedule (wholes cursors.old) }
    requires when { IsClosedAsAsked text.found.now text.lines.now.schedule asked }
    ensures puts { PutsText (AreLines text.entry.found.now text.entry.lines.now.schedule.vehicle
        text.entry.lines.now.schedule.horizon asked.at.element asked.at.direction)
        result (O.taken output.old) (O.taken output.new) printer.old.progress printer.new.progress }
    ensures near { OnOk result ((printer.new.progress.written ≤ printer.old.progress.written + most_direction_bytes)
        × (printer.new.progress.lines ≤ printer.old.progress.lines + most_direction_lines)) }
    ensures right { OnOk result (AreRight text.entry.found.now text.entry.lines.now.schedule (wholes cursors.new)) }
    ensures of { asked.closed.when ≡ ByDomains → OnOk result
        (IsOf text.entry.found.now text.entry.lines.now.schedule asked.at (wholes cursors.new) cursors.new.used) }
    ensures failures { O.failure_count output.new
        ≡ failures_after_stop result (O.failure_count output.old) }
{
    let at = asked.at;
    match asked.closed.when {
        ClosedWhen::Never => {
            let mut spans = KeptCursor::whole(text.lines.schedule.horizon);
            put_direction_spans(output, printer, text, at, &mut spans)
        }
        ClosedWhen::Always => Ok(()),
        ClosedWhen::ByDomains => {
            cursors.use_for(printer.alloc, text, at, asked.closed.hash)?;
            put_from_used(output, printer, text, cursors, at)
        }
    }
}

// Whether records with domains close an element in its positive direction, and its negative one at the same seconds.
fn are_alike(text: ScheduleText<'_>, asked: AskedDirections) -> bool
    ensures by_domains { IsTrue result → asked.positive.closed.when ≡ ByDomains }
    ensures alike { IsTrue result → (t : ℤ)
        → IsClosed text.entry.found.now asked.positive.at.element asked.positive.at.direction
        text.entry.lines.now.schedule.vehicle t
        ↔ IsClosed text.entry.found.now asked.negative.at.element asked.negative.at.direction
        text.entry.lines.now.schedule.vehicle t }
{
    let (positive, negative) = (asked.positive, asked.negative);
    if negative.closed.hash != positive.closed.hash {
        return false;
    }
    match positive.closed.when {
        ClosedWhen::Never | ClosedWhen::Always => false,
        ClosedWhen::ByDomains => are_closed_alike(
            text.found,
            positive.at,
            negative.at,
            text.lines.schedule.vehicle,
        ),
    }
}

// Puts the lines of an element in its negative direction, after those in its positive one. If it is closed alike in both, the
// same cursor begins again.
fn put_negative<O: Output>(
    output: &mut O,
    printer: &mut Printer,
    text: ScheduleText<'_>,
    cursors: &mut OpenCursors,
    asked: AskedDirections,
) -> Result<(), Stop>
    requires countable { O.failure_count output.old < u64.MAX }
    requires written { printer.old.progress.written + most_direction_bytes < 2 ^ 64 }
    requires lines { printer.old.progress.lines + most_direction_lines < 2 ^ 64 }
    requires right { AreRight text.found.now text.lines.now.schedule (wholes cursors.old) }
    requires of { asked.positive.closed.when ≡ ByDomains
        → IsOf text.found.now text.lines.now.schedule asked.positive.at (wholes cursors.old) cursors.old.used }
    requires when { IsClosedAsAsked text.found.now text.lines.now.schedule asked.negative }
    ensures puts { PutsText (AreLines text.entry.found.now text.entry.lines.now.schedule.vehicle
        text.entry.lines.now.schedule.horizon asked.negative.at.element asked.negative.at.direction)
        result (O.taken output.old) (O.taken output.new) printer.old.progress printer.new.progress }
    ensures near { OnOk result ((printer.new.progress.written ≤ printer.old.progress.written + most_direction_bytes)
        × (printer.new.progress.lines ≤ printer.old.progress.lines + most_direction_lines)) }
    ensures right { OnOk result (AreRight text.entry.found.now text.entry.lines.now.schedule (wholes cursors.new)) }
    ensures failures { O.failure_count output.new
        ≡ failures_after_stop result (O.failure_count output.old) }
{
    if are_alike(text, asked) {
        cursors.begin_again();
        return put_from_used(output, printer, text, cursors, asked.negative.at);
    }
    put_direction(output, printer, text, cursors, asked.negative)
}

// Puts the lines of an element, positive before negative.
fn put_element<O: Output>(
    output: &mut O,
    printer: &mut Printer,
    text: ScheduleText<'_>,
    cursors: &mut OpenCursors,
    element: u64,
) -> Result<(), Stop>
    requires countable { O.failure_count output.old < u64.MAX }
    requires written { printer.old.progress.written + 2 * most_direction_bytes < 2 ^ 64 }
    requires lines { printer.old.progress.lines + 2 * most_direction_lines < 2 ^ 64 }
    requires right { AreRight text.found.now text.lines.now.schedule (wholes cursors.old) }
    ensures puts { PutsText (AreElementLines (AreLines text.entry.found.now text.entry.lines.now.schedule.vehicle
        text.entry.lines.now.schedule.horizon element)) result
        (O.taken output.old) (O.taken output.new) printer.old.progress printer.new.progress }
    ensures near { OnOk result ((printer.new.progress.written ≤ printer.old.progress.written + 2 * most_direction_bytes)
        × (printer.new.progress.lines ≤ printer.old.progress.lines + 2 * most_direction_lines)) }
    ensures right { OnOk result (AreRight text.entry.found.now text.entry.lines.now.schedule (wholes cursors.new)) }
    ensures failures { O.failure_count output.new
        ≡ failures_after_stop result (O.failure_count output.old) }
{
    let closed = text
        .found
        .closed_directions(element, text.lines.schedule.vehicle);
    let positive = AskedDirection {
        at: DirectedElement {
            element,
            direction: Direction::Positive,
        },
        closed: closed.positive,
    };
    let negative = AskedDirection {
        at: DirectedElement {
            element,
            direction: Direction::Negative,
        },
        closed: closed.negative,
    };
    let asked = AskedDirections { positive, negative };
    put_direction(output, printer, text, cursors, positive)?;
    put_negative(output, printer, text, cursors, asked)
}

/// Puts the lines of elements, in their order and positive before negative.
pub(crate) fn put_elements<O: Output>(
    output: &mut O,
    printer: &mut Printer,
    text: ScheduleText<'_>,
    cursors: &mut OpenCursors,
    elements: &[u64],
) -> Result<(), Stop>
    requires countable { O.failure_count output.old < u64.MAX }
    requires few { length elements.now ≤ most_rows }
    requires written { printer.old.progress.written ≤ 1000 }
    requires lines { printer.old.progress.lines ≤ 1 }
    requires right { AreRight text.found.now text.lines.now.schedule (wholes cursors.old) }
    ensures puts { PutsText (AreLinesOf (AreLines text.entry.found.now text.entry.lines.now.schedule.vehicle
        text.entry.lines.now.schedule.horizon) elements.now) result
        (O.taken output.old) (O.taken output.new) printer.old.progress printer.new.progress }
    ensures failures { O.failure_count output.new
        ≡ failures_after_stop result (O.failure_count output.old) }
{
    for element in elements {
        put_element(output, printer, text, cursors, *element)?;
    }
    Ok(())
}
