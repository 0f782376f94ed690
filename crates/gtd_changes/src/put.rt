//! The lines of the changes of an element in a direction, put one after the other.

ghost use Rattle.std.specs.Prelude.{◌≡◌, ◌+◌, ◌<◌, ◌≤◌, ◌^◌, [], ◌∷◌, false, length, map, OnOk};
ghost use Rattle.gtd_report.specs.Run.{IsVehicleType};
ghost use Rattle.gtd_report.specs.Putting.{Puts, PutsText, failures_after_stop};
ghost use Rattle.gtd_report.specs.Putting.{most_direction_bytes, most_direction_lines};
ghost use Rattle.gtd_eval.specs.Membership.{IsNormalOver};
ghost use Rattle.gtd_changes.specs.Changes.{WasClosed, WasOpened};
ghost use Rattle.gtd_changes.specs.Forms.{AreLinesIn, form_with};
ghost use Rattle.gtd_changes.specs.Merging.{by_from};
ghost use Rattle.gtd_changes.specs.facts.RowsFacts.{line_with};
ghost use Rattle.gtd_changes.specs.facts.ToldFacts.{AreTold};

use crate::ahead::{Ahead, next_change};
use crate::place::Place;
use gtd_devices::Output;
use gtd_report::{Printer, Progress, Stop, put_line};
use gtd_spans::SpanSource;

/// The most bytes that are put of an element in a direction: 80 for each second of the longest horizon. Lines without rows never
/// have more, so that only lines with rows are held to it.
const MOST_BYTES: u64 = 1_009_829_376_000;

// Puts a line for which there must be room.
fn put_within<O: Output>(
    output: &mut O,
    progress: &mut Progress,
    line: &[u8],
    with_rows: bool,
    room: &mut u64,
) -> Result<(), Stop>
    requires countable { O.failure_count output.old < u64.MAX }
    requires short { with_rows ≡ false → length line.now ≤ room.old }
    requires written { progress.old.written + room.old < 2 ^ 64 }
    requires lines { progress.old.lines + 1 < 2 ^ 64 }
    ensures puts { Puts result (O.taken output.old) (O.taken output.new) progress.old progress.new (line.now ∷ []) }
    ensures room { OnOk result (progress.new.written + room.new ≡ progress.old.written + room.old) }
    ensures left { OnOk result (room.new + length line.now ≡ room.old) }
    ensures lines { OnOk result (progress.new.lines ≡ progress.old.lines + 1) }
    ensures failures { O.failure_count output.new
        ≡ failures_after_stop result (O.failure_count output.old) }
{
    let long = line.len() as u64;
    if with_rows && long > *room {
        return Err(Stop::Memory);
    }
    *room -= long;
    put_line(output, progress, line)?;
    Ok(())
}

// Puts a line for each change that two sources hand out.
fn put_changed<O: Output, A: SpanSource, B: SpanSource>(
    output: &mut O,
    printer: &mut Printer,
    place: &Place<'_>,
    with_rows: bool,
    opened: &mut A,
    closed: &mut B,
) -> Result<(), Stop>
    requires countable { O.failure_count output.old < u64.MAX }
    requires vehicle { IsVehicleType place.now.vehicle }
    requires opened { AreTold (A.rest opened.old) }
    requires closed { AreTold (B.rest closed.old) }
    requires few { length (A.rest opened.old) + length (B.rest closed.old) ≤ most_direction_lines }
    requires written { printer.old.progress.written + most_direction_bytes < 2 ^ 64 }
    requires lines { printer.old.progress.lines + (length (A.rest opened.old) + length (B.rest closed.old)) < 2 ^ 64 }
    ensures puts { Puts result (O.taken output.old) (O.taken output.new) printer.old.progress printer.new.progress
        (map (line_with place.now.old.now place.now.new.now place.now.vehicle place.now.at.element place.now.at.direction
        with_rows) (by_from (A.rest opened.old) (B.rest closed.old))) }
    ensures near { OnOk result (printer.new.progress.written ≤ printer.old.progress.written + most_direction_bytes) }
    ensures failures { O.failure_count output.new
        ≡ failures_after_stop result (O.failure_count output.old) }
{
    // An element has at most 20 digits.
    let _element = place.at.element;
    let mut room = MOST_BYTES;
    let mut ahead = Ahead {
        opened: opened.next(),
        closed: closed.next(),
    };
    while let Some(change) = next_change(opened, closed, &mut ahead) {
        place.write(printer.alloc, &mut printer.line, with_rows, &change)?;
        put_within(
            output,
            &mut printer.progress,
            printer.line.as_slice(),
            with_rows,
            &mut room,
        )?;
    }
    Ok(())
}

// Puts the lines of an element in a direction. Two sources hand out the spans in which it was opened and closed.
fn put_changed_spans<O: Output, A: SpanSource, B: SpanSource>(
    output: &mut O,
    printer: &mut Printer,
    place: &Place<'_>,
    with_rows: bool,
    opened: &mut A,
    closed: &mut B,
) -> Result<(), Stop>
    requires countable { O.failure_count output.old < u64.MAX }
    requires written { printer.old.progress.written + most_direction_bytes < 2 ^ 64 }
    requires lines { printer.old.progress.lines + most_direction_lines < 2 ^ 64 }
    requires vehicle { IsVehicleType place.now.vehicle }
    requires opened { IsNormalOver
        (WasOpened place.now.old.now place.now.new.now place.now.at.element place.now.at.direction place.now.vehicle)
        place.now.horizon (A.rest opened.old) }
    requires closed { IsNormalOver
        (WasClosed place.now.old.now place.now.new.now place.now.at.element place.now.at.direction place.now.vehicle)
        place.now.horizon (B.rest closed.old) }
    ensures puts { PutsText (AreLinesIn (form_with with_rows) place.now.old.now place.now.new.now place.now.vehicle
        place.now.horizon place.now.at.element place.now.at.direction) result
        (O.taken output.old) (O.taken output.new) printer.old.progress printer.new.progress }
    ensures near { OnOk result ((printer.new.progress.written ≤ printer.old.progress.written + most_direction_bytes)
        × (printer.new.progress.lines ≤ printer.old.progress.lines + most_direction_lines)) }
    ensures failures { O.failure_count output.new
        ≡ failures_after_stop result (O.failure_count output.old) }
{
    put_changed(output, printer, place, with_rows, opened, closed)
}

/// Puts the lines of the changes of an element in a direction, with the rows that close it or without them: at most one for each
/// second of the longest horizon.
pub(crate) fn put_changes<O: Output>(
    output: &mut O,
    printer: &mut Printer,
    place: &Place<'_>,
    with_rows: bool,
) -> Result<(), Stop>
    requires countable { O.failure_count output.old < u64.MAX }
    requires written { printer.old.progress.written + most_direction_bytes < 2 ^ 64 }
    requires lines { printer.old.progress.lines + most_direction_lines < 2 ^ 64 }
    requires vehicle { IsVehicleType place.now.vehicle }
    ensures puts { PutsText (AreLinesIn (form_with with_rows) place.now.old.now place.now.new.now place.now.vehicle
        place.now.horizon place.now.at.element place.now.at.direction) result
        (O.taken output.old) (O.taken output.new) printer.old.progress printer.new.progress }
    ensures near { OnOk result ((printer.new.progress.written ≤ printer.old.progress.written + most_direction_bytes)
        × (printer.new.progress.lines ≤ printer.old.progress.lines + most_direction_lines)) }
    ensures failures { O.failure_count output.new
        ≡ failures_after_stop result (O.failure_count output.old) }
{
    let mut opened = place.opened(printer.alloc)?;
    let mut closed = place.closed(printer.alloc)?;
    put_changed_spans(output, printer, place, with_rows, &mut opened, &mut closed)
}
