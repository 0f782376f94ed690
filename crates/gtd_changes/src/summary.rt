//! The line of an element in a direction that differs: for how many seconds it is open by either file.

ghost use Rattle.std.specs.Prelude.{◌≡◌, ◌+◌, ◌<◌, ◌≤◌, ◌^◌, ◌↔◌, ◌++◌, ℕ, ℤ, pos, ◌+ℤ◌, ◌≤ℤ◌, IfOk, IsTrue, OnOk, length};
ghost use Rattle.gtd_core.specs.Seconds.{Within};
ghost use Rattle.gtd_core.specs.Whole.{whole};
ghost use Rattle.gtd_records.specs.Closing.{IsOpen};
ghost use Rattle.gtd_report.specs.Putting.{PutsText, failures_after_stop, most_direction_bytes, most_direction_lines};
ghost use Rattle.gtd_spans.specs.Counting.{IsCount};
ghost use Rattle.gtd_spans.specs.Normal.{Holds};
ghost use Rattle.gtd_changes.specs.Summary.{AreSummaryLines, Differs, HasSeconds, IsSummaryLine, summary_line};

use crate::line::write_head;
use crate::place::Place;
use gtd_core::{Horizon, Span};
use gtd_devices::Output;
use gtd_records::{Records, open_seconds};
use gtd_report::{Printer, Stop, put_line};
use gtd_rows::Direction;
use gtd_spans::SpanSource;
use itoa::Buffer;
use std::alloc::{AllocError, Global};

// Whether it was opened or closed at some second of the horizon.
fn differs(alloc: Global, place: &Place<'_>) -> Result<bool, AllocError>
    ensures differs { IfOk result (λ is. IsTrue is
        ↔ Differs place.now.old.now place.now.new.now place.now.vehicle place.now.horizon
        place.now.at.element place.now.at.direction) }
{
    let mut opened = place.opened(alloc)?;
    if opened.next().is_some() {
        return Ok(true);
    }
    let mut closed = place.closed(alloc)?;
    Ok(closed.next().is_some())
}

// How many seconds a span of a horizon has.
fn length_of(span: Span, _horizon: Horizon) -> u64
    requires begins { (whole _horizon).from ≤ℤ span.from }
    requires ends { span.until ≤ℤ (whole _horizon).until }
    ensures length { span.from +ℤ pos result ≡ span.until }
{
    (span.until().0 - span.from().0) as u64
}

// How many seconds a source hands out that has seconds of a horizon alone.
fn seconds_of<S: SpanSource>(source: &mut S, horizon: Horizon) -> u64
    requires inside { (t : ℤ) → Holds (S.rest source.old) t → Within (whole horizon) t }
    ensures counted { HasSeconds horizon (Holds (S.rest source.old)) result }
{
    let mut count = 0u64;
    while let Some(span) = source.next() {
        count += length_of(span, horizon);
    }
    count
}

// The number of seconds of the horizon in which no record closes the element.
fn open_count(
    alloc: Global,
    records: &Records,
    element: u64,
    direction: Direction,
    vehicle: u8,
    horizon: Horizon,
) -> Result<u64, AllocError>
    ensures seconds { IfOk result (HasSeconds horizon (IsOpen records.now element direction vehicle)) }
{
    let mut open = open_seconds(alloc, records, element, direction, vehicle, horizon)?;
    Ok(seconds_of(&mut open, horizon))
}

// Writes the line of an element in a direction with two numbers of seconds, in place of what the buffer held.
fn write_seconds(
    line: &mut Vec<u8>,
    element: u64,
    direction: Direction,
    vehicle: u8,
    old_seconds: u64,
    new_seconds: u64,
) -> Result<(), AllocError>
    ensures line { OnOk result (line.new.items ≡ summary_line element direction vehicle old_seconds new_seconds) }
{
    write_head(line, element, direction, vehicle)?;
    line.extend_from_slice(Buffer::new().format(old_seconds).as_bytes())?;
    line.extend_from_slice(b",")?;
    line.extend_from_slice(Buffer::new().format(new_seconds).as_bytes())?;
    line.extend_from_slice(b"\n")
}

// Writes the line of an element in a direction, in place of what the buffer held.
fn write_summary(alloc: Global, line: &mut Vec<u8>, place: &Place<'_>) -> Result<(), AllocError>
    ensures line { OnOk result (IsSummaryLine place.now.old.now place.now.new.now place.now.vehicle place.now.horizon
        place.now.at.element place.now.at.direction line.new.items) }
    ensures short { OnOk result (length line.new.items ≤ 100) }
{
    let (element, direction) = (place.at.element, place.at.direction);
    let (vehicle, horizon) = (place.vehicle, place.horizon);
    let old_seconds = open_count(alloc, place.old, element, direction, vehicle, horizon)?;
    let new_seconds = open_count(alloc, place.new, element, direction, vehicle, horizon)?;
    write_seconds(line, element, direction, vehicle, old_seconds, new_seconds)
}

/// Puts the line of an element in a direction, if it differs.
pub(crate) fn put_summary<O: Output>(
    output: &mut O,
    printer: &mut Printer,
    place: &Place<'_>,
) -> Result<(), Stop>
    requires countable { O.failure_count output.old < u64.MAX }
    requires written { printer.old.progress.written + most_direction_bytes < 2 ^ 64 }
    requires lines { printer.old.progress.lines + most_direction_lines < 2 ^ 64 }
    ensures puts { PutsText (AreSummaryLines place.now.old.now place.now.new.now place.now.vehicle place.now.horizon
        place.now.at.element place.now.at.direction) result
        (O.taken output.old) (O.taken output.new) printer.old.progress printer.new.progress }
    ensures near { OnOk result ((printer.new.progress.written ≤ printer.old.progress.written + most_direction_bytes)
        × (printer.new.progress.lines ≤ printer.old.progress.lines + most_direction_lines)) }
    ensures failures { O.failure_count output.new
        ≡ failures_after_stop result (O.failure_count output.old) }
{
    if !differs(printer.alloc, place)? {
        return Ok(());
    }
    write_summary(printer.alloc, &mut printer.line, place)?;
    put_line(output, &mut printer.progress, printer.line.as_slice())?;
    Ok(())
}
