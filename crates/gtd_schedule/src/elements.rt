//! The lines of an element in a direction, put one after the other.

ghost use Rattle.std.specs.Prelude.{◌≡◌, ◌+◌, ◌*◌, ◌<◌, ◌≤◌, ◌^◌, length, map, OnOk};
ghost use Rattle.gtd_report.specs.Putting.{Puts, PutsText, failures_after_stop};
ghost use Rattle.gtd_report.specs.Putting.{most_direction_bytes, most_direction_lines};
ghost use Rattle.gtd_eval.specs.Cursors.{cursor_list, cursor_whole};
ghost use Rattle.gtd_schedule.specs.Lines.{AreShown, span_line};
ghost use Rattle.gtd_schedule.specs.OpenCursors.{AreOpenSeconds};
ghost use Rattle.gtd_schedule.specs.Schedule.{AreLines};

use crate::line::{FirstMoments, ShownSpan, write_first_moments, write_head, write_span};
use crate::months::Months;
use crate::put::put_bytes;
use crate::run::Schedule;
use gtd_core::Span;
use gtd_devices::Output;
use gtd_eval::{KeptCursor, SpanTaker};
use gtd_records::Records;
use gtd_report::{DirectedElement, Printer, Progress, Stop};
use std::mem::replace;

/// The lines of a schedule, and the moments over which the first of an element in a direction is written.
#[derive(Drop)]
pub(crate) struct ScheduleLines {
    pub(crate) schedule: Schedule,
    pub(crate) first: FirstMoments,
    pub(crate) months: Months,
}

/// The records of a file, and the lines of their schedule.
#[derive(Clone, Copy)]
pub(crate) struct ScheduleText<'a> {
    pub(crate) found: &'a Records,
    pub(crate) lines: &'a ScheduleLines,
}

/// The line of a span of an element in a direction, over which that of the next one is written, and what was put so far.
#[derive(Drop)]
pub(crate) struct SpanLine<'a> {
    pub(crate) months: &'a Months,
    pub(crate) at: DirectedElement,
    pub(crate) vehicle: u8,
    /// How many lines were put whole.
    pub(crate) lines: u64,
    pub(crate) line: Vec<u8>,
    /// How many bytes of the line come before its moments.
    pub(crate) head: usize,
    pub(crate) shown: ShownSpan,
    /// How many bytes were taken.
    pub(crate) written: u64,
}

impl<O: Output> SpanTaker<O> for SpanLine<'_> {
    ghost use Rattle.gtd_schedule.specs.Handed.{IsReady, PutsSpan};

    ghost is_ready = { λ output line spans. IsReady (O.failure_count output) line spans };

    ghost takes = { λ output line span. λ then after whole.
        PutsSpan (O.taken output) (O.failure_count output) line span (O.taken then) (O.failure_count then) after whole };

    #[inline(always)]
    fn take(&mut self, output: &mut O, span: Span) -> bool {
        write_span(
            &mut self.line,
            self.head,
            &mut self.shown,
            self.months,
            span,
        );
        let line = self.line.as_slice();
        match put_bytes(output, line) {
            Ok(()) => {
                self.written += line.len() as u64;
                self.lines += 1;
                true
            }
            Err(short) => {
                self.written += short.taken as u64;
                false
            }
        }
    }
}

// Puts a line for each span that a cursor hands out.
fn put_spans<O: Output>(
    output: &mut O,
    printer: &mut Printer,
    at: DirectedElement,
    lines: &ScheduleLines,
    spans: &mut KeptCursor,
) -> Result<(), Stop>
    requires countable { O.failure_count output.old < u64.MAX }
    requires shown { AreShown (cursor_list spans.old) }
    requires written { printer.old.progress.written + 80 * length (cursor_list spans.old) < 2 ^ 64 }
    requires lines { printer.old.progress.lines + length (cursor_list spans.old) < 2 ^ 64 }
    ensures puts { Puts result (O.taken output.old) (O.taken output.new) printer.old.progress printer.new.progress
        (map (span_line at.element at.direction lines.now.schedule.vehicle) (cursor_list spans.old)) }
    ensures near { OnOk result
        ((printer.new.progress.written ≤ printer.old.progress.written + 80 * length (cursor_list spans.old))
        × (printer.new.progress.lines ≤ printer.old.progress.lines + length (cursor_list spans.old))) }
    ensures whole { cursor_whole spans.new ≡ cursor_whole spans.old }
    ensures failures { O.failure_count output.new
        ≡ failures_after_stop result (O.failure_count output.old) }
{
    let vehicle = lines.schedule.vehicle;
    write_head(&mut printer.line, at.element, at.direction, vehicle)?;
    let head = printer.line.len();
    let shown = write_first_moments(&mut printer.line, &lines.first)?;
    let alloc = printer.alloc;
    let mut line = SpanLine {
        months: &lines.months,
        at,
        vehicle,
        lines: printer.progress.lines,
        line: replace(&mut printer.line, Vec::new(alloc)),
        head,
        shown,
        written: printer.progress.written,
    };
    let whole = spans.each(output, &mut line);
    let SpanLine {
        lines,
        line,
        written,
        ..
    } = line;
    printer.line = line;
    printer.progress = Progress { lines, written };
    if whole { Ok(()) } else { Err(Stop::Output) }
}

/// Puts the lines of an element in a direction. A cursor hands out the spans in which it is open.
pub(crate) fn put_direction_spans<O: Output>(
    output: &mut O,
    printer: &mut Printer,
    text: ScheduleText<'_>,
    at: DirectedElement,
    spans: &mut KeptCursor,
) -> Result<(), Stop>
    requires countable { O.failure_count output.old < u64.MAX }
    requires written { printer.old.progress.written + most_direction_bytes < 2 ^ 64 }
    requires lines { printer.old.progress.lines + most_direction_lines < 2 ^ 64 }
    requires seconds { AreOpenSeconds text.found.now text.lines.now.schedule at (cursor_list spans.old) }
    ensures puts { PutsText (AreLines text.entry.found.now text.entry.lines.now.schedule.vehicle
        text.entry.lines.now.schedule.horizon at.element at.direction)
        result (O.taken output.old) (O.taken output.new) printer.old.progress printer.new.progress }
    ensures near { OnOk result ((printer.new.progress.written ≤ printer.old.progress.written + most_direction_bytes)
        × (printer.new.progress.lines ≤ printer.old.progress.lines + most_direction_lines)) }
    ensures whole { cursor_whole spans.new ≡ cursor_whole spans.old }
    ensures failures { O.failure_count output.new
        ≡ failures_after_stop result (O.failure_count output.old) }
{
    put_spans(output, printer, at, text.lines, spans)
}
