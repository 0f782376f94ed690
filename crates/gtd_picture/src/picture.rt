//! The picture of a year, put to an output.

ghost use Rattle.std.specs.Prelude.{◌≡◌, ◌+◌, ◌<◌, ◌≤◌, ◌^◌, ◌+ℤ◌, ◌≤ℤ◌, ◌∷◌, [], pos, List, OnOk};
ghost use Rattle.gtd_calendar.specs.Calendar.{first_day, year_length};
ghost use Rattle.gtd_core.specs.Limits.{first_horizon_day, horizons_end};
ghost use Rattle.gtd_picture.specs.Picture.{AreColumns, IsPicture, Rect, day_lines, foot_text, head_text};
ghost use Rattle.gtd_report.specs.Putting.{Puts, PutsText, failures_after_stop, nothing_put};
ghost use Rattle.gtd_report.specs.Run.{IsTableYear};
ghost use Rattle.gtd_spans.specs.Normal.{Holds};

use crate::head::{write_foot, write_head};
use crate::line::write_day;
use gtd_calendar::{length_of_year, new_year};
use gtd_devices::Output;
use gtd_report::{Printer, Stop, put_line};
use gtd_spans::{ByDay, SpanSource};

/// How many bytes the line before the days may have. More are answered like refused memory, so that all bytes can be counted.
const MOST_HEAD: usize = 1 << 63;

/// What is written in the picture of a source's seconds in a year.
#[derive(Clone, Copy)]
pub struct Caption<'a> {
    /// The title.
    pub title: &'a str,
    /// The words for the seconds of the source.
    pub inside: &'a str,
    /// The words for the other seconds.
    pub outside: &'a str,
    /// The year.
    pub year: u16,
}

// Puts the line before the days.
fn put_head<O: Output>(
    output: &mut O,
    printer: &mut Printer,
    caption: &Caption<'_>,
) -> Result<(), Stop>
    requires countable { O.failure_count output.old < u64.MAX }
    requires begins { printer.old.progress ≡ nothing_put }
    requires year { IsTableYear caption.now.year }
    ensures puts { Puts result (O.taken output.old) (O.taken output.new) printer.old.progress printer.new.progress
        (head_text caption.now.title.now caption.now.inside.now caption.now.outside.now
        (year_length (pos caption.now.year)) ∷ []) }
    ensures small { OnOk result (printer.new.progress.written ≤ 2 ^ 63) }
    ensures failures { O.failure_count output.new
        ≡ failures_after_stop result (O.failure_count output.old) }
{
    write_head(
        &mut printer.line,
        caption.title.as_bytes(),
        caption.inside.as_bytes(),
        caption.outside.as_bytes(),
        length_of_year(caption.year),
    )?;
    if printer.line.len() > MOST_HEAD {
        return Err(Stop::Memory);
    }
    put_line(output, &mut printer.progress, printer.line.as_slice())?;
    Ok(())
}

// Puts the lines of so many days from a first one on.
fn put_days<O: Output, S: SpanSource>(
    output: &mut O,
    printer: &mut Printer,
    seconds: &mut ByDay<S>,
    first: i64,
    days: u16,
) -> Result<(), Stop>
    requires countable { O.failure_count output.old < u64.MAX }
    requires small { printer.old.progress.written ≤ 2 ^ 63 }
    requires few { printer.old.progress.lines ≤ 1 }
    requires not_early { first_horizon_day ≤ℤ first }
    requires not_late { (first +ℤ pos days) ≤ℤ horizons_end }
    requires in_year { days ≤ 366 }
    ensures puts { (columns : List (List Rect)) × AreColumns (Holds seconds.old) first 0 days columns
        × Puts result (O.taken output.old) (O.taken output.new) printer.old.progress printer.new.progress
        (day_lines first 0 columns) }
    ensures failures { O.failure_count output.new
        ≡ failures_after_stop result (O.failure_count output.old) }
{
    for place in 0..days {
        write_day(&mut printer.line, seconds, first + i64::from(place), place)?;
        put_line(output, &mut printer.progress, printer.line.as_slice())?;
    }
    Ok(())
}

// Puts the lines of the days of a year.
fn put_year<O: Output, S: SpanSource>(
    output: &mut O,
    printer: &mut Printer,
    seconds: &mut ByDay<S>,
    year: u16,
) -> Result<(), Stop>
    requires countable { O.failure_count output.old < u64.MAX }
    requires small { printer.old.progress.written ≤ 2 ^ 63 }
    requires few { printer.old.progress.lines ≤ 1 }
    requires year { IsTableYear year }
    ensures puts { (columns : List (List Rect))
        × AreColumns (Holds seconds.old) (first_day (pos year)) 0 (year_length (pos year)) columns
        × Puts result (O.taken output.old) (O.taken output.new) printer.old.progress printer.new.progress
        (day_lines (first_day (pos year)) 0 columns) }
    ensures failures { O.failure_count output.new
        ≡ failures_after_stop result (O.failure_count output.old) }
{
    put_days(
        output,
        printer,
        seconds,
        new_year(year),
        length_of_year(year),
    )
}

// Puts the line after the days.
fn put_foot<O: Output>(output: &mut O, printer: &mut Printer, year: u16) -> Result<(), Stop>
    requires countable { O.failure_count output.old < u64.MAX }
    requires small { printer.old.progress.written + 5000 < 2 ^ 64 }
    requires few { printer.old.progress.lines + 1 < 2 ^ 64 }
    requires year { IsTableYear year }
    ensures puts { Puts result (O.taken output.old) (O.taken output.new) printer.old.progress printer.new.progress
        (foot_text (pos year) ∷ []) }
    ensures failures { O.failure_count output.new
        ≡ failures_after_stop result (O.failure_count output.old) }
{
    write_foot(&mut printer.line, year)?;
    put_line(output, &mut printer.progress, printer.line.as_slice())?;
    Ok(())
}

/// Puts the picture of a source's seconds in a year from 1901 to 2199, under a caption. Of a title of more than 100 bytes the
/// first 100 are shown, and the tooltip has all. The caller ends the output. Before the call, its failures must be below
/// `u64::MAX`.
pub fn put_picture<O: Output, S: SpanSource + Drop>(
    output: &mut O,
    printer: &mut Printer,
    seconds: S,
    caption: &Caption<'_>,
) -> Result<(), Stop>
    requires countable { O.failure_count output.old < u64.MAX }
    requires begins { printer.old.progress ≡ nothing_put }
    requires year { IsTableYear caption.now.year }
    ensures puts { PutsText (IsPicture (Holds (S.rest seconds)) caption.now.title.now caption.now.inside.now
        caption.now.outside.now caption.now.year) result
        (O.taken output.old) (O.taken output.new) printer.old.progress printer.new.progress }
    ensures failures { O.failure_count output.new
        ≡ failures_after_stop result (O.failure_count output.old) }
{
    let mut seconds = ByDay::new(seconds);
    put_head(output, printer, caption)?;
    put_year(output, printer, &mut seconds, caption.year)?;
    put_foot(output, printer, caption.year)
}
