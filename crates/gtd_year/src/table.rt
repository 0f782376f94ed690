//! The lines of days, each with a number of seconds, put one after the other.

ghost use Rattle.std.specs.Prelude.{◌≡◌, ◌<◌, ◌≤◌, ◌+ℤ◌, ◌≤ℤ◌, ℕ, pos, OnOk, get_or, length};
ghost use Rattle.gtd_core.specs.Limits.{day_seconds, first_horizon_day, horizons_end};
ghost use Rattle.gtd_calendar.specs.Calendar.{IsCalendarDay};
ghost use Rattle.gtd_report.specs.Putting.{Puts, failures_after_stop, nothing_put};
ghost use Rattle.gtd_year.specs.Counts.{count_lines};
ghost use Rattle.gtd_year.specs.YearTable.{day_line};

use gtd_calendar::write_date;
use gtd_devices::Output;
use gtd_report::{Printer, Stop, put_line};
use itoa::Buffer;
use std::alloc::AllocError;

/// The bytes of a line before its LF: a date, a space, and five places.
const WIDTH: usize = 16;

// Writes a day's line, in place of what the buffer held.
fn write_day_line(line: &mut Vec<u8>, day: i64, count: u32) -> Result<(), AllocError>
    requires day { IsCalendarDay day }
    requires few { count ≤ day_seconds }
    ensures line { OnOk result (line.new.items ≡ day_line day count) }
{
    let mut buffer = Buffer::new();
    let digits = buffer.format(count).as_bytes();
    line.clear();
    line.extend_from_slice(&write_date(day))?;
    line.extend_from_slice(b" ")?;
    line.resize(WIDTH - digits.len(), b' ')?;
    line.extend_from_slice(digits)?;
    line.extend_from_slice(b"\n")?;
    Ok(())
}

/// Puts the lines of so many days from a first one on, each with its number of seconds.
pub(crate) fn put_days<O: Output>(
    output: &mut O,
    printer: &mut Printer,
    counts: &[u32],
    first: i64,
    days: u16,
) -> Result<(), Stop>
    requires countable { O.failure_count output.old < u64.MAX }
    requires begins { printer.old.progress ≡ nothing_put }
    requires few { (k : ℕ) → k < length counts.now → get_or counts.now k 0 ≤ day_seconds }
    requires not_early { first_horizon_day ≤ℤ first }
    requires not_late { (first +ℤ pos days) ≤ℤ horizons_end }
    requires all { length counts.now ≡ days }
    ensures puts { Puts result (O.taken output.old) (O.taken output.new) printer.old.progress printer.new.progress
        (count_lines first counts.now) }
    ensures failures { O.failure_count output.new
        ≡ failures_after_stop result (O.failure_count output.old) }
{
    for place in 0..days {
        let count = counts[usize::from(place)];
        write_day_line(&mut printer.line, first + i64::from(place), count)?;
        put_line(output, &mut printer.progress, printer.line.as_slice())?;
    }
    Ok(())
}
