//! The command `same`: how the seconds of two time domains compare.

ghost use Rattle.std.specs.Prelude.{◌≡◌, ◌<◌, IfOk};
ghost use Rattle.gtd_calendar.specs.Calendar.{IsCalendarDay};
ghost use Rattle.gtd_core.specs.Seconds.{day_of_second};
ghost use Rattle.gtdesk_tool.specs.Comparing.{HasCompared, IsShown, PutsComparison, apart_line, comparison_ending};
ghost use Rattle.gtdesk_tool.specs.Comparing.{comparison_line, side_word, with_ending};
ghost use Rattle.gtdesk_tool.specs.Running.{failures_after_write};

use crate::ending::Ending;
use crate::performer::print_bytes;
use crate::refusal::RunRefusal;
use gtd_calendar::write_stamp;
use gtd_core::Domain;
use gtd_devices::Output;
use gtd_difference::{Apart, Comparison, Side, compare};
use gtdesk_words::Moment;
use std::alloc::{AllocError, Global};

// The word for the domain that has a second alone.
fn side_word(side: Side) -> &'static str
    ensures value { result.now ≡ side_word side }
{
    match side {
        Side::First => "first",
        Side::Second => "second",
    }
}

// The line of a second that one of the domains has alone.
fn apart_line(alloc: Global, apart: Apart) -> Result<Vec<u8>, AllocError>
    requires day { IsCalendarDay (day_of_second apart.second.0) }
    ensures exact { IfOk result (λ line. line.items ≡ apart_line apart) }
{
    let mut line = Vec::new(alloc);
    line.extend_from_slice(&write_stamp(apart.second))?;
    line.extend_from_slice(b" ")?;
    line.extend_from_slice(side_word(apart.side).as_bytes())?;
    line.extend_from_slice(b"\n")?;
    Ok(line)
}

// The line of a comparison.
fn line_of(alloc: Global, found: Comparison) -> Result<Vec<u8>, AllocError>
    requires shown { IsShown found }
    ensures exact { IfOk result (λ line. line.items ≡ comparison_line found) }
{
    match found {
        Comparison::Same => Vec::from_slice(alloc, b"same\n"),
        Comparison::SameUntil2700 => Vec::from_slice(alloc, b"same until 2700\n"),
        Comparison::Apart(apart) => apart_line(alloc, apart),
    }
}

// How the command ends.
fn ending_of(found: Comparison) -> Ending
    ensures value { result ≡ comparison_ending found }
{
    match found {
        Comparison::Same => Ending::Done,
        Comparison::SameUntil2700 => Ending::Done,
        Comparison::Apart(_) => Ending::Differ,
    }
}

// The same answer with another ending.
fn with_ending(ending: Ending, put: Result<Ending, RunRefusal>) -> Result<Ending, RunRefusal>
    ensures value { result ≡ with_ending ending put }
{
    match put {
        Ok(_) => Ok(ending),
        Err(refusal) => Err(refusal),
    }
}

// Puts the line of a comparison, and ends the output.
fn put_comparison<O: Output>(
    alloc: Global,
    output: &mut O,
    found: Comparison,
) -> Result<Ending, RunRefusal>
    requires writable { O.failure_count output.old < u64.MAX }
    requires shown { IsShown found }
    ensures put { PutsComparison found (O.taken output.old) (O.taken output.new) (O.is_ended output.new) result }
    ensures write_faults { O.failure_count output.new
        ≡ failures_after_write result (O.failure_count output.old) }
{
    match line_of(alloc, found) {
        Ok(line) => with_ending(ending_of(found), print_bytes(output, line.as_slice())),
        Err(_) => Err(RunRefusal::Memory),
    }
}

/// Puts the line that tells how the domains compare from the moment on, and ends the output.
pub(crate) fn print_comparison<O: Output>(
    alloc: Global,
    output: &mut O,
    first: &Domain,
    second: &Domain,
    from: Moment,
) -> Result<Ending, RunRefusal>
    requires writable { O.failure_count output.old < u64.MAX }
    ensures compared { HasCompared first.now second.now from.second.0 (O.taken output.old) (O.taken output.new)
        (O.is_ended output.new) result }
    ensures write_faults { O.failure_count output.new
        ≡ failures_after_write result (O.failure_count output.old) }
{
    match compare(alloc, first, second, from.second) {
        Ok(found) => put_comparison(alloc, output, found),
        Err(_) => Err(RunRefusal::Memory),
    }
}
