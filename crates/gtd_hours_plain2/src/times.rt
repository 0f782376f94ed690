//! The times of a rule as plain ranges of times.

ghost use Rattle.std.specs.Prelude.{◌≡◌, ◌+◌, ◌<◌, ◌≤◌, IfOk, OnOk, Some, None};
ghost use Rattle.gtd_hours2.specs.Opening.{InPoints, InTime, IsBetween, minute_of};
ghost use Rattle.gtd_hours_plain2.specs.Clocks.{clocks_of};
ghost use Rattle.gtd_hours_plain2.specs.Numbers.{given_or};
ghost use Rattle.gtd_hours_plain2.specs.Times.{AreAdded, AreOfDay, AreTimes, EndsInDay, HasTailInDay, IsOfDay, IsTimeOfDay, IsWithPart};
ghost use Rattle.gtd_hours2.specs.declared.values.TimeTail.TheVariants as tail;

use crate::clocks::{end_after, given_or, later, minute_of, open_end};
use crate::given::GivenTimes;
use gtd_hours::TimeRange;
use gtd_hours2::{RulePart, TimeOfDay, TimeTail};
use std::alloc::{AllocError, Global};

fn range(begin: u32, end: u32) -> TimeRange
    requires day { begin < 1440 }
    requires some { begin < end }
    requires most { end ≤ begin + 1440 }
    ensures begin { result.begin ≡ begin }
    ensures last { result.last ≡ end }
{
    TimeRange {
        begin: begin as u16,
        last: end as u16,
    }
}

fn push_range(out: &mut Vec<TimeRange>, begin: u32, end: u32) -> Result<(), AllocError>
    requires day { begin < 1440 }
    requires some { begin < end }
    requires most { end ≤ begin + 1440 }
    ensures { OnOk result (AreAdded (λ n s. IsBetween n begin end s) out.old.items out.new.items) }
{
    out.push(range(begin, end))?;
    Ok(())
}

// How long points last.
fn points(given: &GivenTimes) -> u32
    ensures value { result ≡ given_or 1 given.now.points }
    ensures some { 1 ≤ result }
    ensures most { result ≤ 1440 }
{
    u32::from(given_or(1, given.points))
}

// Points, so many minutes apart, up to a minute and before 24:00.
fn push_points(
    out: &mut Vec<TimeRange>,
    given: &GivenTimes,
    begin: u32,
    last: u32,
    step: u16,
) -> Result<(), AllocError>
    requires day { begin < 1440 }
    requires some { begin ≤ last }
    requires step { 1 ≤ step }
    ensures { OnOk result (AreAdded (InPoints (clocks_of given.now) begin last step) out.old.items out.new.items) }
{
    let long = points(given);
    push_range(out, begin, begin + long)?;
    let mut point = begin + u32::from(step);
    while point <= last && point < 1440 {
        push_range(out, point, point + long)?;
        point += u32::from(step);
    }
    Ok(())
}

fn push_open(out: &mut Vec<TimeRange>, given: &GivenTimes, begin: u32) -> Result<(), AllocError>
    requires day { begin < 1440 }
    requires most { HasTailInDay (clocks_of given.now) begin tail.Open }
    ensures { OnOk result (AreAdded (InTime (clocks_of given.now) begin None tail.Open) out.old.items out.new.items) }
{
    push_range(out, begin, end_after(begin, open_end(given)))
}

// A time without an end.
fn push_begun(
    out: &mut Vec<TimeRange>,
    given: &GivenTimes,
    begin: u32,
    tail: TimeTail,
) -> Result<(), AllocError>
    requires day { begin < 1440 }
    requires most { HasTailInDay (clocks_of given.now) begin tail }
    ensures { OnOk result (AreAdded (InTime (clocks_of given.now) begin None tail) out.old.items out.new.items) }
{
    match tail {
        TimeTail::Plain => push_range(out, begin, begin + points(given)),
        TimeTail::Open => push_open(out, given, begin),
        TimeTail::Every(_) => push_range(out, begin, begin + points(given)),
    }
}

// A time with an end, of which the minute is given.
fn push_ended(
    out: &mut Vec<TimeRange>,
    given: &GivenTimes,
    begin: u32,
    last: TimeOfDay,
    tail: TimeTail,
) -> Result<(), AllocError>
    requires day { begin < 1440 }
    requires ends { EndsInDay (clocks_of given.now) begin (Some last) }
    requires most { HasTailInDay (clocks_of given.now) begin tail }
    ensures { OnOk result (AreAdded (InTime (clocks_of given.now) begin (Some last) tail) out.old.items out.new.items) }
{
    let end = end_after(begin, minute_of(given, last));
    match tail {
        TimeTail::Plain => push_range(out, begin, end),
        TimeTail::Open => push_range(out, begin, later(end, end_after(begin, open_end(given)))),
        TimeTail::Every(step) => push_points(out, given, begin, end, step),
    }
}

fn push_time(
    out: &mut Vec<TimeRange>,
    given: &GivenTimes,
    first: TimeOfDay,
    last: Option<TimeOfDay>,
    tail: TimeTail,
) -> Result<(), AllocError>
    requires { IsOfDay (clocks_of given.now) first last tail }
    ensures { OnOk result (AreAdded (InTime (clocks_of given.now) (minute_of (clocks_of given.now) first) last tail)
        out.old.items out.new.items) }
{
    let begin = minute_of(given, first);
    match last {
        None => push_begun(out, given, begin, tail),
        Some(last) => push_ended(out, given, begin, last, tail),
    }
}

fn push_part(out: &mut Vec<TimeRange>, given: &GivenTimes, part: RulePart) -> Result<(), AllocError>
    requires { IsTimeOfDay (clocks_of given.now) part }
    ensures { OnOk result (IsWithPart (clocks_of given.now) part out.old.items out.new.items) }
{
    match part {
        RulePart::Time { first, last, tail } => push_time(out, given, first, last, tail),
        _ => Ok(()),
    }
}

/// The times of a rule with these parts, each of which begins before 24:00 and lasts a day at most. An error only if memory was
/// refused.
pub(crate) fn plain_times(
    alloc: Global,
    parts: &[RulePart],
    given: &GivenTimes,
) -> Result<Vec<TimeRange>, AllocError>
    requires { AreOfDay (clocks_of given.now) parts.now }
    ensures { IfOk result (λ times. AreTimes (clocks_of given.now) parts.now times.items) }
{
    let mut out = Vec::new(alloc);
    let mut rest = parts;
    while let Some((part, more)) = rest.split_first() {
        push_part(&mut out, given, *part)?;
        rest = more;
    }
    Ok(out)
}
