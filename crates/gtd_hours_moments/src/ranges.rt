//! The ranges of times that a form stands for.

ghost use Rattle.std.specs.Prelude.{◌≡◌, ◌+◌, ◌<◌, ◌≤◌, ◌^◌, ◌++◌, ◌∷◌, [], IfOk, OnOk};
ghost use Rattle.gtd_hours_moments.specs.Minutes.{lasting};
ghost use Rattle.gtd_hours_moments.specs.Ranges.{before_midnight, open_lasting, open_ranges, point_ranges, points_in};
ghost use Rattle.gtd_hours_moments.specs.Ranges.{range_after, ranges, ranges_between, step_ranges};

use crate::clocks::Clocks;
use crate::minutes::{last_minute, lasting, minute_at};
use gtd_hours_times::TimeForm;
use std::alloc::{AllocError, Global};

/// A range of times, in minutes after 00:00 of the day on which it begins.
#[derive(Clone, Copy)]
pub struct MinuteRange {
    /// Its first minute.
    pub begin: u64,
    /// The minute at which it ends.
    pub end: u64,
}

fn push_range(found: &mut Vec<MinuteRange>, begin: u64, long: u64) -> Result<(), AllocError>
    requires { begin + long < 2 ^ 64 }
    ensures { OnOk result (found.new.items ≡ found.old.items ++ range_after begin long ∷ []) }
{
    found.push(MinuteRange {
        begin,
        end: begin + long,
    })?;
    Ok(())
}

// ---- open ends

// How long a range lasts up to an end, or up to the second moment if that is later.
fn open_lasting(begin: u32, last: Option<u32>, end: u16) -> u64
    ensures lasting { result ≡ open_lasting begin last end }
    ensures few { result < 2 ^ 33 }
{
    let long = lasting(begin, u32::from(end));
    match last {
        None => long,
        Some(last) => lasting(begin, last).max(long),
    }
}

fn push_open(
    found: &mut Vec<MinuteRange>,
    begin: u32,
    last: Option<u32>,
    open_end: Option<u16>,
) -> Result<(), AllocError>
    ensures { OnOk result (found.new.items ≡ found.old.items ++ open_ranges begin last open_end) }
{
    match open_end {
        None => Ok(()),
        Some(end) => push_range(found, u64::from(begin), open_lasting(begin, last, end)),
    }
}

// ---- points

fn push_point(
    found: &mut Vec<MinuteRange>,
    begin: u32,
    points: Option<u16>,
) -> Result<(), AllocError>
    ensures { OnOk result (found.new.items ≡ found.old.items ++ point_ranges begin points) }
{
    match points {
        None => Ok(()),
        Some(long) => push_range(found, u64::from(begin), u64::from(long)),
    }
}

// How many minutes there are from one on, up to one that is so much later, and before 24:00.
fn before_midnight(begin: u32, long: u64) -> u64
    requires { long < 2 ^ 33 }
    ensures count { result ≡ before_midnight begin long }
    ensures room { 0 < result → begin + result ≤ 1440 }
{
    let begin = u64::from(begin);
    (begin + long + 1).min(1440).saturating_sub(begin)
}

fn push_points(
    found: &mut Vec<MinuteRange>,
    begin: u32,
    long: u64,
    step: u16,
    point: u16,
) -> Result<(), AllocError>
    requires { long < 2 ^ 33 }
    ensures { OnOk result (found.new.items
        ≡ found.old.items ++ points_in (before_midnight begin long) 0 step begin point) }
{
    let mut left = before_midnight(begin, long);
    let mut minute = u64::from(begin);
    let mut wait = 0;
    while left > 0 {
        if wait == 0 {
            push_range(found, minute, u64::from(point))?;
            wait = step.saturating_sub(1);
        } else {
            wait -= 1;
        }
        minute += 1;
        left -= 1;
    }
    Ok(())
}

fn push_steps(
    found: &mut Vec<MinuteRange>,
    begin: u32,
    last: u32,
    step: u16,
    points: Option<u16>,
) -> Result<(), AllocError>
    ensures { OnOk result (found.new.items ≡ found.old.items ++ step_ranges begin last step points) }
{
    match points {
        None => Ok(()),
        Some(point) => push_points(found, begin, lasting(begin, last), step, point),
    }
}

// ---- all forms

fn push_between(
    found: &mut Vec<MinuteRange>,
    begin: u32,
    last: u32,
    step: Option<u16>,
    points: Option<u16>,
) -> Result<(), AllocError>
    ensures { OnOk result (found.new.items ≡ found.old.items ++ ranges_between begin last step points) }
{
    match step {
        None => push_range(found, u64::from(begin), lasting(begin, last)),
        Some(step) => push_steps(found, begin, last, step, points),
    }
}

fn push_ranges(
    found: &mut Vec<MinuteRange>,
    form: TimeForm,
    clocks: &Clocks,
) -> Result<(), AllocError>
    ensures { OnOk result (found.new.items ≡ found.old.items ++ ranges form clocks.now) }
{
    let begin = minute_at(clocks, form.begin);
    let last = last_minute(clocks, form.last);
    if form.is_open {
        return push_open(found, begin, last, clocks.open_end);
    }
    match last {
        None => push_point(found, begin, clocks.points),
        Some(last) => push_between(found, begin, last, form.step, clocks.points),
    }
}

/// The ranges that a form stands for.
pub fn ranges_of(
    alloc: Global,
    form: TimeForm,
    clocks: &Clocks,
) -> Result<Vec<MinuteRange>, AllocError>
    ensures { IfOk result (λ found. found.items ≡ ranges form clocks.now) }
{
    let mut found = Vec::new(alloc);
    push_ranges(&mut found, form, clocks)?;
    Ok(found)
}
