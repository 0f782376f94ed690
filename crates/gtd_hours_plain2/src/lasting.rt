//! Times that last longer than 24 hours, with what is given.

ghost use Rattle.std.specs.Prelude.{◌≡◌, ◌+◌, ◌<◌, ◌^◌, IfOk, length};
ghost use Rattle.gtd_hours_plain2.specs.Clocks.{clocks_of};
ghost use Rattle.gtd_hours_plain2.specs.Lasting.{first_long, is_short, last_long, long_at, long_in, long_part, open_long};

use crate::clocks::{end_after, minute_of, open_end};
use crate::given::GivenTimes;
use crate::needs::more_than;
use gtd_hours2::{RulePart, Rules, TimeOfDay, TimeTail};
use std::alloc::AllocError;

/// A part that lasts longer than 24 hours with what is given.
#[derive(Clone, Copy, Debug, PartialEq, Eq)]
pub struct LongPart {
    /// The number of parts before it, of all rules.
    pub part: usize,
    /// Whether its open end is too late: at the plus. Else it ends too late: at its end.
    pub is_open: bool,
}

// Whether a range of times lasts a day at most.
fn is_short(begin: u32, last: u32) -> bool
    requires begin { begin < 131072 }
    requires last { last < 131072 }
    ensures { result ≡ is_short begin last }
{
    end_after(begin, last) <= begin + 1440
}

fn long_at(short: bool, part: usize, is_open: bool) -> Option<LongPart>
    ensures { result ≡ long_at short part is_open }
{
    if short {
        None
    } else {
        Some(LongPart { part, is_open })
    }
}

fn last_long(
    times: &GivenTimes,
    part: usize,
    begin: u32,
    last: Option<TimeOfDay>,
) -> Option<LongPart>
    requires { begin < 131072 }
    ensures { result ≡ last_long (clocks_of times.now) part begin last }
{
    match last {
        None => None,
        Some(last) => long_at(is_short(begin, minute_of(times, last)), part, false),
    }
}

fn open_long(times: &GivenTimes, part: usize, begin: u32, tail: TimeTail) -> Option<LongPart>
    requires { begin < 131072 }
    ensures { result ≡ open_long (clocks_of times.now) part begin tail }
{
    match tail {
        TimeTail::Plain => None,
        TimeTail::Open => long_at(is_short(begin, open_end(times)), part, true),
        TimeTail::Every(_) => None,
    }
}

fn long_part(times: &GivenTimes, number: usize, part: RulePart) -> Option<LongPart>
    ensures { result ≡ long_part (clocks_of times.now) number part }
{
    match part {
        RulePart::Years { .. } => None,
        RulePart::Months { .. } => None,
        RulePart::Days { .. } => None,
        RulePart::Dated { .. } => None,
        RulePart::Weeks { .. } => None,
        RulePart::Holidays { .. } => None,
        RulePart::Weekdays { .. } => None,
        RulePart::NthWeekday { .. } => None,
        RulePart::Time { first, last, tail } => {
            let begin = minute_of(times, first);
            if let Some(long) = last_long(times, number, begin, last) {
                return Some(long);
            }
            open_long(times, number, begin, tail)
        }
    }
}

// The first of some parts that lasts too long, after so many other parts.
fn long_in(times: &GivenTimes, before: usize, parts: &[RulePart]) -> Option<LongPart>
    requires { before + length parts.now < 2 ^ 64 }
    ensures { result ≡ long_in (clocks_of times.now) before parts.now }
{
    let mut number = before;
    let mut rest = parts;
    while let Some((part, more)) = rest.split_first() {
        if let Some(long) = long_part(times, number, *part) {
            return Some(long);
        }
        number += 1;
        rest = more;
    }
    None
}

/// The first part of the rules that lasts longer than 24 hours from its beginning to its end, or whose open end does.
///
/// An error only if memory counts as refused, since parts are more than 64 bits count.
pub fn first_long(rules: &Rules, times: &GivenTimes) -> Result<Option<LongPart>, AllocError>
    ensures exact { IfOk result (λ long. long ≡ first_long (clocks_of times.now) rules.now) }
{
    let mut before = 0;
    let mut rest = rules.left();
    while let Some((rule, more)) = rest.split_first() {
        let next = more_than(before, rule.parts.len())?;
        if let Some(long) = long_in(times, before, rule.parts) {
            return Ok(Some(long));
        }
        before = next;
        rest = more;
    }
    Ok(None)
}
