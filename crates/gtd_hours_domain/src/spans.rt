//! The spans of a rule.

ghost use Rattle.std.specs.Prelude.{◌≡◌, ◌↔◌, ◌⊎◌, ◌+◌, ◌<◌, ◌≤◌, ◌==◌, if◌then◌else◌, nat_le, ℤ, IfOk, IsTrue};
ghost use Rattle.gtd_core.specs.Seconds.{day_of_second};
ghost use Rattle.gtd_core.specs.Trees.{leaf_count, tree_of};
ghost use Rattle.gtd_hours.specs.Cost.{days_cost, early_cost, late_cost, spans_cost};
ghost use Rattle.gtd_hours.specs.Opening.{InSpans, IsBetween, Matches};
ghost use Rattle.gtd_hours.specs.Ranges.{end_of};
ghost use Rattle.gtd_hours_domain.specs.Translation.{SomeEarly, SomeLate};
ghost use Rattle.gtd_hours_leaves.specs.Leaves.{InMaybe, IsSet, maybe_leaves};

use gtd_core::{Expr, Op};
use gtd_hours::{Kind, TimeRange};
use gtd_hours_leaves::{clock_at, each_clock, join, or_nothing, unite};
use gtd_hours_selectors::matching_days;
use std::alloc::{AllocError, Global};

// How many minutes a range of times lasts.
fn lasts(time: TimeRange) -> u32
    ensures sum { time.begin + result ≡ end_of time.begin time.last }
    ensures most { result ≤ 1440 }
{
    if time.begin < time.last {
        u32::from(time.last - time.begin)
    } else {
        u32::from(time.last) + 1440 - u32::from(time.begin)
    }
}

fn time_spans(alloc: Global, kinds: &[Kind], time: TimeRange) -> Result<Expr, AllocError>
    ensures seconds { IfOk result (IsSet (λ s. (n : ℤ) × Matches kinds.now n
        × IsBetween n time.begin (end_of time.begin time.last) s)) }
    ensures leaves { IfOk result (λ e. leaf_count (tree_of e) ≡ days_cost kinds.now + 1) }
{
    let clock = clock_at(time.begin);
    let days = matching_days(alloc, kinds, clock)?;
    join(alloc, Op::Meet, days, each_clock(clock, lasts(time)))
}

// Whether a range of times ends on the day on which it begins.
pub(crate) fn is_early(time: TimeRange) -> bool
    ensures { IsTrue result ↔ (end_of time.begin time.last ≤ 1440) }
{
    time.begin < time.last && time.last <= 1440 || time.last == 0
}

// What there is so far, and the minutes of each day from and to which a range lasts, if it ends on its day.
fn or_clock(
    alloc: Global,
    so_far: Option<Expr>,
    time: TimeRange,
) -> Result<Option<Expr>, AllocError>
    ensures seconds { IfOk result (λ more. (s : ℤ) → InMaybe more s ↔ (InMaybe so_far s
        ⊎ ((end_of time.begin time.last ≤ 1440)
        × IsBetween (day_of_second s) time.begin (end_of time.begin time.last) s))) }
    ensures leaves { IfOk result (λ more. maybe_leaves more
        ≡ maybe_leaves so_far + (if nat_le (end_of time.begin time.last) 1440 then 1 else 0)) }
{
    if !is_early(time) {
        return Ok(so_far);
    }
    let clock = each_clock(clock_at(time.begin), lasts(time));
    let expr = unite(alloc, so_far, clock)?;
    Ok(Some(expr))
}

// The minutes of each day at which one of the ranges holds that end on their day.
fn clocks(alloc: Global, times: &[TimeRange]) -> Result<Option<Expr>, AllocError>
    ensures seconds { IfOk result (λ o. (s : ℤ) → InMaybe o s ↔ SomeEarly times.now (day_of_second s) s) }
    ensures leaves { IfOk result (λ o. maybe_leaves o ≡ early_cost times.now) }
{
    let mut union = None;
    let mut rest = times;
    while let Some((time, more)) = rest.split_first() {
        union = or_clock(alloc, union, *time)?;
        rest = more;
    }
    Ok(union)
}

// The spans of the ranges that end on their day.
fn early_spans(
    alloc: Global,
    kinds: &[Kind],
    times: &[TimeRange],
) -> Result<Option<Expr>, AllocError>
    ensures seconds { IfOk result (λ o. (s : ℤ) → InMaybe o s
        ↔ (Matches kinds.now (day_of_second s) × SomeEarly times.now (day_of_second s) s)) }
    ensures leaves { IfOk result (λ o. maybe_leaves o
        ≡ (if early_cost times.now == 0 then 0 else days_cost kinds.now + early_cost times.now)) }
{
    match clocks(alloc, times)? {
        None => Ok(None),
        Some(minutes) => {
            let days = matching_days(alloc, kinds, clock_at(0))?;
            let expr = join(alloc, Op::Meet, days, minutes)?;
            Ok(Some(expr))
        }
    }
}

// What there is so far, and the spans of a range, if it ends on a later day.
fn or_late(
    alloc: Global,
    so_far: Option<Expr>,
    kinds: &[Kind],
    time: TimeRange,
) -> Result<Option<Expr>, AllocError>
    ensures seconds { IfOk result (λ more. (s : ℤ) → InMaybe more s ↔ (InMaybe so_far s
        ⊎ ((n : ℤ) × Matches kinds.now n × ((1440 < end_of time.begin time.last)
        × IsBetween n time.begin (end_of time.begin time.last) s)))) }
    ensures leaves { IfOk result (λ more. maybe_leaves more ≡ maybe_leaves so_far
        + (if nat_le (end_of time.begin time.last) 1440 then 0 else days_cost kinds.now + 1)) }
{
    if is_early(time) {
        return Ok(so_far);
    }
    let spans = time_spans(alloc, kinds, time)?;
    let expr = unite(alloc, so_far, spans)?;
    Ok(Some(expr))
}

// What there is so far, and the spans of the ranges that end on a later day.
fn or_late_spans(
    alloc: Global,
    so_far: Option<Expr>,
    kinds: &[Kind],
    times: &[TimeRange],
) -> Result<Option<Expr>, AllocError>
    ensures seconds { IfOk result (λ more. (s : ℤ) → InMaybe more s ↔ (InMaybe so_far s
        ⊎ ((n : ℤ) × Matches kinds.now n × SomeLate times.now n s))) }
    ensures leaves { IfOk result
        (λ more. maybe_leaves more ≡ maybe_leaves so_far + late_cost (days_cost kinds.now) times.now) }
{
    let mut union = so_far;
    let mut rest = times;
    while let Some((time, more)) = rest.split_first() {
        union = or_late(alloc, union, kinds, *time)?;
        rest = more;
    }
    Ok(union)
}

/// The spans of a rule with these selectors and times.
pub fn rule_spans(alloc: Global, kinds: &[Kind], times: &[TimeRange]) -> Result<Expr, AllocError>
    ensures seconds { IfOk result (IsSet (InSpans kinds.now times.now)) }
    ensures leaves { IfOk result (λ e. leaf_count (tree_of e) ≡ spans_cost (days_cost kinds.now) times.now) }
{
    if times.is_empty() {
        return matching_days(alloc, kinds, clock_at(0));
    }
    let early = early_spans(alloc, kinds, times)?;
    let spans = or_late_spans(alloc, early, kinds, times)?;
    Ok(or_nothing(spans))
}
