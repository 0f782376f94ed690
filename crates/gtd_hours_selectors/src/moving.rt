//! The days of places with days after or before them, and of ranges that move from year to year.

ghost use Rattle.std.specs.Prelude.{◌≡◌, ◌↔◌, ◌==◌, ◌<◌, ◌≤◌, ◌+◌, ◌+ℤ◌, ◌≤ℤ◌, ◌<ℤ◌, if◌then◌else◌, true, IfOk, pos, ℤ, ℕ};
ghost use Rattle.gtd_core.specs.Trees.{leaf_count, tree_of};
ghost use Rattle.gtd_calendar.specs.ComputedEnds.{months_later};
ghost use Rattle.gtd_hours.specs.Cost.{moved_cost, moving_cost};
ghost use Rattle.gtd_hours.specs.Moving.{end_days, is_yearly, months_between};
ghost use Rattle.gtd_hours_selectors.specs.Days.{IsFrom, start_day};
ghost use Rattle.gtd_hours_leaves.specs.Leaves.{AreDays, HoldsAt, minutes_of};
ghost use Rattle.gtd_hours.specs.declared.hours.Selector.TheVariants as selector;

use crate::places::{days_on, end_days, end_parts, months_between, on_parts};
use gtd_core::{DurationParts, Expr, Op};
use gtd_hours::{End, MovedPlace, Moving};
use gtd_hours_leaves::{Clock, NO_DURATION, NO_PARTS, each_day, each_days, join, leaf};
use std::alloc::{AllocError, Global};

/// The days of a place with days after or before it: the days up to it from the place on, without those before it.
pub fn moved_days(alloc: Global, place: MovedPlace, clock: Clock) -> Result<Expr, AllocError>
    ensures days { IfOk result (AreDays (minutes_of clock) (HoldsAt (selector.Moved place))) }
    ensures leaves { IfOk result (λ e. leaf_count (tree_of e) ≡ moved_cost place.is_before place.days) }
{
    let days = u32::from(days_on(place));
    let parts = on_parts(place);
    let all = each_days(parts, days + 1, clock);
    if days == 0 {
        return Ok(all);
    }
    join(alloc, Op::Minus, all, each_days(parts, days, clock))
}

// Some months from the day that an end is counted on from.
fn months_from(end: End, months: u8, clock: Clock) -> Expr
    requires yearly { is_yearly end ≡ true }
    requires few { months ≤ 15 }
    ensures days { AreDays (minutes_of clock) (λ n. (y : ℤ) × (start_day end y ≤ℤ n)
        × (n <ℤ months_later (start_day end y) months)) result }
    ensures leaves { leaf_count (tree_of result) ≡ 1 }
{
    leaf(
        end_parts(end),
        DurationParts {
            months: u32::from(months),
            ..NO_DURATION
        },
        clock,
    )
}

// Some days from that day on.
fn days_from(end: End, days: u8, clock: Clock) -> Expr
    requires yearly { is_yearly end ≡ true }
    ensures days { AreDays (minutes_of clock) (λ n. (y : ℤ) × (start_day end y ≤ℤ n)
        × (n <ℤ (start_day end y +ℤ pos days))) result }
    ensures leaves { leaf_count (tree_of result) ≡ 1 }
{
    each_days(end_parts(end), u32::from(days), clock)
}

// Some months from that day on, without so many first days.
fn from(alloc: Global, end: End, months: u8, days: u8, clock: Clock) -> Result<Expr, AllocError>
    requires yearly { is_yearly end ≡ true }
    requires few { months ≤ 15 }
    ensures days { IfOk result (AreDays (minutes_of clock) (IsFrom end months days)) }
    ensures leaves { IfOk result (λ e. leaf_count (tree_of e) ≡ (if days == 0 then 1 else 2)) }
{
    let all = months_from(end, months, clock);
    if days == 0 {
        return Ok(all);
    }
    join(alloc, Op::Minus, all, days_from(end, days, clock))
}

// From the first day of a range on, without what comes after its last day.
fn straight_days(alloc: Global, range: Moving, months: u8, clock: Clock) -> Result<Expr, AllocError>
    requires months { months ≡ months_between range.is_over range.first range.last }
    requires few { months ≤ 10 }
    ensures days { IfOk result (AreDays (minutes_of clock) (HoldsAt (selector.Moving range))) }
    ensures leaves { IfOk result (λ e. leaf_count (tree_of e) ≡ (if end_days range.first == 0 then 3 else 4)) }
{
    let first = from(alloc, range.first, months, end_days(range.first), clock)?;
    let after = from(alloc, range.last, 3, end_days(range.last) + 1, clock)?;
    join(alloc, Op::Minus, first, after)
}

// What comes after the last day of a range, without what is from the next first day on.
fn between(alloc: Global, range: Moving, months: u8, clock: Clock) -> Result<Expr, AllocError>
    requires months { months ≡ months_between range.is_over range.first range.last }
    requires some { (11 ≤ months) × (months ≤ 15) }
    ensures days { IfOk result (AreDays (minutes_of clock) (λ n. HoldsAt (selector.Moving range) n → ⊥)) }
    ensures leaves { IfOk result (λ e. leaf_count (tree_of e) ≡ (if end_days range.first == 0 then 3 else 4)) }
{
    let after = from(
        alloc,
        range.last,
        16 - months,
        end_days(range.last) + 1,
        clock,
    )?;
    let first = from(alloc, range.first, 3, end_days(range.first), clock)?;
    join(alloc, Op::Minus, after, first)
}

/// The days of a range that moves. If it has nine months or more, these are all days without those between two ranges.
pub fn moving_days(alloc: Global, range: Moving, clock: Clock) -> Result<Expr, AllocError>
    ensures days { IfOk result (AreDays (minutes_of clock) (HoldsAt (selector.Moving range))) }
    ensures leaves { IfOk result (λ e. leaf_count (tree_of e) ≡ moving_cost range.is_over range.first range.last) }
{
    let months = months_between(range);
    if months <= 10 {
        return straight_days(alloc, range, months, clock);
    }
    let rest = between(alloc, range, months, clock)?;
    join(alloc, Op::Minus, each_day(NO_PARTS, clock), rest)
}
