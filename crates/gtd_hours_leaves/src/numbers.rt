//! The days of years and of weeks.

ghost use Rattle.std.specs.Prelude.{◌≡◌, ◌↔◌, ◌⊎◌, ◌+◌, ◌-◌, ◌*◌, ◌<◌, ◌≤◌, ◌/◌, ◌%◌, min, ℕ, ℤ, IfOk};
ghost use Rattle.gtd_core.specs.Trees.{leaf_count, tree_of};
ghost use Rattle.gtd_eval.specs.Membership.{InTree};
ghost use Rattle.gtd_hours.specs.Cost.{steps_cost, weeks_cost, years_cost};
ghost use Rattle.gtd_hours_leaves.specs.Leaves.{AreDays, HasNumber, HasNumberWithin, HoldsAt, InMaybe, IsRun};
ghost use Rattle.gtd_hours_leaves.specs.Leaves.{maybe_leaves, minutes_of, moved_day};
ghost use Rattle.gtd_hours.specs.declared.hours.Selector.TheVariants as selector;

use crate::clock::Clock;
use crate::leaves::{NO_DURATION, NO_PARTS, leaf, or_nothing, unite};
use crate::level::Level;
use gtd_core::{DurationParts, Expr, StartParts};
use gtd_hours::{Weeks, Years};
use std::alloc::{AllocError, Global};

/// The most years that a stretch can hold.
pub const MOST_YEARS: u16 = 100;

/// The bit of Monday among weekdays.
const MONDAY: u8 = 2;

/// The days of the years from one to another, at most a hundred.
pub fn year_run(first: u16, last: u16, clock: Clock) -> Expr
    requires run { IsRun Level.Year first last }
    ensures days { AreDays (minutes_of clock) (HasNumberWithin Level.Year first last) result }
    ensures leaves { leaf_count (tree_of result) ≡ 1 }
{
    leaf(
        StartParts {
            year: Some(first),
            month: Some(1),
            day: Some(1),
            ..NO_PARTS
        },
        DurationParts {
            years: u32::from(last + 1 - first),
            ..NO_DURATION
        },
        clock,
    )
}

fn week_run(first: u16, last: u16, clock: Clock) -> Expr
    requires { IsRun Level.Week first last }
    ensures days { AreDays (minutes_of clock) (HasNumberWithin Level.Week first last) result }
    ensures leaves { leaf_count (tree_of result) ≡ 1 }
{
    leaf(
        StartParts {
            week: Some(first as u8),
            weekdays: MONDAY,
            ..NO_PARTS
        },
        DurationParts {
            weeks: u32::from(last + 1 - first),
            ..NO_DURATION
        },
        clock,
    )
}

// The days of the numbers from one to another, in one stretch.
fn run(level: Level, first: u16, last: u16, clock: Clock) -> Expr
    requires { IsRun level first last }
    ensures days { AreDays (minutes_of clock) (HasNumberWithin level first last) result }
    ensures leaves { leaf_count (tree_of result) ≡ 1 }
{
    match level {
        Level::Year => year_run(first, last, clock),
        Level::Week => week_run(first, last, clock),
    }
}

fn lesser(a: u16, b: u16) -> u16
    ensures { result ≡ min a b }
{
    if a < b { a } else { b }
}

// The number at which a piece begins.
fn begin_of(first: u16, last: u16, stride: u16, piece: u16) -> u16
    requires order { first ≤ last }
    requires some { 0 < stride }
    requires within { piece ≤ (last - first) / stride }
    ensures value { result ≡ first + piece * stride }
    ensures most { result ≤ last }
{
    first + piece * stride
}

// The numbers of each piece: so many from its beginning on, of every so many from the first to the last.
fn pieces(
    alloc: Global,
    level: Level,
    first: u16,
    last: u16,
    stride: u16,
    width: u16,
    clock: Clock,
) -> Result<Expr, AllocError>
    requires order { first ≤ last }
    requires small { (last ≤ 9999) × (width ≤ 9999) }
    requires some { (1 ≤ width) × (width ≤ stride) }
    requires runs { (k : ℕ) → first ≤ k → k ≤ last → IsRun level k (min (k + width - 1) last) }
    ensures days { IfOk result (AreDays (minutes_of clock) (λ n. (k : ℕ) × (first ≤ k) × (k ≤ last)
        × ((k - first) % stride < width) × HasNumber level k n)) }
    ensures leaves { IfOk result (λ e. leaf_count (tree_of e) ≡ steps_cost first last stride) }
{
    let mut so_far = None;
    for piece in 0..(last - first) / stride + 1 {
        let begin = begin_of(first, last, stride, piece);
        let days = run(level, begin, lesser(begin + width - 1, last), clock);
        let union = unite(alloc, so_far, days)?;
        so_far = Some(union);
    }
    Ok(or_nothing(so_far))
}

// What there is so far, and the days of the years from one to another: a run for each hundred of them, each put behind what there
// was before it.
fn unite_runs(
    alloc: Global,
    so_far: Option<Expr>,
    first: u16,
    last: u16,
    clock: Clock,
) -> Result<Expr, AllocError>
    requires order { first ≤ last }
    requires small { last ≤ 9999 }
    ensures days { IfOk result (λ e. (s : ℤ) → InTree (tree_of e) s
        ↔ (InMaybe so_far s ⊎ HasNumberWithin Level.Year first last (moved_day (minutes_of clock) s))) }
    ensures leaves { IfOk result (λ e. leaf_count (tree_of e) ≡ maybe_leaves so_far + steps_cost first last 100) }
{
    let mut union = so_far;
    let mut begin = first;
    while last - begin >= MOST_YEARS {
        let expr = unite(alloc, union, year_run(begin, begin + MOST_YEARS - 1, clock))?;
        union = Some(expr);
        begin += MOST_YEARS;
    }
    unite(alloc, union, year_run(begin, last, clock))
}

/// What there is so far, and the days of the years. Years without a step lie in one sum with what there is; others in a sum of
/// their own.
pub fn unite_years(
    alloc: Global,
    so_far: Option<Expr>,
    years: Years,
    clock: Clock,
) -> Result<Expr, AllocError>
    ensures days { IfOk result (λ e. (s : ℤ) → InTree (tree_of e) s
        ↔ (InMaybe so_far s ⊎ HoldsAt (selector.Years years) (moved_day (minutes_of clock) s))) }
    ensures leaves { IfOk result
        (λ e. leaf_count (tree_of e) ≡ maybe_leaves so_far + years_cost years.first years.last years.step) }
{
    if years.step == 1 {
        return unite_runs(alloc, so_far, years.first, years.last, clock);
    }
    let days = pieces(
        alloc,
        Level::Year,
        years.first,
        years.last,
        years.step,
        1,
        clock,
    )?;
    unite(alloc, so_far, days)
}

/// The days of the years.
pub fn year_days(alloc: Global, years: Years, clock: Clock) -> Result<Expr, AllocError>
    ensures days { IfOk result (AreDays (minutes_of clock) (HoldsAt (selector.Years years))) }
    ensures leaves { IfOk result (λ e. leaf_count (tree_of e) ≡ years_cost years.first years.last years.step) }
{
    unite_years(alloc, None, years, clock)
}

// The days of weeks one after another. Not each year has a week 53, so it is a stretch by itself.
fn straight_weeks(alloc: Global, first: u16, last: u16, clock: Clock) -> Result<Expr, AllocError>
    requires { (1 ≤ first) × (first ≤ last) × (last ≤ 53) }
    ensures days { IfOk result (AreDays (minutes_of clock) (HasNumberWithin Level.Week first last)) }
    ensures leaves { IfOk result (λ e. leaf_count (tree_of e) ≡ weeks_cost first last 1) }
{
    if first == 53 || last < 53 {
        return Ok(week_run(first, last, clock));
    }
    let before = week_run(first, 52, clock);
    unite(alloc, Some(before), week_run(53, 53, clock))
}

/// The days of the weeks.
pub fn week_days(alloc: Global, weeks: Weeks, clock: Clock) -> Result<Expr, AllocError>
    ensures days { IfOk result (AreDays (minutes_of clock) (HoldsAt (selector.Weeks weeks))) }
    ensures leaves { IfOk result (λ e. leaf_count (tree_of e) ≡ weeks_cost weeks.first weeks.last weeks.step) }
{
    if weeks.step == 1 {
        return straight_weeks(alloc, weeks.first, weeks.last, clock);
    }
    pieces(
        alloc,
        Level::Week,
        weeks.first,
        weeks.last,
        weeks.step,
        1,
        clock,
    )
}
