//! Basic domains that are made here, and joins of expressions.

ghost use Rattle.std.specs.Prelude.{◌≡◌, ◌↔◌, ◌⊎◌, ◌+◌, ◌<◌, ◌≤◌, ◌*◌, ◌-ℤ◌, max, pos, ℕ, ℤ, IfOk};
ghost use Rattle.gtd_core.specs.Ranges.{IsDuration};
ghost use Rattle.gtd_core.specs.Trees.{Single, leaf_count, tree_of};
ghost use Rattle.gtd_calendar.specs.ComputedFields.{day_fields};
ghost use Rattle.gtd_recur.specs.FieldMatches.{HoldsOnDay};
ghost use Rattle.gtd_spans.specs.Normal.{Combined};
ghost use Rattle.gtd_eval.specs.Membership.{InTree};
ghost use Rattle.gtd_hours_leaves.specs.Leaves.{AreDayParts, AreDays, InMaybe, IsSet, clocked, maybe_leaves, minutes_of};
ghost use Rattle.gtd_hours_leaves.specs.Leaves.{moved_place};

use crate::clock::Clock;
use gtd_core::{Basic, Duration, DurationParts, Expr, Op, Start, StartParts};
use std::alloc::{AllocError, Global};

/// No field of a start.
pub const NO_PARTS: StartParts = StartParts {
    year: None,
    month: None,
    week: None,
    day: None,
    hour: None,
    minute: None,
    second: None,
    nth: None,
    nth_back: None,
    weekdays: 0,
};

/// No number of a duration.
pub const NO_DURATION: DurationParts = DurationParts {
    years: 0,
    months: 0,
    weeks: 0,
    days: 0,
    hours: 0,
    minutes: 0,
    seconds: 0,
};

/// The clock at a minute of the day.
pub fn clock_at(minutes: u16) -> Clock
    requires { minutes < 1440 }
    ensures { minutes_of result ≡ minutes }
{
    Clock {
        hour: (minutes / 60) as u8,
        minute: (minutes % 60) as u8,
    }
}

/// A basic domain: the fields of days with a clock, and a duration.
pub fn leaf(parts: StartParts, duration: DurationParts, clock: Clock) -> Expr
    requires parts { AreDayParts parts }
    requires duration { IsDuration duration }
    ensures { tree_of result ≡ Single (clocked parts clock) duration }
{
    let start = Start::new(StartParts {
        hour: Some(clock.hour),
        minute: Some(clock.minute),
        second: None,
        ..parts
    });
    match start {
        Some(start) => match Duration::new(duration) {
            Some(duration) => Expr::Leaf(Basic { start, duration }),
            None => unreachable!(),
        },
        None => unreachable!(),
    }
}

/// Stretches of days from each day of a start on, where a day is from the clock on for 24 hours.
pub fn each_days(parts: StartParts, days: u32, clock: Clock) -> Expr
    requires parts { AreDayParts parts }
    requires few { days ≤ 36_600 }
    ensures days { AreDays (minutes_of clock)
        (λ n. (k : ℕ) × (k < days) × HoldsOnDay parts (day_fields (n -ℤ pos k))) result }
    ensures leaves { leaf_count (tree_of result) ≡ 1 }
{
    leaf(
        parts,
        DurationParts {
            days,
            ..NO_DURATION
        },
        clock,
    )
}

/// Each day of a start.
pub fn each_day(parts: StartParts, clock: Clock) -> Expr
    requires { AreDayParts parts }
    ensures days { AreDays (minutes_of clock) (λ n. HoldsOnDay parts (day_fields n)) result }
    ensures leaves { leaf_count (tree_of result) ≡ 1 }
{
    each_days(parts, 1, clock)
}

/// The minutes of each day from the clock on, at most 24 hours.
pub fn each_clock(clock: Clock, minutes: u32) -> Expr
    requires { minutes ≤ 1440 }
    ensures seconds { IsSet (λ s. moved_place (minutes_of clock) s < 60 * minutes) result }
    ensures leaves { leaf_count (tree_of result) ≡ 1 }
{
    leaf(
        NO_PARTS,
        DurationParts {
            minutes,
            ..NO_DURATION
        },
        clock,
    )
}

/// No second.
pub fn nothing() -> Expr
    ensures seconds { IsSet (λ s. ⊥) result }
    ensures leaves { leaf_count (tree_of result) ≡ 1 }
{
    each_clock(clock_at(0), 0)
}

/// A copy of an expression.
pub fn copied(alloc: Global, expr: &Expr) -> Result<Expr, AllocError>
    ensures same { IfOk result (λ copy. tree_of copy ≡ tree_of expr.now) }
{
    match expr {
        Expr::Leaf(basic) => Ok(Expr::Leaf(*basic)),
        Expr::Join(op, left, right) => {
            let left = copied(alloc, left)?;
            let right = copied(alloc, right)?;
            Ok(Expr::Join(*op, Box::new(alloc, left)?, Box::new(alloc, right)?))
        }
    }
}

/// The two, joined.
pub fn join(alloc: Global, op: Op, left: Expr, right: Expr) -> Result<Expr, AllocError>
    ensures seconds { IfOk result (λ e. (s : ℤ) → InTree (tree_of e) s
        ↔ Combined op (InTree (tree_of left) s) (InTree (tree_of right) s)) }
    ensures leaves { IfOk result
        (λ e. leaf_count (tree_of e) ≡ leaf_count (tree_of left) + leaf_count (tree_of right)) }
{
    Ok(Expr::Join(op, Box::new(alloc, left)?, Box::new(alloc, right)?))
}

/// What there is so far, and more.
pub fn unite(alloc: Global, so_far: Option<Expr>, more: Expr) -> Result<Expr, AllocError>
    ensures seconds { IfOk result (λ e. (s : ℤ) → InTree (tree_of e) s
        ↔ (InMaybe so_far s ⊎ InTree (tree_of more) s)) }
    ensures leaves { IfOk result
        (λ e. leaf_count (tree_of e) ≡ maybe_leaves so_far + leaf_count (tree_of more)) }
{
    match so_far {
        None => Ok(more),
        Some(left) => join(alloc, Op::Union, left, more),
    }
}

/// What there is, or no second.
pub fn or_nothing(so_far: Option<Expr>) -> Expr
    ensures seconds { (s : ℤ) → InTree (tree_of result) s ↔ InMaybe so_far s }
    ensures leaves { leaf_count (tree_of result) ≡ max 1 (maybe_leaves so_far) }
{
    match so_far {
        None => nothing(),
        Some(expr) => expr,
    }
}
