//! The runs of a set of days.

ghost use Rattle.std.specs.Prelude.{◌≡◌, ◌+ℤ◌, ◌-ℤ◌, ◌≤ℤ◌, ◌<ℤ◌, pos, IfOk, MatchOption};
ghost use Rattle.gtd_core.specs.Limits.{first_calendar_day, last_calendar_day};
ghost use Rattle.gtd_calendar.specs.Calendar.{IsCalendarDay};
ghost use Rattle.gtd_hours_holidays.specs.Days.{AreNone, IsIn};
ghost use Rattle.gtd_hours_holidays.specs.Runs.{AreRuns, IsNextRun, IsRunEnd};

use crate::days::{Days, FIRST_DAY, LAST_DAY};
use crate::run::Run;
use std::alloc::{AllocError, Global};

// The day before one that is not the first.
fn day_before(day: i64) -> i64
    requires { (first_calendar_day <ℤ day) × (day ≤ℤ last_calendar_day) }
    ensures before { result ≡ day -ℤ pos 1 }
    ensures near { IsCalendarDay result }
{
    day - 1
}

/// The day after one.
pub(crate) fn day_after(day: i64) -> i64
    requires { IsCalendarDay day }
    ensures after { result ≡ day +ℤ pos 1 }
{
    day + 1
}

// The last day of the run of a set that begins on a day of it.
fn last_from(days: &Days, first: i64) -> i64
    requires first_in { IsCalendarDay first }
    requires in_set { IsIn days.now first }
    ensures last { IsRunEnd days.now first result }
{
    match days.first_missing(first, LAST_DAY) {
        Some(after) => day_before(after),
        None => LAST_DAY,
    }
}

// The run of a set that begins on a day of it.
fn run_from(days: &Days, first: i64) -> Run
    requires first_in { IsCalendarDay first }
    requires in_set { IsIn days.now first }
    ensures first { result.first ≡ first }
    ensures last { IsRunEnd days.now first result.last }
{
    let last = last_from(days, first);
    Run { first, last }
}

// The first run of a set from a day on.
fn next_run(days: &Days, from: i64) -> Option<Run>
    requires { IsCalendarDay from }
    ensures { MatchOption result (AreNone (IsIn days.now) from last_calendar_day) (IsNextRun days.now from) }
{
    match days.first_in(from, LAST_DAY) {
        Some(first) => Some(run_from(days, first)),
        None => None,
    }
}

/// The maximal runs of the days of a set, in order. `AllocError` is answered only if memory was refused.
pub fn runs_of(alloc: Global, days: &Days) -> Result<Vec<Run>, AllocError>
    ensures runs { IfOk result (λ runs. AreRuns days.now first_calendar_day runs.items) }
{
    let mut runs = Vec::new(alloc);
    let mut from = FIRST_DAY;
    while from <= LAST_DAY {
        let Some(run) = next_run(days, from) else {
            return Ok(runs);
        };
        runs.push(run)?;
        from = day_after(run.last);
    }
    Ok(runs)
}
