//! Days of each of some years, as expressions. Those of the same years that stand one behind another are met with them once.

ghost use Rattle.std.specs.Prelude.{◌≡◌, ◌↔◌, ◌+◌, ◌∷◌, ◌≤ℤ◌, ◌<ℤ◌, false, pos, None, ℤ, IfOk};
ghost use Rattle.gtd_core.specs.Trees.{leaf_count, tree_of};
ghost use Rattle.gtd_calendar.specs.Calendar.{first_day};
ghost use Rattle.gtd_hours.specs.Cost.{goes_on, selectors_cost};
ghost use Rattle.gtd_hours.specs.Yearly.{IsOfDays};
ghost use Rattle.gtd_hours.specs.declared.hours.Selector.TheVariants as selector;
ghost use Rattle.gtd_hours_selectors.specs.Days.{HasDays, begins_yearly};
ghost use Rattle.gtd_hours_leaves.specs.Leaves.{AreDays, maybe_leaves, minutes_of};

use gtd_core::{Expr, Op, StartParts};
use gtd_hours::{Selector, YearlyDays};
use gtd_hours_leaves::{Clock, NO_PARTS, each_days, join, unite, year_run};
use std::alloc::{AllocError, Global};

/// The days of selectors so far, and those that come each year and are still to be met with their years, which are those of the
/// next selector.
#[derive(Drop)]
pub(crate) struct SoFar {
    pub(crate) union: Option<Expr>,
    pub(crate) each: Option<Expr>,
}

/// The days that come each year, of any year.
pub(crate) fn each_year(days: YearlyDays, clock: Clock) -> Expr
    ensures days { AreDays (minutes_of clock) (IsOfDays days.month days.day days.days) result }
    ensures leaves { leaf_count (tree_of result) ≡ 1 }
{
    each_days(
        StartParts {
            month: Some(days.month),
            day: Some(days.day),
            ..NO_PARTS
        },
        u32::from(days.days),
        clock,
    )
}

/// Whether the next selector has days of the same years.
pub fn goes_on(days: YearlyDays, more: &[Selector]) -> bool
    ensures { result ≡ goes_on days more.now }
{
    match more.first() {
        None => false,
        Some(next) => match next {
            Selector::Yearly(others) => days.first == others.first && days.last == others.last,
            _ => false,
        },
    }
}

// All days of the years.
fn all_years(days: YearlyDays, clock: Clock) -> Expr
    ensures days { AreDays (minutes_of clock)
        (λ n. (first_day (pos days.first) ≤ℤ n) × (n <ℤ first_day (pos (days.last + 1)))) result }
    ensures leaves { leaf_count (tree_of result) ≡ 1 }
{
    year_run(days.first, days.last, clock)
}

/// What there is so far, with days that come each year, before these selectors.
pub(crate) fn with_yearly(
    alloc: Global,
    so_far: SoFar,
    days: YearlyDays,
    more: &[Selector],
    clock: Clock,
) -> Result<SoFar, AllocError>
    ensures days { IfOk result (λ then. (s : ℤ)
        → HasDays then.union then.each more.now (minutes_of clock) s
        ↔ HasDays so_far.union so_far.each (selector.Yearly days ∷ more.now) (minutes_of clock) s) }
    ensures leaves { IfOk result (λ then. maybe_leaves then.union + maybe_leaves then.each + selectors_cost more.now
        ≡ maybe_leaves so_far.union + maybe_leaves so_far.each + selectors_cost (selector.Yearly days ∷ more.now)) }
    ensures next { IfOk result (λ then. begins_yearly more.now ≡ false → then.each ≡ None) }
{
    let each = unite(alloc, so_far.each, each_year(days, clock))?;
    if goes_on(days, more) {
        return Ok(SoFar {
            union: so_far.union,
            each: Some(each),
        });
    }
    let met = join(alloc, Op::Meet, all_years(days, clock), each)?;
    let union = unite(alloc, so_far.union, met)?;
    Ok(SoFar {
        union: Some(union),
        each: None,
    })
}
