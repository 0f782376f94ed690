//! The days of ranges of dates with years.

ghost use Rattle.std.specs.Prelude.{◌≡◌, ◌≤◌, pos, neg_ℤ, ◌+ℤ◌, ◌-ℤ◌, ◌≤ℤ◌, ◌<ℤ◌};
ghost use Rattle.gtd_core.specs.Trees.{leaf_count, tree_of};
ghost use Rattle.gtd_hours_leaves.specs.Leaves.{AreDays, HoldsAt, minutes_of};
ghost use Rattle.gtd_hours.specs.declared.hours.Selector.TheVariants as selector;

use gtd_core::{Expr, StartParts};
use gtd_hours::Dated;
use gtd_hours_leaves::{Clock, NO_PARTS, each_days};

fn count(first: i64, last: i64) -> u32
    requires first_in { (neg_ℤ (pos 70000) ≤ℤ first) × (first ≤ℤ pos 310000) }
    requires order { first ≤ℤ last }
    requires near { last <ℤ (first +ℤ pos 36600) }
    ensures value { pos result ≡ (last -ℤ first) +ℤ pos 1 }
    ensures few { result ≤ 36600 }
{
    (last - first) as u32 + 1
}

/// The days of a range of dates with years.
pub fn dated_days(dates: Dated, clock: Clock) -> Expr
    ensures days { AreDays (minutes_of clock) (HoldsAt (selector.Dated dates)) result }
    ensures leaves { leaf_count (tree_of result) ≡ 1 }
{
    let first = dates.first.day_number();
    let last = dates.last.day_number();
    let days = count(first, last);
    each_days(
        StartParts {
            year: Some(dates.first.year),
            month: Some(dates.first.month),
            day: Some(dates.first.day),
            ..NO_PARTS
        },
        days,
        clock,
    )
}
