//! What the basic domains that repeat weekly say alone of an expression.

ghost use Rattle.std.specs.Prelude.{◌↔◌, ◌≡◌, ◌≤◌, ◌≤ℤ◌, ◌<ℤ◌, ℤ, IsTrue};
ghost use Rattle.gtd_core.specs.Limits.{most_basic_domains};
ghost use Rattle.gtd_core.specs.Parts.{start_parts, duration_parts};
ghost use Rattle.gtd_core.specs.Seconds.{Within};
ghost use Rattle.gtd_core.specs.Trees.{leaf_count, tree_of};
ghost use Rattle.gtd_core.specs.Whole.{whole};
ghost use Rattle.gtd_recur.specs.Periods.{period_seconds};
ghost use Rattle.gtd_eval.specs.Bounds as spec;
ghost use Rattle.gtd_eval.specs.Bounds.{InBasicBound, InBound, WeeklyRepeat};
ghost use Rattle.gtd_eval.specs.Membership.{InTree};
ghost use Rattle.gtd_eval.specs.Stays.{IsStay};

use crate::open::basic_domains;
use crate::stay::{MOST_STAYS, Stay, basic_stay};
use gtd_core::{Basic, Expr, Horizon, Op, Sec};
use gtd_recur::{Period, is_weekly, period_of};

// Whether the right side of the operator is bounded from above, if the whole is or is not.
fn right_bound(op: Op, upper: bool) -> bool
    ensures { result ≡ spec.right_bound op upper }
{
    match op {
        Op::Union => upper,
        Op::Meet => upper,
        Op::Minus => !upper,
    }
}

// The stay of a basic domain's bound. One that does not repeat weekly may contain any second.
fn basic_bound(basic: &Basic, upper: bool, second: Sec, horizon: Horizon) -> Stay
    requires inside { Within (whole horizon) second.0 }
    ensures stays { IsStay (InBasicBound upper (start_parts basic.now.start) (duration_parts basic.now.duration)) second.0
        (whole horizon).until result }
{
    if is_weekly(basic) {
        return basic_stay(basic, second, horizon);
    }
    Stay {
        holds: upper,
        until: horizon.until(),
    }
}

// The stay of an expression's bound.
fn bound_stay(expr: &Expr, upper: bool, second: Sec, horizon: Horizon) -> Stay
    requires inside { Within (whole horizon) second.0 }
    ensures stays { IsStay (InBound upper (tree_of expr.now)) second.0 (whole horizon).until result }
{
    match expr {
        Expr::Leaf(basic) => basic_bound(basic, upper, second, horizon),
        Expr::Join(op, left, right) => {
            let left = bound_stay(left, upper, second, horizon);
            let right = bound_stay(right, right_bound(*op, upper), second, horizon);
            Stay::joined(*op, left, right)
        }
    }
}

// The period after which each basic domain that repeats weekly repeats.
fn bound_period(expr: &Expr) -> Period
    ensures repeats { WeeklyRepeat (period_seconds result) (tree_of expr.now) }
{
    match expr {
        Expr::Leaf(basic) => match period_of(basic) {
            Some(period) => period,
            None => Period::Minute,
        },
        Expr::Join(_, left, right) => {
            let left = bound_period(left);
            let right = bound_period(right);
            left.longer(right)
        }
    }
}

// How many basic domains of the expression repeat weekly.
fn weekly_domains(expr: &Expr) -> usize
    requires few { leaf_count (tree_of expr.now) ≤ most_basic_domains }
    ensures few { result ≤ leaf_count (tree_of expr.now) }
{
    match expr {
        Expr::Leaf(basic) => {
            if is_weekly(basic) {
                return 1;
            }
            0
        }
        Expr::Join(_, left, right) => weekly_domains(left) + weekly_domains(right),
    }
}

// Whether an expression's bound has each second from the given one to the end of the horizon exactly if it is said to hold: for a
// period is enough. No more than 64 stays are asked for.
fn is_bound(expr: &Expr, holds: bool, second: Sec, horizon: Horizon) -> bool
    requires inside { Within (whole horizon) second.0 }
    ensures bound { IsTrue result → (t : ℤ) → second.0 ≤ℤ t → t <ℤ (whole horizon).until
        → IsTrue holds ↔ InTree (tree_of expr.now) t }
{
    let end = horizon.until();
    let period = bound_period(expr);
    let later = Sec(second.0 + period.seconds());
    let last = later.earlier(end);
    let mut at = second;
    for _ in 0..MOST_STAYS {
        if at.0 >= last.0 {
            return true;
        }
        let stay = bound_stay(expr, !holds, at, horizon);
        if stay.holds != holds {
            return false;
        }
        at = stay.until;
    }
    false
}

/// The stay of an expression at a second, from one that may end too early: to the end of the horizon, if the basic domains that
/// repeat weekly show alone that the expression stays as it is, whatever seconds the others contain. They are asked only where
/// there are at least two of them, and others.
pub(crate) fn settled_stay(expr: &Expr, stay: Stay, second: Sec, horizon: Horizon) -> Stay
    requires inside { Within (whole horizon) second.0 }
    requires few { leaf_count (tree_of expr.now) ≤ most_basic_domains }
    requires stays { IsStay (InTree (tree_of expr.now)) second.0 (whole horizon).until stay }
    ensures stays { IsStay (InTree (tree_of expr.now)) second.0 (whole horizon).until result }
    ensures long { stay.until.0 ≤ℤ result.until.0 }
{
    let end = horizon.until();
    let weekly = weekly_domains(expr);
    if stay.until.0 >= end.0 || weekly < 2 || weekly == basic_domains(expr) {
        return stay;
    }
    if is_bound(expr, stay.holds, second, horizon) {
        return Stay {
            holds: stay.holds,
            until: end,
        };
    }
    stay
}
