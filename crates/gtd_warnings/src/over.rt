//! Domains that are over by a day, for ever.

ghost use Rattle.std.specs.Prelude.{◌≡◌, ◌↔◌, ◌≤◌, ◌≤ℤ◌, ◌+ℤ◌, pos, IfOk, IsTrue, MatchOption};
ghost use Rattle.gtd_core.specs.Horizons.{IsHorizon};
ghost use Rattle.gtd_core.specs.Limits.{first_horizon_day, horizons_end};
ghost use Rattle.gtd_core.specs.Parts.{domain_tree, duration_parts, start_parts};
ghost use Rattle.gtd_core.specs.Ranges.{lookback_of};
ghost use Rattle.gtd_core.specs.Trees.{tree_of};
ghost use Rattle.gtd_core.specs.Whole as horizon;
ghost use Rattle.gtd_eval.specs.Membership.{SomeGivesYear};
ghost use Rattle.gtd_warnings.specs.EndDays as spec;
ghost use Rattle.gtd_warnings.specs.EndDays.{IsEndedBy};
ghost use Rattle.gtd_warnings.specs.Over.{EndsByItsYears, HoldsNoneFrom, HoldsNoneOn, HoldsNoneTill, first_of_day};

use gtd_core::limits::MOST_HORIZON_DAYS;
use gtd_core::{Basic, Domain, Expr, Horizon, Op};
use gtd_eval::{next_change, stay_of};
use std::alloc::{AllocError, Global};

/// The last year in which a stretch must begin to end before 2700, however long it is.
const LAST_SURE_YEAR: u16 = 2598;

/// Whether some start of the expression gives a year.
pub(crate) fn gives_year(expr: &Expr) -> bool
    ensures given { IsTrue result ↔ SomeGivesYear (tree_of expr.now) }
{
    match expr {
        Expr::Leaf(basic) => basic.start.as_parts().year.is_some(),
        Expr::Join(_, left, right) => gives_year(left) || gives_year(right),
    }
}

// The day before which each stretch of a basic domain ends, if it ends by its year.
fn basic_end(basic: &Basic) -> Option<i64>
    ensures value { result ≡ spec.basic_end (start_parts basic.now.start).year (lookback_of (duration_parts basic.now.duration)) }
{
    let Some(year) = basic.start.as_parts().year else {
        return None;
    };
    if year > LAST_SURE_YEAR {
        return None;
    }
    let year = u32::from(year);
    Some(i64::from(365 * year + year / 4 + basic.duration.lookback()) - 719_159)
}

// The earlier and the later of two days.
fn earlier(a: i64, b: i64) -> i64
    ensures value { result ≡ spec.earlier a b }
{
    if b < a { b } else { a }
}

fn later(a: i64, b: i64) -> i64
    ensures value { result ≡ spec.later a b }
{
    if a < b { b } else { a }
}

// The day before which both of two expressions end.
fn end_of_both(left: Option<i64>, right: Option<i64>) -> Option<i64>
    ensures value { result ≡ spec.end_of_both left right }
{
    match left {
        None => None,
        Some(a) => match right {
            None => None,
            Some(b) => Some(later(a, b)),
        },
    }
}

// The first day before which one of two expressions ends.
fn end_of_either(left: Option<i64>, right: Option<i64>) -> Option<i64>
    ensures value { result ≡ spec.end_of_either left right }
{
    match left {
        None => right,
        Some(a) => match right {
            None => Some(a),
            Some(b) => Some(earlier(a, b)),
        },
    }
}

// The day before which an expression ends by its years, as it is computed.
fn computed_end(expr: &Expr) -> Option<i64>
    ensures value { result ≡ spec.end_day (tree_of expr.now) }
{
    match expr {
        Expr::Leaf(basic) => basic_end(basic),
        Expr::Join(op, left, right) => match op {
            Op::Union => end_of_both(computed_end(left), computed_end(right)),
            Op::Meet => end_of_either(computed_end(left), computed_end(right)),
            Op::Minus => computed_end(left),
        },
    }
}

/// A day before which the expression ends by its years, or `None` if it need not end by them.
pub(crate) fn end_day(expr: &Expr) -> Option<i64>
    ensures day { MatchOption result (EndsByItsYears (tree_of expr.now) → ⊥) (IsEndedBy (tree_of expr.now)) }
{
    computed_end(expr)
}

// Whether no second of the days is in the domain.
fn holds_none_on(alloc: Global, domain: &Domain, days: Horizon) -> Result<bool, AllocError>
    ensures { IfOk result (λ none. IsTrue none ↔ HoldsNoneOn (domain_tree domain.now) days) }
{
    let first = days.whole().from();
    if stay_of(domain, first, days).holds {
        return Ok(false);
    }
    let change = next_change(alloc, domain, first, days)?;
    Ok(change.is_none())
}

// The days from one up to but not including another.
fn days_between(from_day: i64, to_day: i64) -> Horizon
    requires days { IsHorizon from_day to_day }
    ensures first { horizon.from_day result ≡ from_day }
    ensures last { horizon.to_day result ≡ to_day }
{
    match Horizon::new(from_day, to_day) {
        Ok(days) => days,
        Err(_) => unreachable!(),
    }
}

// Whether no second of the days from one up to another is in the domain, which are as many as a horizon may have.
fn holds_none_within(
    alloc: Global,
    domain: &Domain,
    from_day: i64,
    to_day: i64,
) -> Result<bool, AllocError>
    requires days { IsHorizon from_day to_day }
    ensures none { IfOk result (λ none. IsTrue none
        ↔ HoldsNoneTill (domain_tree domain.now) (first_of_day from_day) (first_of_day to_day)) }
{
    holds_none_on(alloc, domain, days_between(from_day, to_day))
}

/// Whether no second from a day on is in the domain, which ends before another day. That may take two horizons.
pub(crate) fn holds_none_from(
    alloc: Global,
    domain: &Domain,
    day: i64,
    end: i64,
) -> Result<bool, AllocError>
    requires early { first_horizon_day ≤ℤ day }
    requires ended { IsEndedBy (domain_tree domain.now) end }
    ensures none { IfOk result (λ none. IsTrue none ↔ HoldsNoneFrom (domain_tree domain.now) (first_of_day day)) }
{
    if end <= day {
        return Ok(true);
    }
    if end - day <= MOST_HORIZON_DAYS {
        return holds_none_within(alloc, domain, day, end);
    }
    let middle = day + MOST_HORIZON_DAYS;
    if !holds_none_within(alloc, domain, day, middle)? {
        return Ok(false);
    }
    holds_none_within(alloc, domain, middle, end)
}
