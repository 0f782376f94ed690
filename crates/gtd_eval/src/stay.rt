//! How long a domain stays as it is at a second.

ghost use Rattle.std.specs.Prelude.{◌↔◌, ◌⊎◌, ◌≡◌, ◌+ℤ◌, ◌<ℤ◌, ◌≤ℤ◌, pos, ℤ, IfSome, IsTrue};
ghost use Rattle.gtd_core.specs.Parts.{domain_tree, start_parts, duration_parts};
ghost use Rattle.gtd_core.specs.Limits.{first_horizon_day, horizons_end};
ghost use Rattle.gtd_core.specs.Seconds.{Within, day_of_second};
ghost use Rattle.gtd_core.specs.Trees.{tree_of};
ghost use Rattle.gtd_core.specs.Whole.{from_day, to_day, whole};
ghost use Rattle.gtd_recur.specs.Membership.{InBasic};
ghost use Rattle.gtd_recur.specs.Periods.{period_seconds};
ghost use Rattle.gtd_spans.specs.Change.{NeverChanges};
ghost use Rattle.gtd_eval.specs.Ever.{week};
ghost use Rattle.gtd_eval.specs.Membership.{InDomain, InTree};
ghost use Rattle.gtd_eval.specs.Periods.{AllRepeat};
ghost use Rattle.gtd_eval.specs.Stays.{ComesBefore, IsStay, IsStayEnd, NoneChanges};

use crate::bound::settled_stay;
use crate::period::period_of_all;
use gtd_core::limits::DAY_SECONDS;
use gtd_core::{Basic, Domain, Expr, Horizon, Op, Sec};
use gtd_recur::{Period, Runs, covers, held_until, is_weekly, next_start};

// The least number of seconds between two starts of a day.
const LEAST_STEP: i64 = 60;

// The days of a week, and one more: the rest of a second's own day.
const WEEKLY_DAYS: i64 = 8;

// How many stays of an expression that repeats are asked for to find that it does not change. A minute has no more.
pub(crate) const MOST_STAYS: usize = 64;

/// Whether a set of seconds has a second, and a later second before which that does not change.
#[derive(Clone, Copy, Debug, PartialEq, Eq)]
pub struct Stay {
    /// Whether the set has the second.
    pub holds: bool,
    /// Before this second, the set has each later second exactly if it has the given one.
    pub until: Sec,
}

impl Stay {
    ghost use Rattle.gtd_eval.specs.Stays.{IsJoined};

    /// The stay, at a second, of what the operator makes of two sets, from theirs at that second. A side that decides
    /// alone, as one that has the second decides a union, need not wait for the other.
    pub fn joined(op: Op, left: Stay, right: Stay) -> Stay
        ensures joined { IsJoined op left right result }
    {
        match op {
            Op::Union => Stay {
                holds: left.holds || right.holds,
                until: end_of_both(left.holds, left.until, right.holds, right.until),
            },
            Op::Meet => Stay {
                holds: left.holds && right.holds,
                until: end_of_both(!left.holds, left.until, !right.holds, right.until),
            },
            Op::Minus => Stay {
                holds: left.holds && !right.holds,
                until: end_of_both(!left.holds, left.until, right.holds, right.until),
            },
        }
    }
}

// The end of two sides: of those that decide alone, if there are any, the later one, and otherwise the earlier one.
fn end_of_both(left_decides: bool, left: Sec, right_decides: bool, right: Sec) -> Sec
    ensures end { (t : ℤ) → (t <ℤ result.0) ↔ ComesBefore left_decides right_decides left.0 right.0 t }
{
    if left_decides {
        if right_decides {
            left.later(right)
        } else {
            left
        }
    } else if right_decides {
        right
    } else {
        left.earlier(right)
    }
}

// The day before which a change is looked for: what repeats weekly and does not change for a week never does.
fn look_end(weekly: bool, day: i64, to_day: i64) -> i64
    requires day_in { first_horizon_day ≤ℤ day }
    requires days { day <ℤ to_day }
    requires to_day_in { to_day ≤ℤ horizons_end }
    ensures later { day <ℤ result }
    ensures within { result ≤ℤ to_day }
    ensures end { (result ≡ to_day) ⊎ ((result ≡ day +ℤ pos 8) × IsTrue weekly) }
    ensures short { IsTrue weekly → result ≤ℤ (day +ℤ pos 8) }
{
    if weekly && day + WEEKLY_DAYS < to_day {
        return day + WEEKLY_DAYS;
    }
    to_day
}

/// The days in which a change after a second is looked for: from the second's own day, which must be in the horizon, to
/// the end of the horizon; but of what repeats after 7 days, a week and the rest of that day are enough.
///
/// ```
/// // 2024-01-01 up to 2025-01-01, and 12:00:00.
/// let horizon = Horizon::new(19_723, 20_089).expect(&rt, "a horizon");
/// assert_eq!(rt; days_to_look(true, Sec(1_704_110_400), horizon).to_day(), 19_731);
/// assert_eq!(rt; days_to_look(false, Sec(1_704_110_400), horizon).to_day(), 20_089);
/// ```
pub fn days_to_look(weekly: bool, second: Sec, horizon: Horizon) -> Horizon
    requires inside { Within (whole horizon) second.0 }
    ensures first { from_day result ≡ day_of_second second.0 }
    ensures inside { Within (whole result) second.0 }
    ensures within { (whole result).until ≤ℤ (whole horizon).until }
    ensures until { ((whole result).until ≡ (whole horizon).until)
        ⊎ (((second.0 +ℤ week) <ℤ (whole result).until) × IsTrue weekly) }
    ensures short { IsTrue weekly → to_day result ≤ℤ (day_of_second second.0 +ℤ pos 8) }
{
    let day = second.day();
    match Horizon::new(day, look_end(weekly, day, horizon.to_day())) {
        Ok(days) => days,
        Err(_) => unreachable!(),
    }
}

// The first change of a basic domain after a second, or else the end of the horizon, found run by run.
fn end_by_runs(basic: &Basic, second: Sec, horizon: Horizon) -> Sec
    requires inside { Within (whole horizon) second.0 }
    ensures end { IsStayEnd (InBasic basic.now) second.0 (whole horizon).until result.0 }
{
    let days = days_to_look(is_weekly(basic), second, horizon);
    match gtd_spans::next_change(&mut Runs::new(*basic, days), second, days.until()) {
        Some(change) => change,
        None => horizon.until(),
    }
}

// The same after a second that the basic domain contains, found from the end of one stretch to that of another.
fn held_end(basic: &Basic, second: Sec, horizon: Horizon) -> Sec
    requires inside { Within (whole horizon) second.0 }
    requires held { InBasic basic.now second.0 }
    ensures end { IsStayEnd (InBasic basic.now) second.0 (whole horizon).until result.0 }
{
    let days = days_to_look(is_weekly(basic), second, horizon);
    let end = days.until();
    let free = held_until(basic, second, end);
    if free.0 < end.0 {
        return free;
    }
    horizon.until()
}

// The same after a second that the basic domain does not contain: the next start, unless its stretch holds no second.
fn free_end(basic: &Basic, second: Sec, horizon: Horizon) -> Sec
    requires inside { Within (whole horizon) second.0 }
    requires free { InBasic basic.now second.0 → ⊥ }
    ensures end { IsStayEnd (InBasic basic.now) second.0 (whole horizon).until result.0 }
{
    let Some(begin) = next_start(basic.start.as_parts(), second, horizon.to_day()) else {
        return horizon.until();
    };
    if covers(basic, begin) {
        return begin;
    }
    end_by_runs(basic, second, horizon)
}

// Whether stretches that begin on one day may touch: those of a day are then joined at once, run by run.
fn is_dense(basic: &Basic) -> bool {
    let bound = basic.duration.bound();
    LEAST_STEP <= bound && bound < DAY_SECONDS
}

// The first change of a basic domain after a second, or else the end of the horizon.
fn basic_end(basic: &Basic, second: Sec, holds: bool, horizon: Horizon) -> Sec
    requires inside { Within (whole horizon) second.0 }
    requires holds { IsTrue holds ↔ InBasic basic.now second.0 }
    ensures end { IsStayEnd (InBasic basic.now) second.0 (whole horizon).until result.0 }
{
    if !holds {
        return free_end(basic, second, horizon);
    }
    if is_dense(basic) {
        return end_by_runs(basic, second, horizon);
    }
    held_end(basic, second, horizon)
}

/// The stay of a basic domain at a second.
pub(crate) fn basic_stay(basic: &Basic, second: Sec, horizon: Horizon) -> Stay
    requires inside { Within (whole horizon) second.0 }
    ensures stays { IsStay (InBasic basic.now) second.0 (whole horizon).until result }
    ensures far { (u : ℤ) → u ≤ℤ (whole horizon).until → NeverChanges (InBasic basic.now) second.0 u
        → u ≤ℤ result.until.0 }
{
    let holds = covers(basic, second);
    Stay {
        holds,
        until: basic_end(basic, second, holds, horizon),
    }
}

// The stay of an expression at a second, by those of its basic domains.
fn each_stay(expr: &Expr, second: Sec, horizon: Horizon) -> Stay
    requires inside { Within (whole horizon) second.0 }
    ensures stays { IsStay (InTree (tree_of expr.now)) second.0 (whole horizon).until result }
    ensures far { (u : ℤ) → u ≤ℤ (whole horizon).until → NoneChanges (tree_of expr.now) second.0 u
        → u ≤ℤ result.until.0 }
{
    match expr {
        Expr::Leaf(basic) => basic_stay(basic, second, horizon),
        Expr::Join(op, left, right) => {
            let left = each_stay(left, second, horizon);
            let right = each_stay(right, second, horizon);
            Stay::joined(*op, left, right)
        }
    }
}

// The second up to which an expression stays as it is, from one stay to the next. No more of them are asked for once it is not
// before the last.
fn alike_until(expr: &Expr, first: Stay, second: Sec, last: Sec, horizon: Horizon) -> Sec
    requires inside { Within (whole horizon) second.0 }
    requires first { IsStay (InTree (tree_of expr.now)) second.0 (whole horizon).until first }
    requires last { last.0 ≤ℤ (whole horizon).until }
    ensures later { second.0 <ℤ result.0 }
    ensures within { result.0 ≤ℤ (whole horizon).until }
    ensures same { NeverChanges (InTree (tree_of expr.now)) second.0 result.0 }
    ensures long { first.until.0 ≤ℤ result.0 }
{
    let mut at = first.until;
    for _ in 0..MOST_STAYS {
        if at.0 >= last.0 {
            return at;
        }
        let stay = each_stay(expr, at, horizon);
        if stay.holds != first.holds {
            return at;
        }
        at = stay.until;
    }
    at
}

// The stay of an expression that repeats after a period: if it stays as it is for so long, it does for ever.
fn repeating_stay(expr: &Expr, period: Period, second: Sec, horizon: Horizon) -> Stay
    requires inside { Within (whole horizon) second.0 }
    requires repeats { AllRepeat (period_seconds period) (tree_of expr.now) }
    ensures stays { IsStay (InTree (tree_of expr.now)) second.0 (whole horizon).until result }
    ensures far { (u : ℤ) → u ≤ℤ (whole horizon).until → NoneChanges (tree_of expr.now) second.0 u
        → u ≤ℤ result.until.0 }
{
    let first = each_stay(expr, second, horizon);
    let end = horizon.until();
    let last = Sec(second.0 + period.seconds());
    let until = alike_until(expr, first, second, last.earlier(end), horizon);
    if until.0 >= last.0 {
        return Stay {
            holds: first.holds,
            until: end,
        };
    }
    Stay {
        holds: first.holds,
        until,
    }
}

// The period after which an expression of two sides repeats. That of a basic domain says nothing more of its changes.
fn joined_period(expr: &Expr) -> Option<Period>
    ensures repeats { IfSome result (λ period. AllRepeat (period_seconds period) (tree_of expr.now)) }
{
    match expr {
        Expr::Leaf(_) => None,
        Expr::Join(..) => {
            let period = period_of_all(expr)?;
            Some(period)
        }
    }
}

// The stay of an expression at a second. What repeats in it and does not change stays as it is to the end.
fn expr_stay(expr: &Expr, second: Sec, horizon: Horizon) -> Stay
    requires inside { Within (whole horizon) second.0 }
    ensures stays { IsStay (InTree (tree_of expr.now)) second.0 (whole horizon).until result }
    ensures far { (u : ℤ) → u ≤ℤ (whole horizon).until → NoneChanges (tree_of expr.now) second.0 u
        → u ≤ℤ result.until.0 }
{
    if let Some(period) = joined_period(expr) {
        return repeating_stay(expr, period, second, horizon);
    }
    match expr {
        Expr::Leaf(basic) => basic_stay(basic, second, horizon),
        Expr::Join(op, left, right) => {
            let left = expr_stay(left, second, horizon);
            let right = expr_stay(right, second, horizon);
            Stay::joined(*op, left, right)
        }
    }
}

/// Whether the domain contains the second, which must be in the horizon, and a later second, at most the end of the
/// horizon, before which that does not change. It may stay so for longer, but the second that is answered is at least the
/// first at which any basic domain of the domain changes; so for a single basic domain it is the next change. Of a basic
/// domain that repeats each week, a week is looked at. A part whose basic domains repeat, and that few stays show not to
/// change, stays as it is to the end. So does a domain if its basic domains that repeat settle alone, in few stays, whether
/// it holds. Takes no memory.
///
/// ```
/// let domain = read_domain(alloc, b"[(h10){h4}]")?;
/// // 2024-01-01 up to the next day, and 12:00:00.
/// let horizon = Horizon::new(19_723, 19_724).expect(&rt, "a horizon");
/// let stay = stay_of(&domain, Sec(1_704_110_400), horizon);
/// assert!(rt; stay.holds);
/// assert_eq!(rt; stay.until, Sec(1_704_117_600));
/// ```
pub fn stay_of(domain: &Domain, second: Sec, horizon: Horizon) -> Stay
    requires inside { Within (whole horizon) second.0 }
    ensures stays { IsStay (InDomain domain.now) second.0 (whole horizon).until result }
    ensures far { (u : ℤ) → u ≤ℤ (whole horizon).until → NoneChanges (domain_tree domain.now) second.0 u
        → u ≤ℤ result.until.0 }
{
    let expr = domain.expr();
    let stay = expr_stay(expr, second, horizon);
    settled_stay(expr, stay, second, horizon)
}
