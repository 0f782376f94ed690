//! How the seconds of two domains compare.

ghost use Rattle.std.specs.Prelude.{◌≡◌, ◌⊎◌, ◌↔◌, ◌≤ℤ◌, pos, IfOk, IfSome, IsTrue, MatchOption};
ghost use Rattle.gtd_core.specs.Horizons.{IsHorizon};
ghost use Rattle.gtd_core.specs.Limits.{most_horizon_days};
ghost use Rattle.gtd_core.specs.Parts.{domain_tree};
ghost use Rattle.gtd_core.specs.Seconds.{IsMomentSecond};
ghost use Rattle.gtd_core.specs.Trees.{tree_of};
ghost use Rattle.gtd_core.specs.Whole as spec;
ghost use Rattle.gtd_core.specs.Whole.{whole};
ghost use Rattle.gtd_eval.specs.Membership.{InDomain, SomeGivesYear};
ghost use Rattle.gtd_eval.specs.Weekly.{AllWeekly};
ghost use Rattle.gtd_difference.specs.Difference.{AgreeFrom, EitherGivesYear, IsApart, IsComparison};
ghost use Rattle.gtd_difference.specs.Difference.{earlier, earlier_of, last_end};

use crate::first::first_alone;
use gtd_core::limits::{HORIZONS_END, MOST_HORIZON_DAYS};
use gtd_core::{Domain, Expr, Horizon, Sec};
use gtd_eval::is_weekly;
use std::alloc::{AllocError, Global};

// The days of a week, and one more: the rest of a second's own day.
const WEEKLY_DAYS: i64 = 8;

/// The days of four years, which are compared before all others: most domains that differ do so soon.
pub(crate) const NEAR_DAYS: i64 = 1_461;

/// One of two domains.
#[derive(Clone, Copy, Debug, PartialEq, Eq)]
pub enum Side {
    /// The first one.
    First,
    /// The second one.
    Second,
}

/// A second that one of two domains has alone.
#[derive(Clone, Copy, Debug, PartialEq, Eq)]
pub struct Apart {
    /// The second.
    pub second: Sec,
    /// The domain that has it.
    pub side: Side,
}

/// How the seconds of two domains compare.
#[derive(Clone, Copy, Debug, PartialEq, Eq)]
pub enum Comparison {
    /// Each second of all time is in both or in neither. No start gives a year.
    Same,
    /// Some start gives a year. Each second from the given one on and before 2700-01-01 is in both or in neither.
    SameUntil2700,
    /// The first second from the given one on that is in one of them alone.
    Apart(Apart),
}

// Whether some start of the expression gives a year.
pub(crate) fn gives_year(expr: &Expr) -> bool
    ensures given { IsTrue result ↔ SomeGivesYear (tree_of expr.now) }
{
    match expr {
        Expr::Leaf(basic) => basic.start.parts().year.is_some(),
        Expr::Join(_, left, right) => gives_year(left) || gives_year(right),
    }
}

// The days after which two domains without years repeat, 7 or the 146,097 of 400 years, and one more.
pub(crate) fn days_to_repeat(first: &Domain, second: &Domain) -> i64
    ensures days { (result ≡ pos most_horizon_days)
        ⊎ ((result ≡ pos 8) × AllWeekly (domain_tree first.now) × AllWeekly (domain_tree second.now)) }
{
    if is_weekly(first) && is_weekly(second) {
        WEEKLY_DAYS
    } else {
        MOST_HORIZON_DAYS
    }
}

// The days from one up to but not including another.
pub(crate) fn days_between(from_day: i64, to_day: i64) -> Horizon
    requires days { IsHorizon from_day to_day }
    ensures first { spec.from_day result ≡ from_day }
    ensures last { spec.to_day result ≡ to_day }
{
    match Horizon::new(from_day, to_day) {
        Ok(days) => days,
        Err(_) => unreachable!(),
    }
}

// The earlier of the first seconds that each of two domains has alone.
fn earlier(first: Option<Sec>, second: Option<Sec>) -> Option<Apart>
    ensures value { result ≡ earlier first second }
{
    match first {
        Some(of_first) => match second {
            Some(of_second) => Some(earlier_of(of_first, of_second)),
            None => Some(Apart {
                second: of_first,
                side: Side::First,
            }),
        },
        None => match second {
            Some(of_second) => Some(Apart {
                second: of_second,
                side: Side::Second,
            }),
            None => None,
        },
    }
}

fn earlier_of(first: Sec, second: Sec) -> Apart
    ensures value { result ≡ earlier_of first second }
{
    if second.0 < first.0 {
        Apart {
            second,
            side: Side::Second,
        }
    } else {
        Apart {
            second: first,
            side: Side::First,
        }
    }
}

// The first second from the given one on, and before the end of the days, that one of the domains has alone.
fn first_apart(
    alloc: Global,
    first: &Domain,
    second: &Domain,
    from: Sec,
    days: Horizon,
) -> Result<Option<Apart>, AllocError>
    requires begun { (whole days).from ≤ℤ from.0 }
    ensures apart { IfOk result (λ found. MatchOption found
        (AgreeFrom (InDomain first.now) (InDomain second.now) from.0 (whole days).until)
        (IsApart (InDomain first.now) (InDomain second.now) from.0 (whole days).until)) }
{
    let of_first = first_alone(alloc, first, second, from, days)?;
    let of_second = first_alone(alloc, second, first, from, days)?;
    Ok(earlier(of_first, of_second))
}

// The first second of the next four years that one of the domains has alone, if there is one. Of domains that both repeat after
// 7 days a week decides anyway, so that none is looked for.
fn near_apart(
    alloc: Global,
    first: &Domain,
    second: &Domain,
    from: Sec,
) -> Result<Option<Apart>, AllocError>
    requires moment { IsMomentSecond from.0 }
    ensures apart { IfOk result (λ found. IfSome found (IsApart (InDomain first.now) (InDomain second.now) from.0 last_end)) }
{
    if days_to_repeat(first, second) == WEEKLY_DAYS {
        return Ok(None);
    }
    let day = from.day();
    let near = days_between(day, day + NEAR_DAYS);
    first_apart(alloc, first, second, from, near)
}

// How two domains without years compare, which may differ in the next four years.
fn compare_soon(
    alloc: Global,
    first: &Domain,
    second: &Domain,
    from: Sec,
) -> Result<Comparison, AllocError>
    requires moment { IsMomentSecond from.0 }
    requires no_year { EitherGivesYear first.now second.now → ⊥ }
    ensures compared { IfOk result (IsComparison first.now second.now from.0) }
{
    match near_apart(alloc, first, second, from)? {
        Some(apart) => Ok(Comparison::Apart(apart)),
        None => compare_ever(alloc, first, second, from),
    }
}

// How two domains without years compare.
fn compare_ever(
    alloc: Global,
    first: &Domain,
    second: &Domain,
    from: Sec,
) -> Result<Comparison, AllocError>
    requires moment { IsMomentSecond from.0 }
    requires no_year { EitherGivesYear first.now second.now → ⊥ }
    ensures compared { IfOk result (IsComparison first.now second.now from.0) }
{
    let day = from.day();
    let days = days_between(day, day + days_to_repeat(first, second));
    match first_apart(alloc, first, second, from, days)? {
        Some(apart) => Ok(Comparison::Apart(apart)),
        None => Ok(Comparison::Same),
    }
}

// How two domains compare of which one gives a year. What is left of the years needs two horizons.
fn compare_in_years(
    alloc: Global,
    first: &Domain,
    second: &Domain,
    from: Sec,
) -> Result<Comparison, AllocError>
    requires moment { IsMomentSecond from.0 }
    requires year { EitherGivesYear first.now second.now }
    ensures compared { IfOk result (IsComparison first.now second.now from.0) }
{
    let day = from.day();
    let middle = day + MOST_HORIZON_DAYS;
    let early = days_between(day, middle);
    let late = days_between(middle, HORIZONS_END);
    match first_apart(alloc, first, second, from, early)? {
        Some(apart) => Ok(Comparison::Apart(apart)),
        None => match first_apart(alloc, first, second, late.from(), late)? {
            Some(apart) => Ok(Comparison::Apart(apart)),
            None => Ok(Comparison::SameUntil2700),
        },
    }
}

/// How the seconds of two domains compare, from a moment on. If no start gives a year, this decides all time: the domains are
/// the same exactly if each second ever is in both or in neither. If some start gives a year, the seconds from the moment on
/// and before 2700-01-01 are compared. Domains that both repeat after 7 days are compared for a week, and others without years
/// for 400 years. Both together may have more than 128 basic domains.
///
/// ```
/// let weekdays = read_domain(alloc, b"[(t2t3t4t5t6h8){h9}]")?;
/// let each_day = read_domain(alloc, b"[(h8){h9}]")?;
/// // 2024-03-15T12:00:00, a Friday: on Saturday only the second domain begins.
/// let Comparison::Apart(apart) = compare(alloc, &weekdays, &each_day, Sec(1_710_504_000))? else {
///     panic!(&rt; "they differ");
/// };
/// assert_eq!(rt; apart.second, Sec(1_710_576_000));
/// assert_eq!(rt; apart.side, Side::Second);
/// ```
pub fn compare(
    alloc: Global,
    first: &Domain,
    second: &Domain,
    from: Sec,
) -> Result<Comparison, AllocError>
    requires moment { IsMomentSecond from.0 }
    ensures compared { IfOk result (IsComparison first.now second.now from.0) }
{
    if gives_year(first.expr()) || gives_year(second.expr()) {
        compare_in_years(alloc, first, second, from)
    } else {
        compare_soon(alloc, first, second, from)
    }
}
