//! Whether a domain contains a second.

ghost use Rattle.std.specs.Prelude.{◌↔◌, IsTrue, ◌≡◌, ◌⊎◌, pos};
ghost use Rattle.gtd_core.specs.Parts.{domain_tree};
ghost use Rattle.gtd_core.specs.Trees.{tree_of};
ghost use Rattle.gtd_core.specs.Seconds.{IsHorizonSecond};
ghost use Rattle.gtd_eval.specs.Membership.{InDomain, InTree, SomeGivesYear};
ghost use Rattle.gtd_eval.specs.Weekly.{AllWeekly};
ghost use Rattle.gtd_core.specs.Limits.{most_horizon_days};

use gtd_core::limits::MOST_HORIZON_DAYS;
use gtd_core::{Domain, Expr, Op, Sec};
use gtd_recur::{covers, is_weekly as is_basic_weekly};

/// Whether the domain contains the second, which is on a day that a horizon may have. Takes no memory.
///
/// ```
/// let domain = read_domain(alloc, b"[(M5h10){h1}]")?;
/// // 2024-05-17T10:59:59, and the next second.
/// assert!(rt; holds(&domain, Sec(1_715_943_599)));
/// assert!(rt; !holds(&domain, Sec(1_715_943_600)));
/// ```
pub fn holds(domain: &Domain, second: Sec) -> bool
    requires in_range { IsHorizonSecond second.0 }
    ensures member { IsTrue result ↔ InDomain domain.now second.0 }
{
    is_in(domain.expr(), second)
}

fn is_in(expr: &Expr, second: Sec) -> bool
    requires in_range { IsHorizonSecond second.0 }
    ensures member { IsTrue result ↔ InTree (tree_of expr.now) second.0 }
{
    match expr {
        Expr::Leaf(basic) => covers(basic, second),
        Expr::Join(op, left, right) => match op {
            Op::Union => is_in(left, second) || is_in(right, second),
            Op::Meet => is_in(left, second) && is_in(right, second),
            Op::Minus => is_in(left, second) && !is_in(right, second),
        },
    }
}

// Whether some start of the expression gives a year.
pub(crate) fn gives_year(expr: &Expr) -> bool
    ensures given { IsTrue result ↔ SomeGivesYear (tree_of expr.now) }
{
    match expr {
        Expr::Leaf(basic) => basic.start.parts().year.is_some(),
        Expr::Join(_, left, right) => gives_year(left) || gives_year(right),
    }
}

// Whether each basic domain of the expression repeats after 7 days.
pub(crate) fn all_weekly(expr: &Expr) -> bool
    ensures weekly { IsTrue result ↔ AllWeekly (tree_of expr.now) }
{
    match expr {
        Expr::Leaf(basic) => is_basic_weekly(basic),
        Expr::Join(_, left, right) => all_weekly(left) && all_weekly(right),
    }
}

/// Whether each basic domain of the domain repeats after 7 days. Then the domain does too. Takes no memory.
///
/// ```
/// assert!(rt; is_weekly(&read_domain(alloc, b"[(t2h10){h4}]")?));
/// assert!(rt; !is_weekly(&read_domain(alloc, b"[(M5h10){h4}]")?));
/// ```
pub fn is_weekly(domain: &Domain) -> bool
    ensures weekly { IsTrue result ↔ AllWeekly (domain_tree domain.now) }
{
    all_weekly(domain.expr())
}

/// The days after which an expression without a year repeats, 7 or the 146,097 of 400 years, and one more: the rest of
/// a moment's own day.
pub(crate) fn days_to_repeat(expr: &Expr) -> i64
    ensures days { (result ≡ pos most_horizon_days) ⊎ ((result ≡ pos 8) × AllWeekly (tree_of expr.now)) }
    ensures short { AllWeekly (tree_of expr.now) → result ≡ pos 8 }
{
    if all_weekly(expr) {
        8
    } else {
        MOST_HORIZON_DAYS
    }
}
