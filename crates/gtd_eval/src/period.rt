//! The periods after which domains repeat.

ghost use Rattle.std.specs.Prelude.{◌≤ℤ◌, IfSome, MatchOption};
ghost use Rattle.gtd_core.specs.Parts.{domain_tree};
ghost use Rattle.gtd_core.specs.Trees.{tree_of};
ghost use Rattle.gtd_recur.specs.Periods.{period_seconds};
ghost use Rattle.gtd_recur.specs.declared.period.Period.{Period as spec};
ghost use Rattle.gtd_eval.specs.Periods.{AllRepeat};
ghost use Rattle.gtd_eval.specs.Weekly.{AllWeekly};

use gtd_core::{Domain, Expr};
use gtd_recur::{Period, period_of as period_of_basic};

// The shortest period after which each basic domain of the expression repeats.
pub(crate) fn period_of_all(expr: &Expr) -> Option<Period>
    ensures period { MatchOption result (AllWeekly (tree_of expr.now) → ⊥)
        (λ x. AllRepeat (period_seconds x) (tree_of expr.now)) }
    ensures least { IfSome result (λ x. (y : spec) → AllRepeat (period_seconds y) (tree_of expr.now)
        → period_seconds x ≤ℤ period_seconds y) }
{
    match expr {
        Expr::Leaf(basic) => period_of_basic(basic),
        Expr::Join(_, left, right) => {
            let left = period_of_all(left)?;
            let right = period_of_all(right)?;
            Some(left.longer(right))
        }
    }
}

/// The shortest period after which each basic domain of the domain repeats. Then the domain does too. `None` is answered
/// exactly if some basic domain does not repeat after a week. Takes no memory.
///
/// ```
/// assert_eq!(rt; period_of(&read_domain(alloc, b"[(h10){h4}]")?), Some(Period::Day));
/// assert_eq!(rt; period_of(&read_domain(alloc, b"[(t2h10){h4}]")?), Some(Period::Week));
/// assert_eq!(rt; period_of(&read_domain(alloc, b"[(M5h10){h4}]")?), None);
/// ```
pub fn period_of(domain: &Domain) -> Option<Period>
    ensures period { MatchOption result (AllWeekly (domain_tree domain.now) → ⊥)
        (λ x. AllRepeat (period_seconds x) (domain_tree domain.now)) }
    ensures least { IfSome result (λ x. (y : spec) → AllRepeat (period_seconds y) (domain_tree domain.now)
        → period_seconds x ≤ℤ period_seconds y) }
{
    period_of_all(domain.expr())
}
