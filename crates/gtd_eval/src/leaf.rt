//! What stands at the leaves of a tree of sweeps.

ghost use Rattle.std.specs.Prelude.{◌≡◌, ◌≤◌, ◌+◌, ◌*◌, ℕ, List, IfOk, IfSome, IsSome};
ghost use Rattle.gtd_core.specs.Limits.{most_basic_domains};
ghost use Rattle.gtd_core.specs.Seconds.{Interval};
ghost use Rattle.gtd_core.specs.Trees.{leaf_count, tree_of};
ghost use Rattle.gtd_spans.specs.Normal.{IsNormal};
ghost use Rattle.gtd_spans.specs.Skipping.{LeavesOut};
ghost use Rattle.gtd_spans.specs.Sweeping.{Takes};
ghost use Rattle.gtd_eval.specs.Exprs.{IsBasic, IsOfExpr};
ghost use Rattle.gtd_eval.specs.Shape.{Size};
ghost use Rattle.gtd_eval.specs.Within.{AreInside, IsReadyWithin, TakesWithin};

use crate::taker::SpanTaker;
use gtd_core::{Expr, Horizon, Sec, Span};
use gtd_spans::Bounds;
use std::alloc::{AllocError, Global};

/// A leaf of a tree of sweeps: it hands out the spans of a basic domain, or of a larger expression.
pub trait Leaf: Drop {
    // The spans that are still to come.
    ghost leaf_list: { Self → List Interval };

    // The spans that were to come before the first was handed out.
    ghost leaf_whole: { Self → List Interval };

    // How large it is. Handing out spans does not change it.
    ghost leaf_size: { Self → Size };

    // The days that its runs have looked at, and the starts that they have taken.
    ghost leaf_ticks: { Self → ℕ };

    // How many spans it keeps of its periods.
    ghost leaf_kept: { Self → ℕ };

    // How many spans it keeps of those that it handed out before.
    ghost leaf_told: { Self → ℕ };

    /// The leaf of all seconds of an expression in a horizon, if it is one that a leaf can stand for. A leaf can stand for each
    /// basic domain.
    fn of_expr(alloc: Global, expr: &Expr, horizon: Horizon) -> Result<Option<Self>, AllocError>
        requires few { leaf_count (tree_of expr.now) ≤ most_basic_domains }
        ensures whole { IfOk result (λ found. IfSome found
            (λ l. IsOfExpr expr.now horizon (leaf_list l) (leaf_size l))) }
        ensures basic { IsBasic (tree_of expr.now) → IfOk result (λ found. IsSome found) }
        ensures start { IfOk result (λ found. IfSome found (λ l. leaf_list l ≡ leaf_whole l)) };

    /// Takes the first span off the list that is still to come.
    fn next_span(&mut self) -> Option<Span>
        ensures takes { Takes (leaf_list self.old) result (leaf_list self.new) }
        ensures size { leaf_size self.new ≡ leaf_size self.old }
        ensures whole { leaf_whole self.new ≡ leaf_whole self.old };

    /// May leave out first spans that end by a second.
    fn skip_to(&mut self, second: Sec)
        ensures leaves { LeavesOut second.0 (leaf_list self.old) (leaf_list self.new) }
        ensures size { leaf_size self.new ≡ leaf_size self.old }
        ensures whole { leaf_whole self.new ≡ leaf_whole self.old };

    /// Hands first spans that lie inside of bounds to a taker, each as it is found. There may be more of them. Answers whether the
    /// taker asks for more. It must be ready for each list that begins with such spans.
    fn each_within<E, T: SpanTaker<E>>(
        &mut self,
        bounds: Bounds,
        into: &mut E,
        taker: &mut T,
    ) -> bool
        requires ready { IsReadyWithin T.is_ready (AreInside bounds) (leaf_list self.old) into.old taker.old }
        ensures takes { TakesWithin T.is_ready T.takes (AreInside bounds) (leaf_list self.old) into.old taker.old
            (leaf_list self.new) into.new taker.new result }
        ensures size { leaf_size self.new ≡ leaf_size self.old }
        ensures whole { leaf_whole self.new ≡ leaf_whole self.old };

    /// Begins again with the first span. This takes no memory.
    fn begin_again(&mut self)
        ensures list { leaf_list self.new ≡ leaf_whole self.old }
        ensures size { leaf_size self.new ≡ leaf_size self.old }
        ensures whole { leaf_whole self.new ≡ leaf_whole self.old };

    /// How many nodes it stands for.
    fn nodes(&self) -> u64
        ensures value { result ≡ (leaf_size self.now).nodes };

    /// The days that its runs have looked at, and the starts that they have taken.
    fn ticks(&self) -> u64
        ensures value { result ≡ leaf_ticks self.now }
        ensures at_most { result ≤ (leaf_size self.now).work };

    /// How many spans it keeps of its periods.
    fn kept(&self) -> u64
        ensures value { result ≡ leaf_kept self.now };

    // The list is normal.
    ghost is_normal: { (leaf : Self) → IsNormal (leaf_list leaf) };

    // The whole list is normal.
    ghost is_whole_normal: { (leaf : Self) → IsNormal (leaf_whole leaf) };

    // The work of few nodes is small.
    ghost is_small: { (leaf : Self) → (leaf_size leaf).work ≤ 20000000000 * (leaf_size leaf).nodes };

    // Of each period few spans are kept.
    ghost keeps_few: { (leaf : Self) → leaf_kept leaf ≤ 4096 * (leaf_size leaf).periods };

    // For each node few spans are kept.
    ghost keeps_by_nodes: { (leaf : Self) → leaf_kept leaf ≤ 16 * ((leaf_size leaf).nodes + 1) };

    // Of those that were handed out not many more are kept.
    ghost tells_few: { (leaf : Self) → leaf_told leaf ≤ 16 * ((leaf_size leaf).nodes + 1) + 2 * (leaf_size leaf).periods };

    // There are no more periods than nodes.
    ghost has_few: { (leaf : Self) → (leaf_size leaf).periods ≤ (leaf_size leaf).nodes };
}
