//! When two expressions are equal. It is written by hand, since two are equal if their trees are.

ghost use Rattle.std.specs.Prelude.{◌≡◌};
ghost use Rattle.gtd_core.specs.Parts.{domain_tree};
ghost use Rattle.gtd_core.specs.Trees.{Single, tree_of};
ghost use Rattle.gtd_core.specs.Equality.{same_start, same_duration, same_op, same_tree};
ghost use Rattle.gtd_core.specs.facts.EqualTrees.{tree_equivalence, tree_partial_equivalence};
ghost use Rattle.std.specs.Cmp.{on_per, on_equiv};

use crate::domain::{Basic, Domain, Expr, Op};
use crate::duration::DurationParts;
use crate::start::StartParts;

impl PartialEq for Expr {
    ghost eq = { λ a b. same_tree (tree_of a) (tree_of b) };

    ghost laws = { on_per tree_of tree_partial_equivalence };

    fn eq(&self, other: &Expr) -> bool {
        match (self, other) {
            (Expr::Leaf(basic), Expr::Leaf(other)) => is_same_basic(basic, other),
            (Expr::Join(op, left, right), Expr::Join(other_op, other_left, other_right)) => {
                is_same_op(*op, *other_op) && **left == **other_left && **right == **other_right
            }
            _ => false,
        }
    }
}

impl Eq for Expr {
    ghost laws = { on_equiv tree_of tree_equivalence };
}

impl PartialEq for Domain {
    ghost eq = { λ a b. same_tree (domain_tree a) (domain_tree b) };

    ghost laws = { on_per domain_tree tree_partial_equivalence };

    fn eq(&self, other: &Domain) -> bool {
        *self.expr() == *other.expr()
    }
}

impl Eq for Domain {
    ghost laws = { on_equiv domain_tree tree_equivalence };
}

#[tactic(auto, using(crate::specs::facts::EqualTrees::start_decided, crate::specs::facts::EqualTrees::duration_decided))]
fn is_same_basic(basic: &Basic, other: &Basic) -> bool
    ensures { result ≡ same_tree (Single basic.now.start.parts basic.now.duration.parts)
        (Single other.now.start.parts other.now.duration.parts) }
{
    is_same_start(basic.start.parts(), other.start.parts())
        && is_same_duration(basic.duration.parts(), other.duration.parts())
}

#[tactic(auto, using(crate::specs::facts::EqualTrees::start_decided))]
fn is_same_start(start: StartParts, other: StartParts) -> bool
    ensures { result ≡ same_start start other }
{
    start == other
}

#[tactic(auto, using(crate::specs::facts::EqualTrees::duration_decided))]
fn is_same_duration(duration: DurationParts, other: DurationParts) -> bool
    ensures { result ≡ same_duration duration other }
{
    duration == other
}

fn is_same_op(op: Op, other: Op) -> bool
    ensures { result ≡ same_op op other }
{
    op == other
}
