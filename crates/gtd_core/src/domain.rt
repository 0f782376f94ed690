//! Time domains: basic ones, joined by operators.

ghost use Rattle.std.specs.Prelude.{◌≡◌, ◌≤◌, ◌<◌, ◌↔◌, ℕ, IfOk, IfErr, IsOk, IsSome, IfSome, ◌+◌};
ghost use Rattle.gtd_core.specs.Limits.{most_basic_domains};
ghost use Rattle.gtd_core.specs.Trees.{tree_of, leaf_count};

use crate::duration::Duration;
use crate::limits::MOST_BASIC_DOMAINS;
use crate::start::Start;

/// A basic domain: stretches of one duration, one from each second that the start matches.
#[derive(Clone, Copy, Debug, PartialEq, Eq)]
pub struct Basic {
    pub start: Start,
    pub duration: Duration,
}

/// What joins two expressions.
#[derive(Clone, Copy, Debug, PartialEq, Eq)]
pub enum Op {
    /// `+`: the seconds of either.
    Union,
    /// `*`: the seconds of both.
    Meet,
    /// `-`: the seconds of the left that are not in the right.
    Minus,
}

/// Basic domains, joined by operators. In contracts it is a `Tree`, which does not say where its parts lie in memory.
///
/// Calls and its drop recurse down the tree on the stack. A depth of up to 1,000 joins is safe; a `Domain` has at most
/// 127 joins.
#[derive(Debug, Drop)]
pub enum Expr {
    /// A single basic domain.
    Leaf(Basic),
    /// The left expression, joined to the right one.
    Join(Op, Box<Expr>, Box<Expr>),
}

/// A time domain: an expression of at most 128 basic domains. Two are equal if they are the same tree.
#[derive(Debug, Drop)]
pub struct Domain {
    expr: Expr,
    pub ghost few_leaves: { leaf_count (tree_of expr) ≤ most_basic_domains },
}

impl Domain {
    ghost use Rattle.gtd_core.specs.Parts.{domain_expr};

    /// The domain of an expression; or the expression itself, exactly if it has more than 128 basic domains.
    pub fn new(expr: Expr) -> Result<Domain, Expr>
        ensures kept { IfOk result (λ domain. domain_expr domain ≡ expr) }
        ensures given_back { IfErr result (λ back. back ≡ expr) }
        ensures accepted { IsOk result ↔ (leaf_count (tree_of expr) ≤ most_basic_domains) }
    {
        if leaves_within(&expr, MOST_BASIC_DOMAINS).is_some() {
            Ok(Domain { expr })
        } else {
            Err(expr)
        }
    }

    /// The expression that the domain was made from.
    pub fn expr(&self) -> &Expr
        ensures value { result.now ≡ domain_expr self.now }
    {
        &self.expr
    }
}

// The number less one for each leaf, or `None` if it is smaller than the number of leaves.
fn leaves_within(expr: &Expr, most: u8) -> Option<u8>
    ensures left { IfSome result (λ left. left + leaf_count (tree_of expr.now) ≡ most) }
    ensures enough { IsSome result ↔ (leaf_count (tree_of expr.now) ≤ most) }
{
    match expr {
        Expr::Leaf(_) => most.checked_sub(1),
        Expr::Join(_, left, right) => {
            let rest = leaves_within(left, most)?;
            leaves_within(right, rest)
        }
    }
}
