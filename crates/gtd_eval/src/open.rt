//! The trees of domains.

ghost use Rattle.std.specs.Prelude.{◌≡◌, ◌≤◌, IsFalse};
ghost use Rattle.gtd_core.specs.Limits.{most_basic_domains};
ghost use Rattle.gtd_core.specs.Trees.{leaf_count, tree_of};
ghost use Rattle.gtd_eval.specs.Exprs.{IsBasic, IsBasicChain};

use crate::leaf::Leaf;
use crate::node::Node;
use crate::tree::SweepTree;
use gtd_core::{Domain, Expr, Horizon, Op};
use std::alloc::{AllocError, Global};

// How many basic domains an expression has.
pub(crate) fn basic_domains(expr: &Expr) -> usize
    requires few { leaf_count (tree_of expr.now) ≤ most_basic_domains }
    ensures value { result ≡ leaf_count (tree_of expr.now) }
{
    match expr {
        Expr::Leaf(_) => 1,
        Expr::Join(_, left, right) => basic_domains(left) + basic_domains(right),
    }
}

// Whether an expression is a part of a chain of the operator: a smaller one.
fn is_part(op: Op, expr: &Expr) -> bool
    ensures term { IsFalse result → IsBasicChain op (tree_of expr.now) → IsBasic (tree_of expr.now) }
    ensures basic { IsBasic (tree_of expr.now) → IsFalse result }
{
    match expr {
        Expr::Leaf(_) => false,
        Expr::Join(inner, _, _) => *inner == op,
    }
}

impl<L: Leaf> SweepTree<L> {
    ghost use Rattle.std.specs.Prelude.{◌≡◌, ◌≤◌, ◌+◌, ◌*◌, ◌^◌, ℕ, List, length, IfOk, IsFalse, IsTrue, OnOk};
    ghost use Rattle.gtd_core.specs.Limits.{most_basic_domains};
    ghost use Rattle.gtd_core.specs.Parts.{domain_tree};
    ghost use Rattle.gtd_core.specs.Trees.{Joined, leaf_count, tree_of};
    ghost use Rattle.gtd_core.specs.declared.domain.Op as declared;
    ghost use Rattle.gtd_eval.specs.Chains.{AreTerms};
    ghost use Rattle.gtd_eval.specs.Cursors.{cursor_list, cursor_nodes, cursor_height, cursor_work, cursor_size, domain_work, IsAtStart};
    ghost use Rattle.gtd_eval.specs.Exprs.{IsBasic, IsBasicChain, IsOfExpr, expr_work};
    ghost use Rattle.gtd_eval.specs.Membership.{InDomain, IsNormalOver};
    ghost use Rattle.gtd_eval.specs.declared.tree.SweepTree.{SweepTree as declared_tree};

    /// The cursor of the seconds of a domain in a horizon. For k basic domains it has 2k - 1 nodes. Its tree is balanced
    /// over each chain of one operator: a chain of 2^k basic domains makes a tree of at most k + 1 levels.
    ///
    /// ```
    /// let domain = read_domain(alloc, b"[(h10){h4}]")?;
    /// // From 2024-01-01 up to the next day.
    /// let horizon = Horizon::new(19_723, 19_724).expect(&rt, "a horizon");
    /// let mut cursor = Cursor::open(alloc, &domain, horizon)?;
    /// let span = Span::new(Sec(1_704_103_200), Sec(1_704_117_600));
    /// assert_eq!(rt; cursor.next(), span);
    /// ```
    pub fn open(
        alloc: Global,
        domain: &Domain,
        horizon: Horizon,
    ) -> Result<SweepTree<L>, AllocError>
        ensures normal { IfOk result
            (λ c. IsNormalOver (InDomain domain.now) horizon (cursor_list c)) }
        ensures nodes { IfOk result
            (λ c. cursor_nodes c + 1 ≡ 2 * leaf_count (domain_tree domain.now)) }
        ensures work { IfOk result (λ c. cursor_work c ≡ domain_work domain.now horizon) }
        ensures height { (op : declared.Op) (k : ℕ) → IsBasicChain op (domain_tree domain.now)
            → leaf_count (domain_tree domain.now) ≤ 2 ^ k → IfOk result (λ c. cursor_height c ≤ k + 1) }
        ensures start { IfOk result IsAtStart }
    {
        SweepTree::<L>::of_expr(alloc, domain.expr(), horizon)
    }

    // The cursor of the seconds of an expression.
    pub(crate) fn of_expr(
        alloc: Global,
        expr: &Expr,
        horizon: Horizon,
    ) -> Result<SweepTree<L>, AllocError>
        requires few { leaf_count (tree_of expr.now) ≤ most_basic_domains }
        ensures whole { IfOk result (λ c. IsOfExpr expr.now horizon (cursor_list c) (cursor_size c)) }
        ensures start { IfOk result IsAtStart }
    {
        let found = L::of_expr(alloc, expr, horizon)?;
        match found {
            Some(leaf) => {
                let leaf = Box::new(alloc, leaf)?;
                Ok(SweepTree {
                    node: Node::Leaf(leaf),
                    moved: false,
                })
            }
            None => SweepTree::<L>::balanced(alloc, expr, horizon),
        }
    }

    // The balanced tree of an expression.
    fn balanced(alloc: Global, expr: &Expr, horizon: Horizon) -> Result<SweepTree<L>, AllocError>
        requires few { leaf_count (tree_of expr.now) ≤ most_basic_domains }
        ensures whole { IfOk result (λ c. IsOfExpr expr.now horizon (cursor_list c) (cursor_size c)) }
        ensures start { IfOk result IsAtStart }
    {
        let mut cursors = Vec::with_capacity(alloc, basic_domains(expr))?;
        SweepTree::<L>::push_terms(alloc, Op::Union, expr, horizon, &mut cursors)?;
        let count = cursors.len();
        let node = SweepTree::<L>::join_last(alloc, Op::Union, &mut cursors, count)?;
        Ok(SweepTree { node, moved: false })
    }

    // Appends cursors for an expression to a list: one for each term of a chain of the operator, and a single one for
    // an expression of another operator.
    fn push_terms(
        alloc: Global,
        op: Op,
        expr: &Expr,
        horizon: Horizon,
        cursors: &mut Vec<SweepTree<L>>,
    ) -> Result<(), AllocError>
        requires few { leaf_count (tree_of expr.now) ≤ most_basic_domains }
        ensures terms { OnOk result
            (AreTerms op (tree_of expr.now) horizon (expr_work expr.now horizon) cursors.old.items cursors.new.items) }
    {
        if SweepTree::<L>::push_term(alloc, op, expr, horizon, cursors)? {
            return Ok(());
        }
        match expr {
            Expr::Leaf(_) => unreachable!(),
            Expr::Join(inner, left, right) => {
                let before = cursors.len();
                SweepTree::<L>::push_terms(alloc, *inner, left, horizon, cursors)?;
                SweepTree::<L>::push_terms(
                    alloc,
                    SweepTree::<L>::right_of(*inner),
                    right,
                    horizon,
                    cursors,
                )?;
                if *inner == op {
                    return Ok(());
                }
                let count = cursors.len() - before;
                SweepTree::<L>::push_chain(alloc, *inner, left, right, count, horizon, cursors)
            }
        }
    }

    // Appends the leaf of an expression to a list, if there is one and if the expression is not a part of a chain of the operator
    // but a term of it, and answers whether it did. It stands alone, so that the walk down an expression needs little of the
    // stack: what a function needs of it is cleared at each call.
    #[inline(never)]
    fn push_term(
        alloc: Global,
        op: Op,
        expr: &Expr,
        horizon: Horizon,
        cursors: &mut Vec<SweepTree<L>>,
    ) -> Result<bool, AllocError>
        requires few { leaf_count (tree_of expr.now) ≤ most_basic_domains }
        ensures term { IfOk result (λ pushed. IsTrue pushed
            → AreTerms op (tree_of expr.now) horizon (expr_work expr.now horizon) cursors.old.items cursors.new.items) }
        ensures none { IfOk result (λ pushed. IsFalse pushed → cursors.new.items ≡ cursors.old.items) }
        ensures basic { IsBasic (tree_of expr.now) → IfOk result (λ pushed. IsTrue pushed) }
    {
        if is_part(op, expr) {
            return Ok(false);
        }
        let Some(leaf) = L::of_expr(alloc, expr, horizon)? else {
            return Ok(false);
        };
        let leaf = Box::new(alloc, leaf)?;
        cursors.push(SweepTree {
            node: Node::Leaf(leaf),
            moved: false,
        })?;
        Ok(true)
    }

    // Puts one cursor of the chain, by an operator, of the terms of a left and a right side in place of these terms, which
    // are so many cursors at the end of the list.
    #[inline(never)]
    fn push_chain(
        alloc: Global,
        inner: Op,
        _left: &Expr,
        _right: &Expr,
        count: usize,
        _horizon: Horizon,
        cursors: &mut Vec<SweepTree<L>>,
    ) -> Result<(), AllocError>
        requires few { leaf_count (Joined inner (tree_of _left.now) (tree_of _right.now)) ≤ most_basic_domains }
        requires chain { (before : List (declared_tree L L.Leaf))
            × (given : AreTerms inner (Joined inner (tree_of _left.now) (tree_of _right.now))
            _horizon (expr_work _left.now _horizon + expr_work _right.now _horizon) before cursors.old.items)
            × (count ≡ length given.terms) }
        ensures term { (op : declared.Op) → (inner ≡ op → ⊥) → (before : List (declared_tree L L.Leaf))
            → (given : AreTerms inner (Joined inner (tree_of _left.now) (tree_of _right.now)) _horizon
            (expr_work _left.now _horizon + expr_work _right.now _horizon) before cursors.old.items) → count ≡ length given.terms
            → OnOk result (AreTerms op (Joined inner (tree_of _left.now) (tree_of _right.now)) _horizon
            (expr_work _left.now _horizon + expr_work _right.now _horizon) before cursors.new.items) }
    {
        let node = SweepTree::<L>::join_last(alloc, inner, cursors, count)?;
        cursors.push(SweepTree { node, moved: false })?;
        Ok(())
    }
}
