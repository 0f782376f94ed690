//! How long an expression stays as it is, at later and later seconds.

ghost use Rattle.std.specs.Prelude.{◌≡◌, ◌<ℤ◌, IfOk};
ghost use Rattle.gtd_core.specs.Trees.{tree_of};
ghost use Rattle.gtd_core.specs.Whole.{whole};
ghost use Rattle.gtd_eval.specs.Asked.{EndAt, HaveCome, asked_tree};
ghost use Rattle.gtd_eval.specs.Membership.{InTree};
ghost use Rattle.gtd_eval.specs.Stays.{IsStay};

use crate::basic_stays::BasicStays;
use crate::stay::Stay;
use gtd_core::{Expr, Horizon, Op, Sec};
use std::alloc::{AllocError, Global};

/// The stays of an expression: those of a basic domain, or what an operator makes of two sides. What lies between two seconds
/// that are asked for is not looked at.
#[derive(Drop)]
pub(crate) enum ExprStays {
    Basic(BasicStays),
    Join(Op, Box<(ExprStays, ExprStays)>),
}

/// The stays of an expression in a horizon.
pub(crate) fn stays_of(
    alloc: Global,
    expr: &Expr,
    horizon: Horizon,
) -> Result<ExprStays, AllocError>
    ensures tree { IfOk result (λ stays. asked_tree stays ≡ tree_of expr.now) }
    ensures come { IfOk result (λ stays. HaveCome (whole horizon).from stays) }
    ensures end { IfOk result (λ stays. EndAt (whole horizon).until stays) }
{
    match expr {
        Expr::Leaf(basic) => Ok(ExprStays::Basic(BasicStays::new(*basic, horizon))),
        Expr::Join(op, left, right) => {
            let left = stays_of(alloc, left, horizon)?;
            let right = stays_of(alloc, right, horizon)?;
            let both = Box::new(alloc, (left, right))?;
            Ok(ExprStays::Join(*op, both))
        }
    }
}

/// The stay of the expression at a second, which is not before the one that was asked for last, in a horizon with that end.
pub(crate) fn stay_at(stays: &mut ExprStays, at: Sec, end: Sec) -> Stay
    requires come { HaveCome at.0 stays.old }
    requires end { EndAt end.0 stays.old }
    requires early { at.0 <ℤ end.0 }
    ensures tree { asked_tree stays.new ≡ asked_tree stays.old }
    ensures come { HaveCome at.0 stays.new }
    ensures end { EndAt end.0 stays.new }
    ensures stays { IsStay (InTree (asked_tree stays.old)) at.0 end.0 result }
{
    match stays {
        ExprStays::Basic(basic) => basic.stay(at),
        ExprStays::Join(op, both) => {
            let (left, right) = &mut **both;
            let first = stay_at(left, at, end);
            let second = stay_at(right, at, end);
            Stay::joined(*op, first, second)
        }
    }
}
