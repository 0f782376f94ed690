//! Expressions that are made here.

ghost use Rattle.std.specs.Prelude.{◌≡◌, ◌+◌, IfOk};
ghost use Rattle.gtd_core.specs.Trees.{Joined, leaf_count, tree_of};
ghost use Rattle.gtd_conditional_rows.specs.Times.{counted, every_day};

use gtd_core::{Basic, Duration, DurationParts, Expr, Op, Start, StartParts};
use std::alloc::{AllocError, Global};

// The whole of each day.
pub(crate) fn every_day() -> Expr
    ensures { tree_of result ≡ every_day }
{
    let start = Start::new(StartParts {
        hour: Some(0),
        minute: Some(0),
        ..StartParts::default()
    });
    match start {
        Some(start) => match Duration::new(DurationParts {
            days: 1,
            ..DurationParts::default()
        }) {
            Some(duration) => Expr::Leaf(Basic { start, duration }),
            None => unreachable!(),
        },
        None => unreachable!(),
    }
}

// The two, joined.
pub(crate) fn joined(alloc: Global, op: Op, left: Expr, right: Expr) -> Result<Expr, AllocError>
    ensures { IfOk result (λ e. tree_of e ≡ Joined op (tree_of left) (tree_of right)) }
{
    Ok(Expr::Join(op, Box::new(alloc, left)?, Box::new(alloc, right)?))
}

// How many basic domains an expression has, or `u32::MAX` if it has more.
pub(crate) fn leaves(expr: &Expr) -> u32
    ensures { result ≡ counted (leaf_count (tree_of expr.now)) }
{
    match expr {
        Expr::Leaf(_) => 1,
        Expr::Join(_, left, right) => {
            let first = leaves(left);
            let second = leaves(right);
            sum(first, second)
        }
    }
}

// A sum, or `u32::MAX` if it is greater.
pub(crate) fn sum(a: u32, b: u32) -> u32
    ensures { result ≡ counted (a + b) }
{
    a.saturating_add(b)
}
