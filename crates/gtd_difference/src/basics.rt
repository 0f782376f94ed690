//! Whether the basic domains of two expressions show that each second of the one is in the other.

ghost use Rattle.std.specs.Prelude.{◌≡◌, IfOk, IsTrue};
ghost use Rattle.gtd_core.specs.Parts.{domain_tree};
ghost use Rattle.gtd_core.specs.Trees.{tree_of};
ghost use Rattle.gtd_difference.specs.Difference.{IsPart, single_of};

use crate::week::is_shown_by_week;
use crate::within::is_within_whole;
use gtd_core::{Basic, Domain, Expr, Op};
use std::alloc::{AllocError, Global};

/// How many basic domains each of two expressions may have: each of the one is compared with each of the other.
const MOST_PARTS: u8 = 4;

// How many basic domains an expression may still have with another one, of at most so many: `None` if it has more.
fn rest_of(expr: &Expr, most: u8) -> Option<u8> {
    match expr {
        Expr::Leaf(_) => most.checked_sub(1),
        Expr::Join(_, left, right) => {
            let rest = rest_of(left, most)?;
            rest_of(right, rest)
        }
    }
}

fn is_joined(expr: &Expr) -> bool {
    match expr {
        Expr::Leaf(_) => false,
        Expr::Join(..) => true,
    }
}

/// Whether the parts of two expressions are few, and more than the expressions themselves.
pub(crate) fn have_few_parts(expr: &Expr, other: &Expr) -> bool {
    if !is_joined(expr) && !is_joined(other) {
        return false;
    }
    rest_of(expr, MOST_PARTS).is_some() && rest_of(other, MOST_PARTS).is_some()
}

/// The domain of a basic domain.
pub(crate) fn single(basic: &Basic) -> Domain
    ensures tree { domain_tree result ≡ single_of basic.now }
{
    match Domain::new(Expr::Leaf(*basic)) {
        Ok(domain) => domain,
        Err(_) => unreachable!(),
    }
}

// Whether each second of a basic domain is in another.
fn is_basic_within(alloc: Global, basic: &Basic, other: &Basic) -> Result<bool, AllocError>
    ensures shown { IfOk result (λ shown. IsTrue shown → IsPart (single_of basic.now) (single_of other.now)) }
{
    let alone = single(basic);
    let whole = single(other);
    if alone == whole {
        return Ok(true);
    }
    if is_shown_by_week(alloc, basic, &whole)? {
        return Ok(true);
    }
    is_within_whole(alloc, &alone, &whole)
}

// Whether the basic domains of an expression show that each of its seconds is in a basic domain.
fn is_shown_in(alloc: Global, expr: &Expr, other: &Basic) -> Result<bool, AllocError>
    ensures shown { IfOk result (λ shown. IsTrue shown → IsPart (tree_of expr.now) (single_of other.now)) }
{
    match expr {
        Expr::Leaf(basic) => is_basic_within(alloc, basic, other),
        Expr::Join(op, left, right) => match op {
            Op::Union => {
                if !is_shown_in(alloc, left, other)? {
                    return Ok(false);
                }
                is_shown_in(alloc, right, other)
            }
            Op::Meet => {
                if is_shown_in(alloc, left, other)? {
                    return Ok(true);
                }
                is_shown_in(alloc, right, other)
            }
            Op::Minus => is_shown_in(alloc, left, other),
        },
    }
}

/// Whether the basic domains of two expressions show that each second of the one is in the other. If they do not show it, it may
/// still be so.
pub(crate) fn is_shown_within(alloc: Global, expr: &Expr, other: &Expr) -> Result<bool, AllocError>
    ensures shown { IfOk result (λ shown. IsTrue shown → IsPart (tree_of expr.now) (tree_of other.now)) }
{
    match other {
        Expr::Leaf(basic) => is_shown_in(alloc, expr, basic),
        Expr::Join(op, left, right) => match op {
            Op::Union => {
                if is_shown_within(alloc, expr, left)? {
                    return Ok(true);
                }
                is_shown_within(alloc, expr, right)
            }
            Op::Meet => {
                if !is_shown_within(alloc, expr, left)? {
                    return Ok(false);
                }
                is_shown_within(alloc, expr, right)
            }
            Op::Minus => Ok(false),
        },
    }
}
