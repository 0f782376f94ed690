//! Whether two domains have the same seconds, over all time.

ghost use Rattle.std.specs.Prelude.{◌↔◌, ◌≤◌, ℤ, IfOk, IsTrue, IfSome};
ghost use Rattle.gtd_core.specs.Parts.{domain_tree, start_parts, duration_parts};
ghost use Rattle.gtd_core.specs.Trees.{tree_of};
ghost use Rattle.gtd_eval.specs.Membership.{InDomain};
ghost use Rattle.gtd_difference.specs.Difference.{AgreeFrom, first_begin, last_end};
ghost use Rattle.gtd_hours_search.specs.Years.{HasNearYears, IsNear};

use gtd_core::limits::MOST_BOUND;
use gtd_core::{Basic, Domain, Expr};
use gtd_difference::is_within;
use std::alloc::{AllocError, Global};

const FIRST_YEAR: u16 = 1_902;

const LAST_YEAR: u16 = 2_150;

// Whether the domains are equal. Then they have the same seconds.
fn is_equal(domain: &Domain, other: &Domain) -> bool
    ensures { IsTrue result → (s : ℤ) → InDomain domain.now s ↔ InDomain other.now s }
{
    *domain == *other
}

// Whether a basic domain gives no year, or one of which all stretches end long before 2700.
fn is_near(basic: &Basic) -> bool
    ensures { IsTrue result → IsNear (start_parts basic.now.start) (duration_parts basic.now.duration) }
{
    if basic.duration.bound() > MOST_BOUND as i64 {
        return false;
    }
    match basic.start.parts().year {
        None => true,
        Some(year) => FIRST_YEAR <= year && year <= LAST_YEAR,
    }
}

fn has_near_years(expr: &Expr) -> bool
    ensures { IsTrue result → HasNearYears (tree_of expr.now) }
{
    match expr {
        Expr::Leaf(basic) => is_near(basic),
        Expr::Join(_, left, right) => has_near_years(left) && has_near_years(right),
    }
}

// Whether the domains have the same seconds from 1901-01-01 up to 2700-01-01.
fn agree(alloc: Global, domain: &Domain, other: &Domain) -> Result<bool, AllocError>
    ensures { IfOk result (λ agree. IsTrue agree
        → AgreeFrom (InDomain domain.now) (InDomain other.now) first_begin last_end) }
{
    if !is_within(alloc, domain, other)? {
        return Ok(false);
    }
    is_within(alloc, other, domain)
}

// The same of all seconds, for domains whose years are near.
fn agree_ever(alloc: Global, domain: &Domain, other: &Domain) -> Result<bool, AllocError>
    requires near { HasNearYears (domain_tree domain.now) }
    requires others { HasNearYears (domain_tree other.now) }
    ensures { IfOk result (λ same. IsTrue same → (s : ℤ) → InDomain domain.now s ↔ InDomain other.now s) }
{
    agree(alloc, domain, other)
}

/// How domains are compared.
#[derive(Clone, Copy, PartialEq, Eq)]
pub enum Comparison {
    /// By their expressions.
    Equal,
    /// By their seconds.
    Seconds,
}

/// Whether two domains have the same seconds, over all time: `true` is answered only if they have. By their expressions, or if a
/// start gives a year before 1902 or after 2150, it is answered only of equal domains.
pub fn have_same_seconds(
    alloc: Global,
    domain: &Domain,
    other: &Domain,
    comparison: Comparison,
) -> Result<bool, AllocError>
    ensures { IfOk result (λ same. IsTrue same → (s : ℤ) → InDomain domain.now s ↔ InDomain other.now s) }
{
    if is_equal(domain, other) {
        return Ok(true);
    }
    if comparison == Comparison::Equal {
        return Ok(false);
    }
    if !has_near_years(domain.expr()) {
        return Ok(false);
    }
    if !has_near_years(other.expr()) {
        return Ok(false);
    }
    agree_ever(alloc, domain, other)
}
