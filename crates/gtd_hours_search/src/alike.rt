//! Whether a selector has a chain of basic domains as its days.

use gtd_core::{Basic, Expr, StartParts};
use gtd_hours::{Hours, Kind, Link, Modifier, Rule, Selector};
use gtd_hours_domain::{TranslationFault, domain_of};
use std::alloc::{AllocError, Global};

fn without_clock(parts: StartParts) -> StartParts {
    StartParts {
        hour: None,
        minute: None,
        ..parts
    }
}

fn are_alike_leaves(basic: &Basic, other: &Basic) -> bool {
    without_clock(basic.start.parts()) == without_clock(other.start.parts())
        && basic.duration.parts() == other.duration.parts()
}

// Whether two expressions differ in hours and minutes at most.
fn are_alike(expr: &Expr, other: &Expr) -> bool {
    match expr {
        Expr::Leaf(basic) => match other {
            Expr::Leaf(other) => are_alike_leaves(basic, other),
            Expr::Join(_, _, _) => false,
        },
        Expr::Join(op, left, right) => match other {
            Expr::Leaf(_) => false,
            Expr::Join(other_op, other_left, other_right) => {
                *op == *other_op && are_alike(left, other_left) && are_alike(right, other_right)
            }
        },
    }
}

// Hours of one rule, which has this selector alone.
fn hours_on(alloc: Global, selector: Selector) -> Result<Hours, AllocError> {
    let mut selectors = Vec::new(alloc);
    selectors.push(selector)?;
    let mut kinds = Vec::new(alloc);
    kinds.push(Kind { selectors })?;
    let mut rules = Vec::new(alloc);
    rules.push(Rule {
        link: Link::Instead,
        kinds,
        times: Vec::new(alloc),
        modifier: Modifier::Open,
    })?;
    Ok(Hours { rules })
}

/// Whether the days of a selector are translated to this expression, apart from its clock.
pub fn is_translated_to(
    alloc: Global,
    selector: Selector,
    expr: &Expr,
) -> Result<bool, AllocError> {
    let hours = hours_on(alloc, selector)?;
    match domain_of(alloc, &hours) {
        Ok(days) => Ok(are_alike(days.expr(), expr)),
        Err(TranslationFault::TooMany) => Ok(false),
        Err(TranslationFault::NoMemory) => Err(AllocError),
    }
}
