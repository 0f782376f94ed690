//! Kinds of selectors, each of which must hold.

ghost use Rattle.std.specs.Prelude.{IfOk, IsSome, IsTrue};
ghost use Rattle.gtd_core.specs.Parts.{duration_parts, start_parts};
ghost use Rattle.gtd_core.specs.Trees.{tree_of};
ghost use Rattle.gtd_hours_search.specs.Forms.{AreDays, AreKinds, IsEachDay};

use crate::alike::is_translated_to;
use crate::leaf::selector_of;
use crate::pieces::selector_of_expr;
use gtd_core::{Basic, Expr, Op};
use gtd_hours::{Kind, Selector};
use std::alloc::{AllocError, Global};

// Whether a basic domain is every day.
fn is_each_day(basic: &Basic) -> bool
    ensures { IsEachDay (start_parts basic.now.start) (duration_parts basic.now.duration) → IsTrue result }
{
    let parts = basic.start.parts();
    let names_a_day = parts.year.is_some()
        || parts.month.is_some()
        || parts.week.is_some()
        || parts.nth.is_some()
        || parts.nth_back.is_some();
    !names_a_day && parts.weekdays == 0 && basic.duration.parts().days == 1
}

/// The kinds of selectors whose days are those of an expression.
pub fn kinds_of(alloc: Global, expr: &Expr) -> Result<Option<Vec<Kind>>, AllocError>
    ensures { AreKinds (tree_of expr.now) → IfOk result IsSome }
{
    match expr {
        Expr::Leaf(basic) => {
            if is_each_day(basic) {
                return Ok(Some(Vec::new(alloc)));
            }
            push_kind(Vec::new(alloc), kind_of(alloc, expr)?)
        }
        Expr::Join(Op::Meet, left, right) => match kinds_of(alloc, left)? {
            Some(kinds) => push_kind(kinds, kind_of(alloc, right)?),
            None => Ok(None),
        },
        Expr::Join(_, _, _) => push_kind(Vec::new(alloc), kind_of(alloc, expr)?),
    }
}

fn push_kind(kinds: Vec<Kind>, kind: Option<Kind>) -> Result<Option<Vec<Kind>>, AllocError>
    ensures { IsSome kind → IfOk result IsSome }
{
    let Some(kind) = kind else {
        return Ok(None);
    };
    let mut more = kinds;
    more.push(kind)?;
    Ok(Some(more))
}

// The selectors of one kind: one that has all of the expression, or else those of a chain.
fn kind_of(alloc: Global, expr: &Expr) -> Result<Option<Kind>, AllocError>
    ensures { AreDays (tree_of expr.now) → IfOk result IsSome }
{
    match expr {
        Expr::Leaf(basic) => push_selector(no_selectors(alloc), selector_of(basic)),
        Expr::Join(op, left, right) => {
            let whole = whole_kind(alloc, expr)?;
            if whole.is_some() {
                return Ok(whole);
            }
            if *op != Op::Union {
                return Ok(None);
            }
            match kind_of(alloc, left)? {
                Some(kind) => push_selector(kind, selector_of_expr(right)),
                None => Ok(None),
            }
        }
    }
}

fn no_selectors(alloc: Global) -> Kind {
    Kind {
        selectors: Vec::new(alloc),
    }
}

// The kind of one selector whose days are all of those of an expression.
fn whole_kind(alloc: Global, expr: &Expr) -> Result<Option<Kind>, AllocError> {
    let Some(selector) = selector_of_expr(expr) else {
        return Ok(None);
    };
    if !is_translated_to(alloc, selector, expr)? {
        return Ok(None);
    }
    push_selector(no_selectors(alloc), Some(selector))
}

fn push_selector(kind: Kind, selector: Option<Selector>) -> Result<Option<Kind>, AllocError>
    ensures { IsSome selector → IfOk result IsSome }
{
    let Some(selector) = selector else {
        return Ok(None);
    };
    let mut selectors = kind.selectors;
    selectors.push(selector)?;
    Ok(Some(Kind { selectors }))
}

fn is_same_kind(kind: &Kind, other: &Kind) -> bool {
    let selectors = kind.selectors.as_slice();
    let others = other.selectors.as_slice();
    if selectors.len() != others.len() {
        return false;
    }
    for i in 0..selectors.len() {
        if selectors[i] != others[i] {
            return false;
        }
    }
    true
}

/// Whether the kinds have the same selectors.
pub fn are_same_kinds(kinds: &[Kind], others: &[Kind]) -> bool {
    if kinds.len() != others.len() {
        return false;
    }
    for i in 0..kinds.len() {
        if !is_same_kind(&kinds[i], &others[i]) {
            return false;
        }
    }
    true
}
