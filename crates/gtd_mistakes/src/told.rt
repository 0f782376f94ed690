//! What is told of the domain of a row.

ghost use Rattle.std.specs.Prelude.{◌≡◌, ◌≤◌, ◌+◌, ◌++◌, ◌↔◌, List, IfOk, IsTrue, OnOk};
ghost use Rattle.gtd_core.specs.Parts.{domain_tree};
ghost use Rattle.gtd_core.specs.Trees.{leaf_count, tree_of};
ghost use Rattle.gtd_mistakes.specs.Rules.{HoldsOf};
ghost use Rattle.gtd_mistakes.specs.Told as spec;
ghost use Rattle.gtd_mistakes.specs.Told.{AreToldAt, AreToldOf, AreToldOfDomain, IsTold};

use crate::basics::holds_of_basic;
use crate::joins::holds_of_join;
use crate::rule::{RULES, Rule};
use crate::shapes::begin_of;
use gtd_core::{Domain, Expr};
use std::alloc::AllocError;

/// A basic domain of a domain.
#[derive(Clone, Copy)]
pub struct Part {
    /// How many basic domains of the domain stand before it.
    pub before: u32,
    /// The first second of a day at which its start's clock stands.
    pub begin: u32,
    /// The hours, minutes and seconds of its duration, in seconds.
    pub clock: u32,
}

/// A rule that holds of a part of the domain of a row.
#[derive(Clone, Copy)]
pub struct Told {
    /// The row's number, from 1 on.
    pub row: u32,
    /// The rule.
    pub rule: Rule,
    /// The first basic domain of that part.
    pub part: Part,
}

/// The first basic domain of an expression that begins after so many basic domains.
pub fn first_part(before: u32, expr: &Expr) -> Part
    ensures { result ≡ spec.first_part before (tree_of expr.now) }
{
    match expr {
        Expr::Leaf(basic) => Part {
            before,
            begin: begin_of(&basic.start.parts()),
            clock: basic.duration.clock(),
        },
        Expr::Join(_, left, _) => first_part(before, left),
    }
}

// Whether a rule holds of a part of a domain, which is the whole or not.
fn holds_of(rule: Rule, whole: bool, expr: &Expr) -> bool
    ensures { IsTrue result ↔ HoldsOf rule whole (tree_of expr.now) }
{
    match expr {
        Expr::Leaf(basic) => holds_of_basic(rule, whole, basic),
        Expr::Join(op, left, right) => holds_of_join(rule, *op, left, right),
    }
}

// Whether a rule is not turned off, and holds of a part of a domain.
fn is_told(off: &[Rule], rule: Rule, whole: bool, expr: &Expr) -> bool
    ensures { IsTrue result ↔ IsTold off.now whole (tree_of expr.now) rule }
{
    !off.contains(&rule) && holds_of(rule, whole, expr)
}

// Where a part stands.
#[derive(Clone, Copy)]
struct Place {
    // The row of its domain.
    row: u32,
    // How many basic domains of the domain stand before it.
    before: u32,
    // Whether it is the whole domain.
    whole: bool,
}

// Appends what is told at a part of a domain.
fn push_told_at(
    told: &mut Vec<Told>,
    off: &[Rule],
    place: Place,
    expr: &Expr,
) -> Result<(), AllocError>
    ensures { OnOk result ((here : List Told)
        × AreToldAt place.row off.now place.whole place.before (tree_of expr.now) RULES here
        × (told.new.items ≡ told.old.items ++ here)) }
{
    let row = place.row;
    let part = first_part(place.before, expr);
    for rule in RULES {
        if is_told(off, rule, place.whole, expr) {
            told.push(Told { row, rule, part })?;
        }
    }
    Ok(())
}

// Appends what is told of a part of a domain, and answers how many basic domains of the domain stand before its end.
fn push_told_of(
    told: &mut Vec<Told>,
    off: &[Rule],
    place: Place,
    expr: &Expr,
) -> Result<u32, AllocError>
    requires few { place.before + leaf_count (tree_of expr.now) ≤ 128 }
    ensures { IfOk result (λ end. (end ≡ place.before + leaf_count (tree_of expr.now))
        × (more : List Told) × AreToldOf place.row off.now place.whole place.before (tree_of expr.now) more
        × (told.new.items ≡ told.old.items ++ more)) }
{
    push_told_at(told, off, place, expr)?;
    match expr {
        Expr::Leaf(_) => Ok(place.before + 1),
        Expr::Join(_, left, right) => {
            let first = Place {
                whole: false,
                ..place
            };
            let middle = push_told_of(told, off, first, left)?;
            let second = Place {
                before: middle,
                ..first
            };
            push_told_of(told, off, second, right)
        }
    }
}

/// Appends what is told of the domain of a row: exactly the rules that hold of it or of a part of it and are not turned off. What
/// is told of a part comes before what is told of the parts of that part, from left to right, and what is told at one part is in
/// the order of [`RULES`].
pub fn push_told(
    told: &mut Vec<Told>,
    off: &[Rule],
    row: u32,
    domain: &Domain,
) -> Result<(), AllocError>
    ensures told { OnOk result ((more : List Told) × AreToldOfDomain row off.now (domain_tree domain.now) more
        × (told.new.items ≡ told.old.items ++ more)) }
{
    let place = Place {
        row,
        before: 0,
        whole: true,
    };
    push_told_of(told, off, place, domain.expr())?;
    Ok(())
}
