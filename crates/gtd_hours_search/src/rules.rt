//! Rules, one after another.

ghost use Rattle.std.specs.Prelude.{◌≡◌, IfOk, IsSome, IsTrue, None};
ghost use Rattle.gtd_core.specs.Parts.{duration_parts};
ghost use Rattle.gtd_core.specs.Ranges.{bound_of};
ghost use Rattle.gtd_core.specs.Trees.{tree_of};
ghost use Rattle.gtd_hours_search.specs.Forms.{AreKinds, AreRules, AreSpans, IsDayLeaf, IsLate};

use crate::kinds::{are_same_kinds, kinds_of};
use crate::times::{Time, single_time, times_of};
use gtd_core::{Basic, Expr, Op};
use gtd_hours::{Kind, Link, Modifier, Rule, TimeRange};
use std::alloc::{AllocError, Global};

// What a rule says of the spans of an expression.
#[derive(Drop)]
struct Spans {
    kinds: Vec<Kind>,
    times: Vec<TimeRange>,
}

impl Spans {
    fn rule(self, link: Link, modifier: Modifier) -> Rule {
        Rule {
            link,
            kinds: self.kinds,
            times: self.times,
            modifier,
        }
    }
}

// A range of times that ends on a later day, on days of its own.
fn late_time(expr: &Expr) -> Option<Time>
    ensures found { IsLate (tree_of expr.now) → IsSome result }
    ensures none { IsDayLeaf (tree_of expr.now) → result ≡ None }
{
    match expr {
        Expr::Join(Op::Meet, _, clock) => {
            let time = single_time(clock)?;
            if time.is_late { Some(time) } else { None }
        }
        _ => None,
    }
}

fn whole_days(alloc: Global, expr: &Expr) -> Result<Option<Spans>, AllocError>
    ensures { AreKinds (tree_of expr.now) → IfOk result IsSome }
{
    let Some(kinds) = kinds_of(alloc, expr)? else {
        return Ok(None);
    };
    Ok(Some(Spans {
        kinds,
        times: Vec::new(alloc),
    }))
}

fn days_with_times(
    alloc: Global,
    days: &Expr,
    times: Vec<TimeRange>,
) -> Result<Option<Spans>, AllocError>
    ensures { AreKinds (tree_of days.now) → IfOk result IsSome }
{
    let Some(kinds) = kinds_of(alloc, days)? else {
        return Ok(None);
    };
    Ok(Some(Spans { kinds, times }))
}

// The spans of a rule, if the expression has their form.
fn spans_of(alloc: Global, expr: &Expr) -> Result<Option<Spans>, AllocError>
    ensures { AreSpans (tree_of expr.now) → IfOk result IsSome }
{
    match expr {
        Expr::Join(Op::Meet, days, clocks) => match times_of(alloc, clocks)? {
            Some(times) => days_with_times(alloc, days, times),
            None => whole_days(alloc, expr),
        },
        Expr::Join(Op::Union, left, right) => match late_time(right) {
            Some(time) => {
                let spans = spans_of(alloc, left)?;
                with_time(spans, time)
            }
            None => whole_days(alloc, expr),
        },
        _ => whole_days(alloc, expr),
    }
}

fn with_time(spans: Option<Spans>, time: Time) -> Result<Option<Spans>, AllocError>
    ensures { IsSome spans → IfOk result IsSome }
{
    let Some(spans) = spans else {
        return Ok(None);
    };
    let mut times = spans.times;
    times.push(time.range)?;
    Ok(Some(Spans {
        kinds: spans.kinds,
        times,
    }))
}

fn with_rule(rules: Vec<Rule>, rule: Rule) -> Result<Option<Vec<Rule>>, AllocError>
    ensures { IfOk result IsSome }
{
    let mut more = rules;
    more.push(rule)?;
    Ok(Some(more))
}

// Whether a rule takes all of the days of some kinds away.
fn takes_days(rule: &Rule, kinds: &[Kind]) -> bool {
    rule.modifier == Modifier::Closed
        && rule.times.is_empty()
        && are_same_kinds(rule.kinds.as_slice(), kinds)
}

// The rules, and one that adds spans. If the rule before it takes all of their days away, the two are one rule.
fn with_open(rules: Vec<Rule>, spans: Spans) -> Result<Option<Vec<Rule>>, AllocError>
    ensures { IfOk result IsSome }
{
    let mut more = rules;
    match more.pop() {
        None => with_rule(more, spans.rule(Link::Instead, Modifier::Open)),
        Some(last) => {
            if takes_days(&last, spans.kinds.as_slice()) {
                return with_rule(more, spans.rule(Link::Instead, Modifier::Open));
            }
            more.push(last)?;
            with_rule(more, spans.rule(Link::Also, Modifier::Open))
        }
    }
}

// Whether a basic domain contains no second, as that of hours that are never open.
fn is_nothing(basic: &Basic) -> bool
    ensures { bound_of (duration_parts basic.now.duration) ≡ 0 → IsTrue result }
{
    basic.duration.bound() == 0
}

// A rule before which nothing is open, and after which nothing is.
fn never(alloc: Global) -> Rule {
    Rule {
        link: Link::Instead,
        kinds: Vec::new(alloc),
        times: Vec::new(alloc),
        modifier: Modifier::Closed,
    }
}

// The rule of an expression that is the spans of one.
fn first_rule(alloc: Global, expr: &Expr) -> Result<Option<Vec<Rule>>, AllocError>
    ensures { AreSpans (tree_of expr.now) → IfOk result IsSome }
{
    let Some(spans) = spans_of(alloc, expr)? else {
        return Ok(None);
    };
    with_open(Vec::new(alloc), spans)
}

/// The rules of an expression, if it has the form of their translation.
pub fn rules_of(alloc: Global, expr: &Expr) -> Result<Option<Vec<Rule>>, AllocError>
    ensures { AreRules (tree_of expr.now) → IfOk result IsSome }
{
    match expr {
        Expr::Join(Op::Union, before, last) => {
            let Some(rules) = rules_of(alloc, before)? else {
                return Ok(None);
            };
            let Some(spans) = spans_of(alloc, last)? else {
                return Ok(None);
            };
            with_open(rules, spans)
        }
        Expr::Join(Op::Minus, before, last) => {
            let Some(rules) = rules_of(alloc, before)? else {
                return Ok(None);
            };
            let Some(spans) = spans_of(alloc, last)? else {
                return Ok(None);
            };
            with_rule(rules, spans.rule(Link::Instead, Modifier::Closed))
        }
        Expr::Leaf(basic) => {
            if is_nothing(basic) {
                return with_rule(Vec::new(alloc), never(alloc));
            }
            first_rule(alloc, expr)
        }
        _ => first_rule(alloc, expr),
    }
}
