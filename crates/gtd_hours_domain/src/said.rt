//! What rules say, one after another: which seconds are open, and which are said to be closed.

ghost use Rattle.std.specs.Prelude.{◌≡◌, ◌↔◌, ◌⊎◌, ◌+◌, ◌==◌, if◌then◌else◌, true, ℤ, IfOk};
ghost use Rattle.gtd_core.specs.Trees.{leaf_count, tree_of};
ghost use Rattle.gtd_eval.specs.Membership.{InTree};
ghost use Rattle.gtd_hours.specs.Cost.{closed_cost_by, days_cost, open_cost_by, rule_cost, unsaid_cost};
ghost use Rattle.gtd_hours.specs.Opening.{InSpans, IsClosedBy, IsOnMatch, IsOpenBy};
ghost use Rattle.gtd_hours_leaves.specs.Leaves.{InMaybe, IsSet, maybe_leaves};

use crate::cost::ends_late;
use crate::spans::rule_spans;
use gtd_core::{Expr, Op};
use gtd_hours::{Link, Modifier, Rule};
use gtd_hours_leaves::{clock_at, copied, join, unite};
use gtd_hours_selectors::matching_days;
use std::alloc::{AllocError, Global};

/// What is said of seconds: that they are open, or that they are closed. Of others nothing is said.
#[derive(Drop)]
pub(crate) struct Said {
    /// The seconds that are open.
    pub opened: Option<Expr>,
    /// The seconds that are said to be closed, as long as an open fallback rule is to come.
    pub closed: Option<Expr>,
}

// What was there, without the days that a rule matches.
fn without_days(alloc: Global, before: Expr, rule: &Rule) -> Result<Expr, AllocError>
    ensures seconds { IfOk result (λ e. (s : ℤ) → InTree (tree_of e) s
        ↔ (InTree (tree_of before) s × (IsOnMatch rule.now.kinds.items s → ⊥))) }
    ensures leaves { IfOk result
        (λ e. leaf_count (tree_of e) ≡ leaf_count (tree_of before) + days_cost rule.now.kinds.items) }
{
    let days = matching_days(alloc, rule.kinds.as_slice(), clock_at(0))?;
    join(alloc, Op::Minus, before, days)
}

// The spans of a rule.
fn spans_of(alloc: Global, rule: &Rule) -> Result<Expr, AllocError>
    ensures seconds { IfOk result (IsSet (InSpans rule.now.kinds.items rule.now.times.items)) }
    ensures leaves { IfOk result (λ e. leaf_count (tree_of e) ≡ rule_cost rule.now) }
{
    rule_spans(alloc, rule.kinds.as_slice(), rule.times.as_slice())
}

// What there is so far, and the spans of a rule.
fn with_spans(alloc: Global, so_far: Option<Expr>, rule: &Rule) -> Result<Option<Expr>, AllocError>
    ensures seconds { IfOk result (λ o. (s : ℤ) → InMaybe o s
        ↔ (InMaybe so_far s ⊎ InSpans rule.now.kinds.items rule.now.times.items s)) }
    ensures leaves { IfOk result (λ o. maybe_leaves o ≡ maybe_leaves so_far + rule_cost rule.now) }
{
    let spans = spans_of(alloc, rule)?;
    let expr = unite(alloc, so_far, spans)?;
    Ok(Some(expr))
}

// What there is so far, without the spans of a rule.
fn without_spans(
    alloc: Global,
    so_far: Option<Expr>,
    rule: &Rule,
) -> Result<Option<Expr>, AllocError>
    ensures seconds { IfOk result (λ o. (s : ℤ) → InMaybe o s
        ↔ (InMaybe so_far s × (InSpans rule.now.kinds.items rule.now.times.items s → ⊥))) }
    ensures leaves { IfOk result (λ o. maybe_leaves o
        ≡ (if maybe_leaves so_far == 0 then 0 else maybe_leaves so_far + rule_cost rule.now)) }
{
    match so_far {
        None => Ok(None),
        Some(before) => {
            let spans = spans_of(alloc, rule)?;
            let expr = join(alloc, Op::Minus, before, spans)?;
            Ok(Some(expr))
        }
    }
}

// The seconds without others, if there are any.
fn without(alloc: Global, seconds: Expr, others: &Option<Expr>) -> Result<Expr, AllocError>
    ensures seconds { IfOk result (λ e. (s : ℤ) → InTree (tree_of e) s
        ↔ (InTree (tree_of seconds) s × (InMaybe others.now s → ⊥))) }
    ensures leaves { IfOk result
        (λ e. leaf_count (tree_of e) ≡ leaf_count (tree_of seconds) + maybe_leaves others.now) }
{
    match others {
        None => Ok(seconds),
        Some(expr) => {
            let taken = copied(alloc, expr)?;
            join(alloc, Op::Minus, seconds, taken)
        }
    }
}

// What there is so far, and the spans of a rule without other seconds.
fn with_rest(
    alloc: Global,
    so_far: Option<Expr>,
    rule: &Rule,
    others: &Option<Expr>,
) -> Result<Option<Expr>, AllocError>
    ensures seconds { IfOk result (λ o. (s : ℤ) → InMaybe o s ↔ (InMaybe so_far s
        ⊎ (InSpans rule.now.kinds.items rule.now.times.items s × (InMaybe others.now s → ⊥)))) }
    ensures leaves { IfOk result
        (λ o. maybe_leaves o ≡ maybe_leaves so_far + rule_cost rule.now + maybe_leaves others.now) }
{
    let spans = spans_of(alloc, rule)?;
    let more = without(alloc, spans, others)?;
    let expr = unite(alloc, so_far, more)?;
    Ok(Some(expr))
}

// What is open after an open rule that has its days for itself.
fn instead(alloc: Global, so_far: Option<Expr>, rule: &Rule) -> Result<Option<Expr>, AllocError>
    ensures seconds { IfOk result (λ o. (s : ℤ) → InMaybe o s
        ↔ ((InMaybe so_far s × (IsOnMatch rule.now.kinds.items s → ⊥))
        ⊎ InSpans rule.now.kinds.items rule.now.times.items s)) }
    ensures leaves { IfOk result (λ o. maybe_leaves o ≡ (if maybe_leaves so_far == 0 then rule_cost rule.now
        else maybe_leaves so_far + days_cost rule.now.kinds.items + rule_cost rule.now)) }
{
    match so_far {
        None => with_spans(alloc, None, rule),
        Some(before) => {
            let kept = without_days(alloc, before, rule)?;
            with_spans(alloc, Some(kept), rule)
        }
    }
}

// What is said to be closed after an open rule that has its days for itself.
fn unsaid(alloc: Global, so_far: Option<Expr>, rule: &Rule) -> Result<Option<Expr>, AllocError>
    ensures seconds { IfOk result (λ o. (s : ℤ) → InMaybe o s
        ↔ (InMaybe so_far s × (IsOnMatch rule.now.kinds.items s → ⊥)
        × (InSpans rule.now.kinds.items rule.now.times.items s → ⊥))) }
    ensures leaves { IfOk result (λ o. maybe_leaves o
        ≡ (if maybe_leaves so_far == 0 then 0 else maybe_leaves so_far + unsaid_cost rule.now)) }
{
    match so_far {
        None => Ok(None),
        Some(before) => {
            let kept = without_days(alloc, before, rule)?;
            if ends_late(rule.times.as_slice()) {
                return without_spans(alloc, Some(kept), rule);
            }
            Ok(Some(kept))
        }
    }
}

// What is open after a rule, given what was open and what was said to be closed before it.
fn open_by(
    alloc: Global,
    opened: Option<Expr>,
    closed: &Option<Expr>,
    rule: &Rule,
) -> Result<Option<Expr>, AllocError>
    ensures seconds { IfOk result (λ o. (s : ℤ) → InMaybe o s ↔ IsOpenBy rule.now.modifier rule.now.link rule.now
        (InMaybe opened s) (InMaybe closed.now s) s) }
    ensures leaves { IfOk result (λ o. maybe_leaves o ≡ open_cost_by rule.now.modifier rule.now.link rule.now
        (maybe_leaves opened) (maybe_leaves closed.now)) }
{
    match rule.modifier {
        Modifier::Open => match rule.link {
            Link::Instead => instead(alloc, opened, rule),
            Link::Also => with_spans(alloc, opened, rule),
            Link::Fallback => with_rest(alloc, opened, rule, closed),
        },
        Modifier::Closed => match rule.link {
            Link::Instead => without_spans(alloc, opened, rule),
            Link::Also => without_spans(alloc, opened, rule),
            Link::Fallback => Ok(opened),
        },
    }
}

// What is said to be closed after a rule. A closed fallback rule changes nothing of what is open.
fn closed_by(
    alloc: Global,
    opened: &Option<Expr>,
    closed: Option<Expr>,
    rule: &Rule,
) -> Result<Option<Expr>, AllocError>
    ensures seconds { IfOk result (λ o. (s : ℤ) → InMaybe o s ↔ IsClosedBy rule.now.modifier rule.now.link rule.now
        (InMaybe opened.now s) (InMaybe closed s) s) }
    ensures leaves { IfOk result (λ o. maybe_leaves o ≡ closed_cost_by rule.now.modifier rule.now.link rule.now
        (maybe_leaves opened.now) (maybe_leaves closed)) }
{
    match rule.modifier {
        Modifier::Open => match rule.link {
            Link::Instead => unsaid(alloc, closed, rule),
            Link::Also => without_spans(alloc, closed, rule),
            Link::Fallback => Ok(closed),
        },
        Modifier::Closed => match rule.link {
            Link::Instead => with_spans(alloc, closed, rule),
            Link::Also => with_spans(alloc, closed, rule),
            Link::Fallback => with_rest(alloc, closed, rule, opened),
        },
    }
}

// What is said to be closed after a rule, if it is asked for.
fn closed_if(
    asked: bool,
    alloc: Global,
    opened: &Option<Expr>,
    closed: Option<Expr>,
    rule: &Rule,
) -> Result<Option<Expr>, AllocError>
    ensures seconds { IfOk result (λ o. asked ≡ true → (s : ℤ) → InMaybe o s
        ↔ IsClosedBy rule.now.modifier rule.now.link rule.now (InMaybe opened.now s) (InMaybe closed s) s) }
    ensures leaves { IfOk result (λ o. maybe_leaves o ≡ (if asked
        then closed_cost_by rule.now.modifier rule.now.link rule.now (maybe_leaves opened.now) (maybe_leaves closed)
        else 0)) }
{
    if asked {
        return closed_by(alloc, opened, closed, rule);
    }
    Ok(None)
}

/// What is said after a rule: what is said to be closed only if it is asked for.
pub(crate) fn after_rule(
    alloc: Global,
    said: Said,
    rule: &Rule,
    asked: bool,
) -> Result<Said, AllocError>
    ensures opened { IfOk result (λ after. (s : ℤ) → InMaybe after.opened s
        ↔ IsOpenBy rule.now.modifier rule.now.link rule.now (InMaybe said.opened s) (InMaybe said.closed s) s) }
    ensures closed { IfOk result (λ after. asked ≡ true → (s : ℤ) → InMaybe after.closed s
        ↔ IsClosedBy rule.now.modifier rule.now.link rule.now (InMaybe said.opened s) (InMaybe said.closed s) s) }
    ensures opened_leaves { IfOk result (λ after. maybe_leaves after.opened
        ≡ open_cost_by rule.now.modifier rule.now.link rule.now (maybe_leaves said.opened) (maybe_leaves said.closed)) }
    ensures closed_leaves { IfOk result (λ after. maybe_leaves after.closed ≡ (if asked
        then closed_cost_by rule.now.modifier rule.now.link rule.now (maybe_leaves said.opened)
        (maybe_leaves said.closed) else 0)) }
{
    let opened = open_by(alloc, said.opened, &said.closed, rule)?;
    let closed = closed_if(asked, alloc, &opened, said.closed, rule)?;
    Ok(Said { opened, closed })
}
