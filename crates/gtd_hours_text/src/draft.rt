//! A rule that is being read.

ghost use Rattle.std.specs.Prelude.{◌≡◌, ◌++◌, IfOk, List, []};
ghost use Rattle.gtd_hours_parts.specs.declared.piece.Piece.{Piece};
ghost use Rattle.gtd_hours_text.specs.Drafts.{IsDraft};
ghost use Rattle.gtd_hours_text.specs.Standing.{IsRule, kind_if, modifier_of, selectors};

use crate::offsets::with_moved;
use gtd_hours::{Kind, Link, Modifier, Rule, Selector, TimeRange};
use std::alloc::{AllocError, Global};

/// The selectors of each kind, the times, and whether it is closed.
#[derive(Drop)]
pub struct Draft {
    pub link: Link,
    pub years: Vec<Selector>,
    pub month_days: Vec<Selector>,
    pub weeks: Vec<Selector>,
    pub weekdays: Vec<Selector>,
    /// Weekdays behind them, which an offset may still move.
    pub unmoved: Vec<Selector>,
    pub times: Vec<TimeRange>,
    pub closed: bool,
}

/// A rule of which nothing has been read. Takes no memory.
pub fn new_draft(alloc: Global, link: Link) -> Draft
    ensures empty { IsDraft [] result }
    ensures link { result.link ≡ link }
{
    Draft {
        link,
        years: Vec::new(alloc),
        month_days: Vec::new(alloc),
        weeks: Vec::new(alloc),
        weekdays: Vec::new(alloc),
        unmoved: Vec::new(alloc),
        times: Vec::new(alloc),
        closed: false,
    }
}

// The kinds of a list and behind them one of these selectors, if there are any.
fn with_kind(list: Vec<Kind>, more: Vec<Selector>) -> Result<Vec<Kind>, AllocError>
    ensures { IfOk result (λ then. selectors then.items ≡ selectors list.items ++ kind_if more.items) }
{
    if more.as_slice().is_empty() {
        return Ok(list);
    }
    let mut kinds = list;
    kinds.push(Kind { selectors: more })?;
    Ok(kinds)
}

fn modifier_of(closed: bool) -> Modifier
    ensures { result ≡ modifier_of closed }
{
    if closed {
        Modifier::Closed
    } else {
        Modifier::Open
    }
}

/// The rule that has been read in full.
pub fn rule_of(alloc: Global, draft: Draft) -> Result<Rule, AllocError>
    ensures { IfOk result (λ rule. (p : List Piece) → IsDraft p draft → IsRule draft.link p rule) }
{
    let none = Vec::new(alloc);
    let years = with_kind(none, draft.years)?;
    let month_days = with_kind(years, draft.month_days)?;
    let weeks = with_kind(month_days, draft.weeks)?;
    let weekdays = with_moved(draft.weekdays, draft.unmoved, None)?;
    let kinds = with_kind(weeks, weekdays)?;
    Ok(Rule {
        link: draft.link,
        kinds,
        times: draft.times,
        modifier: modifier_of(draft.closed),
    })
}
