//! Walks along the seconds in which an element is open.

ghost use Rattle.std.specs.Prelude.{◌≡◌, ◌↔◌, ◌≤ℤ◌, ◌<ℤ◌, ℤ, List, IfOk, IsTrue, MatchOption, ⊤};
ghost use Rattle.gtd_records.specs.Closing.{Restriction};
ghost use Rattle.gtd_ask.specs.Known.{IsGroupOpen, IsHeld};
ghost use Rattle.gtd_ask.specs.Walks.{IsWalk};

use crate::asked::{Group, is_near};
use crate::held::{Held, held_from};
use gtd_core::{Horizon, Sec, Span};
use gtd_eval::KeptCursor;
use gtd_records::{Records, open_seconds};
use gtd_spans::SpanSource;
use std::alloc::{AllocError, Global};

/// How many spans a walk passes for a question.
const MOST_SPANS: usize = 65_536;

/// A walk along the spans in which a group is open: where it is, the first span that it has not passed, and its end.
#[derive(Drop)]
pub(crate) struct Walk {
    pub(crate) group: Group,
    pub(crate) cursor: KeptCursor,
    pub(crate) span: Option<Span>,
    pub(crate) at: Sec,
    pub(crate) end: Sec,
}

/// The walk over some days of a group, at their first second.
pub(crate) fn open_walk(
    alloc: Global,
    found: &Records,
    group: Group,
    days: Horizon,
) -> Result<Walk, AllocError>
    ensures walk { IfOk result (IsWalk found.now) }
{
    let mut cursor = open_seconds(
        alloc,
        found,
        group.element,
        group.direction,
        group.vehicle,
        days,
    )?;
    let span = cursor.next();
    Ok(Walk {
        group,
        cursor,
        span,
        at: days.from(),
        end: days.until(),
    })
}

/// A walk over no days.
pub(crate) fn no_walk(group: Group, days: Horizon) -> Walk
    ensures walk { (found : List Restriction) → IsWalk found result }
{
    Walk {
        group,
        cursor: KeptCursor::whole(days),
        span: None,
        at: days.from(),
        end: days.from(),
    }
}

impl Walk {
    /// Whether it goes on to a second of the group that is at most so many days after the next span.
    pub(crate) fn is_near(&self, group: Group, second: Sec, days: i64) -> bool {
        if self.group != group || second < self.at || self.end <= second {
            return false;
        }
        match self.span {
            Some(span) => is_near(span.until(), second, days),
            None => true,
        }
    }
}

/// Walks to a second, if it is before the end and few spans lie before it. Whether the walk is there.
pub(crate) fn walk_to(walk: &mut Walk, _found: &Records, second: Sec) -> bool
    requires walk { IsWalk _found.now walk.old }
    ensures walk { IsWalk _found.now walk.new }
    ensures there { IsTrue result → MatchOption walk.new.span ⊤ (λ x. walk.new.at.0 <ℤ x.until) }
{
    if second.0 < walk.at.0 || walk.end.0 <= second.0 {
        return false;
    }
    walk.at = second;
    for _ in 0..MOST_SPANS {
        let Some(span) = walk.span else {
            return true;
        };
        if second.0 < span.until().0 {
            return true;
        }
        walk.span = walk.cursor.next();
    }
    false
}

// The state from where a walk is on, up to a second at which it changes, or to the walk's end.
fn held_until(walk: &Walk, _found: &Records, is_open: bool, until: Sec) -> Held
    requires same { (t : ℤ) → walk.now.at.0 ≤ℤ t → t <ℤ until.0 → t <ℤ walk.now.end.0
        → IsTrue is_open ↔ IsGroupOpen _found.now walk.now.group t }
    requires turns { until.0 <ℤ walk.now.end.0
        → IsTrue is_open ↔ IsGroupOpen _found.now walk.now.group until.0 → ⊥ }
    ensures held { IsHeld _found.now result }
{
    if until.0 < walk.end.0 {
        return held_from(walk.group, walk.at, is_open, until, true);
    }
    held_from(walk.group, walk.at, is_open, walk.end, false)
}

/// The state where a walk is, and until when it holds.
pub(crate) fn held_here(walk: &Walk, found: &Records) -> Held
    requires walk { IsWalk found.now walk.now }
    requires there { MatchOption walk.now.span ⊤ (λ x. walk.now.at.0 <ℤ x.until) }
    ensures held { IsHeld found.now result }
{
    let Some(span) = walk.span else {
        return held_until(walk, found, false, walk.end);
    };
    if walk.at.0 < span.from().0 {
        return held_until(walk, found, false, span.from());
    }
    held_until(walk, found, true, span.until())
}
