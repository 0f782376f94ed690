//! Groups in order, each once.

ghost use Rattle.std.specs.Prelude.{◌≡◌, ◌↔◌, ◌++◌, ◌∷◌, [], List, None, IfOk, IsTrue, MatchOption, ⊤};
ghost use Rattle.gtd_hours_days.specs.Groups.{AreGroups, AreNoneAfter, ComesAfter, IsBefore, IsNextGroup};
ghost use Rattle.gtd_hours_days.specs.declared.group.Group.{Group};

use crate::group::Group;
use std::alloc::{AllocError, Global};

// Whether a group comes before another one.
fn is_before(a: Group, b: Group) -> bool
    ensures { IsTrue result ↔ IsBefore a b }
{
    if a.month != b.month {
        return a.month < b.month;
    }
    if a.day != b.day {
        return a.day < b.day;
    }
    a.days < b.days
}

// Whether a group comes after another one, if there is one.
fn is_after(after: Option<Group>, group: Group) -> bool
    ensures { IsTrue result ↔ ComesAfter after group }
{
    match after {
        None => true,
        Some(before) => is_before(before, group),
    }
}

// Whether a group comes before the best so far, if there is one.
fn is_better(best: Option<Group>, group: Group) -> bool
    ensures { IsTrue result ↔ MatchOption best ⊤ (IsBefore group) }
{
    match best {
        None => true,
        Some(found) => is_before(group, found),
    }
}

// The first of some groups that come after another one, if there is one more.
fn nearer(after: Option<Group>, best: Option<Group>, group: Group) -> Option<Group>
    ensures { (found : List Group)
        → MatchOption best (AreNoneAfter found after) (IsNextGroup found after)
        → MatchOption result (AreNoneAfter (found ++ group ∷ []) after) (IsNextGroup (found ++ group ∷ []) after) }
{
    if !is_after(after, group) {
        return best;
    }
    if !is_better(best, group) {
        return best;
    }
    Some(group)
}

// The first of the groups that come after another one.
fn next_group(found: &[Group], after: Option<Group>) -> Option<Group>
    ensures { MatchOption result (AreNoneAfter found.now after) (IsNextGroup found.now after) }
{
    let mut best = None;
    for group in found {
        best = nearer(after, best, *group);
    }
    best
}

/// Each of the groups once, in order. `AllocError` is answered only if memory was refused.
pub(crate) fn groups_of(alloc: Global, found: &[Group]) -> Result<Vec<Group>, AllocError>
    ensures { IfOk result (λ groups. AreGroups found.now None groups.items) }
{
    let mut groups = Vec::new(alloc);
    let mut after = None;
    while let Some(group) = next_group(found, after) {
        groups.push(group)?;
        after = Some(group);
    }
    Ok(groups)
}
