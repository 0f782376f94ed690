//! The first second that a source of spans gives, and the first that one of two domains has alone.

ghost use Rattle.std.specs.Prelude.{◌≤ℤ◌, IfOk, MatchOption};
ghost use Rattle.gtd_core.specs.Whole.{whole};
ghost use Rattle.gtd_spans.specs.Normal.{Holds};
ghost use Rattle.gtd_eval.specs.Membership.{InDomain};
ghost use Rattle.gtd_difference.specs.Difference.{HoldsNone, HasNoneAlone, IsFirstAlone, IsFirstHeld};

use crate::pieces::none_alone_until;
use gtd_core::{Domain, Horizon, Sec};
use gtd_eval::{KeptCursor, days_to_look};
use gtd_spans::{SpanSource, Without};
use std::alloc::{AllocError, Global};

// The first second from the given one on that the source still gives, or `None` exactly if there is none.
fn first_held<S: SpanSource>(source: &mut S, from: Sec) -> Option<Sec>
    ensures first { MatchOption result (HoldsNone (Holds (S.rest source.old)) from.0)
        (λ s. IsFirstHeld (Holds (S.rest source.old)) from.0 s.0) }
{
    while let Some(x) = source.next() {
        if from.0 < x.until().0 {
            return Some(from.later(x.from()));
        }
    }
    None
}

// The first second from the given one on, and before the end of the days, that the domain has and the other has not, or `None`
// exactly if there is none. All spans from the first of the days on are gone through.
fn first_by_spans(
    alloc: Global,
    domain: &Domain,
    other: &Domain,
    from: Sec,
    days: Horizon,
) -> Result<Option<Sec>, AllocError>
    requires begun { (whole days).from ≤ℤ from.0 }
    ensures alone { IfOk result (λ found. MatchOption found
        (HasNoneAlone (InDomain domain.now) (InDomain other.now) from.0 (whole days).until)
        (λ s. IsFirstAlone (InDomain domain.now) (InDomain other.now) from.0 (whole days).until s.0)) }
{
    let held = KeptCursor::open(alloc, domain, days)?;
    let taken = KeptCursor::open(alloc, other, days)?;
    let mut alone = Without::new(held, taken);
    Ok(first_held(&mut alone, from))
}

/// The first second from the given one on, and before the end of the days, that the domain has and the other has not, or
/// `None` exactly if there is none. The given second must not be before the days.
pub(crate) fn first_alone(
    alloc: Global,
    domain: &Domain,
    other: &Domain,
    from: Sec,
    days: Horizon,
) -> Result<Option<Sec>, AllocError>
    requires begun { (whole days).from ≤ℤ from.0 }
    ensures alone { IfOk result (λ found. MatchOption found
        (HasNoneAlone (InDomain domain.now) (InDomain other.now) from.0 (whole days).until)
        (λ s. IsFirstAlone (InDomain domain.now) (InDomain other.now) from.0 (whole days).until s.0)) }
{
    let at = none_alone_until(alloc, domain, other, from, days)?;
    let end = days.until();
    if at.0 >= end.0 {
        return Ok(None);
    }
    let rest = days_to_look(false, at, days);
    first_by_spans(alloc, domain, other, at, rest)
}
