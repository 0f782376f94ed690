//! What is asked of a domain over a horizon.

ghost use Rattle.std.specs.Prelude.{IfOk, MatchOption};
ghost use Rattle.gtd_core.specs.Seconds.{Within};
ghost use Rattle.gtd_core.specs.Whole.{whole};
ghost use Rattle.gtd_spans.specs.Change.{NeverChanges, IsNextChange};
ghost use Rattle.gtd_eval.specs.Membership.{InDomain, IsNormalOver};

use crate::expr_stays::{stay_at, stays_of};
use crate::kept::KeptCursor;
use crate::membership::is_weekly;
use crate::open::basic_domains;
use crate::stay::{days_to_look, stay_of};
use gtd_core::{Domain, Horizon, Sec};
use gtd_spans::SpanList;
use std::alloc::{AllocError, Global};

// How many stays of basic domains are asked for, one after another, before a change is looked for span by span.
const MOST_STAYS: usize = 16_777_216;

/// The seconds of the domain in the horizon.
pub fn spans(alloc: Global, domain: &Domain, horizon: Horizon) -> Result<SpanList, AllocError>
    ensures normal { IfOk result (λ list. IsNormalOver (InDomain domain.now) horizon list) }
{
    let mut cursor = KeptCursor::open(alloc, domain, horizon)?;
    SpanList::collect(alloc, &mut cursor)
}

// The least later second of the horizon at which membership in the domain differs from that at the given one, found span by
// span.
fn change_by_spans(
    alloc: Global,
    domain: &Domain,
    second: Sec,
    horizon: Horizon,
) -> Result<Option<Sec>, AllocError>
    requires inside { Within (whole horizon) second.0 }
    ensures change { IfOk result (λ change. MatchOption change
        (NeverChanges (InDomain domain.now) second.0 (whole horizon).until)
        (λ c. IsNextChange (InDomain domain.now) second.0 (whole horizon).until c.0)) }
{
    let mut cursor = KeptCursor::open(alloc, domain, horizon)?;
    Ok(gtd_spans::next_change(&mut cursor, second, horizon.until()))
}

/// The least later second of the horizon at which membership in the domain differs from that at the given one, which
/// must be in the horizon. `None` exactly if there is no such second.
pub fn next_change(
    alloc: Global,
    domain: &Domain,
    second: Sec,
    horizon: Horizon,
) -> Result<Option<Sec>, AllocError>
    requires inside { Within (whole horizon) second.0 }
    ensures change { IfOk result (λ change. MatchOption change
        (NeverChanges (InDomain domain.now) second.0 (whole horizon).until)
        (λ c. IsNextChange (InDomain domain.now) second.0 (whole horizon).until c.0)) }
{
    if is_weekly(domain) {
        return change_by_spans(alloc, domain, second, horizon);
    }
    // Stay by stay: what a side that decides alone lets pass is not looked at. Where the domain changes that often and nothing
    // comes of it, the spans of a period that is kept are the shorter way.
    let end = horizon.until();
    let days = days_to_look(false, second, horizon);
    let first = stay_of(domain, second, horizon);
    let mut stays = stays_of(alloc, domain.expr(), days)?;
    let mut at = first.until;
    for _ in 0..MOST_STAYS / (basic_domains(domain.expr()) + 1) {
        if at.0 >= end.0 {
            return Ok(None);
        }
        let stay = stay_at(&mut stays, at, end);
        if stay.holds != first.holds {
            return Ok(Some(at));
        }
        at = stay.until;
    }
    change_by_spans(alloc, domain, second, horizon)
}
