//! Basic domains without their date, which show that they are in domains that repeat each week.

ghost use Rattle.std.specs.Prelude.{◌≡◌, ℤ, IfOk, IfSome, IsTrue};
ghost use Rattle.gtd_core.specs.Parts.{domain_tree, start_parts};
ghost use Rattle.gtd_recur.specs.Membership.{Matches};
ghost use Rattle.gtd_difference.specs.Difference.{IsPart, single_of};

use crate::basics::single;
use crate::within::is_within_whole;
use gtd_core::{Basic, Domain, Start, StartParts};
use gtd_eval::is_weekly;
use std::alloc::{AllocError, Global};

// The start with its weekdays and its time of day alone, if it gives a time of day. It matches each second that the start
// matches.
fn without_date(start: &Start) -> Option<Start>
    ensures wider { IfSome result (λ wide. (t : ℤ) → Matches (start_parts start.now) t → Matches (start_parts wide) t) }
{
    let parts = start.parts();
    if parts.hour.is_none() && parts.minute.is_none() && parts.second.is_none() {
        return None;
    }
    Start::new(StartParts {
        year: None,
        month: None,
        week: None,
        day: None,
        hour: parts.hour,
        minute: parts.minute,
        second: parts.second,
        nth: None,
        nth_back: None,
        weekdays: parts.weekdays,
    })
}

/// Whether a basic domain without its date is in a domain, and both repeat each week. Then it is so with its date.
pub(crate) fn is_shown_by_week(
    alloc: Global,
    basic: &Basic,
    other: &Domain,
) -> Result<bool, AllocError>
    ensures shown { IfOk result (λ shown. IsTrue shown → IsPart (single_of basic.now) (domain_tree other.now)) }
{
    let Some(start) = without_date(&basic.start) else {
        return Ok(false);
    };
    let wide = single(&Basic {
        start,
        duration: basic.duration,
    });
    if !is_weekly(&wide) || !is_weekly(other) {
        return Ok(false);
    }
    is_within_whole(alloc, &wide, other)
}
