//! Domains that repeat weekly, by their spans in a week.

ghost use Rattle.std.specs.Prelude.{◌≡◌, ◌↔◌, IfOk, IfSome, IsTrue, pos};
ghost use Rattle.std.specs.Int.{int_rem_euclid};
ghost use Rattle.gtd_core.specs.Parts.{domain_tree};
ghost use Rattle.gtd_core.specs.Trees.{Tree};
ghost use Rattle.gtd_eval.specs.Membership.{InDomain, InTree, IsNormalOver};
ghost use Rattle.gtd_records.specs.Week.{IsWeekOf};
ghost use Rattle.gtd_spans.specs.Normal.{Holds, IsNormal};

use gtd_core::{Basic, Domain, Expr, Horizon, Sec, Span};
use gtd_eval::{Cursor, is_weekly};
use gtd_spans::SpanList;
use std::alloc::{AllocError, Global};

/// The seconds of a week.
const WEEK_SECONDS: i64 = 604_800;

/// The week whose spans are kept: that from second 0 on.
const FIRST_DAY: i64 = 0;

/// The day after it.
const END_DAY: i64 = 7;

/// How many spans of a week are kept at most.
const MOST_SPANS: usize = 16;

// The spans of a domain in some days, or `None` if there are more than so many.
fn few_spans(alloc: Global, domain: &Domain, days: Horizon) -> Result<Option<SpanList>, AllocError>
    ensures { IfOk result (λ found. IfSome found (IsNormalOver (InDomain domain.now) days)) }
{
    let mut cursor = Cursor::open(alloc, domain, days)?;
    SpanList::collect_within(alloc, &mut cursor, MOST_SPANS)
}

// Whether a basic domain begins at most once a day. The spans of one that begins each hour or minute are too many to be kept, and
// are not gone through.
fn begins_daily(basic: &Basic) -> bool {
    let parts = basic.start.parts();
    parts.hour.is_some() || (parts.minute.is_none() && parts.second.is_none())
}

/// Whether each basic domain of an expression begins at most once a day.
pub(crate) fn all_begin_daily(expr: &Expr) -> bool {
    match expr {
        Expr::Leaf(basic) => begins_daily(basic),
        Expr::Join(_, left, right) => all_begin_daily(left) && all_begin_daily(right),
    }
}

/// The spans, in the week from second 0 on, of a domain that repeats weekly. `None` is answered if it does not, if a basic domain
/// begins each hour or minute, or if there are more than 16 spans; `AllocError` only if memory was refused.
pub(crate) fn week_of(alloc: Global, domain: &Domain) -> Result<Option<SpanList>, AllocError>
    ensures { IfOk result (λ week. IfSome week (IsWeekOf (domain_tree domain.now))) }
{
    if !is_weekly(domain) || !all_begin_daily(domain.expr()) {
        return Ok(None);
    }
    match Horizon::new(FIRST_DAY, END_DAY) {
        Ok(days) => few_spans(alloc, domain, days),
        Err(_) => Ok(None),
    }
}

// The second of the week from second 0 on that is whole weeks from a second.
fn second_of_week(second: Sec) -> Sec
    ensures { result.0 ≡ int_rem_euclid second.0 (pos 604_800) }
{
    Sec(second.0.rem_euclid(WEEK_SECONDS))
}

// Whether a span of a normal list has a second.
fn spans_hold(spans: &[Span], second: Sec) -> bool
    requires { IsNormal spans.now }
    ensures { IsTrue result ↔ Holds spans.now second.0 }
{
    for span in spans {
        if second < span.until() {
            return span.contains(second);
        }
    }
    false
}

/// Whether a domain that repeats weekly contains a second, by its spans in a week.
pub(crate) fn holds_weekly(week: &SpanList, second: Sec) -> bool
    ensures { (tree : Tree) → IsWeekOf tree week.now → IsTrue result ↔ InTree tree second.0 }
{
    spans_hold(week.spans(), second_of_week(second))
}
