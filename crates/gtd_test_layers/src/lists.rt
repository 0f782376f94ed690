//! Lists and sources of spans, by the ends of their spans.

use gtd_core::{Sec, Span};
use gtd_spans::{SpanList, SpanSource};
use std::alloc::{AllocError, Global};
use std::process::Abort;

/// The list of the spans with these ends, pushed in turn.
pub(crate) fn list_of(
    rt: &impl Abort,
    alloc: Global,
    ends: &[(i64, i64)],
) -> Result<SpanList, AllocError> {
    let mut list = SpanList::new(alloc);
    let mut latest = Sec(i64::MIN);
    for &(from, until) in ends {
        let span = Span::new(Sec(from), Sec(until)).expect(rt, "no second");
        let from = span.from();
        assert!(rt; latest.0 <= from.0);
        latest = from;
        list.push_start(span)?;
    }
    Ok(list)
}

/// Whether the spans of the list have these ends.
pub(crate) fn has_ends(list: &SpanList, ends: &[(i64, i64)]) -> bool {
    let spans = list.spans();
    if spans.len() != ends.len() {
        return false;
    }
    for (span, &(from, until)) in spans.iter().zip(ends) {
        if span.from() != Sec(from) || span.until() != Sec(until) {
            return false;
        }
    }
    true
}

/// The source hands out spans with these ends, in seconds after a midnight, and nothing more.
pub(crate) fn gives<S: SpanSource>(
    rt: &impl Abort,
    source: &mut S,
    midnight: i64,
    ends: &[(i64, i64)],
) {
    for (from, until) in ends {
        let from = Sec(midnight.wrapping_add(*from));
        let until = Sec(midnight.wrapping_add(*until));
        assert!(rt; source.next() == Span::new(from, until));
    }
    assert!(rt; source.next() == None);
}
