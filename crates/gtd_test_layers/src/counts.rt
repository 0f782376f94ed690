//! Counts of days that are looked at and of spans that are kept. Contracts bound them from above.

use crate::lists::{has_ends, list_of};
use crate::texts::{NEW_YEAR, basic, domain, horizon};
use gtd_core::{Sec, Span};
use gtd_eval::KeptCursor;
use gtd_recur::{Runs, Starts};
use gtd_spans::{SpanList, SpanSource};

// On Friday, 13 September 2024, 256 days of the horizon have been looked at; the year has no other such Friday before
// October.
#[test]
fn days_are_counted(rt: HostRuntime) {
    let basic = basic(&rt, rt.alloc(), "(d13t6){d1}");
    let mut runs = Runs::new(basic, horizon(&rt, NEW_YEAR, NEW_YEAR + 274));
    assert!(rt; runs.next() == Span::new(Sec(1_726_185_600), Sec(1_726_272_000)));
    assert!(rt; 256 <= runs.ticks() && runs.ticks() <= 276);
}

// From 1901 on: the days of February in three years and up to 29 February 1904, and that start.
#[test]
fn starts(rt: HostRuntime) {
    let basic = basic(&rt, rt.alloc(), "(M2d29h6){d1}");
    let mut starts = Starts::new(basic, horizon(&rt, -25_202, 120_896));
    assert!(rt; starts.ticks() == 0);
    assert!(rt; starts.next() == Some(Sec(-2_077_725_600)));
    assert!(rt; starts.ticks() == 28 * 3 + 29 + 1);
}

/// A domain, and how many spans its cursor keeps once all are handed out: those of a period of each largest part that repeats,
/// and none of a period with more of them than there is room for.
static KEPT: [(&str, u64); 5] = [
    ("(h8){h4}-(h10){h1}", 2),
    ("(t2){d1}+(h10){h4}", 7),
    ("(h10){h4}*(M5){M1}", 1),
    ("(t2){d1}*(s0){s10}", 0),
    ("(M5d1){d1}", 0),
];

#[test]
fn kept_spans(rt: HostRuntime) {
    let alloc = rt.alloc();
    let weeks = horizon(&rt, NEW_YEAR + 2, NEW_YEAR + 30);
    for &(text, wanted) in &KEPT {
        let domain = domain(&rt, alloc, text);
        let mut cursor = KeptCursor::open(alloc, &domain, weeks).expect(&rt, "memory");
        assert!(rt; cursor.kept() == 0, "{text}");
        for _ in 0..10_000u32 {
            let _ = cursor.next();
        }
        assert!(rt; cursor.kept() == wanted, "{text}");
    }
}

// A cursor that begins again, before and after the spans of a period are known, hands out the same list.
#[test]
fn begun_again(rt: HostRuntime) {
    let alloc = rt.alloc();
    let weeks = horizon(&rt, NEW_YEAR + 2, NEW_YEAR + 30);
    for &(text, kept) in &KEPT {
        let domain = domain(&rt, alloc, text);
        let mut cursor = KeptCursor::open(alloc, &domain, weeks).expect(&rt, "memory");
        let whole = SpanList::collect(alloc, &mut cursor).expect(&rt, "memory");
        cursor.begin_again();
        assert!(rt; cursor.kept() <= kept, "{text}");
        let again = SpanList::collect(alloc, &mut cursor).expect(&rt, "memory");
        assert!(rt; again.spans() == whole.spans(), "{text}");
        let mut other = KeptCursor::open(alloc, &domain, weeks).expect(&rt, "memory");
        let _ = other.next();
        other.begin_again();
        let anew = SpanList::collect(alloc, &mut other).expect(&rt, "memory");
        assert!(rt; anew.spans() == whole.spans(), "{text}");
    }
}

// A list of two spans, of which at most two and then at most one are asked for.
#[test]
fn lists_of_at_most(rt: HostRuntime) {
    let alloc = rt.alloc();
    let list = list_of(&rt, alloc, &[(10, 30), (40, 41)]).expect(&rt, "memory");
    let one = SpanList::collect_within(alloc, &mut list.source(), 1).expect(&rt, "memory");
    assert!(rt; one.is_none());
    let two = SpanList::collect_within(alloc, &mut list.source(), 2).expect(&rt, "memory");
    let two = two.expect(&rt, "two spans");
    assert!(rt; has_ends(&two, &[(10, 30), (40, 41)]));
}
