//! The calls that take no memory, while every growth is refused. Each test asserts the same answers twice, first with ample
//! memory. What the calls work on is made before.
//!
//! Memory comes from the runtime alone. So a call that is given no allocator and no value that holds one takes none, and has no
//! test here.
//!
//! `tests/refusals.sh` refuses the growths: a request for `SWITCH` bytes and all growths after it, up to the next such
//! request. Each refusal is reported, and the script checks that the first request was the only one. So a call that asks for
//! memory is found, even if it can do without.

ghost use Rattle.std.specs.Prelude.{◌≡◌, ℤ, pos};
ghost use Rattle.gtd_core.specs.Seconds.{Within};
ghost use Rattle.gtd_core.specs.Whole.{whole};
ghost use Rattle.gtd_spans.specs.Normal.{Holds};
ghost use Rattle.gtd_spans.specs.Pushing.{NoneBeginsAfter};

use crate::largest::chain;
use crate::lists::{gives, has_ends, list_of};
use crate::refusals::two_cursors;
use crate::texts::{DAY, HOUR, NEW_YEAR, R, domain, horizon};
use gtd_core::{Domain, Expr, Horizon, Op, Sec, Span};
use gtd_devices::{Input, MemoryIn, MemoryOut, Output, Pull, Put};
use gtd_eval::{Cursor, holds};
use gtd_records::{Records, read_records};
use gtd_rows::Direction;
use gtd_spans::{Both, Outside, SpanList, Unite, Without, same, within};
use std::alloc::Global;
use std::process::Abort;

/// A number of bytes that nothing else asks for.
const SWITCH: usize = 7_654_321;

// If the script runs the test: the first call makes all growths fail from here on, and the second ends this.
fn switch(alloc: Global) {
    if let Ok(mut bytes) = Vec::<u8>::with_capacity(alloc, SWITCH) {
        let _ = bytes.push(1);
    }
}

// The greatest number of basic domains makes a domain, of one hour a day; one more makes none.
fn expect_domains(rt: &impl Abort, most: Expr, over: Expr) {
    assert!(rt; Domain::new(over).is_err());
    let domain = Domain::new(most).expect(rt, "a domain");
    assert!(rt; domain == domain);
    assert!(rt; matches!(domain.expr(), Expr::Join(Op::Union, _, _)));
    assert!(rt; holds(&domain, Sec(HOUR)) && !holds(&domain, Sec(2 * HOUR)));
}

#[test]
fn domains(rt: HostRuntime) {
    let alloc = rt.alloc();
    let (most, over) = (chain(&rt, alloc, 128, true), chain(&rt, alloc, 129, true));
    let (most_again, over_again) = (chain(&rt, alloc, 128, true), chain(&rt, alloc, 129, true));
    expect_domains(&rt, most, over);
    switch(alloc);
    expect_domains(&rt, most_again, over_again);
    switch(alloc);
}

// What the list of 10 to 30 and 40 to 41 answers, and another list of the same spans.
fn expect_list(rt: &impl Abort, alloc: Global, list: &SpanList, other: &SpanList) {
    let none = SpanList::new(alloc);
    assert!(rt; none.spans().is_empty() && !none.contains(Sec(10)));
    assert!(rt; has_ends(list, &[(10, 30), (40, 41)]));
    assert!(rt; list.contains(Sec(29)) && !list.contains(Sec(30)));
    assert!(rt; same(list, other) && !same(list, &none));
}

#[test]
fn lists(rt: HostRuntime) {
    let alloc = rt.alloc();
    let list = list_of(&rt, alloc, &[(10, 30), (40, 41)]).expect(&rt, "memory");
    let other = list_of(&rt, alloc, &[(10, 20), (20, 30), (40, 41)]).expect(&rt, "memory");
    expect_list(&rt, alloc, &list, &other);
    switch(alloc);
    expect_list(&rt, alloc, &list, &other);
    switch(alloc);
}

// When the list of 10 to 20 changes in a day.
fn expect_changes(rt: &impl Abort, list: &SpanList, day: Horizon)
    requires inside { (t : ℤ) → Holds list.now t → Within (whole day) t }
{
    for (second, change) in [(0, Some(Sec(10))), (10, Some(Sec(20))), (20, None)] {
        let second = Sec(second);
        assert!(rt; day.from() <= second && second < day.until());
        assert!(rt; list.next_change(second, day) == change);
    }
}

#[test]
fn changes_of_a_list(rt: HostRuntime) {
    let alloc = rt.alloc();
    let day = horizon(&rt, 0, 1);
    let list = list_of(&rt, alloc, &[(10, 20)]).expect(&rt, "memory");
    let inner = within(alloc, &list, day).expect(&rt, "memory");
    expect_changes(&rt, &inner, day);
    switch(alloc);
    expect_changes(&rt, &inner, day);
    switch(alloc);
}

// Adds a span that begins no earlier than `latest`, where the last one begins, and no later than the last one's end.
// Answers the second at which it begins.
fn join(rt: &impl Abort, list: &mut SpanList, latest: Sec, from: i64, until: i64) -> Sec
    requires order { NoneBeginsAfter latest.0 list.old }
    ensures order { NoneBeginsAfter result.0 list.new }
{
    let span = Span::new(Sec(from), Sec(until)).expect(rt, "no second");
    let from = span.from();
    assert!(rt; latest.0 <= from.0);
    list.push_start(span).expect(rt, "memory");
    from
}

// Spans that are joined to the list's only span, 10 to 20.
fn expect_joined(rt: &impl Abort, list: &mut SpanList)
    requires order { NoneBeginsAfter (pos 10) list.old }
{
    let latest = join(rt, list, Sec(10), 15, 18);
    assert!(rt; has_ends(list, &[(10, 20)]));
    let _ = join(rt, list, latest, 20, 30);
    assert!(rt; has_ends(list, &[(10, 30)]));
}

#[test]
fn spans_that_are_joined(rt: HostRuntime) {
    let alloc = rt.alloc();
    let first = Span::new(Sec(10), Sec(20)).expect(&rt, "a span");
    let mut list = SpanList::new(alloc);
    list.push_start(first).expect(&rt, "memory");
    let mut again = SpanList::new(alloc);
    again.push_start(first).expect(&rt, "memory");
    expect_joined(&rt, &mut list);
    switch(alloc);
    expect_joined(&rt, &mut again);
    switch(alloc);
}

// The sources over two lists, of 0 to 10 and 20 to 30, and of 5 to 25, give their spans.
fn expect_sources(rt: &impl Abort, a: &SpanList, b: &SpanList) {
    let day = horizon(rt, 0, 1);
    gives(rt, &mut Unite::new(a.source(), b.source()), 0, &[(0, 30)]);
    gives(
        rt,
        &mut Both::new(a.source(), b.source()),
        0,
        &[(5, 10), (20, 25)],
    );
    gives(
        rt,
        &mut Without::new(a.source(), b.source()),
        0,
        &[(0, 5), (25, 30)],
    );
    gives(
        rt,
        &mut Outside::new(a.source(), day),
        0,
        &[(10, 20), (30, 86_400)],
    );
}

#[test]
fn sources(rt: HostRuntime) {
    let alloc = rt.alloc();
    let a = list_of(&rt, alloc, &[(0, 10), (20, 30)]).expect(&rt, "memory");
    let b = list_of(&rt, alloc, &[(5, 25)]).expect(&rt, "memory");
    expect_sources(&rt, &a, &b);
    switch(alloc);
    expect_sources(&rt, &a, &b);
    switch(alloc);
}

// The spans of a day's night and broken morning together.
const EITHER: [(i64, i64); 4] = [
    (0, 6 * HOUR),
    (8 * HOUR, 10 * HOUR),
    (11 * HOUR, 12 * HOUR),
    (22 * HOUR, 24 * HOUR),
];

// What the cursor of the night or the morning gives, and that of a whole day. Answers how far the first counted.
fn expect_cursors(rt: &impl Abort, cursor: &mut Cursor, day: Horizon) -> u64 {
    assert!(rt; cursor.nodes() == 5);
    gives(rt, cursor, NEW_YEAR * DAY, &EITHER);
    let mut whole = Cursor::whole(day);
    assert!(rt; whole.nodes() == 1);
    gives(rt, &mut whole, NEW_YEAR * DAY, &[(0, DAY)]);
    assert!(rt; whole.ticks() == 0);
    cursor.ticks()
}

// The cursor of the night or the morning.
fn either(rt: &impl Abort, alloc: Global, day: Horizon) -> Cursor {
    let night = domain(rt, alloc, "(h22){h8}");
    let morning = domain(rt, alloc, "(h8){h4}-(h10){h1}");
    let cursors = two_cursors(alloc, &night, &morning, day).expect(rt, "memory");
    Cursor::any(alloc, cursors, day).expect(rt, "memory")
}

#[test]
fn cursors(rt: HostRuntime) {
    let alloc = rt.alloc();
    let day = horizon(&rt, NEW_YEAR, NEW_YEAR + 1);
    let mut cursor = either(&rt, alloc, day);
    let mut again = either(&rt, alloc, day);
    let ticks = expect_cursors(&rt, &mut cursor, day);
    switch(alloc);
    assert!(rt; expect_cursors(&rt, &mut again, day) == ticks);
    switch(alloc);
}

// What the records of `R` answer.
fn expect_records(rt: &impl Abort, records: &Records) {
    assert!(rt; records.elements() == [17u64].as_slice() && records.rows().len() == 2);
    let ten = Sec(19_814 * DAY + 10 * HOUR);
    let before = Sec(19_814 * DAY + 10 * HOUR - 1);
    assert!(rt; records.closed_at(17, Direction::Positive, 11, ten));
    assert!(rt; !records.closed_at(17, Direction::Positive, 11, before));
    assert!(rt; records.closed_at(17, Direction::Negative, 11, before));
    assert!(rt; !records.closed_at(5, Direction::Positive, 11, ten));
    assert!(rt; records.closes_one_way(17, 12) && !records.closes_one_way(5, 11));
}

#[test]
fn records(rt: HostRuntime) {
    let alloc = rt.alloc();
    let file = Vec::from_slice(alloc, R.as_bytes()).expect(&rt, "memory");
    let mut input = MemoryIn::new(file, 1, None, None);
    let records = read_records(alloc, &mut input).expect(&rt, "records");
    expect_records(&rt, &records);
    switch(alloc);
    expect_records(&rt, &records);
    switch(alloc);
}

// What an input over the bytes of `R` gives.
fn expect_input(rt: &impl Abort, bytes: Vec<u8>) {
    let mut buffer = [0u8; 100];
    let mut memory = MemoryIn::new(bytes, 87, Some(2), Some(4));
    assert!(rt; memory.pull(&mut buffer) == Pull::Got(87));
    assert!(rt; memory.pull(&mut buffer) == Pull::Failed);
    assert!(rt; memory.pull(&mut buffer) == Pull::Got(1));
    assert!(rt; memory.pull(&mut buffer) == Pull::Got(0));
    assert!(rt; memory.failures() == 1);
}

#[test]
fn inputs(rt: HostRuntime) {
    let alloc = rt.alloc();
    let bytes = Vec::from_slice(alloc, R.as_bytes()).expect(&rt, "memory");
    let again = Vec::from_slice(alloc, R.as_bytes()).expect(&rt, "memory");
    expect_input(&rt, bytes);
    switch(alloc);
    expect_input(&rt, again);
    switch(alloc);
}

// What an output with room for eight bytes takes, five at a time.
fn expect_output(rt: &impl Abort, output: &mut MemoryOut)
    requires sound { ⟦<MemoryOut as Output>⟧.failure_count output.old ≡ 0 }
{
    assert!(rt; output.put(b"element,".as_slice()) == Put::Took(5));
    assert!(rt; output.put(b"nt,".as_slice()) == Put::Took(3));
    assert!(rt; output.put(b"direction".as_slice()) == Put::Failed);
    assert!(rt; output.finish() == Put::Took(0));
    assert!(rt; output.bytes() == b"element,".as_slice());
    assert!(rt; output.failures() == 1);
}

#[test]
fn outputs(rt: HostRuntime) {
    let alloc = rt.alloc();
    let mut output = MemoryOut::new(alloc, 8, 5, None).expect(&rt, "memory");
    let mut again = MemoryOut::new(alloc, 8, 5, None).expect(&rt, "memory");
    expect_output(&rt, &mut output);
    switch(alloc);
    expect_output(&rt, &mut again);
    switch(alloc);
}
