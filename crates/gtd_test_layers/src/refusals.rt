//! Each call of a layer that takes memory, when one of its growths is refused. `tests/refusals.sh` refuses the growths of
//! each test one after the other, one in each run.
//!
//! A refused call is made once more, and must then succeed. So with ample memory it succeeds, and a refusal leaves nothing
//! behind. A test that is refused the memory that it needs for itself ends.

ghost use Rattle.std.specs.Prelude.{◌≡◌, ◌≤◌, vec_len, IfOk};
ghost use Rattle.gtd_eval.specs.Cursors.{cursor_nodes, total_nodes};
ghost use Rattle.gtd_spans.specs.Pushing.{NoneBeginsAfter};

use crate::lists::{has_ends, list_of};
use crate::texts::{DAY, HOUR, R, horizon, leaf};
use gtd_core::{Domain, Fault, Horizon, Sec, Span, TextFault};
use gtd_devices::{MemoryIn, MemoryOut};
use gtd_eval::{Cursor, EverFault, next_change, next_change_ever, spans};
use gtd_hours_domain::{TranslationFault, domain_of};
use gtd_hours_text::read_hours;
use gtd_records::{RecordFault, Records, read_records, schedule_of};
use gtd_recur::spans_of;
use gtd_rows::Direction;
use gtd_spans::{SpanList, complement, meet, minus, union, within};
use gtd_text::{TokenKind, print_domain, read_domain, tokens};
use std::alloc::{AllocError, Global};
use std::process::Abort;

const TEXT: &[u8] = b"[(M4d1){M3}]*[(h10){h4}]";

const CANONICAL: &str = "[[(M4d1){M3}]*[(h10){h4}]]";

const NIGHT: &[u8] = b"[(h22){h8}]";

const MORNING: &[u8] = b"[(h8){h4}]-[(h10){h1}]";

const NO_MEMORY: TextFault = TextFault {
    kind: Fault::NoMemory,
    place: 0,
};

#[test]
fn tokens_of_a_text(rt: HostRuntime) {
    for _ in 0..2 {
        match tokens(rt.alloc(), TEXT) {
            Ok(found) => {
                assert!(rt; found.len() == 18);
                assert!(rt; found[9].kind == TokenKind::Star);
                assert!(rt; found[17].to == 24);
                return;
            }
            Err(fault) => assert!(rt; fault == NO_MEMORY),
        }
    }
    panic!(rt; "refused twice");
}

#[test]
fn a_domain_that_is_read(rt: HostRuntime) {
    for _ in 0..2 {
        match read_domain(rt.alloc(), TEXT) {
            Ok(_) => return,
            Err(fault) => assert!(rt; fault == NO_MEMORY),
        }
    }
    panic!(rt; "refused twice");
}

#[test]
fn a_domain_that_is_printed(rt: HostRuntime) {
    let Ok(domain) = read_domain(rt.alloc(), TEXT) else {
        return;
    };
    for _ in 0..2 {
        if let Ok(text) = print_domain(rt.alloc(), &domain) {
            assert!(rt; text.as_str() == CANONICAL);
            return;
        }
    }
    panic!(rt; "refused twice");
}

// Spans that are pushed in turn, and the list after each.
static PUSHES: [((i64, i64), &[(i64, i64)]); 6] = [
    ((10, 20), &[(10, 20)]),
    ((20, 30), &[(10, 30)]),
    ((40, 41), &[(10, 30), (40, 41)]),
    ((50, 51), &[(10, 30), (40, 41), (50, 51)]),
    ((60, 61), &[(10, 30), (40, 41), (50, 51), (60, 61)]),
    (
        (70, 71),
        &[(10, 30), (40, 41), (50, 51), (60, 61), (70, 71)],
    ),
];

// Pushes the span, and again if memory is refused; after the refusal the list is as before.
fn push(rt: &impl Abort, list: &mut SpanList, x: Span, before: &[(i64, i64)])
    requires order { NoneBeginsAfter x.from list.old }
    ensures order { NoneBeginsAfter x.from list.new }
{
    if let Ok(()) = list.push_start(x) {
        return;
    }
    assert!(rt; has_ends(list, before));
    list.push_start(x).expect(rt, "memory");
}

#[test]
fn spans_that_are_pushed(rt: HostRuntime) {
    let mut list = SpanList::new(rt.alloc());
    let mut latest = Sec(i64::MIN);
    let mut before: &[(i64, i64)] = &[];
    for &((from, until), after) in &PUSHES {
        let span = Span::new(Sec(from), Sec(until)).expect(&rt, "no second");
        let from = span.from();
        assert!(rt; latest.0 <= from.0);
        latest = from;
        push(&rt, &mut list, span, before);
        assert!(rt; has_ends(&list, after));
        before = after;
    }
}

/// What is done with a list and another one, or with a list and the first day.
#[derive(Clone, Copy)]
enum Operation {
    Union,
    Meet,
    Minus,
    Within,
    Complement,
}

fn done(
    rt: &impl Abort,
    alloc: Global,
    operation: Operation,
    a: &SpanList,
    b: &SpanList,
) -> Result<SpanList, AllocError> {
    match operation {
        Operation::Union => union(alloc, a, b),
        Operation::Meet => meet(alloc, a, b),
        Operation::Minus => minus(alloc, a, b),
        Operation::Within => within(alloc, a, horizon(rt, 0, 1)),
        Operation::Complement => complement(alloc, a, horizon(rt, 0, 1)),
    }
}

/// An operation, the lists that it is done with, and the list that it gives.
type Row = (
    Operation,
    &'static [(i64, i64)],
    &'static [(i64, i64)],
    &'static [(i64, i64)],
);

// Five spans are more than a list has room for at first.
static OPERATIONS: [Row; 6] = [
    (
        Operation::Union,
        &[(0, 1), (2, 3), (4, 5), (6, 7), (8, 9)],
        &[(9, 10)],
        &[(0, 1), (2, 3), (4, 5), (6, 7), (8, 10)],
    ),
    (Operation::Meet, &[(0, 10)], &[(10, 20)], &[]),
    (
        Operation::Meet,
        &[(0, 20)],
        &[(0, 1), (2, 3), (4, 5), (6, 7), (8, 9)],
        &[(0, 1), (2, 3), (4, 5), (6, 7), (8, 9)],
    ),
    (
        Operation::Minus,
        &[(0, 10)],
        &[(0, 1), (2, 3), (4, 5), (6, 7), (8, 9)],
        &[(1, 2), (3, 4), (5, 6), (7, 8), (9, 10)],
    ),
    (
        Operation::Within,
        &[(-5, 5), (86_399, 86_500)],
        &[],
        &[(0, 5), (86_399, 86_400)],
    ),
    (
        Operation::Complement,
        &[(0, 1), (2, 3), (4, 5), (6, 7), (8, 9)],
        &[],
        &[(1, 2), (3, 4), (5, 6), (7, 8), (9, 86_400)],
    ),
];

fn expect_done(rt: &impl Abort, alloc: Global, row: &Row) {
    let (operation, a, b, wanted) = *row;
    let (Ok(left), Ok(right)) = (list_of(rt, alloc, a), list_of(rt, alloc, b)) else {
        return;
    };
    for _ in 0..2 {
        if let Ok(list) = done(rt, alloc, operation, &left, &right) {
            assert!(rt; has_ends(&list, wanted));
            return;
        }
    }
    panic!(rt; "refused twice");
}

#[test]
fn operations_on_lists(rt: HostRuntime) {
    for row in &OPERATIONS {
        expect_done(&rt, rt.alloc(), row);
    }
}

// The cursors of the two domains.
pub(crate) fn two_cursors(
    alloc: Global,
    left: &Domain,
    right: &Domain,
    horizon: Horizon,
) -> Result<Vec<Cursor>, AllocError>
    ensures few { IfOk result (λ cursors. total_nodes cursors.items ≤ 510) }
    ensures two { IfOk result (λ cursors. vec_len cursors ≡ 2) }
{
    let mut cursors = Vec::new(alloc);
    cursors.push(Cursor::open(alloc, left, horizon)?)?;
    cursors.push(Cursor::open(alloc, right, horizon)?)?;
    Ok(cursors)
}

// The cursor of the seconds of any of the two domains.
fn either(
    alloc: Global,
    left: &Domain,
    right: &Domain,
    horizon: Horizon,
) -> Result<Cursor, AllocError>
    ensures few { IfOk result (λ cursor. cursor_nodes cursor ≤ 511) }
{
    let cursors = two_cursors(alloc, left, right, horizon)?;
    Cursor::any(alloc, cursors, horizon)
}

// The seconds of neither domain.
fn neither(
    alloc: Global,
    left: &Domain,
    right: &Domain,
    horizon: Horizon,
) -> Result<SpanList, AllocError> {
    let inner = either(alloc, left, right, horizon)?;
    let mut outside = Cursor::outside(alloc, inner, horizon)?;
    SpanList::collect(alloc, &mut outside)
}

/// Which seconds are asked for, of one domain or of two.
#[derive(Clone, Copy)]
enum Seconds {
    Night,
    Morning,
    Neither,
}

// The spans of the first day of 1970. `Night` is that of a basic domain, `Morning` that of any domain.
fn made(
    rt: &impl Abort,
    alloc: Global,
    what: Seconds,
    night: &Domain,
    morning: &Domain,
) -> Result<SpanList, AllocError> {
    let day = horizon(rt, 0, 1);
    match what {
        Seconds::Night => spans_of(alloc, &leaf(rt, night), day),
        Seconds::Morning => spans(alloc, morning, day),
        Seconds::Neither => neither(alloc, night, morning, day),
    }
}

// An hour has 3,600 seconds.
static MADE: [(Seconds, &[(i64, i64)]); 3] = [
    (Seconds::Night, &[(0, 21_600), (79_200, 86_400)]),
    (Seconds::Morning, &[(28_800, 36_000), (39_600, 43_200)]),
    (
        Seconds::Neither,
        &[(21_600, 28_800), (36_000, 39_600), (43_200, 79_200)],
    ),
];

fn expect_made(rt: &impl Abort, alloc: Global, what: Seconds, wanted: &[(i64, i64)]) {
    let (Ok(night), Ok(morning)) = (read_domain(alloc, NIGHT), read_domain(alloc, MORNING)) else {
        return;
    };
    for _ in 0..2 {
        if let Ok(list) = made(rt, alloc, what, &night, &morning) {
            assert!(rt; has_ends(&list, wanted));
            return;
        }
    }
    panic!(rt; "refused twice");
}

#[test]
fn spans_of_domains(rt: HostRuntime) {
    for &(what, wanted) in &MADE {
        expect_made(&rt, rt.alloc(), what, wanted);
    }
}

// The next change over the horizon from the second's day on.
fn change(
    rt: &impl Abort,
    alloc: Global,
    domain: &Domain,
    second: Sec,
    to_day: i64,
) -> Result<Option<Sec>, AllocError> {
    let horizon = horizon(rt, second.day(), to_day);
    assert!(rt; horizon.from() <= second && second < horizon.until());
    next_change(alloc, domain, second, horizon)
}

// From ten o'clock on 1 April 2024 on.
fn expect_change(rt: &impl Abort, alloc: Global, text: &[u8], wanted: Option<Sec>) {
    let Ok(domain) = read_domain(alloc, text) else {
        return;
    };
    let ten = Sec(19_814 * DAY + 10 * HOUR);
    for _ in 0..2 {
        if let Ok(change) = change(rt, alloc, &domain, ten, 19_817) {
            assert!(rt; change == wanted);
            return;
        }
    }
    panic!(rt; "refused twice");
}

// Of a domain that repeats each week, and of one that does not.
#[test]
fn changes_in_a_horizon(rt: HostRuntime) {
    let alloc = rt.alloc();
    let tuesday = Some(Sec(19_815 * DAY));
    expect_change(&rt, alloc, b"[(t2){d1}]", tuesday);
    let two = Some(Sec(19_814 * DAY + 14 * HOUR));
    expect_change(&rt, alloc, TEXT, two);
    expect_change(&rt, alloc, b"[(M4d1){M3}]*[(t2){d5}]", None);
}

#[test]
fn a_change_for_ever(rt: HostRuntime) {
    let Ok(domain) = read_domain(rt.alloc(), b"[(M2d29){d1}]*[(h0){h24}]") else {
        return;
    };
    for _ in 0..2 {
        let answer = next_change_ever(rt.alloc(), &domain, Sec(46_081 * DAY));
        if answer != Err(EverFault::NoMemory) {
            assert!(rt; answer == Ok(Some(Sec(49_001 * DAY))));
            return;
        }
    }
    panic!(rt; "refused twice");
}

#[test]
fn an_output_into_memory(rt: HostRuntime) {
    for _ in 0..2 {
        if let Ok(output) = MemoryOut::new(rt.alloc(), 1_000, 5, None) {
            assert!(rt; output.bytes().is_empty());
            return;
        }
    }
    panic!(rt; "refused twice");
}

// The records of `R`, or why they are not read.
fn records(alloc: Global) -> Result<Records, RecordFault> {
    let file = Vec::from_slice(alloc, R.as_bytes())?;
    read_records(alloc, &mut MemoryIn::new(file, 7, None, None))
}

#[test]
fn records_that_are_read(rt: HostRuntime) {
    for _ in 0..2 {
        match records(rt.alloc()) {
            Ok(records) => {
                assert!(rt; records.elements() == [17u64].as_slice());
                assert!(rt; records.rows().len() == 2);
                return;
            }
            Err(fault) => assert!(rt; fault == RecordFault::NoMemory),
        }
    }
    panic!(rt; "refused twice");
}

#[test]
fn a_schedule_of_records(rt: HostRuntime) {
    let alloc = rt.alloc();
    let Ok(records) = records(alloc) else {
        return;
    };
    let april = horizon(&rt, 19_814, 19_815);
    let midnight = 19_814 * DAY;
    let ends = [
        (midnight, midnight + 10 * HOUR),
        (midnight + 14 * HOUR, midnight + DAY),
    ];
    for _ in 0..2 {
        if let Ok(list) = schedule_of(alloc, &records, 17, Direction::Positive, 11, april) {
            assert!(rt; has_ends(&list, &ends));
            return;
        }
    }
    panic!(rt; "refused twice");
}

#[test]
fn hours_that_are_translated(rt: HostRuntime) {
    let Ok(hours) = read_hours(rt.alloc(), b"Fr 22:00-04:00; Sa 10:00-12:00") else {
        return;
    };
    for _ in 0..2 {
        match domain_of(rt.alloc(), &hours) {
            Ok(_) => return,
            Err(fault) => assert!(rt; fault == TranslationFault::NoMemory),
        }
    }
    panic!(rt; "refused twice");
}
