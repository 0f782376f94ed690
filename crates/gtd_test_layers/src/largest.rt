//! The largest domain, and expressions that are larger than a domain.

use crate::texts::{NEW_YEAR, basic, horizon};
use gtd_core::{Domain, Expr, Op};
use gtd_eval::{Cursor, spans};
use std::alloc::Global;
use std::process::Abort;

// So many times one hour of each day, joined from the left or from the right.
pub(crate) fn chain(rt: &impl Abort, alloc: Global, count: u32, is_left: bool) -> Expr {
    let leaf = basic(rt, alloc, "(h1){h1}");
    let mut expr = Expr::Leaf(leaf);
    for _ in 1..count {
        let one = Box::new(alloc, Expr::Leaf(leaf)).expect(rt, "memory");
        let rest = Box::new(alloc, expr).expect(rt, "memory");
        expr = if is_left {
            Expr::Join(Op::Union, rest, one)
        } else {
            Expr::Join(Op::Union, one, rest)
        };
    }
    expr
}

// A domain may have 128 basic ones.
#[test]
fn the_largest_domain(rt: HostRuntime) {
    let alloc = rt.alloc();
    let day = horizon(&rt, NEW_YEAR, NEW_YEAR + 1);
    let domain = Domain::new(chain(&rt, alloc, 128, true)).expect(&rt, "a domain");
    let list = spans(alloc, &domain, day).expect(&rt, "memory");
    assert!(rt; list.spans().len() == 1);
    let cursor = Cursor::open(alloc, &domain, day).expect(&rt, "memory");
    assert!(rt; cursor.nodes() == 255);
}

// One more than a domain may have, and the greatest depth that the documents call safe: such an expression is built, given
// back and dropped.
#[test]
fn larger_expressions(rt: HostRuntime) {
    let alloc = rt.alloc();
    for count in [129u32, 1_001] {
        for is_left in [true, false] {
            match Domain::new(chain(&rt, alloc, count, is_left)) {
                Ok(_) => panic!(rt; "accepted"),
                Err(back) => assert!(rt; back == chain(&rt, alloc, count, is_left)),
            }
        }
    }
}
