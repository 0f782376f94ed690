//! Values of the tests, by their texts and numbers.

use gtd_core::{Basic, Domain, Expr, Horizon};
use gtd_text::read_domain;
use std::alloc::Global;
use std::process::Abort;

/// A record file of two rows: 88 bytes.
pub(crate) const R: &str =
    "element,direction,vehicle,domain\n17,positive,0,[(M4d1){M3}]*[(h10){h4}]\n17,negative,11,\n";

pub(crate) const HOUR: i64 = 3_600;

pub(crate) const DAY: i64 = 86_400;

/// 2024-01-01, a Monday.
pub(crate) const NEW_YEAR: i64 = 19_723;

/// The domain that this text is.
pub(crate) fn domain(rt: &impl Abort, alloc: Global, text: &str) -> Domain {
    read_domain(alloc, text.as_bytes()).expect(rt, "a domain")
}

/// The basic domain that the domain is.
pub(crate) fn leaf(rt: &impl Abort, domain: &Domain) -> Basic {
    match domain.expr() {
        Expr::Leaf(basic) => *basic,
        Expr::Join(..) => panic!(rt; "not basic"),
    }
}

/// The basic domain that this text is.
pub(crate) fn basic(rt: &impl Abort, alloc: Global, text: &str) -> Basic {
    leaf(rt, &domain(rt, alloc, text))
}

/// The days from one up to but not including another.
pub(crate) fn horizon(rt: &impl Abort, from_day: i64, to_day: i64) -> Horizon {
    Horizon::new(from_day, to_day).expect(rt, "a horizon")
}
