//! Hashes of domains.

use gtd_core::{Basic, Domain, Expr, Op};

/// What stands for a field that is left out.
const LEFT_OUT: u32 = 65_535;

fn or_left_out(field: Option<u8>) -> u32 {
    match field {
        Some(value) => u32::from(value),
        None => LEFT_OUT,
    }
}

fn of_place(place: Option<(u8, u8)>) -> u32 {
    match place {
        Some((number, weekday)) => 8 * u32::from(number) + u32::from(weekday),
        None => LEFT_OUT,
    }
}

// A hash with these values more (that of FNV).
fn with(hash: u32, values: &[u32]) -> u32 {
    let mut hash = hash;
    for value in values {
        hash = (hash ^ *value).wrapping_mul(16_777_619);
    }
    hash
}

fn with_start(hash: u32, basic: &Basic) -> u32 {
    let start = basic.start.parts();
    let year = match start.year {
        Some(year) => u32::from(year),
        None => LEFT_OUT,
    };
    let days = [
        year,
        or_left_out(start.month),
        or_left_out(start.week),
        or_left_out(start.day),
        of_place(start.nth),
        of_place(start.nth_back),
        u32::from(start.weekdays),
    ];
    let clock = [
        or_left_out(start.hour),
        or_left_out(start.minute),
        or_left_out(start.second),
    ];
    with(with(hash, &days), &clock)
}

fn with_basic(hash: u32, basic: &Basic) -> u32 {
    let lasts = basic.duration.parts();
    let numbers = [
        lasts.years,
        lasts.months,
        lasts.weeks,
        lasts.days,
        lasts.hours,
        lasts.minutes,
        lasts.seconds,
    ];
    with(with_start(hash, basic), &numbers)
}

fn with_expr(hash: u32, expr: &Expr) -> u32 {
    match expr {
        Expr::Leaf(basic) => with_basic(hash, basic),
        Expr::Join(op, left, right) => {
            let operator = match op {
                Op::Union => 1,
                Op::Meet => 2,
                Op::Minus => 3,
            };
            with_expr(with_expr(with(hash, &[operator]), left), right)
        }
    }
}

/// A hash of the domain's parts. Equal domains have the same, and few others have.
pub(crate) fn hash_of(domain: &Domain) -> u32 {
    with_expr(1, domain.expr())
}
