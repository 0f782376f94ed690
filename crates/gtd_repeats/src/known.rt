//! Rows whose text an earlier row is known to have, so that little is found out for each of them.

ghost use Rattle.std.specs.Prelude.{◌≡◌, ◌<◌, ◌≤◌, IfOk, length};
ghost use Rattle.gtd_repeats.specs.Known.{AreKnown};
ghost use Rattle.gtd_repeats.specs.Sameness.{row_at};

use crate::seconds::have_same_text;
use gtd_core::{Basic, Domain, Expr, Op};
use gtd_records::Record;
use std::alloc::{AllocError, Global};

/// How many texts are remembered.
const PLACES: usize = 4096;

fn hash_with(hash: u32, value: u32) -> u32 {
    (hash ^ value).wrapping_mul(16_777_619)
}

fn with_byte(hash: u32, field: Option<u8>) -> u32 {
    match field {
        Some(value) => hash_with(hash, u32::from(value)),
        None => hash_with(hash, 255),
    }
}

fn with_place(hash: u32, place: Option<(u8, u8)>) -> u32 {
    match place {
        Some((number, weekday)) => hash_with(
            hash_with(hash, u32::from(number)),
            u32::from(weekday),
        ),
        None => hash_with(hash, 255),
    }
}

fn with_basic(hash: u32, basic: &Basic) -> u32 {
    let start = basic.start.parts();
    let year = match start.year {
        Some(year) => u32::from(year),
        None => 65_535,
    };
    let date = with_byte(with_byte(hash_with(hash, year), start.month), start.day);
    let week = hash_with(with_byte(date, start.week), u32::from(start.weekdays));
    let places = with_place(with_place(week, start.nth), start.nth_back);
    let clock = with_byte(
        with_byte(with_byte(places, start.hour), start.minute),
        start.second,
    );
    let lasts = basic.duration.parts();
    let days = hash_with(hash_with(clock, lasts.years), lasts.months);
    let weeks = hash_with(hash_with(days, lasts.weeks), lasts.days);
    hash_with(
        hash_with(hash_with(weeks, lasts.hours), lasts.minutes),
        lasts.seconds,
    )
}

fn with_expr(hash: u32, expr: &Expr) -> u32 {
    match expr {
        Expr::Leaf(basic) => with_basic(hash, basic),
        Expr::Join(op, left, right) => {
            let operator = match op {
                Op::Union => 1,
                Op::Meet => 2,
                Op::Minus => 3,
            };
            let first = with_expr(hash_with(hash, operator), left);
            with_expr(first, right)
        }
    }
}

// The place of a hash of the domain's parts. Few other domains have the same.
fn place_of(domain: Option<&Domain>) -> usize {
    match domain {
        Some(domain) => (with_expr(1, domain.expr()) >> 20) as usize,
        None => 0,
    }
}

// The row that a place has.
fn row_in(latest: &[usize], place: usize) -> usize {
    match latest.get(place) {
        Some(row) => *row,
        None => 0,
    }
}

// The candidate, if it is an earlier row with the same text; otherwise the row.
fn known_of(rows: &[Record], candidate: usize, row: usize) -> usize
    requires inside { row < length rows.now }
    ensures not_later { result ≤ row }
    ensures same { (row_at rows.now result).domain ≡ (row_at rows.now row).domain }
{
    if candidate >= row {
        return row;
    }
    let earlier = &rows[candidate];
    let record = &rows[row];
    if have_same_text(earlier.domain(), record.domain()) {
        candidate
    } else {
        row
    }
}

/// For each row an earlier one whose domain has the same canonical text, or itself if none is remembered.
pub(crate) fn known_rows(alloc: Global, rows: &[Record]) -> Result<Vec<usize>, AllocError>
    ensures known { IfOk result (λ known. AreKnown rows.now known.items) }
{
    let mut latest = Vec::new(alloc);
    for _ in 0..PLACES {
        latest.push(0usize)?;
    }
    let mut known = Vec::new(alloc);
    for row in 0..rows.len() {
        let record = &rows[row];
        let place = place_of(record.domain());
        known.push(known_of(rows, row_in(latest.as_slice(), place), row))?;
        if let Some(kept) = latest.get_mut(place) {
            *kept = row;
        }
    }
    Ok(known)
}
