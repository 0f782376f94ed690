//! Numbers that rows with the same seconds share, so that few rows are compared.

ghost use Rattle.std.specs.Prelude.{◌≡◌, ◌<◌, ◌≤◌, ◌*◌, ℕ, Some, IfOk, get_or, length, option_map};
ghost use Rattle.gtd_core.specs.Parts.{domain_tree};
ghost use Rattle.gtd_core.specs.Whole.{whole};
ghost use Rattle.gtd_eval.specs.Cursors.{cursor_list};
ghost use Rattle.gtd_repeats.specs.Known.{AreKnown};
ghost use Rattle.gtd_repeats.specs.Numbers as spec;
ghost use Rattle.gtd_repeats.specs.Numbers.{AreJointNumbers, AreNumbers, IsEarlyNumber, IsLateNumber, IsNumberIn, IsNumberOf};
ghost use Rattle.gtd_repeats.specs.Numbers.{joint_number, with_first, with_interval};
ghost use Rattle.gtd_repeats.specs.Sameness.{row_at};

use crate::seconds::days_between;
use gtd_core::limits::{FIRST_HORIZON_DAY, HORIZONS_END, MOST_HORIZON_DAYS};
use gtd_core::{Domain, Horizon, Span};
use gtd_eval::{Cursor, is_weekly};
use gtd_records::Record;
use gtd_spans::SpanSource;
use std::alloc::{AllocError, Global};

/// The days of 2016-01-01 and of 2044-01-01.
pub(crate) const FIRST_DAY: i64 = 16_801;

pub(crate) const END_DAY: i64 = 27_028;

/// How many spans are looked at after the first: with it those of more than a year, if there is one each day.
const SPANS: usize = 511;

/// Numbers are remainders by this prime.
pub(crate) const PRIME: u64 = 4_294_967_291;

/// The number with a span more.
pub(crate) fn with_span(number: u64, span: Span) -> u64
    requires small { number < 4_294_967_291 }
    ensures value { result ≡ with_interval number span }
    ensures small { result < 4_294_967_291 }
{
    let from = span.from().0.unsigned_abs() % PRIME;
    let until = span.until().0.unsigned_abs() % PRIME;
    (number * 31 + from * 7 + until) % PRIME
}

/// The number with the next spans of a cursor, at most so many.
pub(crate) fn with_next(cursor: &mut Cursor, number: u64, count: usize) -> u64
    requires small { number < 4_294_967_291 }
    ensures value { result ≡ with_first count number (cursor_list cursor.old) }
{
    let mut joined = number;
    for _ in 0..count {
        let Some(span) = cursor.next() else {
            return joined;
        };
        joined = with_span(joined, span);
    }
    joined
}

// The number of the domain's first spans of these days, or `None` if it has none.
fn number_in(alloc: Global, domain: &Domain, days: Horizon) -> Result<Option<u64>, AllocError>
    ensures number { IfOk result (IsNumberIn (whole days).from (whole days).until (Some (domain_tree domain.now))) }
{
    let mut cursor = Cursor::open(alloc, domain, days)?;
    match cursor.next() {
        Some(span) => Ok(Some(with_next(&mut cursor, with_span(0, span), SPANS))),
        None => Ok(None),
    }
}

// The number of a domain by the rest of the years.
fn late_number(alloc: Global, domain: &Domain) -> Result<u64, AllocError>
    ensures number { IfOk result (IsLateNumber (Some (domain_tree domain.now))) }
{
    let days = days_between(FIRST_HORIZON_DAY + MOST_HORIZON_DAYS, HORIZONS_END);
    match number_in(alloc, domain, days)? {
        Some(late) => Ok(late),
        None => Ok(0),
    }
}

// The number of a domain by all years.
fn early_number(alloc: Global, domain: &Domain) -> Result<u64, AllocError>
    ensures number { IfOk result (IsEarlyNumber (Some (domain_tree domain.now))) }
{
    let days = days_between(FIRST_HORIZON_DAY, FIRST_HORIZON_DAY + MOST_HORIZON_DAYS);
    match number_in(alloc, domain, days)? {
        Some(early) => Ok(early),
        None => late_number(alloc, domain),
    }
}

// The number of a domain. One that repeats after 7 days, and has no second in 28 years, has none at all.
fn number_of_domain(alloc: Global, domain: &Domain) -> Result<u64, AllocError>
    ensures number { IfOk result (IsNumberOf (Some (domain_tree domain.now))) }
{
    match number_in(alloc, domain, days_between(FIRST_DAY, END_DAY))? {
        Some(soon) => Ok(soon),
        None => {
            if is_weekly(domain) {
                return Ok(0);
            }
            early_number(alloc, domain)
        }
    }
}

// The number of a row with this domain, or with none.
fn number_of(alloc: Global, domain: Option<&Domain>) -> Result<u64, AllocError>
    ensures number { IfOk result (IsNumberOf (option_map (λ d. domain_tree d.now) domain.entry)) }
{
    match domain {
        Some(domain) => number_of_domain(alloc, domain),
        None => {
            let years = days_between(FIRST_DAY, END_DAY);
            Ok(with_span(0, years.whole()))
        }
    }
}

// The number of the next row, which has the text of a known row: an earlier one, or itself.
fn next_number(
    alloc: Global,
    rows: &[Record],
    numbers: &[u64],
    known: usize,
) -> Result<u64, AllocError>
    requires next { length numbers.now < length rows.now }
    ensures number { ((row : ℕ) → row < length numbers.now → IsNumberOf (row_at rows.now row).domain (get_or numbers.now row 0))
        → (row_at rows.now known).domain ≡ (row_at rows.now (length numbers.now)).domain → known ≤ length numbers.now
        → IfOk result (IsNumberOf (row_at rows.now (length numbers.now)).domain) }
{
    match numbers.get(known) {
        Some(number) => Ok(*number),
        None => {
            let record = &rows[numbers.len()];
            number_of(alloc, record.domain())
        }
    }
}

/// The number of each row's domain. Each row has the text of a known one: an earlier one, or itself.
pub(crate) fn numbers_of(
    alloc: Global,
    rows: &[Record],
    known: &[usize],
) -> Result<Vec<u64>, AllocError>
    requires known { AreKnown rows.now known.now }
    ensures numbers { IfOk result (λ numbers. AreNumbers rows.now numbers.items) }
{
    let mut numbers = Vec::new(alloc);
    for row in 0..rows.len() {
        let number = next_number(alloc, rows, numbers.as_slice(), known[row])?;
        numbers.push(number)?;
    }
    Ok(numbers)
}

// A number of a row, of its element and of the first row with the same seconds.
fn joint_number(element: u64, first: usize) -> u64
    ensures value { result ≡ spec.joint_number element first }
{
    (element % PRIME) * 65_536 + first as u64 % 65_536
}

/// The number of each row, of its element and of the first row with the same seconds.
pub(crate) fn joint_numbers(
    alloc: Global,
    rows: &[Record],
    firsts: &[usize],
) -> Result<Vec<u64>, AllocError>
    requires many { length firsts.now ≡ length rows.now }
    ensures numbers { IfOk result (λ numbers. AreJointNumbers rows.now firsts.now numbers.items) }
{
    let mut numbers = Vec::new(alloc);
    for row in 0..rows.len() {
        let record = &rows[row];
        numbers.push(joint_number(record.element, firsts[row]))?;
    }
    Ok(numbers)
}
