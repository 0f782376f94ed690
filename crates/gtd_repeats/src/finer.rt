//! Finer numbers of rows of which some with the same number are unlike.

ghost use Rattle.std.specs.Prelude.{◌≡◌, ◌<◌, ◌≤ℤ◌, ℕ, IfOk, false, get_or, length, option_map};
ghost use Rattle.gtd_core.specs.Parts.{domain_tree};
ghost use Rattle.gtd_core.specs.Whole.{whole};
ghost use Rattle.gtd_repeats.specs.Buckets.{AreBuckets};
ghost use Rattle.gtd_repeats.specs.Firsts.{ShareNumbers};
ghost use Rattle.gtd_repeats.specs.Known.{AreKnown};
ghost use Rattle.gtd_repeats.specs.Numbers as spec;
ghost use Rattle.gtd_repeats.specs.Numbers.{AreFiner, IsFiner, IsFinerOf, IsLongNumber};
ghost use Rattle.gtd_repeats.specs.Sameness.{AreAlikeIn, row_at};
ghost use Rattle.gtd_repeats.specs.declared.alike.Kind.TheVariants as declared;

use crate::buckets::buckets_of;
use crate::numbers::{END_DAY, FIRST_DAY, PRIME, with_next, with_span};
use crate::seconds::{days_between, hold_same};
use gtd_core::limits::{FIRST_HORIZON_DAY, HORIZONS_END, MOST_HORIZON_DAYS};
use gtd_core::{Domain, Horizon};
use gtd_eval::Cursor;
use gtd_records::Record;
use std::alloc::{AllocError, Global};

/// How many spans are looked at: those of 400 years, if there is one each day.
const MOST_SPANS: usize = 262_144;

/// Rows, and for each of them one with its text: an earlier one, or itself.
#[derive(Clone, Copy)]
pub(crate) struct KnownTexts<'a> {
    pub(crate) rows: &'a [Record],
    pub(crate) known: &'a [usize],
}

/// The numbers of rows, and for each of these whether unlike rows may have it.
#[derive(Drop)]
pub(crate) struct Numbers {
    pub(crate) numbers: Vec<u64>,
    pub(crate) are_open: Vec<bool>,
}

/// The numbers of rows, the buckets in which rows with the same number are, and whether unlike rows are in each of these.
#[derive(Clone, Copy)]
struct Marked<'a> {
    numbers: &'a [u64],
    indices: &'a [usize],
    marks: &'a [bool],
}

/// What has been seen of the rows of a bucket.
#[derive(Clone, Copy)]
struct Seen {
    /// The last of them.
    latest: Option<usize>,
    /// Whether some are unlike.
    is_mixed: bool,
}

// The number of all spans of these days in which the domain holds.
fn long_number_of_domain(alloc: Global, domain: &Domain, days: Horizon) -> Result<u64, AllocError>
    ensures number { IfOk result (IsLongNumber (whole days).from (whole days).until (Some (domain_tree domain.now))) }
{
    let mut cursor = Cursor::open(alloc, domain, days)?;
    Ok(with_next(&mut cursor, 0, MOST_SPANS))
}

fn long_number(alloc: Global, domain: Option<&Domain>, days: Horizon) -> Result<u64, AllocError>
    ensures number { IfOk result
        (IsLongNumber (whole days).from (whole days).until (option_map (λ d. domain_tree d.now) domain.entry)) }
{
    match domain {
        Some(domain) => long_number_of_domain(alloc, domain, days),
        None => Ok(with_span(0, days.whole())),
    }
}

fn joined(number: u64, more: u64) -> u64
    ensures { result ≡ spec.joined number more }
{
    (number % PRIME * 31 + more % PRIME) % PRIME
}

// The finer number of a row with this domain, if unlike rows have its number.
fn finer_number(
    alloc: Global,
    domain: Option<&Domain>,
    number: u64,
    is_mixed: bool,
    days: Horizon,
) -> Result<u64, AllocError>
    ensures finer { IfOk result
        (IsFiner (whole days).from (whole days).until (option_map (λ d. domain_tree d.now) domain.entry) is_mixed number) }
{
    if !is_mixed {
        return Ok(number);
    }
    let long = long_number(alloc, domain, days)?;
    Ok(joined(number, long))
}

fn mark_at(marks: &[bool], bucket: usize) -> bool
    ensures { result ≡ get_or marks.now bucket false }
{
    match marks.get(bucket) {
        Some(mark) => *mark,
        None => false,
    }
}

// Sees a row of a bucket.
fn see_row(alloc: Global, rows: &[Record], seen: &mut Seen, row: usize) -> Result<(), AllocError> {
    if let Some(latest) = seen.latest {
        if let (false, Some(one), Some(other)) = (seen.is_mixed, rows.get(latest), rows.get(row)) {
            let alike = hold_same(alloc, one.domain(), other.domain())?;
            seen.is_mixed = !alike;
        }
    }
    seen.latest = Some(row);
    Ok(())
}

// What is seen of the rows of each bucket. Only the first of the rows with one text is looked at.
fn seen_in(
    alloc: Global,
    texts: KnownTexts<'_>,
    indices: &[usize],
    are_open: &[bool],
) -> Result<Vec<Seen>, AllocError> {
    let mut seen = Vec::new(alloc);
    seen.resize(
        indices.len(),
        Seen {
            latest: None,
            is_mixed: false,
        },
    )?;
    for row in 0..indices.len() {
        if mark_at(are_open, row) && texts.known.get(row).copied() == Some(row) {
            if let Some(bucket) = seen.get_mut(indices[row]) {
                see_row(alloc, texts.rows, bucket, row)?;
            }
        }
    }
    Ok(seen)
}

// For each bucket, whether unlike rows are in it.
fn marks_in(
    alloc: Global,
    texts: KnownTexts<'_>,
    indices: &[usize],
    are_open: &[bool],
) -> Result<Vec<bool>, AllocError> {
    let seen = seen_in(alloc, texts, indices, are_open)?;
    let mut marks = Vec::new(alloc);
    for bucket in seen.as_slice() {
        marks.push(bucket.is_mixed)?;
    }
    Ok(marks)
}

// For each row, whether unlike rows were in its bucket.
fn marks_of_rows(
    alloc: Global,
    marks: &[bool],
    indices: &[usize],
) -> Result<Vec<bool>, AllocError> {
    let mut of_rows = Vec::new(alloc);
    for index in indices {
        of_rows.push(mark_at(marks, *index))?;
    }
    Ok(of_rows)
}

// The finer number of the next row: that of the one with its text, or its own.
fn next_finer(
    alloc: Global,
    texts: KnownTexts<'_>,
    marked: Marked<'_>,
    made: &[u64],
    days: Horizon,
) -> Result<u64, AllocError>
    requires next { length made.now < length texts.rows.now }
    requires known { AreKnown texts.rows.now texts.known.now }
    requires many { length marked.numbers.now ≡ length texts.rows.now }
    requires buckets { AreBuckets marked.numbers.now marked.indices.now }
    requires shares { ShareNumbers (AreAlikeIn texts.rows.now declared.Seconds) marked.numbers.now }
    requires made { (row : ℕ) → row < length made.now → IsFinerOf (whole days).from (whole days).until texts.rows.now
        marked.marks.now marked.indices.now marked.numbers.now row (get_or made.now row 0) }
    ensures finer { IfOk result (IsFinerOf (whole days).from (whole days).until texts.entry.rows.now
        marked.entry.marks.now marked.entry.indices.now marked.entry.numbers.now (length made.now)) }
{
    let row = made.len();
    if let Some(finer) = made.get(texts.known[row]) {
        return Ok(*finer);
    }
    let is_mixed = mark_at(marked.marks, marked.indices[row]);
    let record = &texts.rows[row];
    finer_number(alloc, record.domain(), marked.numbers[row], is_mixed, days)
}

// The finer number of each row.
fn finer_numbers(
    alloc: Global,
    texts: KnownTexts<'_>,
    marked: Marked<'_>,
    days: Horizon,
) -> Result<Vec<u64>, AllocError>
    requires known { AreKnown texts.rows.now texts.known.now }
    requires many { length marked.numbers.now ≡ length texts.rows.now }
    requires buckets { AreBuckets marked.numbers.now marked.indices.now }
    requires shares { ShareNumbers (AreAlikeIn texts.rows.now declared.Seconds) marked.numbers.now }
    ensures finer { IfOk result (λ made. AreFiner (whole days).from (whole days).until texts.entry.rows.now
        marked.entry.marks.now marked.entry.indices.now marked.entry.numbers.now made.items) }
{
    let mut made = Vec::new(alloc);
    for _ in 0..texts.rows.len() {
        let finer = next_finer(alloc, texts, marked, made.as_slice(), days)?;
        made.push(finer)?;
    }
    Ok(made)
}

// Finer numbers by the spans of these days, where unlike rows have one number. Like rows keep sharing theirs.
fn with_days(
    alloc: Global,
    texts: KnownTexts<'_>,
    before: Numbers,
    days: Horizon,
) -> Result<Numbers, AllocError>
    requires known { AreKnown texts.rows.now texts.known.now }
    requires many { length before.numbers.items ≡ length texts.rows.now }
    requires shares { ShareNumbers (AreAlikeIn texts.rows.now declared.Seconds) before.numbers.items }
    requires within { (spec.early_begin ≤ℤ (whole days).from) × ((whole days).until ≤ℤ spec.late_end) }
    ensures many { IfOk result (λ after. length after.numbers.items ≡ length texts.entry.rows.now) }
    ensures shares { IfOk result (λ after. ShareNumbers (AreAlikeIn texts.entry.rows.now declared.Seconds) after.numbers.items) }
{
    let indices = buckets_of(alloc, before.numbers.as_slice())?;
    let marks = marks_in(alloc, texts, indices.as_slice(), before.are_open.as_slice())?;
    let marked = Marked {
        numbers: before.numbers.as_slice(),
        indices: indices.as_slice(),
        marks: marks.as_slice(),
    };
    let numbers = finer_numbers(alloc, texts, marked, days)?;
    let are_open = marks_of_rows(alloc, marks.as_slice(), indices.as_slice())?;
    Ok(Numbers { numbers, are_open })
}

// Numbers that any row may share with unlike ones.
fn open_numbers(alloc: Global, numbers: Vec<u64>) -> Result<Numbers, AllocError>
    ensures { IfOk result (λ all. all.numbers.items ≡ numbers.items) }
{
    let mut are_open = Vec::new(alloc);
    are_open.resize(numbers.len(), true)?;
    Ok(Numbers { numbers, are_open })
}

/// Finer numbers of rows: by the spans of 28 years, of 400 years and of the rest, each where unlike rows have one number still. Like
/// rows keep sharing theirs.
pub(crate) fn finer_by_years(
    alloc: Global,
    texts: KnownTexts<'_>,
    numbers: Vec<u64>,
) -> Result<Vec<u64>, AllocError>
    requires known { AreKnown texts.rows.now texts.known.now }
    requires many { length numbers.items ≡ length texts.rows.now }
    requires shares { ShareNumbers (AreAlikeIn texts.rows.now declared.Seconds) numbers.items }
    ensures many { IfOk result (λ finer. length finer.items ≡ length texts.entry.rows.now) }
    ensures shares { IfOk result (λ finer. ShareNumbers (AreAlikeIn texts.entry.rows.now declared.Seconds) finer.items) }
{
    let last_day = FIRST_HORIZON_DAY + MOST_HORIZON_DAYS;
    let open = open_numbers(alloc, numbers)?;
    let soon = with_days(alloc, texts, open, days_between(FIRST_DAY, END_DAY))?;
    let early = with_days(
        alloc,
        texts,
        soon,
        days_between(FIRST_HORIZON_DAY, last_day),
    )?;
    let late = with_days(alloc, texts, early, days_between(last_day, HORIZONS_END))?;
    Ok(late.numbers)
}
