//! The first rows of each element, with which its rows are compared.

ghost use Rattle.std.specs.Prelude.{◌≡◌, ◌<◌, ◌+◌, ◌↔◌, ℕ, List, IfOk, IsTrue, MatchOption, OnOk, get_or, length};
ghost use Rattle.gtd_records.specs.Closing.{Restriction};
ghost use Rattle.gtd_repeats.specs.Answers.{AreRight, IsWithinSeconds};
ghost use Rattle.gtd_repeats.specs.Findings.{AreGrouped, IsFirstWithin, IsWithinNone, IsWithinOf};
ghost use Rattle.gtd_repeats.specs.Kin.{AreAllKin, AreElementBuckets, AreElementsOf, AreKin, entries_with};
ghost use Rattle.gtd_repeats.specs.Sameness.{row_at};

use crate::answers::{Answer, is_within_seconds};
use crate::buckets::{Entry, add_entry, buckets_of, empty_buckets, entries_of};
use crate::rows::may_be_within;
use crate::seconds::is_end_alone;
use gtd_core::Span;
use gtd_records::Record;
use std::alloc::{AllocError, Global};

/// With how many rows of its element a row is compared.
const MOST_KIN: usize = 64;

// How many of the entries have a number.
fn count_of(entries: &[Entry], number: u64) -> usize
    ensures value { result ≡ entries_with entries.now number }
{
    let mut count = 0usize;
    for kept in entries {
        if kept.number == number {
            count += 1;
        }
    }
    count
}

// Adds the next row to those of its element, unless these are 64.
fn add_kin(kin: &mut Vec<Vec<Entry>>, bucket: usize, entry: Entry) -> Result<(), AllocError>
    requires inside { bucket < length kin.old.items }
    ensures many { length kin.new.items ≡ length kin.old.items }
    ensures kin { OnOk result ((rows : List Restriction) (indices : List ℕ) → entry.row < length rows
        → (row_at rows entry.row).element ≡ entry.number → AreElementBuckets rows indices → get_or indices entry.row 0 ≡ bucket
        → AreAllKin rows indices entry.row kin.old.items → AreAllKin rows indices (entry.row + 1) kin.new.items) }
{
    let entries = entries_of(kin.as_slice(), bucket);
    if count_of(entries, entry.number) >= MOST_KIN {
        return Ok(());
    }
    add_entry(kin, bucket, entry)
}

// The element of each row.
fn elements_of(alloc: Global, rows: &[Record]) -> Result<Vec<u64>, AllocError>
    ensures elements { IfOk result (λ elements. AreElementsOf rows.now elements.items) }
{
    let mut elements = Vec::new(alloc);
    for row in 0..rows.len() {
        let record = &rows[row];
        elements.push(record.element)?;
    }
    Ok(elements)
}

/// For each row its bucket, which it shares with the rows of its element.
pub(crate) fn element_buckets(alloc: Global, rows: &[Record]) -> Result<Vec<usize>, AllocError>
    ensures buckets { IfOk result (λ indices. AreElementBuckets rows.now indices.items) }
{
    let elements = elements_of(alloc, rows)?;
    buckets_of(alloc, elements.as_slice())
}

/// The first rows of each element, at most 64, in the bucket of its rows.
pub(crate) fn kin_of(
    alloc: Global,
    rows: &[Record],
    indices: &[usize],
) -> Result<Vec<Vec<Entry>>, AllocError>
    requires buckets { AreElementBuckets rows.now indices.now }
    ensures many { IfOk result (λ kin. length kin.items ≡ length rows.now) }
    ensures kin { IfOk result (λ kin. AreAllKin rows.now indices.now (length rows.now) kin.items) }
{
    let mut kin = empty_buckets(alloc, rows.len())?;
    for row in 0..rows.len() {
        let record = &rows[row];
        let number = record.element;
        add_kin(&mut kin, indices[row], Entry { number, row })?;
    }
    Ok(kin)
}

/// The rows of a file, with the first rows that are like each.
#[derive(Clone, Copy)]
pub(crate) struct Grouped<'a> {
    pub(crate) rows: &'a [Record],
    /// For each row the first that closes at the same seconds.
    pub(crate) meanings: &'a [usize],
    /// For each row the first that says the same.
    pub(crate) sames: &'a [usize],
    /// For each row that is the first with its seconds a span of them, if one was found.
    pub(crate) spans: &'a [Option<Span>],
}

// Whether it is seen at the ends of a span of a row that it closes when another does not.
fn is_seen_apart(all: &Grouped<'_>, row: usize, other: usize) -> bool
    requires grouped { AreGrouped all.now.rows.now all.now.meanings.now all.now.sames.now all.now.spans.now }
    requires inside { row < length all.now.rows.now }
    requires other { other < length all.now.rows.now }
    ensures apart { IsTrue result → IsWithinSeconds all.now.rows.now row other → ⊥ }
{
    let rows = all.rows;
    let first = &rows[row];
    let second = &rows[other];
    is_end_alone(first.domain(), second.domain(), &all.spans[row])
}

// Whether a row closes at no second at which another does not.
fn is_first_within(
    alloc: Global,
    all: &Grouped<'_>,
    answers: &mut Vec<Answer>,
    row: usize,
    other: usize,
) -> Result<bool, AllocError>
    requires grouped { AreGrouped all.now.rows.now all.now.meanings.now all.now.sames.now all.now.spans.now }
    requires inside { row < length all.now.rows.now }
    requires other { other < length all.now.rows.now }
    requires right { AreRight all.now.rows.now answers.old.items }
    ensures right { AreRight all.now.rows.now answers.new.items }
    ensures within { IfOk result (λ is_within. IsTrue is_within ↔ IsWithinSeconds all.now.rows.now row other) }
{
    if is_seen_apart(all, row, other) {
        return Ok(false);
    }
    is_within_seconds(alloc, all.rows, answers, row, other)
}

// Whether a row closes at no second at which another does not: what is true of the first rows with their seconds.
fn is_within_meaning(
    alloc: Global,
    all: &Grouped<'_>,
    answers: &mut Vec<Answer>,
    row: usize,
    other: usize,
) -> Result<bool, AllocError>
    requires grouped { AreGrouped all.now.rows.now all.now.meanings.now all.now.sames.now all.now.spans.now }
    requires inside { row < length all.now.rows.now }
    requires other { other < length all.now.rows.now }
    requires right { AreRight all.now.rows.now answers.old.items }
    ensures right { AreRight all.now.rows.now answers.new.items }
    ensures within { IfOk result (λ is_within. IsTrue is_within ↔ IsWithinSeconds all.now.rows.now row other) }
{
    let first = all.meanings[row];
    let second = all.meanings[other];
    if first == second {
        return Ok(true);
    }
    is_first_within(alloc, all, answers, first, second)
}

// Whether a row is within another, and they do not say the same.
fn is_only_within(
    alloc: Global,
    all: &Grouped<'_>,
    answers: &mut Vec<Answer>,
    row: usize,
    other: usize,
) -> Result<bool, AllocError>
    requires grouped { AreGrouped all.now.rows.now all.now.meanings.now all.now.sames.now all.now.spans.now }
    requires inside { row < length all.now.rows.now }
    requires other { other < length all.now.rows.now }
    requires right { AreRight all.now.rows.now answers.old.items }
    ensures right { AreRight all.now.rows.now answers.new.items }
    ensures within { IfOk result (λ is_within. IsTrue is_within ↔ IsWithinOf all.now.rows.now row other) }
{
    if all.sames[row] == all.sames[other] {
        return Ok(false);
    }
    let rows = all.rows;
    let one = &rows[row];
    let two = &rows[other];
    if !may_be_within(one, two) {
        return Ok(false);
    }
    is_within_meaning(alloc, all, answers, row, other)
}

// Whether an entry is of a row of the element that a row is within, and they do not say the same.
fn is_within_entry(
    alloc: Global,
    all: &Grouped<'_>,
    answers: &mut Vec<Answer>,
    entry: Entry,
    row: usize,
) -> Result<bool, AllocError>
    requires grouped { AreGrouped all.now.rows.now all.now.meanings.now all.now.sames.now all.now.spans.now }
    requires inside { row < length all.now.rows.now }
    requires right { AreRight all.now.rows.now answers.old.items }
    ensures right { AreRight all.now.rows.now answers.new.items }
    ensures within { IfOk result (λ is_within. IsTrue is_within
        ↔ ((entry.number ≡ (row_at all.now.rows.now row).element) × IsWithinOf all.now.rows.now row entry.row)) }
{
    let rows = all.rows;
    let record = &rows[row];
    if entry.number != record.element {
        return Ok(false);
    }
    if entry.row >= rows.len() {
        return Ok(false);
    }
    is_only_within(alloc, all, answers, row, entry.row)
}

/// The first of these rows of its element that a row is within.
pub(crate) fn within_of(
    alloc: Global,
    all: &Grouped<'_>,
    answers: &mut Vec<Answer>,
    entries: &[Entry],
    row: usize,
) -> Result<Option<usize>, AllocError>
    requires grouped { AreGrouped all.now.rows.now all.now.meanings.now all.now.sames.now all.now.spans.now }
    requires inside { row < length all.now.rows.now }
    requires right { AreRight all.now.rows.now answers.old.items }
    requires kin { AreKin all.now.rows.now (length all.now.rows.now) (row_at all.now.rows.now row).element entries.now }
    ensures right { AreRight all.now.rows.now answers.new.items }
    ensures within { IfOk result
        (λ found. MatchOption found (IsWithinNone all.now.rows.now row) (IsFirstWithin all.now.rows.now row)) }
{
    for entry in entries {
        if is_within_entry(alloc, all, answers, *entry, row)? {
            return Ok(Some(entry.row));
        }
    }
    Ok(None)
}
