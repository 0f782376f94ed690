//! For each row of a file, the first one that is like it.

ghost use Rattle.std.specs.Prelude.{◌≡◌, ◌<◌, ◌≤◌, ◌↔◌, ℕ, List, IfOk, IsTrue, MatchOption, OnOk, get_or, length};
ghost use Rattle.std.specs.List.{Contains};
ghost use Rattle.gtd_repeats.specs.Firsts.{AreFirsts, AreSoFar, IsFirst, IsLikeness, ShareNumbers};
ghost use Rattle.gtd_repeats.specs.Buckets.{AreBuckets, IsListed};

use crate::buckets::{Entry, add_entry, buckets_of, empty_buckets, entries_of};
use std::alloc::{AllocError, Global};

/// When two rows of a file are alike. Rows are counted from 0.
pub(crate) trait Likeness {
    // The rows are alike.
    ghost alike: { Self → ℕ → ℕ → Type 0 };

    /// Whether two rows are alike.
    fn is_alike(&self, alloc: Global, first: usize, second: usize) -> Result<bool, AllocError>
        ensures decided { IfOk result (λ is. IsTrue is ↔ alike self.now first second) };
}

/// A row of which the first that is like it is asked for.
#[derive(Clone, Copy)]
pub(crate) struct Asked {
    pub(crate) entry: Entry,
    /// The bucket of its number.
    pub(crate) bucket: usize,
    /// A row that is known to be like it: an earlier one, or itself.
    pub(crate) known: usize,
}

// The first row that is like that of an entry, if that is like the row that is asked about.
fn first_by<L: Likeness>(
    alloc: Global,
    rows: &L,
    firsts: &[usize],
    entry: Entry,
    asked: Entry,
) -> Result<Option<usize>, AllocError>
    ensures first { IfOk result (λ found. MatchOption found
        (entry.number ≡ asked.number → entry.row < length firsts.now → L.alike rows.now entry.row asked.row → ⊥)
        (λ first. (entry.row < length firsts.now) × L.alike rows.now entry.row asked.row
        × (first ≡ get_or firsts.now entry.row 0))) }
{
    if entry.number != asked.number {
        return Ok(None);
    }
    let Some(first) = firsts.get(entry.row) else {
        return Ok(None);
    };
    if rows.is_alike(alloc, entry.row, asked.row)? {
        Ok(Some(*first))
    } else {
        Ok(None)
    }
}

// The first row that is like one of those of the entries that the row that is asked about is like, if there is one.
fn first_alike<L: Likeness>(
    alloc: Global,
    rows: &L,
    firsts: &[usize],
    entries: &[Entry],
    asked: Entry,
) -> Result<Option<usize>, AllocError>
    ensures first { IfOk result (λ found. MatchOption found
        ((j : ℕ) → Contains entries.now (record { number = asked.number; row = j }) → j < length firsts.now
        → L.alike rows.now j asked.row → ⊥)
        (λ first. (j : ℕ) × (j < length firsts.now) × L.alike rows.now j asked.row × (first ≡ get_or firsts.now j 0))) }
{
    for entry in entries {
        if let Some(first) = first_by(alloc, rows, firsts, *entry, asked)? {
            return Ok(Some(first));
        }
    }
    Ok(None)
}

// The first row that is like the one that is asked about, which is the next, and which no earlier row is known to be like. Rows
// are compared if they have the same number: these stand in one bucket.
fn first_new<L: Likeness>(
    alloc: Global,
    rows: &L,
    firsts: &[usize],
    buckets: &mut Vec<Vec<Entry>>,
    asked: Asked,
) -> Result<usize, AllocError>
    requires inside { asked.bucket < length buckets.old.items }
    requires next { asked.entry.row ≡ length firsts.now }
    ensures many { length buckets.new.items ≡ length buckets.old.items }
    ensures first { (numbers indices : List ℕ) → IsLikeness (L.alike rows.now) → ShareNumbers (L.alike rows.now) numbers
        → AreBuckets numbers indices → asked.entry.row < length numbers
        → AreSoFar (L.alike rows.now) numbers indices firsts.now buckets.old.items
        → get_or numbers asked.entry.row 0 ≡ asked.entry.number → get_or indices asked.entry.row 0 ≡ asked.bucket
        → L.alike rows.now asked.entry.row asked.entry.row
        → IfOk result (λ first. IsFirst (L.alike rows.now) asked.entry.row first
        × AreSoFar (L.alike rows.now) numbers indices firsts.now buckets.new.items
        × IsListed buckets.new.items (get_or indices first 0) (get_or numbers first 0) first) }
{
    let entries = entries_of(buckets.as_slice(), asked.bucket);
    match first_alike(alloc, rows, firsts, entries, asked.entry)? {
        Some(first) => Ok(first),
        None => {
            add_entry(buckets, asked.bucket, asked.entry)?;
            Ok(asked.entry.row)
        }
    }
}

// The first row that is like the one that is asked about, which is the next.
fn first_of<L: Likeness>(
    alloc: Global,
    rows: &L,
    firsts: &[usize],
    buckets: &mut Vec<Vec<Entry>>,
    asked: Asked,
) -> Result<usize, AllocError>
    requires inside { asked.bucket < length buckets.old.items }
    requires next { asked.entry.row ≡ length firsts.now }
    ensures many { length buckets.new.items ≡ length buckets.old.items }
    ensures first { (numbers indices : List ℕ) → IsLikeness (L.alike rows.now) → ShareNumbers (L.alike rows.now) numbers
        → AreBuckets numbers indices → asked.entry.row < length numbers
        → AreSoFar (L.alike rows.now) numbers indices firsts.now buckets.old.items
        → get_or numbers asked.entry.row 0 ≡ asked.entry.number → get_or indices asked.entry.row 0 ≡ asked.bucket
        → L.alike rows.now asked.known asked.entry.row → asked.known ≤ asked.entry.row
        → IfOk result (λ first. IsFirst (L.alike rows.now) asked.entry.row first
        × AreSoFar (L.alike rows.now) numbers indices firsts.now buckets.new.items
        × IsListed buckets.new.items (get_or indices first 0) (get_or numbers first 0) first) }
{
    match firsts.get(asked.known) {
        Some(first) => Ok(*first),
        None => first_new(alloc, rows, firsts, buckets, asked),
    }
}

/// For each row the first that is like it. Like rows must have the same number, and each row one that is known to be like it: an
/// earlier one, or itself.
pub(crate) fn firsts_of<L: Likeness>(
    alloc: Global,
    rows: &L,
    numbers: &[u64],
    known: &[usize],
) -> Result<Vec<usize>, AllocError>
    requires many { length known.now ≡ length numbers.now }
    requires likeness { IsLikeness (L.alike rows.now) }
    requires numbers { ShareNumbers (L.alike rows.now) numbers.now }
    requires known { (row : ℕ) → row < length numbers.now
        → L.alike rows.now (get_or known.now row 0) row × (get_or known.now row 0 ≤ row) }
    ensures firsts { IfOk result (λ firsts. AreFirsts (L.alike rows.now) (length numbers.now) firsts.items) }
{
    let indices = buckets_of(alloc, numbers)?;
    let mut firsts = Vec::new(alloc);
    let mut buckets = empty_buckets(alloc, numbers.len())?;
    for row in 0..numbers.len() {
        let asked = Asked {
            entry: Entry {
                number: numbers[row],
                row,
            },
            bucket: indices[row],
            known: known[row],
        };
        let first = first_of(alloc, rows, firsts.as_slice(), &mut buckets, asked)?;
        firsts.push(first)?;
    }
    Ok(firsts)
}
