//! Rows in buckets, each with a number that like rows share. Rows with the same number are in the same bucket.

ghost use Rattle.std.specs.Prelude.{◌≡◌, ◌<◌, ◌≤◌, ◌+◌, [], ℕ, IfOk, OnOk, Some, length};
ghost use Rattle.std.specs.BTreeMap.{get};
ghost use Rattle.std.specs.Ordering.{nat_cmp};
ghost use Rattle.gtd_repeats.specs.Buckets.{AreBuckets, AreBelow, entries_at, with_entry};

use std::alloc::{AllocError, Global};
use std::collections::BTreeMap;

/// A row and its number.
#[derive(Clone, Copy, Debug, PartialEq, Eq)]
pub(crate) struct Entry {
    pub(crate) number: u64,
    pub(crate) row: usize,
}

// The bucket of a number: the one that it has, or the next.
fn bucket_of(
    known: &mut BTreeMap<u64, usize>,
    number: u64,
    next: usize,
) -> Result<usize, AllocError>
    ensures known { IfOk result (λ bucket. get nat_cmp known.new number ≡ Some bucket) }
    ensures kept { (n b : ℕ) → get nat_cmp known.old n ≡ Some b → IfOk result (λ _. get nat_cmp known.new n ≡ Some b) }
    ensures below { AreBelow known.old next → IfOk result (λ bucket. (bucket ≤ next) × AreBelow known.new (next + 1)) }
{
    if let Some(bucket) = known.get(&number) {
        return Ok(*bucket);
    }
    known.insert(number, next)?;
    Ok(next)
}

/// For each number its bucket, counted from 0 and below how many numbers there are. The same numbers have the same bucket.
pub(crate) fn buckets_of(alloc: Global, numbers: &[u64]) -> Result<Vec<usize>, AllocError>
    ensures buckets { IfOk result (λ indices. AreBuckets numbers.now indices.items) }
{
    let mut known = BTreeMap::new(alloc);
    let mut indices = Vec::new(alloc);
    for next in 0..numbers.len() {
        let bucket = bucket_of(&mut known, numbers[next], next)?;
        indices.push(bucket)?;
    }
    Ok(indices)
}

/// So many empty buckets.
pub(crate) fn empty_buckets(alloc: Global, count: usize) -> Result<Vec<Vec<Entry>>, AllocError>
    ensures many { IfOk result (λ buckets. length buckets.items ≡ count) }
    ensures empty { IfOk result (λ buckets. (bucket : ℕ) → entries_at buckets.items bucket ≡ []) }
{
    let mut buckets = Vec::new(alloc);
    for _ in 0..count {
        buckets.push(Vec::new(alloc))?;
    }
    Ok(buckets)
}

/// Adds an entry to a bucket.
pub(crate) fn add_entry(
    buckets: &mut Vec<Vec<Entry>>,
    bucket: usize,
    entry: Entry,
) -> Result<(), AllocError>
    requires inside { bucket < length buckets.old.items }
    ensures many { length buckets.new.items ≡ length buckets.old.items }
    ensures added { OnOk result ((other : ℕ) → entries_at buckets.new.items other
        ≡ with_entry bucket entry other (entries_at buckets.old.items other)) }
{
    buckets[bucket].push(entry)?;
    Ok(())
}

/// The entries of a bucket.
pub(crate) fn entries_of(buckets: &[Vec<Entry>], bucket: usize) -> &[Entry]
    requires inside { bucket < length buckets.now }
    ensures entries { result.now ≡ entries_at buckets.now bucket }
{
    buckets[bucket].as_slice()
}
