//! The elements that either of two files names.

ghost use Rattle.std.specs.Prelude.{◌≡◌, ◌++◌, IfOk};
ghost use Rattle.gtd_records.specs.Closing.{AreElements};
ghost use Rattle.gtd_rows.specs.Columns.{IsSortedSet};

use gtd_records::Records;
use std::alloc::{AllocError, Global};

// The numbers of two lists, in ascending order, each once.
fn either(alloc: Global, first: &[u64], second: &[u64]) -> Result<Vec<u64>, AllocError>
    ensures same { IfOk result (λ numbers. IsSortedSet (first.now ++ second.now) numbers.items) }
{
    let mut numbers = Vec::from_slice(alloc, first)?;
    numbers.extend_from_slice(second)?;
    numbers.sort_unstable();
    numbers.dedup();
    Ok(numbers)
}

/// The elements that the records of either file name, in ascending order, each once. Mostly both name the same.
pub(crate) fn elements_of_both(
    alloc: Global,
    old: &Records,
    new: &Records,
) -> Result<Vec<u64>, AllocError>
    ensures named { IfOk result (λ elements. AreElements (old.now ++ new.now) elements.items) }
{
    let first = old.elements();
    let second = new.elements();
    if first == second {
        return Vec::from_slice(alloc, first);
    }
    either(alloc, first, second)
}
