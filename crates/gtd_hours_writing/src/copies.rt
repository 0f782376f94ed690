//! Copies and parts of lists.

ghost use Rattle.std.specs.Prelude.{◌≡◌, IfOk, drop, take};

use std::alloc::{AllocError, Global};

/// A copy of the bytes.
pub fn copy_of<T: Copy>(alloc: Global, items: &[T]) -> Result<Vec<T>, AllocError>
    ensures { IfOk result (λ copy. copy.items ≡ items.now) }
{
    Vec::from_slice(alloc, items)
}

/// So many items from the first on.
pub fn first_of<T>(items: &[T], count: usize) -> &[T]
    ensures { result.now ≡ take count items.now }
{
    if count < items.len() {
        &items[..count]
    } else {
        items
    }
}

/// The items behind so many.
pub fn behind<T>(items: &[T], count: usize) -> &[T]
    ensures { result.now ≡ drop count items.now }
{
    if count < items.len() {
        &items[count..]
    } else {
        &items[items.len()..]
    }
}
