//! Tags in the order of their modes.

ghost use Rattle.std.specs.Prelude.{◌≡◌, ◌≤◌, OnOk, length};
ghost use Rattle.std.specs.List.{prefix_len};
ghost use Rattle.std.specs.List.Sorted.{IsNonDecreasingBy, IsPermutation};
ghost use Rattle.gtd_conditional_steps.specs.Modes as spec;

use crate::tag::Tag;
use std::alloc::AllocError;

/// Puts tags in the order of their modes, those of a mode in the order in which they were.
pub(crate) fn put_in_order(tags: &mut Vec<Tag>) -> Result<(), AllocError>
    ensures order { OnOk result (IsNonDecreasingBy (λ tag. tag.mode) tags.new.items) }
    ensures moved { IsPermutation tags.old.items tags.new.items }
    ensures same { OnOk result (spec.KeysSayTheSame tags.new.items tags.old.items) }
{
    tags.sort_by_key(|tag| tag.mode)?;
    Ok(())
}

/// The mode of the first of these tags, if it comes before the end; otherwise the end.
pub(crate) fn next_mode(tags: &[Tag], end: usize) -> usize
    ensures { result ≡ spec.next_mode end tags.now }
{
    match tags.split_first() {
        Some((tag, _)) => { if tag.mode < end { tag.mode } else { end } }
        None => end,
    }
}

/// How many tags are of a mode, before the first one that is not.
pub(crate) fn count_of(tags: &[Tag], mode: usize) -> usize
    ensures count { result ≡ prefix_len (spec.is_of_mode mode) tags.now }
    ensures few { result ≤ length tags.now }
{
    let mut count = 0;
    let mut rest = tags;
    while let Some((tag, more)) = rest.split_first() {
        if tag.mode != mode {
            return count;
        }
        count += 1;
        rest = more;
    }
    count
}
