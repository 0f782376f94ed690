//! Two files, and which of their elements may be open at other seconds by the one than by the other.

ghost use Rattle.std.specs.Prelude.{◌≡◌, IfOk, false};
ghost use Rattle.std.specs.List.Sorted.{IsNonDecreasing};
ghost use Rattle.std.proofs.Props.{props};
ghost use Rattle.gtd_changes.specs.Same.{AreAlikeBut, IsAlike};

use crate::rows::differing;
use gtd_records::Records;
use std::alloc::{AllocError, Global};

/// The records of two files.
#[derive(Drop)]
pub(crate) struct Pair<'a> {
    pub(crate) old: &'a Records,
    pub(crate) new: &'a Records,
    /// The elements whose rows are not the same in both, in ascending order.
    differing: Vec<u64>,
    ghost ascending: { IsNonDecreasing differing.items } by { Prim.hlevel props },
    ghost alike: { AreAlikeBut old.now new.now differing.items } by { Prim.hlevel props },
}

impl<'a> Pair<'a> {
    /// Two files.
    pub(crate) fn new(
        alloc: Global,
        old: &'a Records,
        new: &'a Records,
    ) -> Result<Pair<'a>, AllocError>
        ensures files { IfOk result (λ pair. (pair.old.now ≡ old.now) × (pair.new.now ≡ new.now)) }
    {
        let differing = differing(alloc, old, new)?;
        Ok(Pair {
            old,
            new,
            differing,
        })
    }

    /// Whether the rows of an element are not the same in both. If they are, it is open at the same seconds by both.
    pub(crate) fn may_differ(&self, element: u64) -> bool
        ensures alike { result ≡ false → IsAlike self.now.old.now self.now.new.now element }
    {
        self.differing.binary_search(&element).is_ok()
    }
}
