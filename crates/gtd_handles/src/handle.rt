//! Handles that C holds.

ghost use Rattle.std.specs.Prelude.{◌≡◌, ◌↔◌, None, Some, IsSome, IsTrue, MatchOption};

use crate::loose::Loose;
use crate::parts::Parts;
use crate::shared_records::SharedRecords;
use gtd_core::Domain;
use gtd_eval::KeptCursor;
use std::alloc::Global;
use std::mem::replace;

/// What a handle stands for.
#[derive(Drop)]
pub enum Thing {
    /// A time domain.
    Domain(Domain),
    /// The records of a file.
    Records(SharedRecords),
    /// Spans that are still to come.
    Spans(KeptCursor),
    /// The bytes of a text.
    Text(Vec<u8>),
}

/// A handle, of two words. C declares it empty, and then only passes its address on.
#[repr(C)]
pub struct Handle {
    full: bool,
    pub(crate) loose: Loose,
    ghost tells: { IsTrue full ↔ IsSome loose.value },
}

impl Handle {
    ghost use Rattle.gtd_handles.specs.Holding.{thing_of};

    /// The handle that stands for nothing.
    pub fn none(alloc: Global) -> Handle
        ensures nothing { thing_of result ≡ None }
    {
        Handle {
            full: false,
            loose: Loose::none(alloc),
        }
    }

    /// A handle that stands for this.
    pub fn of(thing: Box<Thing>) -> Handle
        ensures thing { thing_of result ≡ Some thing.value }
    {
        Handle {
            full: true,
            loose: Loose::shut(Parts::of(thing)),
        }
    }

    /// What the handle stands for.
    pub fn into_thing(self) -> Option<Box<Thing>>
        ensures thing { MatchOption result (thing_of self ≡ None) (λ b. thing_of self ≡ Some b.value) }
    {
        let Handle { full, loose } = self;
        if full {
            return Some(loose.open().into_box());
        }
        None
    }

    /// Takes what the handle stands for out of it.
    pub fn take(&mut self, alloc: Global) -> Option<Box<Thing>>
        ensures empty { thing_of self.new ≡ None }
        ensures thing { MatchOption result (thing_of self.old ≡ None) (λ b. thing_of self.old ≡ Some b.value) }
    {
        replace(self, Handle::none(alloc)).into_thing()
    }
}

impl Drop for Handle {
    fn drop(self) {
        drop(self.into_thing());
    }
}
