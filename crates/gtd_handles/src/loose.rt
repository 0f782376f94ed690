//! A box as a pointer that C can hold.

ghost use Rattle.std.specs.Prelude.{◌≡◌, Option, Some, None, IsSome};
ghost use Rattle.std.specs.Coded.{coded_option};
ghost use Rattle.gtd_handles.specs.Owned.{owned};
ghost use Rattle.gtd_handles.specs.declared.handle.Thing.{Thing};
ghost use Rattle.gtd_handles.specs.contracts.handle.Thing.{the_row as thing_row};

use crate::handle::Thing;
use crate::parts::Parts;
use std::alloc::Global;
use std::marker::Model;

/// A box as a pointer that C can hold, or none.
#[repr(C)]
#[derive(Drop)]
pub struct Loose {
    at: *mut u8,
    alloc: Global,
    pub ghost value: { Option Thing } by { coded_option thing_row.coded },
}

impl Model for Loose {
    ghost also_owns = { λ l. owned thing_row l.alloc l.at l.value };
}

// What it stands for may go to another thread, and any thread may free its block: proofs/loose/Loose/TheSendSync/Send.antt.
unsafe impl Send for Loose {}

impl Loose {
    pub(crate) fn none(alloc: Global) -> Loose
        ensures { result.value ≡ None }
    {
        Loose {
            at: std::ptr::null_mut(),
            alloc,
        }
    }

    pub(crate) fn shut(parts: Parts<Thing, Global>) -> Loose
        ensures { result.value ≡ Some parts.value }
    {
        let Parts { at, alloc } = parts;
        Loose {
            at: at as *mut u8,
            alloc,
        }
    }

    pub(crate) fn open(self) -> Parts<Thing, Global>
        requires { IsSome self.value }
        ensures { self.value ≡ Some result.value }
    {
        let Loose { at, alloc } = self;
        Parts {
            at: at as *mut Thing,
            alloc,
        }
    }
}
