//! A small record file, and an output that counts its calls.

ghost use Rattle.std.specs.Prelude.{◌≡◌};

use gtd_devices::{Input, MemoryIn, Output, Put};
use std::alloc::Global;
use std::process::Abort;

/// A record file of two rows: 88 bytes.
pub(crate) const R: &str =
    "element,direction,vehicle,domain\n17,positive,0,[(M4d1){M3}]*[(h10){h4}]\n17,negative,11,\n";

/// The bytes of `R`, in pieces of at most 7.
pub(crate) fn two_rows(rt: &impl Abort, alloc: Global) -> MemoryIn
    ensures { ⟦<MemoryIn as Input>⟧.failure_count result ≡ 0 }
{
    let bytes = Vec::from_slice(alloc, R.as_bytes()).expect(rt, "memory");
    MemoryIn::new(bytes, 7, None, None)
}

/// An output that takes all that it is offered, and counts its calls.
#[derive(Drop)]
pub(crate) struct Counting {
    /// How often it was offered something.
    pub(crate) puts: u64,
    /// How often it was ended.
    pub(crate) ends: u64,
    /// Whether nothing was offered after its last end.
    pub(crate) is_ended: bool,
}

impl Output for Counting {
    ghost is_ended = { λ counting. counting.is_ended };

    ghost failure_count = { λ _. 0 };

    fn put(&mut self, bytes: &[u8]) -> Put {
        self.puts = self.puts.saturating_add(1);
        self.is_ended = false;
        Put::Took(bytes.len())
    }

    fn finish(&mut self) -> Put {
        self.ends = self.ends.saturating_add(1);
        self.is_ended = true;
        Put::Took(0)
    }

    fn failures(&self) -> u64 {
        0
    }
}

/// The output that no call was made of.
pub(crate) fn uncalled() -> Counting
    ensures { ⟦<Counting as Output>⟧.failure_count result ≡ 0 }
{
    Counting {
        puts: 0,
        ends: 0,
        is_ended: false,
    }
}
