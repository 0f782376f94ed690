//! The bytes of a file, as they were given.

ghost use Rattle.std.specs.Prelude.{◌≡◌, ◌≤◌, false, Some, drop, length};

use gtd_devices::{Input, Pull};

/// An input over bytes in memory, which neither fails nor falls silent.
#[derive(Drop)]
pub struct Given {
    bytes: Vec<u8>,
    at: usize,
    ghost inside: { at ≤ length bytes.items },
}

impl Given {
    /// The input of these bytes.
    pub fn new(bytes: Vec<u8>) -> Given
        ensures bytes { ⟦<Given as Input>⟧.to_come result ≡ Some bytes.items }
    {
        Given { bytes, at: 0 }
    }
}

impl Input for Given {
    ghost to_come = { λ given. Some (drop given.at given.bytes.items) };

    ghost may_fall_silent = { λ _. false };

    ghost failure_count = { λ _. 0 };

    fn pull(&mut self, into: &mut [u8]) -> Pull {
        let rest = &self.bytes[self.at..];
        if rest.is_empty() {
            return Pull::Done;
        }
        let n = rest.len().min(into.len());
        into[..n].copy_from_slice(&rest[..n]);
        self.at += n;
        Pull::Got(n)
    }

    fn failures(&self) -> u64 {
        0
    }
}
