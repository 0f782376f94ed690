//! An output that keeps what it takes.

ghost use Rattle.std.specs.Prelude.{◌≡◌, false, true, Some, []};

use gtd_devices::{Output, Put};
use std::alloc::Global;

/// An output that keeps all bytes that it takes. It fails exactly if memory is refused.
#[derive(Drop)]
pub struct Collected {
    bytes: Vec<u8>,
    ended: bool,
    failures: u64,
}

impl Collected {
    /// The output that has taken nothing yet.
    pub fn new(alloc: Global) -> Collected
        ensures bytes { ⟦<Collected as Output>⟧.taken result ≡ Some [] }
        ensures failures { ⟦<Collected as Output>⟧.failure_count result ≡ 0 }
    {
        Collected {
            bytes: Vec::new(alloc),
            ended: false,
            failures: 0,
        }
    }

    /// The bytes that were taken.
    pub fn into_bytes(self) -> Vec<u8>
        ensures taken { Some result.items ≡ ⟦<Collected as Output>⟧.taken self }
    {
        self.bytes
    }
}

impl Output for Collected {
    ghost taken = { λ it. Some it.bytes.items };

    ghost is_ended = { λ it. it.ended };

    ghost failure_count = { λ it. it.failures };

    fn put(&mut self, bytes: &[u8]) -> Put {
        self.ended = false;
        match self.bytes.extend_from_slice(bytes) {
            Ok(()) => Put::Took(bytes.len()),
            Err(_) => {
                self.failures += 1;
                Put::Failed
            }
        }
    }

    fn finish(&mut self) -> Put {
        self.ended = true;
        Put::Took(0)
    }

    fn failures(&self) -> u64 {
        self.failures
    }
}
