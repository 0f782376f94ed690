//! An input over bytes that were read already.

ghost use Rattle.std.specs.Prelude.{◌≡◌, Some, false};

use gtd_devices::{Input, Pull};

/// The bytes of a file, as an input that does not fail and does not fall silent.
#[derive(Drop)]
pub(crate) struct ReadBytes<'a> {
    pub(crate) left: &'a [u8],
}

impl Input for ReadBytes<'_> {
    ghost to_come = { λ input. Some input.left.now };

    ghost may_fall_silent = { λ input. false };

    ghost failure_count = { λ input. 0 };

    fn pull(&mut self, into: &mut [u8]) -> Pull {
        if self.left.is_empty() {
            return Pull::Done;
        }
        let n = self.left.len().min(into.len());
        into[..n].copy_from_slice(&self.left[..n]);
        self.left = &self.left[n..];
        Pull::Got(n)
    }

    fn failures(&self) -> u64 {
        0
    }
}
