//! What gives bytes and what takes them.

ghost use Rattle.std.specs.Prelude.{◌≡◌, ◌<◌, ℕ, Option, None, List, Bool, true, false, length, IsTrue};
ghost use Rattle.gtd_devices.specs.Device.{IsGot, IsWithinRoom, TakesOff, failures_after_pull};
ghost use Rattle.gtd_devices.specs.Device.{IsWithinOffer, AddsFront, Finishes, has_ended, failures_after_put};

/// What one pull of an input did.
#[derive(Clone, Copy, Debug, PartialEq, Eq)]
pub enum Pull {
    /// So many bytes came. 0 means none just now.
    Got(usize),
    /// The input is at its end.
    Done,
    /// The device failed.
    Failed,
}

/// A device that gives bytes.
pub trait Input {
    /// The bytes still to come, if the input tells them.
    ghost to_come: { Self → Option (List ℕ) } = { λ _. None };

    /// Whether a pull may give no byte before the end.
    ghost may_fall_silent: { Self → Bool } = { λ _. true };

    /// How often the device has failed.
    ghost failure_count: { Self → ℕ };

    /// Asks for bytes, which come to the front of a buffer that must not be empty. `Done` comes only at the end. A
    /// failure takes no byte, and is counted. Before the call, the count must be below `u64::MAX`.
    fn pull(&mut self, into: &mut [u8]) -> Pull
        requires room { 0 < length into.old }
        requires countable { failure_count self.old < u64.MAX }
        ensures within { IsWithinRoom result (length into.new) }
        ensures bytes { TakesOff (to_come self.old) (to_come self.new) result into.new }
        ensures silent { IsGot result 0 → IsTrue (may_fall_silent self.old) }
        ensures as_silent { may_fall_silent self.new ≡ may_fall_silent self.old }
        ensures failures { failure_count self.new
            ≡ failures_after_pull result (failure_count self.old) };

    /// How often the device has failed.
    fn failures(&self) -> u64
        ensures value { result ≡ failure_count self.now };
}

/// What one `put` to an output did.
#[derive(Clone, Copy, Debug, PartialEq, Eq)]
pub enum Put {
    /// So many bytes were taken.
    Took(usize),
    /// The device failed.
    Failed,
}

/// A device that takes bytes.
pub trait Output {
    /// The bytes that were taken, if the output tells them.
    ghost taken: { Self → Option (List ℕ) } = { λ _. None };

    /// Whether the output was ended and has been offered nothing since.
    ghost is_ended: { Self → Bool };

    /// How often the device has failed.
    ghost failure_count: { Self → ℕ };

    /// Offers at least one byte. The output takes a first part, at least one byte, or fails: a failure takes none, and
    /// is counted. Before the call, the count must be below `u64::MAX`.
    fn put(&mut self, bytes: &[u8]) -> Put
        requires offered { 0 < length bytes.now }
        requires countable { failure_count self.old < u64.MAX }
        ensures within { IsWithinOffer result (length bytes.now) }
        ensures bytes { AddsFront (taken self.old) (taken self.new) result bytes.now }
        ensures unended { is_ended self.new ≡ false }
        ensures failures { failure_count self.new
            ≡ failures_after_put result (failure_count self.old) };

    /// Ends the output: `Took(0)`, or a failure, which is counted. Before the call, the count must be below `u64::MAX`.
    fn finish(&mut self) -> Put
        requires countable { failure_count self.old < u64.MAX }
        ensures bytes { Finishes (taken self.old) (taken self.new) result }
        ensures ended { is_ended self.new ≡ has_ended result }
        ensures failures { failure_count self.new
            ≡ failures_after_put result (failure_count self.old) };

    /// How often the device has failed.
    fn failures(&self) -> u64
        ensures value { result ≡ failure_count self.now };
}
