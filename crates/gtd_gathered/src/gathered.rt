//! An output that gathers bytes before another takes them.

ghost use Rattle.std.specs.Prelude.{◌≡◌, ◌+◌, ◌-◌, ◌<◌, ◌≤◌, ◌++◌, false, length, take};
ghost use Rattle.std.specs.Io.KnownBytes.{append_known};
ghost use Rattle.gtd_devices.specs.Device.{AddsFront, Finishes, IsWithinOffer, failures_after_put};
ghost use Rattle.gtd_gathered.specs.Gathering.{between, ended_after};

use crate::copies::{copy_at, copy_line_at};
use gtd_devices::{Output, Put};

/// How many bytes a buffer has for what a [`Gathered`] output gathers: as many as a pipe holds.
pub const GATHERED: usize = 65_536;

/// An output before another, which gathers up to 65,536 bytes and then hands them on, so that the other is not called for each
/// short line. What is gathered stays gathered if the other output fails. It takes no memory: its buffer is lent, so that whoever
/// lends a writer to the other output knows what was written once the loan ends.
#[derive(Drop)]
pub struct Gathered<'a, O> {
    inner: O,
    bytes: &'a mut [u8],
    // What is gathered are the bytes from here up to `until`.
    from: usize,
    until: usize,
    ghost room: { length bytes.now ≡ 65536 },
    ghost in_order: { from ≤ until },
    ghost within: { until ≤ 65536 },
}

// Offers a part of the bytes, which stay as they are.
fn offer<O: Output>(output: &mut O, bytes: &mut [u8], from: usize, until: usize) -> Put
    requires some { from < until }
    requires within { until ≤ length bytes.old }
    requires countable { O.failure_count output.old < u64.MAX }
    ensures kept { bytes.new ≡ bytes.old }
    ensures within { IsWithinOffer result (until - from) }
    ensures taken { AddsFront (O.taken output.old) (O.taken output.new) result (between from until bytes.old) }
    ensures unended { O.is_ended output.new ≡ false }
    ensures failures { O.failure_count output.new
        ≡ failures_after_put result (O.failure_count output.old) }
{
    output.put(&bytes[from..until])
}

impl<'a, O: Output> Gathered<'a, O> {
    /// The output before another, with a buffer of [`GATHERED`] bytes. Nothing is gathered yet.
    pub fn new(buffer: &'a mut [u8], inner: O) -> Gathered<'a, O>
        requires room { length buffer.old ≡ 65536 }
        ensures taken { ⟦<Gathered<'a, O> as Output>⟧.taken result ≡ O.taken inner }
        ensures ended { ⟦<Gathered<'a, O> as Output>⟧.is_ended result ≡ O.is_ended inner }
        ensures failures { ⟦<Gathered<'a, O> as Output>⟧.failure_count result ≡ O.failure_count inner }
    {
        Gathered {
            inner,
            bytes: buffer,
            from: 0,
            until: 0,
        }
    }

    // Hands on all that is gathered, and gives `Took(0)`. If the other output fails, what it has not taken stays gathered.
    #[cold]
    #[inline(never)]
    fn hand_on(&mut self) -> Put
        requires countable { O.failure_count self.old.inner < u64.MAX }
        ensures bytes { Finishes
            (append_known (O.taken self.old.inner) (between self.old.from self.old.until self.old.bytes.now))
            (append_known (O.taken self.new.inner) (between self.new.from self.new.until self.new.bytes.now)) result }
        ensures empty { result ≡ Put.Took 0 → self.new.until ≡ 0 }
        ensures unended { result ≡ Put.Failed → O.is_ended self.new.inner ≡ false }
        ensures failures { O.failure_count self.new.inner
            ≡ failures_after_put result (O.failure_count self.old.inner) }
    {
        while self.from < self.until {
            let bytes = &mut *self.bytes;
            match offer(&mut self.inner, bytes, self.from, self.until) {
                Put::Took(n) => self.from += n,
                Put::Failed => return Put::Failed,
            }
        }
        self.from = 0;
        self.until = 0;
        Put::Took(0)
    }

    // Gathers bytes for which there is room.
    fn gather(&mut self, bytes: &[u8])
        requires room { self.old.until + length bytes.now ≤ 65536 }
        ensures inner { self.new.inner ≡ self.old.inner }
        ensures bytes { between self.new.from self.new.until self.new.bytes.now
            ≡ between self.old.from self.old.until self.old.bytes.now ++ bytes.now }
    {
        let room = &mut *self.bytes;
        copy_at(room, self.until, bytes);
        self.until += bytes.len();
    }

    // Gathers a first part of the bytes that are offered, once there is room for them. It stands apart, so that a short line is
    // gathered without a call.
    #[cold]
    #[inline(never)]
    fn put_slowly(&mut self, bytes: &[u8]) -> Put
        requires offered { 0 < length bytes.now }
        requires countable { O.failure_count self.old.inner < u64.MAX }
        ensures within { IsWithinOffer result (length bytes.now) }
        ensures bytes { AddsFront
            (append_known (O.taken self.old.inner) (between self.old.from self.old.until self.old.bytes.now))
            (append_known (O.taken self.new.inner) (between self.new.from self.new.until self.new.bytes.now))
            result bytes.now }
        ensures unended { ended_after (between self.new.from self.new.until self.new.bytes.now)
            (O.is_ended self.new.inner) ≡ false }
        ensures failures { O.failure_count self.new.inner
            ≡ failures_after_put result (O.failure_count self.old.inner) }
    {
        if bytes.len() > GATHERED - self.until && self.hand_on() == Put::Failed {
            return Put::Failed;
        }
        let n = bytes.len().min(GATHERED - self.until);
        self.gather(&bytes[..n]);
        Put::Took(n)
    }
}

impl<O: Output> Output for Gathered<'_, O> {
    ghost taken = { λ gathered. append_known (O.taken gathered.inner)
        (between gathered.from gathered.until gathered.bytes.now) };

    ghost is_ended = { λ gathered. ended_after (between gathered.from gathered.until gathered.bytes.now)
        (O.is_ended gathered.inner) };

    ghost failure_count = { λ gathered. O.failure_count gathered.inner };

    #[inline(always)]
    fn put(&mut self, bytes: &[u8]) -> Put {
        let n = bytes.len();
        if n < 32 || n > 64 || self.until > GATHERED - 64 {
            return self.put_slowly(bytes);
        }
        let room = &mut *self.bytes;
        copy_line_at(room, self.until, bytes);
        self.until += n;
        Put::Took(n)
    }

    fn finish(&mut self) -> Put {
        if self.hand_on() == Put::Failed {
            return Put::Failed;
        }
        self.inner.finish()
    }

    fn failures(&self) -> u64 {
        self.inner.failures()
    }
}
