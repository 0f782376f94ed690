//! The output over any writer.

ghost use Rattle.std.specs.Prelude.{◌≡◌, ◌+◌, ◌<◌, false, length};
ghost use Rattle.gtd_devices.specs.Device.{AddsFront, IsWithinOffer, failures_after_put};

use crate::device::{Output, Put};
use std::io::{Error, ErrorKind, Write};

/// How often an interrupted write is tried.
const TRIES: u32 = 1000;

/// The output over a writer. An interrupted write is tried again. The 1,000th interruption in a row, a write of no byte
/// and every other error are failures. `finish` flushes once, and any error of the flush is a failure.
#[derive(Drop)]
pub struct HostOut<W> {
    writer: W,
    ended: bool,
    failures: u64,
}

impl<W: Write> HostOut<W> {
    /// The output over a writer, which has not failed yet.
    pub fn new(writer: W) -> HostOut<W>
        ensures bytes { ⟦<HostOut<W> as Output>⟧.taken result ≡ W.contents writer }
        ensures unended { ⟦<HostOut<W> as Output>⟧.is_ended result ≡ false }
        ensures failures { ⟦<HostOut<W> as Output>⟧.failure_count result ≡ 0 }
    {
        HostOut {
            writer,
            ended: false,
            failures: 0,
        }
    }

    // Counts a failure.
    #[cold]
    #[inline(never)]
    fn fail(&mut self) -> Put
        requires countable { self.old.failures < u64.MAX }
        ensures failed { result ≡ Put.Failed }
        ensures writer { self.new.writer ≡ self.old.writer }
        ensures ended { self.new.ended ≡ self.old.ended }
        ensures failures { self.new.failures ≡ self.old.failures + 1 }
    {
        self.failures += 1;
        Put::Failed
    }

    // What an offer of bytes did of which a write ended in an error: if it was interrupted, they are offered again. It stands
    // apart, so that a write that takes bytes is put without room for what an error needs.
    #[cold]
    #[inline(never)]
    fn put_again(&mut self, error: Error, bytes: &[u8]) -> Put
        requires offered { 0 < length bytes.now }
        requires countable { self.old.failures < u64.MAX }
        ensures within { IsWithinOffer result (length bytes.now) }
        ensures bytes { AddsFront (W.contents self.old.writer) (W.contents self.new.writer) result bytes.now }
        ensures ended { self.new.ended ≡ self.old.ended }
        ensures failures { self.new.failures ≡ failures_after_put result self.old.failures }
    {
        if error.kind() != ErrorKind::Interrupted {
            return self.fail();
        }
        for _ in 1..TRIES {
            match self.writer.write(bytes) {
                Ok(0) => break,
                Ok(n) => return Put::Took(n),
                Err(e) if e.kind() == ErrorKind::Interrupted => {}
                Err(_) => break,
            }
        }
        self.fail()
    }
}

impl<W: Write> Output for HostOut<W> {
    ghost taken = { λ host. W.contents host.writer };

    ghost is_ended = { λ host. host.ended };

    ghost failure_count = { λ host. host.failures };

    #[inline(always)]
    fn put(&mut self, bytes: &[u8]) -> Put {
        self.ended = false;
        match self.writer.write(bytes) {
            Ok(0) => self.fail(),
            Ok(n) => Put::Took(n),
            Err(error) => self.put_again(error, bytes),
        }
    }

    fn finish(&mut self) -> Put {
        self.ended = self.writer.flush().is_ok();
        if self.ended {
            return Put::Took(0);
        }
        self.fail()
    }

    fn failures(&self) -> u64 {
        self.failures
    }
}
