//! Readers and writers that wait until a pipe is ready.

ghost use Rattle.std.specs.Prelude.{◌≡◌};

use std::io::{ErrorKind, Read, Result, Write};
use std::thread::sleep;
use std::time::{Clock, Duration};

/// How long it takes until a pipe that was not ready is tried again, in milliseconds.
const PAUSE: u64 = 5;

/// A reader or a writer that waits. Where the other side of a pipe has set it so that it does not block, a call that finds it not
/// ready is made again some milliseconds later, as long as that takes.
#[derive(Drop)]
pub struct Waiting<'a, S, C> {
    source: S,
    clock: &'a C,
}

impl<'a, S, C: Clock> Waiting<'a, S, C> {
    fn pause(&self) {
        sleep(self.clock, Duration::from_millis(PAUSE));
    }
}

impl<'a, R: Read, C: Clock> Waiting<'a, R, C> {
    /// A reader that waits by this clock.
    pub fn reader(reader: R, clock: &'a C) -> Waiting<'a, R, C>
        ensures bytes { ⟦<Waiting<'a, R, C> as Read>⟧.remaining result ≡ R.remaining reader }
    {
        Waiting {
            source: reader,
            clock,
        }
    }
}

impl<'a, W: Write, C: Clock> Waiting<'a, W, C> {
    /// A writer that waits by this clock.
    pub fn writer(writer: W, clock: &'a C) -> Waiting<'a, W, C>
        ensures bytes { ⟦<Waiting<'a, W, C> as Write>⟧.contents result ≡ W.contents writer }
    {
        Waiting {
            source: writer,
            clock,
        }
    }
}

impl<'a, R: Read, C: Clock> Read for Waiting<'a, R, C> {
    ghost remaining = { λ it. R.remaining it.source };

    fn read(&mut self, into: &mut [u8]) -> Result<usize> {
        for _ in 0..u64::MAX {
            match self.source.read(into) {
                Ok(n) => return Ok(n),
                Err(e) if e.kind() == ErrorKind::WouldBlock => self.pause(),
                Err(e) => return Err(e),
            }
        }
        self.source.read(into)
    }
}

impl<'a, W: Write, C: Clock> Write for Waiting<'a, W, C> {
    ghost contents = { λ it. W.contents it.source };

    fn write(&mut self, bytes: &[u8]) -> Result<usize> {
        for _ in 0..u64::MAX {
            match self.source.write(bytes) {
                Ok(n) => return Ok(n),
                Err(e) if e.kind() == ErrorKind::WouldBlock => self.pause(),
                Err(e) => return Err(e),
            }
        }
        self.source.write(bytes)
    }

    fn flush(&mut self) -> Result<()> {
        for _ in 0..u64::MAX {
            match self.source.flush() {
                Ok(()) => return Ok(()),
                Err(e) if e.kind() == ErrorKind::WouldBlock => self.pause(),
                Err(e) => return Err(e),
            }
        }
        self.source.flush()
    }
}
