//! Lines put to an output, and the count of what it took.

ghost use Rattle.std.specs.Prelude.{◌≡◌, ◌+◌, ◌<◌, ◌^◌, length, take, IsTrue, OnOk, IfErr};
ghost use Rattle.std.specs.Io.KnownBytes.{Appends, Keeps};
ghost use Rattle.gtd_report.specs.Putting.{after_line, answer_of, failures_after_line, failures_after_stop, nothing_put};

use crate::fault::RunFault;
use gtd_devices::{Output, Put};
use std::alloc::{AllocError, Global};

/// The output failed when it had taken this many bytes of a line.
#[derive(Clone, Copy, Debug, PartialEq, Eq)]
pub struct ShortPut {
    /// How many of the line's first bytes were taken.
    pub taken: usize,
}

/// Why a text is not put completely.
#[derive(Clone, Copy, Debug, PartialEq, Eq)]
pub enum Stop {
    /// The output failed.
    Output,
    /// Memory was refused.
    Memory,
}

impl From<AllocError> for Stop {
    ghost use Rattle.std.specs.Prelude.{◌≡◌};
    ghost use Rattle.gtd_report.specs.declared.output.Stop.TheVariants.{Memory};

    ghost from_gives = { λ _ stop. stop ≡ Memory };

    fn from(_: AllocError) -> Stop {
        Stop::Memory
    }
}

impl From<ShortPut> for Stop {
    ghost use Rattle.std.specs.Prelude.{◌≡◌};
    ghost use Rattle.gtd_report.specs.declared.output.Stop.TheVariants.{Output};

    ghost from_gives = { λ _ stop. stop ≡ Output };

    fn from(_: ShortPut) -> Stop {
        Stop::Output
    }
}

/// How far a run has put its text.
#[derive(Clone, Copy, Debug, PartialEq, Eq)]
pub struct Progress {
    /// The lines that were put whole.
    pub lines: u64,
    /// The bytes that were taken.
    pub written: u64,
}

impl Progress {
    /// Nothing put yet.
    pub fn new() -> Progress
        ensures value { result ≡ nothing_put }
    {
        Progress {
            lines: 0,
            written: 0,
        }
    }

    /// The answer of a run that put its text, or that stopped: the number of lines, or why and after how many bytes it
    /// stopped.
    pub fn answer(self, put: Result<(), Stop>) -> Result<u64, RunFault>
        ensures value { result ≡ answer_of put self }
    {
        match put {
            Ok(()) => Ok(self.lines),
            Err(Stop::Output) => Err(RunFault::WriteFault {
                written: self.written,
            }),
            Err(Stop::Memory) => Err(RunFault::NoMemory {
                written: self.written,
            }),
        }
    }
}

/// What a run puts its text with, besides the output.
#[derive(Drop)]
pub struct Printer {
    /// How far the run has put its text.
    pub progress: Progress,
    /// Room for a line: what it holds between two lines does not matter.
    pub line: Vec<u8>,
    /// Where memory comes from.
    pub alloc: Global,
}

impl Printer {
    /// Nothing put yet.
    pub fn new(alloc: Global) -> Printer
        ensures begins { result.progress ≡ nothing_put }
    {
        Printer {
            progress: Progress::new(),
            line: Vec::new(alloc),
            alloc,
        }
    }
}

// Offers the bytes, and then the rest of them until all are taken.
#[inline(always)]
fn put_all<O: Output>(output: &mut O, bytes: &[u8]) -> Result<(), ShortPut>
    requires countable { O.failure_count output.old < u64.MAX }
    ensures all { OnOk result (Appends (O.taken output.old) (O.taken output.new) bytes.now) }
    ensures some { IfErr result (λ short. (short.taken < length bytes.now)
        × Appends (O.taken output.old) (O.taken output.new) (take short.taken bytes.now)) }
    ensures failures { O.failure_count output.new
        ≡ failures_after_line result (O.failure_count output.old) }
{
    let mut taken = 0usize;
    while taken < bytes.len() {
        match output.put(&bytes[taken..]) {
            Put::Took(n) => taken += n,
            Put::Failed => return Err(ShortPut { taken }),
        }
    }
    Ok(())
}

/// Puts a line, its end included: offers it whole, and then the rest of it until all is taken. Counts the bytes that
/// were taken, and the line if all of them were. Both counts must stay within a `u64`. Before the call, the output's
/// failures must be below `u64::MAX`.
#[inline(always)]
pub fn put_line<O: Output>(
    output: &mut O,
    progress: &mut Progress,
    line: &[u8],
) -> Result<(), ShortPut>
    requires countable { O.failure_count output.old < u64.MAX }
    requires written { progress.old.written + length line.now < 2 ^ 64 }
    requires lines { progress.old.lines + 1 < 2 ^ 64 }
    ensures all { OnOk result (Appends (O.taken output.old) (O.taken output.new) line.now) }
    ensures some { IfErr result (λ short. (short.taken < length line.now)
        × Appends (O.taken output.old) (O.taken output.new) (take short.taken line.now)) }
    ensures progress { progress.new ≡ after_line result progress.old line.now }
    ensures failures { O.failure_count output.new
        ≡ failures_after_line result (O.failure_count output.old) }
{
    match put_all(output, line) {
        Ok(()) => {
            progress.written += line.len() as u64;
            progress.lines += 1;
            Ok(())
        }
        Err(short) => {
            progress.written += short.taken as u64;
            Err(short)
        }
    }
}

/// Ends the output, after the last line. Before the call, its failures must be below `u64::MAX`.
pub fn finish<O: Output>(output: &mut O) -> Result<(), Stop>
    requires countable { O.failure_count output.old < u64.MAX }
    ensures bytes { Keeps (O.taken output.old) (O.taken output.new) }
    ensures ended { OnOk result (IsTrue (O.is_ended output.new)) }
    ensures cause { IfErr result (λ stop. stop ≡ Stop.Output) }
    ensures failures { O.failure_count output.new
        ≡ failures_after_stop result (O.failure_count output.old) }
{
    match output.finish() {
        Put::Took(_) => Ok(()),
        Put::Failed => Err(Stop::Output),
    }
}
