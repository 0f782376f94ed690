//! Lines put to an output that mostly takes a line whole.

ghost use Rattle.std.specs.Prelude.{◌≡◌, ◌-◌, ◌<◌, ◌≤◌, length, take, drop, OnOk, IfErr};
ghost use Rattle.std.specs.Io.KnownBytes.{Appends};
ghost use Rattle.gtd_report.specs.Putting.{failures_after_line};

use gtd_devices::{Output, Put};
use gtd_report::{Progress, ShortPut, put_line};

// Puts the bytes of a line behind those that were taken at the first offer. It stands apart, so that a line that is taken
// whole is put without a loop.
#[cold]
#[inline(never)]
fn put_rest<O: Output>(output: &mut O, line: &[u8], taken: usize) -> Result<(), ShortPut>
    requires countable { O.failure_count output.old < u64.MAX }
    requires within { taken ≤ length line.now }
    ensures all { OnOk result (Appends (O.taken output.old) (O.taken output.new) (drop taken line.now)) }
    ensures some { IfErr result (λ short. (taken ≤ short.taken) × (short.taken < length line.now)
        × Appends (O.taken output.old) (O.taken output.new) (take (short.taken - taken) (drop taken line.now))) }
    ensures failures { O.failure_count output.new
        ≡ failures_after_line result (O.failure_count output.old) }
{
    let mut rest = Progress::new();
    match put_line(output, &mut rest, &line[taken..]) {
        Ok(()) => Ok(()),
        Err(short) => Err(ShortPut {
            taken: taken + short.taken,
        }),
    }
}

/// Offers the bytes of a line, and then the rest of them until all are taken.
#[inline(always)]
pub(crate) fn put_bytes<O: Output>(output: &mut O, line: &[u8]) -> Result<(), ShortPut>
    requires countable { O.failure_count output.old < u64.MAX }
    requires offered { 0 < length line.now }
    ensures all { OnOk result (Appends (O.taken output.old) (O.taken output.new) line.now) }
    ensures some { IfErr result (λ short. (short.taken < length line.now)
        × Appends (O.taken output.old) (O.taken output.new) (take short.taken line.now)) }
    ensures failures { O.failure_count output.new
        ≡ failures_after_line result (O.failure_count output.old) }
{
    match output.put(line) {
        Put::Took(taken) => {
            if taken == line.len() {
                return Ok(());
            }
            put_rest(output, line, taken)
        }
        Put::Failed => Err(ShortPut { taken: 0 }),
    }
}
