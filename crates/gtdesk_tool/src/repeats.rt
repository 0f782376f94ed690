//! The command `same --file`: what the rows of a record file say more than once.

ghost use Rattle.std.specs.Prelude.{◌≡◌, ◌<◌};
ghost use Rattle.gtdesk_tool.specs.Running.{RanRepeats, failures_after_read, failures_after_write, repeats_outcome};

use crate::ending::Ending;
use crate::performer::run_refusal;
use crate::refusal::RunRefusal;
use gtd_devices::{Input, Output};
use gtd_repeats::run_repeats;
use gtd_report::RunFault;
use std::alloc::Global;

// The answer of the command, from that of its run. A line tells rows that do not differ, so the status is that of a comparison.
fn repeats_outcome(answer: Result<u64, RunFault>) -> Result<Ending, RunRefusal>
    ensures value { result ≡ repeats_outcome answer }
{
    match answer {
        Ok(0) => Ok(Ending::Done),
        Ok(_) => Ok(Ending::Differ),
        Err(fault) => Err(run_refusal(fault)),
    }
}

/// Lists what the rows of the record file with this path, whose bytes the input brings, say more than once.
pub(crate) fn print_repeats<I: Input, O: Output>(
    alloc: Global,
    input: &mut I,
    output: &mut O,
    path: &str,
) -> Result<Ending, RunRefusal>
    requires readable { I.failure_count input.old < u64.MAX }
    requires writable { O.failure_count output.old < u64.MAX }
    ensures ran { RanRepeats path.now (I.to_come input.old) (O.taken output.old) (O.taken output.new)
        (I.may_fall_silent input.old) (O.is_ended output.new) result }
    ensures read_faults { I.failure_count input.new
        ≡ failures_after_read result (I.failure_count input.old) }
    ensures write_faults { O.failure_count output.new
        ≡ failures_after_write result (O.failure_count output.old) }
{
    repeats_outcome(run_repeats(alloc, input, output, path))
}
