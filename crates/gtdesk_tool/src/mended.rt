//! The command `mend` of a record file: its faults mended where that is safe.

ghost use Rattle.std.specs.Prelude.{◌≡◌, ◌<◌};
ghost use Rattle.gtdesk_tool.specs.Mended.{RanMended, mended_outcome};
ghost use Rattle.gtdesk_tool.specs.Running.{failures_after_read, failures_after_write};
ghost use Rattle.gtdesk_tool.specs.Telling.{telling};

use crate::ending::Ending;
use crate::refusal::RunRefusal;
use gtd_devices::{Input, Output};
use gtd_mend::{MendFault, run_mend};
use gtd_records::RecordFault;
use std::alloc::Global;

// The answer of the command, from that of its run. If the list of changes is cut, the file is mended all the same.
fn mended_outcome(answer: Result<u64, MendFault>) -> Result<Ending, RunRefusal>
    ensures value { result ≡ mended_outcome answer }
{
    match answer {
        Ok(_) => Ok(Ending::Done),
        Err(MendFault::ReadFault) => Err(RunRefusal::Records(RecordFault::ReadFault)),
        Err(MendFault::TooLarge) => Err(RunRefusal::Records(RecordFault::TooLarge)),
        Err(MendFault::Endless) => Err(RunRefusal::Records(RecordFault::Endless)),
        Err(MendFault::NoMemory) => Err(RunRefusal::Memory),
        Err(MendFault::WriteFault) => Err(RunRefusal::Write),
        Err(MendFault::ListingFault) => Ok(Ending::Done),
    }
}

/// Prints the record file with this path that the input brings, with its faults mended, and lists what was changed on the output
/// for errors. If that output fails, a first part of the list stands, and the answer is the same.
pub(crate) fn print_mended<I: Input, O: Output, E: Output>(
    alloc: Global,
    input: &mut I,
    output: &mut O,
    errors: &mut E,
    path: &str,
) -> Result<Ending, RunRefusal>
    requires readable { I.failure_count input.old < u64.MAX }
    requires writable { O.failure_count output.old < u64.MAX }
    requires tellable { E.failure_count errors.old < u64.MAX }
    ensures ran { RanMended path.now (I.to_come input.old) (O.taken output.old) (O.taken output.new)
        (I.may_fall_silent input.old) (O.is_ended output.new)
        (telling (E.taken errors.old) (E.taken errors.new) (E.failure_count errors.old) (E.failure_count errors.new)) result }
    ensures read_faults { I.failure_count input.new
        ≡ failures_after_read result (I.failure_count input.old) }
    ensures write_faults { O.failure_count output.new
        ≡ failures_after_write result (O.failure_count output.old) }
{
    mended_outcome(run_mend(alloc, input, output, errors, path))
}
