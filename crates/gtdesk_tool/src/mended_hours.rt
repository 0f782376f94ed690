//! The command `mend hours`, which prints the mended text of opening hours.

ghost use Rattle.std.specs.Prelude.{◌≡◌, ◌++◌, ◌<◌, IfErr, IfOk, OnOk, codes};
ghost use Rattle.gtdesk_tool.specs.MendedHours.{IsMendedLine, IsUnmended};
ghost use Rattle.gtdesk_tool.specs.Running.{PutText, failures_after_write};

use crate::ending::Ending;
use crate::performer::print_bytes;
use crate::refusal::RunRefusal;
use crate::text_hours::unread;
use gtd_devices::Output;
use gtd_hours_loose_tokens::DayNames;
use gtd_hours_mended::mended_hours;
use std::alloc::{AllocError, Global};

// A text with a line end.
fn line_of(mended: Vec<u8>) -> Result<Vec<u8>, AllocError>
    ensures { IfOk result (λ line. line.items ≡ mended.items ++ codes "\n") }
{
    let mut line = mended;
    line.extend_from_slice(b"\n")?;
    Ok(line)
}

// The line of the mended text.
fn mended_line(alloc: Global, text: &str, names: DayNames) -> Result<Vec<u8>, RunRefusal>
    ensures line { IfOk result (λ line. IsMendedLine names text.now line.items) }
    ensures refused { IfErr result (IsUnmended names text.now) }
{
    match mended_hours(alloc, text.as_bytes(), names) {
        Err(fault) => Err(unread(fault)),
        Ok(mended) => match line_of(mended) {
            Ok(line) => Ok(line),
            Err(_) => Err(RunRefusal::Memory),
        },
    }
}

/// Puts the mended text of hours, and ends the output.
pub(crate) fn print_mended_hours<O: Output>(
    alloc: Global,
    output: &mut O,
    text: &str,
    names: DayNames,
) -> Result<Ending, RunRefusal>
    requires writable { O.failure_count output.old < u64.MAX }
    ensures put { PutText (IsMendedLine names text.now) (IsUnmended names text.now) (O.taken output.old)
        (O.taken output.new) (O.is_ended output.new) result }
    ensures write_faults { O.failure_count output.new
        ≡ failures_after_write result (O.failure_count output.old) }
{
    match mended_line(alloc, text, names) {
        Ok(line) => print_bytes(output, line.as_slice()),
        Err(refusal) => Err(refusal),
    }
}
