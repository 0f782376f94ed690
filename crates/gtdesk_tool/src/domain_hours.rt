//! The command `hours --of`: opening hours that are open at exactly the seconds of a time domain.

ghost use Rattle.std.specs.Prelude.{◌≡◌, ◌++◌, ◌<◌, IfErr, IfOk, codes, string_bytes};
ghost use Rattle.gtd_hours.specs.Written.{hours_text};
ghost use Rattle.gtdesk_tool.specs.Hours.{IsHoursLine};
ghost use Rattle.gtdesk_tool.specs.Running.{IsHoursRefusal, PutText, failures_after_write};

use crate::ending::Ending;
use crate::performer::print_text;
use crate::refusal::RunRefusal;
use gtd_core::Domain;
use gtd_devices::Output;
use gtd_hours::{Hours, print_hours};
use gtd_hours_search::hours_of;
use gtd_hours_text::writing_laws::printed_hours_read_back;
use std::alloc::{AllocError, Global};

/// The hours in one line, with its end.
pub(crate) fn hours_line_of(alloc: Global, hours: &Hours) -> Result<String, AllocError>
    ensures exact { IfOk result (λ line. string_bytes line ≡ hours_text hours.now ++ codes "\n") }
{
    let mut line = print_hours(alloc, hours)?;
    line.push_str("\n")?;
    Ok(line)
}

// The line of hours that are open at exactly the seconds of the domain. It reads as these hours, which is a law.
fn hours_line(alloc: Global, domain: &Domain) -> Result<String, RunRefusal>
    ensures line { IfOk result (λ line. IsHoursLine domain.now (string_bytes line)) }
    ensures refused { IfErr result IsHoursRefusal }
{
    printed_hours_read_back();
    match hours_of(alloc, domain) {
        Ok(Some(hours)) => match hours_line_of(alloc, &hours) {
            Ok(line) => Ok(line),
            Err(_) => Err(RunRefusal::Memory),
        },
        Ok(None) => Err(RunRefusal::NoHours),
        Err(_) => Err(RunRefusal::Memory),
    }
}

/// Puts hours that are open at exactly the seconds of the domain, and ends the output.
pub(crate) fn print_hours_of<O: Output>(
    alloc: Global,
    output: &mut O,
    domain: &Domain,
) -> Result<Ending, RunRefusal>
    requires writable { O.failure_count output.old < u64.MAX }
    ensures put { PutText (IsHoursLine domain.now) IsHoursRefusal (O.taken output.old) (O.taken output.new)
        (O.is_ended output.new) result }
    ensures write_faults { O.failure_count output.new
        ≡ failures_after_write result (O.failure_count output.old) }
{
    match hours_line(alloc, domain) {
        Ok(line) => print_text(output, line.as_str()),
        Err(refusal) => Err(refusal),
    }
}
