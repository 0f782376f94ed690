//! The commands `picture` and `picture-domain`: the picture of an element of a record file, and that of a time domain.

ghost use Rattle.std.specs.Prelude.{◌≡◌, ◌<◌};
ghost use Rattle.gtdesk_tool.specs.Running.{RanDomainPicture, RanPicture, failures_after_read, failures_after_write};
ghost use Rattle.gtdesk_tool.specs.Running.{picture_outcome};

use crate::ending::Ending;
use crate::performer::run_refusal;
use crate::refusal::RunRefusal;
use gtd_core::Domain;
use gtd_devices::{Input, Output};
use gtd_picture::{YearPicture, put_seen_domain_picture, run_picture};
use gtd_report::RunFault;
use gtdesk_plans::PictureSubject;
use std::alloc::Global;

// The answer of a command, from that of its run. A picture has lines, so none says that it is crowded.
fn picture_outcome(answer: Result<u64, RunFault>) -> Result<Ending, RunRefusal>
    ensures value { result ≡ picture_outcome answer }
{
    match answer {
        Ok(0) => Err(RunRefusal::Crowded),
        Ok(_) => Ok(Ending::Done),
        Err(fault) => Err(run_refusal(fault)),
    }
}

/// Prints the picture of an element of the record file that the input brings.
pub(crate) fn print_picture<I: Input, O: Output>(
    alloc: Global,
    input: &mut I,
    output: &mut O,
    title: &str,
    subject: PictureSubject,
) -> Result<Ending, RunRefusal>
    requires readable { I.failure_count input.old < u64.MAX }
    requires writable { O.failure_count output.old < u64.MAX }
    ensures ran { RanPicture subject title.now (I.to_come input.old) (O.taken output.old) (O.taken output.new)
        (I.may_fall_silent input.old) (O.is_ended output.new) result }
    ensures read_faults { I.failure_count input.new
        ≡ failures_after_read result (I.failure_count input.old) }
    ensures write_faults { O.failure_count output.new
        ≡ failures_after_write result (O.failure_count output.old) }
{
    let picture = YearPicture {
        element: subject.element,
        direction: subject.direction,
        vehicle: subject.vehicle,
        year: subject.year,
        title,
    };
    picture_outcome(run_picture(alloc, input, output, &picture))
}

/// Prints the picture of a domain.
pub(crate) fn print_domain<O: Output>(
    alloc: Global,
    output: &mut O,
    domain: &Domain,
    title: &str,
    year: u16,
) -> Result<Ending, RunRefusal>
    requires writable { O.failure_count output.old < u64.MAX }
    ensures ran { RanDomainPicture domain.now title.now year (O.taken output.old) (O.taken output.new)
        (O.is_ended output.new) result }
    ensures write_faults { O.failure_count output.new
        ≡ failures_after_write result (O.failure_count output.old) }
{
    picture_outcome(put_seen_domain_picture(alloc, output, domain, title, year))
}
