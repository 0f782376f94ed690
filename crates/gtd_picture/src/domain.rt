//! The picture of a domain.

ghost use Rattle.std.specs.Prelude.{◌≡◌, ◌<◌, ◌↔◌, IsErrOf, IsTrue, OnOk};
ghost use Rattle.gtd_picture.specs.Domain.{HasPut, IsDomainPicture, IsDomainSeen};
ghost use Rattle.gtd_report.specs.Putting.{PutsText, failures_after_stop, nothing_put};
ghost use Rattle.gtd_report.specs.Run.{IsTableYear, failures_after_write};

use crate::crowd::is_domain_crowded;
use crate::picture::{Caption, put_picture};
use gtd_calendar::days_of_year;
use gtd_core::Domain;
use gtd_devices::Output;
use gtd_eval::KeptCursor;
use gtd_report::{Printer, RunFault, Stop, finish};
use std::alloc::Global;

// Whether there are pictures of the year.
fn is_table_year(year: u16) -> bool
    ensures { IsTrue result ↔ IsTableYear year }
{
    year >= 1901 && year <= 2199
}

// Puts the picture of a domain, and ends the output.
fn put_seconds<O: Output>(
    output: &mut O,
    printer: &mut Printer,
    domain: &Domain,
    title: &str,
    year: u16,
) -> Result<(), Stop>
    requires countable { O.failure_count output.old < u64.MAX }
    requires begins { printer.old.progress ≡ nothing_put }
    requires year { IsTableYear year }
    ensures puts { PutsText (IsDomainPicture domain.now title.now year) result
        (O.taken output.old) (O.taken output.new) printer.old.progress printer.new.progress }
    ensures ended { OnOk result (IsTrue (O.is_ended output.new)) }
    ensures failures { O.failure_count output.new
        ≡ failures_after_stop result (O.failure_count output.old) }
{
    let seconds = KeptCursor::open(printer.alloc, domain, days_of_year(year))?;
    let caption = Caption {
        title,
        inside: "in the domain",
        outside: "not in the domain",
        year,
    };
    put_picture(output, printer, seconds, &caption)?;
    finish(output)
}

/// Puts the picture of a domain: which seconds of the days of a year from 1901 to 2199 it contains. Answers the number of
/// its lines, two more than the year has days.
///
/// In order: `YearRange`; then `WriteFault` or `NoMemory`, whichever happens first. Before the call, the output's failures
/// must be below `u64::MAX`.
pub fn put_domain_picture<O: Output>(
    alloc: Global,
    output: &mut O,
    domain: &Domain,
    title: &str,
    year: u16,
) -> Result<u64, RunFault>
    requires writable { O.failure_count output.old < u64.MAX }
    // What each answer means: after a failure or a refusal of memory, the first bytes of the same picture.
    ensures stands { HasPut (IsDomainPicture domain.now title.now year) (O.taken output.old) (O.taken output.new) result }
    // An output that took the whole text was then ended, last of all.
    ensures ended { OnOk result (IsTrue (O.is_ended output.new)) }
    ensures year { IsErrOf result RunFault.YearRange ↔ (IsTableYear year → ⊥) }
    ensures write_faults { O.failure_count output.new
        ≡ failures_after_write result (O.failure_count output.old) }
{
    if !is_table_year(year) {
        return Err(RunFault::YearRange);
    }
    let mut printer = Printer::new(alloc);
    let put = put_seconds(output, &mut printer, domain, title, year);
    printer.progress.answer(put)
}

// Puts the picture of a domain, unless it is crowded, and ends the output.
fn put_seen<O: Output>(
    output: &mut O,
    printer: &mut Printer,
    domain: &Domain,
    title: &str,
    year: u16,
) -> Result<(), Stop>
    requires countable { O.failure_count output.old < u64.MAX }
    requires begins { printer.old.progress ≡ nothing_put }
    requires year { IsTableYear year }
    ensures puts { PutsText (IsDomainSeen domain.now title.now year) result
        (O.taken output.old) (O.taken output.new) printer.old.progress printer.new.progress }
    ensures ended { OnOk result (IsTrue (O.is_ended output.new)) }
    ensures failures { O.failure_count output.new
        ≡ failures_after_stop result (O.failure_count output.old) }
{
    if is_domain_crowded(printer.alloc, domain, year)? {
        return finish(output);
    }
    put_seconds(output, printer, domain, title, year)
}

/// Puts the picture of a domain as [`put_domain_picture`] does, unless its seconds make more than 20,000 stretches in the year:
/// then puts nothing, and answers 0.
pub fn put_seen_domain_picture<O: Output>(
    alloc: Global,
    output: &mut O,
    domain: &Domain,
    title: &str,
    year: u16,
) -> Result<u64, RunFault>
    requires writable { O.failure_count output.old < u64.MAX }
    // What each answer means: after a failure or a refusal of memory, the first bytes of the same picture.
    ensures stands { HasPut (IsDomainSeen domain.now title.now year) (O.taken output.old) (O.taken output.new) result }
    // An output that took the whole text was then ended, last of all.
    ensures ended { OnOk result (IsTrue (O.is_ended output.new)) }
    ensures year { IsErrOf result RunFault.YearRange ↔ (IsTableYear year → ⊥) }
    ensures write_faults { O.failure_count output.new
        ≡ failures_after_write result (O.failure_count output.old) }
{
    if !is_table_year(year) {
        return Err(RunFault::YearRange);
    }
    let mut printer = Printer::new(alloc);
    let put = put_seen(output, &mut printer, domain, title, year);
    printer.progress.answer(put)
}
