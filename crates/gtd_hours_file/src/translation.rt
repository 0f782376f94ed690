//! The record file that rows of hours are translated to.

ghost use Rattle.std.specs.Prelude.{◌≡◌, ◌↔◌, ◌<◌, ◌≤◌, ℤ, length, map, option_map, IfOk, IfSome, IsTrue, OnOk};
ghost use Rattle.std.specs.List.{All};
ghost use Rattle.gtd_core.specs.Limits.{most_basic_domains, most_rows};
ghost use Rattle.gtd_core.specs.Parts.{domain_tree};
ghost use Rattle.gtd_eval.specs.Membership.{InDomain};
ghost use Rattle.gtd_migrate.specs.Migrated.{migrated, row_line};
ghost use Rattle.gtd_hours.specs.Cost.{hours_cost};
ghost use Rattle.gtd_hours.specs.Opening.{IsOpen};
ghost use Rattle.gtd_report.specs.Putting.{failures_after_stop, nothing_put};
ghost use Rattle.gtd_hours_file.specs.PuttingRows.{IsLineOf, IsWithin, PutsRows};
ghost use Rattle.gtd_hours_file.specs.Translated.{IsDomainOf};

use crate::row::{HoursRow, RowHours};
use gtd_core::Domain;
use gtd_devices::Output;
use gtd_hours::Hours;
use gtd_hours_domain::{TranslationFault, domain_of};
use gtd_migrate::write_row;
use gtd_report::{Progress, Stop, finish, put_line};
use std::alloc::{AllocError, Global};

// The domain of hours that take few enough basic domains.
fn domain_with(alloc: Global, hours: &Hours) -> Result<Domain, AllocError>
    requires few { hours_cost hours.now ≤ most_basic_domains }
    ensures { IfOk result (λ domain. (s : ℤ) → InDomain domain s ↔ IsOpen hours.now s) }
{
    match domain_of(alloc, hours) {
        Ok(domain) => Ok(domain),
        Err(TranslationFault::NoMemory) => Err(AllocError),
        Err(TranslationFault::TooMany) => unreachable!(),
    }
}

// The domain of a row's hours, if it has some.
fn domain_in(alloc: Global, hours: &Option<RowHours>) -> Result<Option<Domain>, AllocError>
    requires few { IfSome hours.now (λ given. hours_cost given.read.hours ≤ most_basic_domains) }
    ensures { IfOk result (λ domain. IsDomainOf hours.now (option_map domain_tree domain)) }
{
    match hours {
        Some(given) => match domain_with(alloc, &given.read.hours) {
            Ok(domain) => Ok(Some(domain)),
            Err(_) => Err(AllocError),
        },
        None => Ok(None),
    }
}

// Writes the line that a row is translated to, in place of what the buffer held.
fn write_line(alloc: Global, line: &mut Vec<u8>, row: &HoursRow) -> Result<(), AllocError>
    requires few { IsWithin row.now }
    ensures line { OnOk result (IsLineOf row.now line.new.items) }
    ensures short { OnOk result (length line.new.items ≤ 16384) }
{
    let domain = domain_in(alloc, &row.hours)?;
    write_row(
        alloc,
        line,
        row.element,
        row.closed,
        &row.vehicles,
        domain.as_ref(),
    )
}

// Puts the lines that rows are translated to, in their order, after the header line.
fn put_rows<O: Output>(
    alloc: Global,
    output: &mut O,
    progress: &mut Progress,
    line: &mut Vec<u8>,
    rows: &[HoursRow],
) -> Result<(), Stop>
    requires countable { O.failure_count output.old < u64.MAX }
    requires few { length rows.now ≤ most_rows }
    requires within { All IsWithin rows.now }
    requires written { progress.old.written ≤ 34 }
    requires lines { progress.old.lines ≤ 1 }
    ensures puts { PutsRows (map row_line) result (O.taken output.old) (O.taken output.new)
        progress.old progress.new rows.now }
    ensures failures { O.failure_count output.new
        ≡ failures_after_stop result (O.failure_count output.old) }
{
    for row in rows {
        write_line(alloc, line, row)?;
        put_line(output, progress, line.as_slice())?;
    }
    Ok(())
}

/// Puts the record file that rows are translated to, and ends the output.
pub(crate) fn put_records<O: Output>(
    alloc: Global,
    output: &mut O,
    progress: &mut Progress,
    rows: &[HoursRow],
) -> Result<(), Stop>
    requires countable { O.failure_count output.old < u64.MAX }
    requires begins { progress.old ≡ nothing_put }
    requires few { length rows.now ≤ most_rows }
    requires within { All IsWithin rows.now }
    ensures puts { PutsRows migrated result (O.taken output.old) (O.taken output.new)
        progress.old progress.new rows.now }
    ensures ended { OnOk result (IsTrue (O.is_ended output.new)) }
    ensures failures { O.failure_count output.new
        ≡ failures_after_stop result (O.failure_count output.old) }
{
    let mut line = Vec::new(alloc);
    put_line(output, progress, b"element,direction,vehicles,domain\n")?;
    put_rows(alloc, output, progress, &mut line, rows)?;
    finish(output)
}
