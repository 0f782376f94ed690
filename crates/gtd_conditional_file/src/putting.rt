//! The record file of rows of elements.

ghost use Rattle.std.specs.Prelude.{◌≡◌, ◌<◌, ◌≤◌, length, map, IsTrue, OnOk};
ghost use Rattle.gtd_migrate.specs.Migrated.{migrated, row_line};
ghost use Rattle.gtd_report.specs.Putting.{failures_after_stop, nothing_put};
ghost use Rattle.gtd_conditional_file.specs.Records.{IsLineOf, PutsRows};

use crate::vehicles::vehicles_of;
use gtd_conditional_elements::ElementRow;
use gtd_devices::Output;
use gtd_migrate::write_row;
use gtd_report::{Progress, Stop, finish, put_line};
use std::alloc::{AllocError, Global};

// Writes the line of a row, in place of what the buffer held.
fn write_line(alloc: Global, line: &mut Vec<u8>, row: &ElementRow) -> Result<(), AllocError>
    ensures line { OnOk result (IsLineOf row.now line.new.items) }
    ensures short { OnOk result (length line.new.items ≤ 16384) }
{
    let vehicles = vehicles_of(alloc, &row.row.types)?;
    write_row(
        alloc,
        line,
        row.element,
        row.row.closed,
        &vehicles,
        row.row.domain.as_ref(),
    )
}

// Puts the lines of rows, in their order, after the header line.
fn put_rows<O: Output>(
    alloc: Global,
    output: &mut O,
    progress: &mut Progress,
    line: &mut Vec<u8>,
    rows: &[ElementRow],
) -> Result<(), Stop>
    requires countable { O.failure_count output.old < u64.MAX }
    requires few { length rows.now ≤ 4294967295 }
    requires written { progress.old.written ≤ 34 }
    requires lines { progress.old.lines ≤ 1 }
    ensures puts { PutsRows (map row_line) result (O.taken output.old) (O.taken output.new)
        progress.old progress.new rows.now }
    ensures failures { O.failure_count output.new
        ≡ failures_after_stop result (O.failure_count output.old) }
{
    for row in rows {
        write_line(alloc, line, row)?;
        put_line(output, progress, line.as_slice())?;
    }
    Ok(())
}

/// Puts the record file of these rows, and ends the output.
pub(crate) fn put_records<O: Output>(
    alloc: Global,
    output: &mut O,
    progress: &mut Progress,
    rows: &[ElementRow],
) -> Result<(), Stop>
    requires countable { O.failure_count output.old < u64.MAX }
    requires begins { progress.old ≡ nothing_put }
    requires few { length rows.now ≤ 4294967295 }
    ensures puts { PutsRows migrated result (O.taken output.old) (O.taken output.new)
        progress.old progress.new rows.now }
    ensures ended { OnOk result (IsTrue (O.is_ended output.new)) }
    ensures failures { O.failure_count output.new
        ≡ failures_after_stop result (O.failure_count output.old) }
{
    let mut line = Vec::new(alloc);
    put_line(output, progress, b"element,direction,vehicles,domain\n")?;
    put_rows(alloc, output, progress, &mut line, rows)?;
    finish(output)
}
