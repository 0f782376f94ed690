//! The text of a table: its header and its rows.

ghost use Rattle.std.specs.Prelude.{◌≡◌, ◌∷◌, [], ◌↔◌, IfOk, IsTrue};
ghost use Rattle.csv.specs.Reading.{default_config, records, strip_bom};
ghost use Rattle.csv.specs.Records.{fields_of};
ghost use Rattle.gtd_hours_holidays.specs.Table.{AreOfBytes, AreTable, header};
ghost use Rattle.gtd_hours_holidays.specs.declared.fault.HolidaysFault.{HolidaysFault};

use crate::fault::HolidaysFault;
use crate::fields::read_row;
use crate::row::HolidayRow;
use csv::ByteRecord;
use gtd_core::limits::MOST_FILE_BYTES;
use gtd_rows::{RowTaker, RowsEnd, four_columns, take_rows};
use std::alloc::{AllocError, Global};

/// The most rows of a table.
const MOST_TABLE_ROWS: u32 = 4096;

/// The rows that were read, and the faults of the others.
#[derive(Drop)]
pub(crate) struct Found {
    pub(crate) rows: Vec<HolidayRow>,
    pub(crate) faults: Vec<HolidaysFault>,
}

impl RowTaker for Found {
    ghost use Rattle.gtd_hours_holidays.specs.TakenRows.{Begins, Takes};

    ghost begins = { Begins };

    ghost takes = { Takes };

    fn take_header(&mut self, row: &ByteRecord) -> bool {
        is_header(row)
    }

    fn take_row(&mut self, number: u32, row: &ByteRecord) -> Result<bool, AllocError> {
        if number > MOST_TABLE_ROWS {
            self.faults.push(HolidaysFault::TooManyRows)?;
            return Ok(false);
        }
        match read_row(number, row) {
            Ok(read) => self.rows.push(read)?,
            Err(why) => self.faults.push(why)?,
        }
        Ok(true)
    }
}

// Whether a row is the header.
fn is_header(row: &ByteRecord) -> bool
    ensures { IsTrue result ↔ (fields_of row.now ≡ header) }
{
    let Some(columns) = four_columns(row) else {
        return false;
    };
    columns.element == b"first".as_slice()
        && columns.closed == b"last".as_slice()
        && columns.vehicles == b"kind".as_slice()
        && columns.last == b"name".as_slice()
}

// A single fault.
fn alone(alloc: Global, why: HolidaysFault) -> Result<Found, AllocError>
    ensures rows { IfOk result (λ found. found.rows.items ≡ []) }
    ensures faults { IfOk result (λ found. found.faults.items ≡ why ∷ []) }
{
    let mut faults = Vec::new(alloc);
    faults.push(why)?;
    Ok(Found {
        rows: Vec::new(alloc),
        faults,
    })
}

// What the records of a table's bytes say, if there are not too many bytes.
fn read_text(alloc: Global, bytes: &[u8]) -> Result<Found, AllocError>
    ensures { IfOk result
        (λ found. AreTable (records default_config (strip_bom bytes.now)) found.rows.items found.faults.items) }
{
    let mut found = Found {
        rows: Vec::new(alloc),
        faults: Vec::new(alloc),
    };
    match take_rows(alloc, bytes, &mut found)? {
        RowsEnd::NoHeader => alone(alloc, HolidaysFault::Header),
        RowsEnd::All => Ok(found),
        RowsEnd::Stopped => Ok(found),
        RowsEnd::TooMany => Ok(found),
    }
}

/// The rows of a table's bytes that are read, and the faults of the others. `AllocError` is answered only if memory was refused.
pub(crate) fn read_rows(alloc: Global, bytes: &[u8]) -> Result<Found, AllocError>
    ensures { IfOk result (λ found. AreOfBytes bytes.now found.rows.items found.faults.items) }
{
    if bytes.len() > MOST_FILE_BYTES {
        return alone(alloc, HolidaysFault::TooLarge);
    }
    read_text(alloc, bytes)
}
