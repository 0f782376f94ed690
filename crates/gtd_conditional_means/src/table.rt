//! The text of a table: its header and its rows.

ghost use Rattle.std.specs.Prelude.{◌≡◌, ◌++◌, ◌∷◌, [], ◌↔◌, IfOk, IsTrue, OnOk};
ghost use Rattle.csv.specs.Reading.{default_config, records, strip_bom};
ghost use Rattle.csv.specs.Records.{fields_of};
ghost use Rattle.gtd_conditional_means.specs.Places.{AreOf};
ghost use Rattle.gtd_conditional_means.specs.Table.{AreOfBytes, AreTable, header};
ghost use Rattle.gtd_conditional_means.specs.declared.fault.MeansFault.{MeansFault};

use crate::fault::MeansFault;
use crate::fields::read_row;
use crate::meaning::MeansRow;
use crate::places::Places;
use crate::rows::three_columns;
use csv::ByteRecord;
use gtd_core::limits::MOST_FILE_BYTES;
use gtd_rows::{RowTaker, RowsEnd, take_rows};
use std::alloc::{AllocError, Global};

/// The most rows of a table.
const MOST_TABLE_ROWS: u32 = 4096;

/// The rows that were read, and the faults of the others.
#[derive(Drop)]
pub(crate) struct Found {
    pub(crate) alloc: Global,
    pub(crate) rows: Vec<MeansRow>,
    // Where the names of these rows stand among them, by which a name that comes again is seen.
    pub(crate) places: Places,
    pub(crate) faults: Vec<MeansFault>,
}

impl RowTaker for Found {
    ghost use Rattle.gtd_conditional_means.specs.TakenRows.{Begins, Takes};

    ghost begins = { Begins };

    ghost takes = { Takes };

    fn take_header(&mut self, row: &ByteRecord) -> bool {
        is_header(row)
    }

    fn take_row(&mut self, number: u32, row: &ByteRecord) -> Result<bool, AllocError> {
        if number > MOST_TABLE_ROWS {
            self.faults.push(MeansFault::TooManyRows)?;
            return Ok(false);
        }
        match read_row(self.alloc, number, &self.places, row)? {
            Ok(read) => add_row(self, read)?,
            Err(why) => self.faults.push(why)?,
        }
        Ok(true)
    }
}

// Adds a row that is read.
fn add_row(found: &mut Found, row: MeansRow) -> Result<(), AllocError>
    ensures rows { OnOk result (found.new.rows.items ≡ found.old.rows.items ++ row ∷ []) }
    ensures faults { found.new.faults ≡ found.old.faults }
    ensures placed { OnOk result (AreOf found.old.rows.items found.old.places → AreOf found.new.rows.items found.new.places) }
{
    found.places.put(found.alloc, &row, found.rows.len())?;
    found.rows.push(row)?;
    Ok(())
}

// Nothing found so far.
fn nothing(alloc: Global) -> Found
    ensures rows { result.rows.items ≡ [] }
    ensures placed { AreOf [] result.places }
    ensures faults { result.faults.items ≡ [] }
{
    Found {
        alloc,
        rows: Vec::new(alloc),
        places: Places::none(alloc),
        faults: Vec::new(alloc),
    }
}

// Whether a row is the header.
fn is_header(row: &ByteRecord) -> bool
    ensures { IsTrue result ↔ (fields_of row.now ≡ header) }
{
    let Some(columns) = three_columns(row) else {
        return false;
    };
    columns.kind == b"kind".as_slice()
        && columns.name == b"name".as_slice()
        && columns.means == b"means".as_slice()
}

// A single fault.
fn alone(alloc: Global, why: MeansFault) -> Result<Found, AllocError>
    ensures rows { IfOk result (λ found. found.rows.items ≡ []) }
    ensures placed { IfOk result (λ found. AreOf found.rows.items found.places) }
    ensures faults { IfOk result (λ found. found.faults.items ≡ why ∷ []) }
{
    let mut found = nothing(alloc);
    found.faults.push(why)?;
    Ok(found)
}

// What the records of a table's bytes say, if there are not too many bytes.
fn read_text(alloc: Global, bytes: &[u8]) -> Result<Found, AllocError>
    ensures table { IfOk result
        (λ found. AreTable (records default_config (strip_bom bytes.now)) found.rows.items found.faults.items) }
    ensures placed { IfOk result (λ found. AreOf found.rows.items found.places) }
{
    let mut found = nothing(alloc);
    match take_rows(alloc, bytes, &mut found)? {
        RowsEnd::NoHeader => alone(alloc, MeansFault::Header),
        RowsEnd::All => Ok(found),
        RowsEnd::Stopped => Ok(found),
        RowsEnd::TooMany => Ok(found),
    }
}

/// The rows of a table's bytes that are read, and the faults of the others. `AllocError` is answered only if memory was refused.
pub(crate) fn read_rows(alloc: Global, bytes: &[u8]) -> Result<Found, AllocError>
    ensures table { IfOk result (λ found. AreOfBytes bytes.now found.rows.items found.faults.items) }
    ensures placed { IfOk result (λ found. AreOf found.rows.items found.places) }
{
    if bytes.len() > MOST_FILE_BYTES {
        return alone(alloc, MeansFault::TooLarge);
    }
    read_text(alloc, bytes)
}
