//! What a file of hours says: its sound rows, and all its faults.

ghost use Rattle.std.specs.Prelude.{◌≡◌, ◌++◌, [], ◌∷◌, Result, IfOk, IsTrue, OnOk, ◌↔◌};
ghost use Rattle.csv.specs.Reading.{default_config, records, strip_bom};
ghost use Rattle.csv.specs.Records.{fields_of};
ghost use Rattle.gtd_hours_options.specs.Readings.{how_read};
ghost use Rattle.gtd_hours_file.specs.HoursFile.{AreOfFile, AreTable, IsRow, faults_of, header, sound_of};
ghost use Rattle.gtd_hours_file.specs.declared.fault.HoursFileFault.{HoursFileFault};
ghost use Rattle.gtd_hours_file.specs.declared.row.HoursRow.{HoursRow};

use crate::fault::HoursFileFault;
use crate::row::{HoursRow, RowStop, read_row};
use csv::ByteRecord;
use gtd_core::limits::MOST_FILE_BYTES;
use gtd_hours_options::HoursReading;
use gtd_rows::{RowTaker, RowsEnd, four_columns, take_rows};
use std::alloc::{AllocError, Global};

/// What the rows of a file say.
#[derive(Drop)]
pub(crate) struct Found {
    /// The rows that are sound.
    pub(crate) sound: Vec<HoursRow>,
    /// The faults of the others.
    pub(crate) faults: Vec<HoursFileFault>,
}

// Nothing yet.
fn nothing(alloc: Global) -> Found
    ensures sound { result.sound.items ≡ [] }
    ensures faults { result.faults.items ≡ [] }
{
    Found {
        sound: Vec::new(alloc),
        faults: Vec::new(alloc),
    }
}

// A single fault.
fn alone(alloc: Global, why: HoursFileFault) -> Result<Found, AllocError>
    ensures sound { IfOk result (λ found. found.sound.items ≡ []) }
    ensures faults { IfOk result (λ found. found.faults.items ≡ why ∷ []) }
{
    let mut found = nothing(alloc);
    found.faults.push(why)?;
    Ok(found)
}

// Adds what the row with this number says.
fn add_row(
    alloc: Global,
    found: &mut Found,
    number: u32,
    row: &ByteRecord,
    reading: HoursReading<'_>,
) -> Result<(), AllocError>
    ensures { OnOk result ((answer : Result HoursRow HoursFileFault)
        × IsRow (how_read reading.entry) number (fields_of row.now) answer
        × (found.new.sound.items ≡ found.old.sound.items ++ sound_of answer)
        × (found.new.faults.items ≡ found.old.faults.items ++ faults_of answer)) }
{
    match read_row(alloc, number, row, reading) {
        Ok(read) => found.sound.push(read)?,
        Err(RowStop::Fault(why)) => found.faults.push(why)?,
        Err(RowStop::NoMemory) => return Err(AllocError),
    }
    Ok(())
}

// Whether a row is the header.
fn is_header(row: &ByteRecord) -> bool
    ensures { IsTrue result ↔ (fields_of row.now ≡ header) }
{
    let Some(columns) = four_columns(row) else {
        return false;
    };
    columns.element == b"element".as_slice()
        && columns.closed == b"direction".as_slice()
        && columns.vehicles == b"vehicles".as_slice()
        && columns.last == b"hours".as_slice()
}

/// What the rows say that were read.
#[derive(Drop)]
pub(crate) struct Reading<'a> {
    alloc: Global,
    pub(crate) by: HoursReading<'a>,
    pub(crate) found: Found,
}

impl RowTaker for Reading<'_> {
    ghost use Rattle.gtd_hours_file.specs.TakenRows.{BeginsReading, TakesRow};

    ghost begins = { BeginsReading };

    ghost takes = { TakesRow };

    fn take_header(&mut self, row: &ByteRecord) -> bool {
        is_header(row)
    }

    fn take_row(&mut self, number: u32, row: &ByteRecord) -> Result<bool, AllocError> {
        add_row(self.alloc, &mut self.found, number, row, self.by)?;
        Ok(true)
    }
}

// What the records of a file's bytes say, if there are not too many bytes.
fn read_table(alloc: Global, bytes: &[u8], by: HoursReading<'_>) -> Result<Found, AllocError>
    ensures { IfOk result (λ found.
        AreTable (how_read by.entry) (records default_config (strip_bom bytes.now)) found.sound.items found.faults.items) }
{
    let mut reading = Reading {
        alloc,
        by,
        found: nothing(alloc),
    };
    match take_rows(alloc, bytes, &mut reading)? {
        RowsEnd::NoHeader => alone(alloc, HoursFileFault::Header),
        RowsEnd::All => Ok(reading.found),
        RowsEnd::Stopped => Ok(reading.found),
        RowsEnd::TooMany => {
            reading.found.faults.push(HoursFileFault::TooManyRows)?;
            Ok(reading.found)
        }
    }
}

/// What a file with these bytes says, whose hours are read so.
pub(crate) fn read_file(
    alloc: Global,
    bytes: &[u8],
    by: HoursReading<'_>,
) -> Result<Found, AllocError>
    ensures { IfOk result (λ found. AreOfFile (how_read by.entry) bytes.now found.sound.items found.faults.items) }
{
    if bytes.len() > MOST_FILE_BYTES {
        return alone(alloc, HoursFileFault::TooLarge);
    }
    read_table(alloc, bytes, by)
}
