//! The text of a record file: its header and its rows.

ghost use Rattle.std.specs.Prelude.{◌≡◌, ◌≢◌, ◌≤◌, Ok, Err, MatchResult, IfOk, length};
ghost use Rattle.gtd_core.specs.Limits.{most_rows};
ghost use Rattle.csv.specs.Reading.{default_config, strip_bom, records};
ghost use Rattle.gtd_records.specs.ComputedFile.{IsTable};

use crate::fault::RecordFault;
use crate::record::Record;
use crate::row::RowReader;
use csv::ByteRecord;
use gtd_core::limits::MOST_ROWS;
use gtd_rows::{RowTaker, RowsEnd, take_rows};
use std::alloc::{AllocError, Global};

/// The records of the rows that were read, and the fault of the row after them.
#[derive(Drop)]
pub(crate) struct Reading {
    pub(crate) rows: RowReader,
    pub(crate) found: Vec<Record>,
    pub(crate) fault: RecordFault,
}

impl RowTaker for Reading {
    ghost use Rattle.gtd_records.specs.RowTakers.{BeginsReading, Reads};

    ghost begins = { BeginsReading };

    ghost takes = { Reads };

    fn take_header(&mut self, row: &ByteRecord) -> bool {
        self.rows.take_header(row)
    }

    fn take_row(&mut self, number: u32, row: &ByteRecord) -> Result<bool, AllocError> {
        match self.rows.read(number, row) {
            Ok(record) => {
                self.found.push(record)?;
                Ok(true)
            }
            Err(RecordFault::NoMemory) => Err(AllocError),
            Err(why) => {
                self.fault = why;
                Ok(false)
            }
        }
    }
}

// The least bytes that a row takes, with its line end: those of `1,both,0,`.
const SHORTEST_ROW: usize = 10;

// The number of rows for which there has to be room, so that no more is asked for while they are read: at least as many as these
// bytes hold, and no more than a file may have.
fn most_rows_of(bytes: &[u8]) -> usize {
    (bytes.len() / SHORTEST_ROW + 1).min(MOST_ROWS as usize)
}

// The records of a file's bytes, or its first fault.
pub(crate) fn read_table(alloc: Global, bytes: &[u8]) -> Result<Vec<Record>, RecordFault>
    ensures few { IfOk result (λ found. length found.items ≤ most_rows) }
    ensures table { MatchResult result
        (λ found. IsTable (records default_config (strip_bom bytes.now)) (Ok found.items))
        (λ why. why ≢ RecordFault.NoMemory → IsTable (records default_config (strip_bom bytes.now)) (Err why)) }
{
    let mut reading = Reading {
        rows: RowReader::new(alloc),
        found: Vec::with_capacity(alloc, most_rows_of(bytes))?,
        fault: RecordFault::Header,
    };
    match take_rows(alloc, bytes, &mut reading)? {
        RowsEnd::NoHeader => Err(RecordFault::Header),
        RowsEnd::All => Ok(reading.found),
        RowsEnd::Stopped => Err(reading.fault),
        RowsEnd::TooMany => Err(RecordFault::TooManyRows),
    }
}
