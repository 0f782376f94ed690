//! The rows of a record file.

ghost use Rattle.std.specs.Prelude.{◌≡◌, ◌≢◌, MatchOption, Err};
ghost use Rattle.csv.specs.Records.{fields_of};
ghost use Rattle.gtd_records.specs.ComputedRow.{IsRow, IsDomainRead};
ghost use Rattle.gtd_records.specs.File.{header};
ghost use Rattle.gtd_records.specs.RowTakers.{IsHeader};
ghost use Rattle.gtd_rows.specs.declared.vehicles.Version.{Version};

use crate::fault::RecordFault;
use crate::known::KnownTexts;
use crate::record::Record;
use crate::shared::SharedDomain;
use csv::ByteRecord;
use gtd_core::Fault;
use gtd_rows::{Version, four_columns, read_closed, read_number, read_vehicles};
use std::alloc::Global;

// The version that a row is the header of.
fn version_of(row: &ByteRecord) -> Option<Version>
    ensures { MatchOption result ((v : Version) → fields_of row.now ≢ header v) (λ v. fields_of row.now ≡ header v) }
{
    let Some(columns) = four_columns(row) else {
        return None;
    };
    if columns.element != b"element".as_slice() {
        return None;
    }
    if columns.closed != b"direction".as_slice() {
        return None;
    }
    if columns.last != b"domain".as_slice() {
        return None;
    }
    if columns.vehicles == b"vehicle".as_slice() {
        Some(Version::One)
    } else if columns.vehicles == b"vehicles".as_slice() {
        Some(Version::Two)
    } else {
        None
    }
}

// The domain of a row's last column, which may be empty, or its fault in the row with this number.
fn read_last(
    alloc: Global,
    known: &mut KnownTexts,
    number: u32,
    text: &[u8],
) -> Result<Option<SharedDomain>, RecordFault>
    ensures { result ≢ Err RecordFault.NoMemory → IsDomainRead number text.now result }
{
    if text.is_empty() {
        known.latest = 0;
        return Ok(None);
    }
    match known.read(alloc, text) {
        Ok(domain) => Ok(Some(domain)),
        Err(fault) => match fault.kind {
            Fault::NoMemory => Err(RecordFault::NoMemory),
            _ => Err(RecordFault::Domain { row: number, fault }),
        },
    }
}

// The record that a row of a file stands for, or its first fault from the left.
fn read_row(
    alloc: Global,
    known: &mut KnownTexts,
    version: Version,
    number: u32,
    row: &ByteRecord,
) -> Result<Record, RecordFault>
    ensures { result ≢ Err RecordFault.NoMemory → IsRow version number (fields_of row.now) result }
{
    let Some(columns) = four_columns(row) else {
        return Err(RecordFault::FieldCount { row: number });
    };
    let Some(element) = read_number(columns.element) else {
        return Err(RecordFault::Element { row: number });
    };
    let Some(closed) = read_closed(columns.closed) else {
        return Err(RecordFault::Direction { row: number });
    };
    let Some(vehicles) = read_vehicles(alloc, version, columns.vehicles)? else {
        return Err(RecordFault::Vehicle { row: number });
    };
    let domain = read_last(alloc, known, number, columns.last)?;
    Ok(Record {
        element,
        closed,
        vehicles,
        domain,
        text_hash: known.latest,
    })
}

/// What reads the rows of a record file: its version, and the texts of domains that it repeats.
#[derive(Drop)]
pub struct RowReader {
    alloc: Global,
    known: KnownTexts,
    /// The version of the header that was taken.
    pub version: Version,
}

impl RowReader {
    /// A reader of rows, before their header. Takes no memory.
    pub fn new(alloc: Global) -> RowReader {
        RowReader {
            alloc,
            known: KnownTexts::new(alloc),
            version: Version::One,
        }
    }

    /// Whether a row is a header. If it is, the rows are read as those of its version.
    pub fn take_header(&mut self, row: &ByteRecord) -> bool
        ensures header { IsHeader (fields_of row.now) self.new.version result }
    {
        match version_of(row) {
            Some(version) => {
                self.version = version;
                true
            }
            None => false,
        }
    }

    /// The record that the row with this number stands for, or its first fault from the left. `NoMemory` is answered only if
    /// memory was refused.
    pub fn read(&mut self, number: u32, row: &ByteRecord) -> Result<Record, RecordFault>
        ensures read { result ≢ Err RecordFault.NoMemory → IsRow self.old.version number (fields_of row.now) result }
        ensures version { self.new.version ≡ self.old.version }
    {
        read_row(self.alloc, &mut self.known, self.version, number, row)
    }
}
