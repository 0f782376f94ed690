//! The rows of a file, one after another.

ghost use Rattle.std.specs.Prelude.{◌≡◌, ℕ, Bool, List, Some, IfOk, OnOk, OnErr};
ghost use Rattle.csv.specs.Records.{fields_of};
ghost use Rattle.csv.specs.Reading.{default_config, strip_bom, records};
ghost use Rattle.gtd_rows.specs.Columns.{Fields};
ghost use Rattle.gtd_rows.specs.Table.{HasLeft, TakesFirst};
ghost use Rattle.gtd_rows.specs.Taking.{AreTableTaken, AreTaken};

use csv::{ByteRecord, Reader, ReaderBuilder};
use gtd_core::limits::MOST_ROWS;
use std::alloc::{AllocError, Global};

/// What is done with the rows of a file, one after another.
pub trait RowTaker {
    /// What the first record makes of it, and whether that is a header.
    ghost begins: { Self → Fields → Self → Bool → Type 0 };

    /// What the row with a number makes of it, and whether it asks for the next one.
    ghost takes: { Self → ℕ → Fields → Self → Bool → Type 0 };

    /// Takes the first record, and says whether it is a header.
    fn take_header(&mut self, row: &ByteRecord) -> bool
        ensures header { begins self.old (fields_of row.now) self.new result };

    /// Takes the row with this number, from 1 on, and says whether it asks for the next one. `AllocError` is answered only if
    /// memory was refused.
    fn take_row(&mut self, number: u32, row: &ByteRecord) -> Result<bool, AllocError>
        ensures row { IfOk result (takes self.old number (fields_of row.now) self.new) };
}

/// How the rows of a file ended.
#[derive(Clone, Copy, Debug, PartialEq, Eq)]
pub enum RowsEnd {
    /// There is no record, or the first is no header.
    NoHeader,
    /// All rows were taken.
    All,
    /// A row asked for no more.
    Stopped,
    /// As many rows as a file may have were taken, and there is one more.
    TooMany,
}

/// A reader of the records of a text without a header row, of any lengths, with their fields unchanged.
pub fn table<'a>(alloc: Global, text: &'a [u8]) -> Reader<&'a [u8]>
    ensures { HasLeft (λ source. Some source.now) result (records default_config (strip_bom text.now)) }
{
    ReaderBuilder::new()
        .has_headers(false)
        .flexible(true)
        .from_reader(alloc, text)
}

/// Takes the next record, and says whether there was one. Over bytes in memory, the reader's only errors are refusals
/// of memory.
pub fn next_row(reader: &mut Reader<&[u8]>, row: &mut ByteRecord) -> Result<bool, AllocError>
    ensures { IfOk result
        (λ found. TakesFirst (λ source. Some source.now) reader.old reader.new found (fields_of row.new)) }
{
    let Ok(found) = reader.read_byte_record(row) else {
        return Err(AllocError);
    };
    Ok(found)
}

// Hands on the rows that a reader still has to give, of no more than a file may have.
fn take_rest<T: RowTaker>(
    reader: &mut Reader<&[u8]>,
    row: &mut ByteRecord,
    taker: &mut T,
) -> Result<RowsEnd, AllocError>
    ensures rows { (rows : List Fields) → HasLeft (λ source. Some source.now) reader.old rows
        → IfOk result (AreTaken T.takes rows taker.old taker.new) }
{
    for number in 1..MOST_ROWS + 1 {
        if !next_row(reader, row)? {
            return Ok(RowsEnd::All);
        }
        if !taker.take_row(number, row)? {
            return Ok(RowsEnd::Stopped);
        }
    }
    if next_row(reader, row)? {
        return Ok(RowsEnd::TooMany);
    }
    Ok(RowsEnd::All)
}

/// Hands the records of a file's bytes to a taker: the first as a header, and if it is one, the others as rows, with their
/// numbers from 1 on. No more than 65,536 rows are taken, and none after one that asks for no more. `AllocError` is answered
/// only if memory was refused.
pub fn take_rows<T: RowTaker>(
    alloc: Global,
    bytes: &[u8],
    taker: &mut T,
) -> Result<RowsEnd, AllocError>
    ensures taken { IfOk result
        (AreTableTaken T.begins T.takes (records default_config (strip_bom bytes.now)) taker.old taker.new) }
{
    let mut reader = table(alloc, bytes);
    let mut row = ByteRecord::new(alloc);
    if !next_row(&mut reader, &mut row)? {
        return Ok(RowsEnd::NoHeader);
    }
    if !taker.take_header(&row) {
        return Ok(RowsEnd::NoHeader);
    }
    take_rest(&mut reader, &mut row, taker)
}
