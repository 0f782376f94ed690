//! What is listed of a file: its rows are read once.

ghost use Rattle.std.specs.Prelude.{◌≡◌, ◌≤◌, ◌+◌, ◌++◌, ◌∷◌, [], ℕ, List, Option, None, Ok, IfOk, IsTrue, OnOk, length};
ghost use Rattle.std.specs.Prelude.{string_bytes};
ghost use Rattle.csv.specs.Records.{fields_of};
ghost use Rattle.gtd_core.specs.Limits.{most_file_bytes};
ghost use Rattle.gtd_records.specs.Closing.{Restriction};
ghost use Rattle.gtd_rows.specs.Columns.{Fields};
ghost use Rattle.gtd_records.specs.ComputedRow.{IsRow};
ghost use Rattle.gtd_rows.specs.declared.vehicles.Version.{Version};
ghost use Rattle.gtd_warnings.specs.declared.file.Asked.{Asked};
ghost use Rattle.gtd_lines.specs.Cut.{IsPlace};
ghost use Rattle.gtd_faults.specs.ListedRows.{AreDoubtedIfAsked, AreDoubtsIfAsked, AreFaulted, AreListed, HasEnded};
ghost use Rattle.gtd_faults.specs.Listing.{IsList};
ghost use Rattle.gtd_faults.specs.Standing.{IsRowOf};

use crate::doubts::DoubtLines;
use crate::lines::FaultLines;
use crate::row::Row;
use csv::ByteRecord;
use gtd_core::limits::MOST_ROWS;
use gtd_lines::Place;
use gtd_records::{Record, RecordFault, RowReader};
use gtd_rows::{RowTaker, RowsEnd, Version, take_rows};
use gtd_warnings::Asked;
use std::alloc::{AllocError, Global};

/// What is listed of the rows so far.
#[derive(Drop)]
pub(crate) struct Listing<'a> {
    bytes: &'a [u8],
    // Where the last row begins of which a line was listed, or the header, and its number.
    place: Place,
    reached: u32,
    rows: RowReader,
    faults: FaultLines<'a>,
    doubts: Option<DoubtLines<'a>>,
}

// What the row with this number stands for, or its fault.
fn read_row(
    rows: &mut RowReader,
    number: u32,
    row: &ByteRecord,
) -> Result<Result<Record, RecordFault>, AllocError>
    ensures version { rows.new.version ≡ rows.old.version }
    ensures read { IfOk result (λ read. IsRow rows.old.version number (fields_of row.now) read) }
{
    match rows.read(number, row) {
        Ok(found) => Ok(Ok(found)),
        Err(RecordFault::NoMemory) => Err(AllocError),
        Err(why) => Ok(Err(why)),
    }
}

// Lists the fault of this row, if it has one.
fn take_fault(
    lines: &mut FaultLines<'_>,
    row: &Row<'_>,
    read: &Result<Record, RecordFault>,
) -> Result<(), AllocError>
    ensures { (path bytes : List ℕ) (version : Version) (before : List Fields) → IsRowOf bytes row.now
        → row.now.number ≡ length before + 1 → IsRow version row.now.number (fields_of row.now.fields.now) read.now
        → AreFaulted path bytes version before lines.old
        → OnOk result (AreFaulted path bytes version (before ++ fields_of row.now.fields.now ∷ []) lines.new) }
{
    match read {
        Err(why) => {
            lines.add_of_row(row, *why)?;
            Ok(())
        }
        Ok(_) => Ok(()),
    }
}

// Lists the warnings of this row, if they are asked for.
fn take_doubts(
    doubts: &mut Option<DoubtLines<'_>>,
    version: Version,
    row: &Row<'_>,
    read: &Result<Record, RecordFault>,
) -> Result<(), AllocError>
    ensures { (path bytes : List ℕ) (asked : Option Asked) (before : List Fields) → IsRowOf bytes row.now
        → row.now.number ≡ length before + 1 → IsRow version row.now.number (fields_of row.now.fields.now) read.now
        → AreDoubtedIfAsked path asked bytes version before doubts.old
        → OnOk result (AreDoubtedIfAsked path asked bytes version (before ++ fields_of row.now.fields.now ∷ []) doubts.new) }
{
    match doubts {
        Some(lines) => {
            lines.take(version, row, read)?;
            Ok(())
        }
        None => Ok(()),
    }
}

// Whether no line is listed of a row: it was read as a record, and warnings are not asked for.
fn is_unlisted(read: &Result<Record, RecordFault>, doubts: &Option<DoubtLines<'_>>) -> bool
    ensures sound { IsTrue result → (r : Restriction) × (read.now ≡ Ok r) }
    ensures unasked { IsTrue result → doubts.now ≡ None }
{
    match read {
        Ok(_) => doubts.is_none(),
        Err(_) => false,
    }
}

// The place of the row with the one number, from that of the row with the other.
fn walked(bytes: &[u8], place: Place, from: u32, to: u32) -> Place
    ensures { from ≤ to → IsPlace bytes.now from place → IsPlace bytes.now to result }
{
    let mut here = place;
    for _ in from..to {
        here = here.next(bytes);
    }
    here
}

impl RowTaker for Listing<'_> {
    ghost use Rattle.gtd_faults.specs.ListedRows.{BeginsListing, TakesRow};

    ghost begins = { BeginsListing };

    ghost takes = { TakesRow };

    fn take_header(&mut self, row: &ByteRecord) -> bool {
        self.rows.take_header(row)
    }

    fn take_row(&mut self, number: u32, row: &ByteRecord) -> Result<bool, AllocError> {
        let read = read_row(&mut self.rows, number, row)?;
        if is_unlisted(&read, &self.doubts) {
            return Ok(true);
        }
        self.place = walked(self.bytes, self.place, self.reached, number);
        self.reached = number;
        let here = Row {
            bytes: self.bytes,
            number,
            place: self.place,
            fields: row,
        };
        take_fault(&mut self.faults, &here, &read)?;
        take_doubts(&mut self.doubts, self.rows.version, &here, &read)?;
        Ok(true)
    }
}

// The lines of warnings before the first row, if they are asked for.
fn no_doubts<'a>(
    alloc: Global,
    path: &'a str,
    asked: &'a Option<Asked>,
) -> Result<Option<DoubtLines<'a>>, AllocError>
    ensures { (bytes : List ℕ) (version : Version)
        → IfOk result (AreDoubtedIfAsked path.now asked.now bytes version []) }
{
    match asked {
        Some(asked) => Ok(Some(DoubtLines::new(alloc, path, asked)?)),
        None => Ok(None),
    }
}

// What is listed before the first row.
fn nothing_listed<'a>(
    alloc: Global,
    path: &'a str,
    bytes: &'a [u8],
    asked: &'a Option<Asked>,
) -> Result<Listing<'a>, AllocError>
    ensures { (version : Version) → IfOk result (AreListed path.now asked.now bytes.now version []) }
{
    let doubts = no_doubts(alloc, path, asked)?;
    Ok(Listing {
        bytes,
        place: Place::first(bytes),
        reached: 0,
        rows: RowReader::new(alloc),
        faults: FaultLines::new(alloc, path),
        doubts,
    })
}

// Appends the lines of the warnings of all rows, if they are asked for.
fn push_doubts(text: &mut String, doubts: &mut Option<DoubtLines<'_>>) -> Result<(), AllocError>
    ensures { (path bytes : List ℕ) (asked : Option Asked) (version : Version) (rows : List Fields)
        → AreDoubtedIfAsked path asked bytes version rows doubts.old
        → OnOk result ((last : List ℕ) × AreDoubtsIfAsked path asked bytes version rows last
        × (string_bytes text.new ≡ string_bytes text.old ++ last)) }
{
    match doubts {
        Some(lines) => {
            lines.end()?;
            text.push_str(lines.text.as_str())?;
            Ok(())
        }
        None => Ok(()),
    }
}

// Adds the fault that ends a file's rows, if one does: it has no header, or a row too many. The place is that of the row with the
// number that was reached.
fn end_faults(
    lines: &mut FaultLines<'_>,
    bytes: &[u8],
    place: Place,
    reached: u32,
    end: RowsEnd,
) -> Result<(), AllocError>
    ensures { OnOk result (HasEnded bytes.now place reached end lines.old lines.new) }
{
    match end {
        RowsEnd::NoHeader => lines.add_header(bytes),
        RowsEnd::TooMany => {
            let last = walked(bytes, place, reached, MOST_ROWS);
            lines.add_too_many(last.next(bytes).line)?;
            Ok(())
        }
        RowsEnd::All => Ok(()),
        RowsEnd::Stopped => Ok(()),
    }
}

/// The faults of a file with this path and these bytes, of which there are not too many, and the lines of its list, with its
/// warnings if they are asked for. The rows are read once. `AllocError` is answered only if memory was refused.
pub(crate) fn list_of<'a>(
    alloc: Global,
    path: &'a str,
    bytes: &'a [u8],
    asked: &'a Option<Asked>,
) -> Result<FaultLines<'a>, AllocError>
    requires few { length bytes.now ≤ most_file_bytes }
    ensures { IfOk result (λ list. IsList path.now bytes.now asked.now (length list.faults.items) (string_bytes list.text)) }
{
    let mut listing = nothing_listed(alloc, path, bytes, asked)?;
    let end = take_rows(alloc, bytes, &mut listing)?;
    let mut lines = listing.faults;
    let mut doubts = listing.doubts;
    end_faults(&mut lines, bytes, listing.place, listing.reached, end)?;
    push_doubts(&mut lines.text, &mut doubts)?;
    Ok(lines)
}
