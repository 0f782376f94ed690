//! The text of a file of tags: its header and its rows.

ghost use Rattle.std.specs.Prelude.{◌≡◌, ◌∷◌, [], ◌↔◌, Some, Ok, IfOk, IsTrue, OnOk, map};
ghost use Rattle.csv.specs.Reading.{default_config, records, strip_bom};
ghost use Rattle.csv.specs.Records.{fields_of};
ghost use Rattle.gtd_conditional_tags.specs.File.{AreOfBytes, AreTable, header};
ghost use Rattle.gtd_conditional_tags.specs.Rows.{said_by, said_in, unless_repeated};
ghost use Rattle.gtd_conditional_tags.specs.TakenRows.{Adds, AreSeen};

use crate::columns::three_columns;
use crate::fault::TagsFault;
use crate::row::{Tag, TagRow, read_row, tag_of};
use csv::ByteRecord;
use gtd_conditional_means::Means;
use gtd_core::limits::MOST_FILE_BYTES;
use gtd_rows::{RowTaker, RowsEnd, take_rows};
use std::alloc::{AllocError, Global};
use std::collections::BTreeSet;

/// The tags that were read, and the faults of the other rows.
#[derive(Drop)]
pub(crate) struct Found {
    pub(crate) tags: Vec<Tag>,
    pub(crate) faults: Vec<TagsFault>,
}

/// What is read of rows, by a table of means. Of each tag it keeps the element and the key, as numbers of the mode and the form.
#[derive(Drop)]
pub(crate) struct Reading<'a> {
    alloc: Global,
    means: &'a Means,
    seen: BTreeSet<(u64, usize, u8)>,
    found: Found,
}

impl Reading<'_> {
    // Adds a tag, or the fault that an earlier one of its element has its key.
    fn take_tag(&mut self, tag: TagRow<'_>) -> Result<(), AllocError>
        ensures { AreSeen self.old.seen (map said_by self.old.found.tags.items) → OnOk result (Adds self.old self.new
            (unless_repeated (map said_by self.old.found.tags.items) (Ok (Some (said_in tag.entry))))) }
    {
        if !self
            .seen
            .insert((tag.element, tag.key.mode, tag.key.form()))?
        {
            self.found
                .faults
                .push(TagsFault::Repeated { row: tag.row })?;
            return Ok(());
        }
        let read = tag_of(self.alloc, tag)?;
        self.found.tags.push(read)?;
        Ok(())
    }
}

impl RowTaker for Reading<'_> {
    ghost use Rattle.gtd_conditional_tags.specs.TakenRows.{Begins, Takes};

    ghost begins = { Begins };

    ghost takes = { Takes };

    fn take_header(&mut self, row: &ByteRecord) -> bool {
        is_header(row)
    }

    fn take_row(&mut self, number: u32, row: &ByteRecord) -> Result<bool, AllocError> {
        match read_row(self.means, number, row) {
            Err(why) => {
                self.found.faults.push(why)?;
                Ok(true)
            }
            Ok(None) => Ok(true),
            Ok(Some(tag)) => {
                self.take_tag(tag)?;
                Ok(true)
            }
        }
    }
}

// Whether a row is the header.
fn is_header(row: &ByteRecord) -> bool
    ensures { IsTrue result ↔ (fields_of row.now ≡ header) }
{
    let Some(columns) = three_columns(row) else {
        return false;
    };
    columns.element == b"element".as_slice()
        && columns.key == b"key".as_slice()
        && columns.value == b"value".as_slice()
}

// A single fault.
fn alone(alloc: Global, why: TagsFault) -> Result<Found, AllocError>
    ensures tags { IfOk result (λ found. found.tags.items ≡ []) }
    ensures faults { IfOk result (λ found. found.faults.items ≡ why ∷ []) }
{
    let mut faults = Vec::new(alloc);
    faults.push(why)?;
    Ok(Found {
        tags: Vec::new(alloc),
        faults,
    })
}

// What the records of a file's bytes say, if there are not too many bytes.
fn read_text(alloc: Global, means: &Means, bytes: &[u8]) -> Result<Found, AllocError>
    ensures { IfOk result (λ found.
        AreTable means.now.rows.items (records default_config (strip_bom bytes.now)) found.tags.items found.faults.items) }
{
    let mut reading = Reading {
        alloc,
        means,
        seen: BTreeSet::new(alloc),
        found: Found {
            tags: Vec::new(alloc),
            faults: Vec::new(alloc),
        },
    };
    match take_rows(alloc, bytes, &mut reading)? {
        RowsEnd::NoHeader => alone(alloc, TagsFault::Header),
        RowsEnd::All => Ok(reading.found),
        RowsEnd::Stopped => Ok(reading.found),
        RowsEnd::TooMany => {
            reading.found.faults.push(TagsFault::TooManyRows)?;
            Ok(reading.found)
        }
    }
}

/// The tags of a file's bytes, and all its faults. `AllocError` is answered only if memory was refused.
pub(crate) fn read_bytes(alloc: Global, means: &Means, bytes: &[u8]) -> Result<Found, AllocError>
    ensures { IfOk result (λ found. AreOfBytes means.now.rows.items bytes.now found.tags.items found.faults.items) }
{
    if bytes.len() > MOST_FILE_BYTES {
        return alone(alloc, TagsFault::TooLarge);
    }
    read_text(alloc, means, bytes)
}
