//! The rows of a text, mended one after the other.

ghost use Rattle.std.specs.Prelude.{◌≡◌, ◌≤◌, ◌++◌, ℕ, [], ◌∷◌, List, OnOk, IfOk, length};
ghost use Rattle.csv.specs.Records.{fields_of};
ghost use Rattle.gtd_mend.specs.Reading.{AreRead, ReadRow, separated_by};
ghost use Rattle.gtd_mend.specs.Standing.{Holds};
ghost use Rattle.gtd_mend.specs.declared.separator.Separator as separators;

use crate::cut::{line_feeds, read_row};
use crate::listing::Listing;
use crate::print::push_row;
use crate::row::mend_row;
use crate::separator::Separator;
use csv::ByteRecord;
use std::alloc::{AllocError, Global};

// The rows so far: their text as it is mended, with commas, and as they are, with their own separators; and their changes.
#[derive(Drop)]
pub(crate) struct Table<'a> {
    pub(crate) separator: Separator,
    // Whether there is no row yet.
    pub(crate) empty: bool,
    pub(crate) mended: Vec<u8>,
    pub(crate) written: Vec<u8>,
    pub(crate) listing: Listing<'a>,
}

impl<'a> Table<'a> {
    // No rows yet.
    fn new(alloc: Global, path: &'a str, separator: Separator) -> Table<'a>
        ensures empty { Holds path.now separator [] result }
    {
        Table {
            separator,
            empty: true,
            mended: Vec::new(alloc),
            written: Vec::new(alloc),
            listing: Listing::new(alloc, path),
        }
    }

    // Adds the row that begins on this line.
    fn add(&mut self, alloc: Global, line: u64, row: &ByteRecord) -> Result<(), AllocError>
        ensures added { OnOk result ((path : List ℕ) (separator : separators.Separator) (rows : List ReadRow)
            → Holds path separator rows self.old
            → Holds path separator (rows ++ (record { line = line; fields = fields_of row.now } ∷ [])) self.new) }
    {
        let mended = mend_row(alloc, self.empty, line, row, &mut self.listing)?;
        self.empty = false;
        push_row(&mut self.mended, b',', &mended)?;
        push_row(&mut self.written, self.separator.byte(), row)?;
        Ok(())
    }
}

// The rows of a text, mended.
pub(crate) fn mend_rows<'a>(
    alloc: Global,
    path: &'a str,
    text: &[u8],
    separator: Separator,
) -> Result<Table<'a>, AllocError>
    ensures rows { IfOk result (λ table. (rows : List ReadRow) × AreRead (separated_by separator) 1 text.now rows
        × Holds path.now separator rows table) }
{
    let mut table = Table::new(alloc, path, separator);
    let mut row = ByteRecord::new(alloc);
    let mut line = 1u64;
    let mut at = 0usize;
    while at < text.len() {
        let left = &text[at..];
        let taken = match read_row(alloc, separator.byte(), left, &mut row)? {
            Some(taken) => taken,
            None => return Ok(table),
        };
        table.add(alloc, line + line_feeds(&left[..taken.before]), &row)?;
        line += line_feeds(&left[..taken.length]);
        at += taken.length;
    }
    Ok(table)
}
