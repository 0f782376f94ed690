//! The rows of a file: where each begins, and what is shown of its fields.

ghost use Rattle.std.specs.Prelude.{◌≡◌, ◌≤◌, ◌+◌, ℕ, true, List, IfOk, IfSome, OnOk};
ghost use Rattle.csv.specs.Records.{fields_of};
ghost use Rattle.gtd_rows.specs.Columns.{Fields};
ghost use Rattle.gtd_faults.specs.Snippet.{IsOfField, IsOfRowAt};
ghost use Rattle.gtd_faults.specs.Places.{IsLine, IsLineAt, field_of};
ghost use Rattle.gtd_faults.specs.Standing.{HasGiven, IsRowOf, StandsAt};

use crate::row::Row;
use crate::snippet::Snippet;
use csv::{ByteRecord, Reader};
use gtd_lines::Place;
use gtd_rows::{next_row, table};
use std::alloc::{AllocError, Global};

/// The rows of a file's bytes. It stands at one of them; the header is row 0.
#[derive(Drop)]
pub struct Rows<'a> {
    alloc: Global,
    bytes: &'a [u8],
    reader: Reader<&'a [u8]>,
    row: ByteRecord,
    // Whether there is a row with this number.
    found: bool,
    number: u32,
    place: Place,
}

// Takes the next record, if the last one was not the end, and says whether there was one.
fn read_on(
    found: bool,
    reader: &mut Reader<&[u8]>,
    row: &mut ByteRecord,
) -> Result<bool, AllocError>
    ensures { (number : ℕ) (text : List Fields) → HasGiven found reader.old (fields_of row.old) number text
        → IfOk result (λ more. HasGiven more reader.new (fields_of row.new) (number + 1) text) }
{
    if !found {
        return Ok(false);
    }
    next_row(reader, row)
}

impl<'a> Rows<'a> {
    /// The rows of these bytes, at the header. `AllocError` is answered only if memory was refused.
    pub fn new(alloc: Global, bytes: &'a [u8]) -> Result<Rows<'a>, AllocError>
        ensures at { IfOk result (StandsAt bytes.now 0) }
    {
        let mut reader = table(alloc, bytes);
        let mut row = ByteRecord::new(alloc);
        let found = next_row(&mut reader, &mut row)?;
        Ok(Rows {
            alloc,
            bytes,
            reader,
            row,
            found,
            number: 0,
            place: Place::first(bytes),
        })
    }

    // Moves on to the next row, which has this number.
    fn step(&mut self, number: u32) -> Result<(), AllocError>
        ensures at { (bytes : List ℕ) (before : ℕ) → number ≡ before + 1 → StandsAt bytes before self.old
            → OnOk result (StandsAt bytes number self.new) }
    {
        self.found = read_on(self.found, &mut self.reader, &mut self.row)?;
        self.place = self.place.next(self.bytes);
        self.number = number;
        Ok(())
    }

    // Goes back to the header. A new reader takes 16 KB of the stack, and the stack of a call is cleared: this stands alone.
    #[cold]
    #[inline(never)]
    fn begin_anew(&mut self) -> Result<(), AllocError>
        ensures at { (bytes : List ℕ) (number : ℕ) → StandsAt bytes number self.old
            → OnOk result (StandsAt bytes 0 self.new) }
    {
        *self = Rows::new(self.alloc, self.bytes)?;
        Ok(())
    }

    // Goes back to the header if it stands at a later row than this.
    fn go_back(&mut self, row: u32) -> Result<(), AllocError>
        ensures at { (bytes : List ℕ) (number : ℕ) → StandsAt bytes number self.old
            → OnOk result ((before : ℕ) × (before ≤ row) × StandsAt bytes before self.new) }
    {
        if row >= self.number {
            return Ok(());
        }
        self.begin_anew()
    }

    // Moves on to the row with this number.
    fn go_on(&mut self, row: u32) -> Result<(), AllocError>
        ensures at { (bytes : List ℕ) (number : ℕ) → number ≤ row → StandsAt bytes number self.old
            → OnOk result (StandsAt bytes row self.new) }
    {
        for before in self.number..row {
            self.step(before + 1)?;
        }
        Ok(())
    }

    /// Goes to the row with this number. `AllocError` is answered only if memory was refused.
    pub fn go_to(&mut self, row: u32) -> Result<(), AllocError>
        ensures at { (bytes : List ℕ) (number : ℕ) → StandsAt bytes number self.old
            → OnOk result (StandsAt bytes row self.new) }
    {
        self.go_back(row)?;
        self.go_on(row)
    }

    /// The line on which the row begins, from 1.
    pub fn line(&self) -> u64
        ensures line { (bytes : List ℕ) (number : ℕ) → StandsAt bytes number self.now → IsLine bytes number result }
    {
        self.place.line
    }

    /// Goes to the row with this number, if one is given, and answers the line on which it begins; without a row, it stays
    /// where it is, and answers the first line. `AllocError` is answered only if memory was refused.
    pub fn line_at(&mut self, row: Option<u32>) -> Result<u64, AllocError>
        ensures line { (bytes : List ℕ) (number : ℕ) → StandsAt bytes number self.old → IfOk result (IsLineAt bytes row) }
        ensures at { (bytes : List ℕ) (number : ℕ) → StandsAt bytes number self.old
            → OnOk result ((here : ℕ) × IfSome row (λ given. here ≡ given) × StandsAt bytes here self.new) }
    {
        let Some(row) = row else {
            return Ok(1);
        };
        self.go_to(row)?;
        Ok(self.line())
    }

    // The row at which it stands, if there is one.
    fn here(&self) -> Row<'_>
        ensures row { (bytes : List ℕ) (number : ℕ) → StandsAt bytes number self.now → self.now.found ≡ true
            → IsRowOf bytes result × (result.number ≡ number) }
    {
        Row {
            bytes: self.bytes,
            number: self.number,
            place: self.place,
            fields: &self.row,
        }
    }

    /// What is shown of the field with this index, from 0 on: its stretch around the place, with a caret below the byte
    /// there. It is nothing if the row has no such field, or the field ends before the place.
    pub fn field(&self, index: usize, place: usize) -> Snippet<'_>
        ensures field { (bytes : List ℕ) (number : ℕ) → StandsAt bytes number self.now
            → IsOfField (field_of bytes number index) place result }
    {
        if !self.found {
            return Snippet::Nothing;
        }
        self.here().field(index, place)
    }

    /// What is shown of the whole row: its first line, and how many fields it has. It is nothing if there is no such row.
    pub fn row(&self) -> Snippet<'_>
        ensures row { (bytes : List ℕ) (number : ℕ) → StandsAt bytes number self.now → IsOfRowAt bytes number result }
    {
        if !self.found {
            return Snippet::Nothing;
        }
        self.here().whole()
    }
}
