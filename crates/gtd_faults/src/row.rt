//! A row of a file, and what is shown of its fields.

ghost use Rattle.std.specs.Prelude.{◌≡◌, ℕ, List, option_map};
ghost use Rattle.gtd_faults.specs.Snippet.{IsOfField, IsOfRowAt};
ghost use Rattle.gtd_faults.specs.Doubts as spec;
ghost use Rattle.gtd_faults.specs.Doubts.{IsOfPart};
ghost use Rattle.gtd_faults.specs.Places.{field_of};
ghost use Rattle.gtd_faults.specs.Standing.{IsRowOf};

use crate::lines::first_line;
use crate::snippet::Snippet;
use crate::stretch::Stretch;
use csv::ByteRecord;
use gtd_lines::Place;

/// A row of a file.
#[derive(Clone, Copy)]
pub(crate) struct Row<'a> {
    /// The file's bytes.
    pub(crate) bytes: &'a [u8],
    /// The row's number. That of the header is 0.
    pub(crate) number: u32,
    /// Where it begins.
    pub(crate) place: Place,
    /// Its fields.
    pub(crate) fields: &'a ByteRecord,
}

// The bytes of a text before the parenthesis that opens after so many others: all of them, if there is none.
fn opening(text: &[u8], before: u32) -> usize
    ensures value { result ≡ spec.opening before text.now }
{
    let mut left = before;
    for (at, byte) in text.iter().enumerate() {
        if *byte == b'(' {
            if left == 0 {
                return at;
            }
            left -= 1;
        }
    }
    text.len()
}

// What is shown of a domain around its basic domain after so many others, if there is one.
fn part_of(field: Option<&[u8]>, before: u32) -> Snippet<'_>
    ensures { IsOfPart (option_map (λ f. f.now) field.entry) before result }
{
    let Some(text) = field else {
        return Snippet::Nothing;
    };
    shown_of(Some(text), opening(text, before))
}

// What is shown of a field, if there is one.
fn shown_of(field: Option<&[u8]>, place: usize) -> Snippet<'_>
    ensures { IsOfField (option_map (λ f. f.now) field.entry) place result }
{
    let Some(field) = field else {
        return Snippet::Nothing;
    };
    if place > field.len() {
        return Snippet::Nothing;
    }
    Snippet::Field(Stretch::around(field, place))
}

impl<'a> Row<'a> {
    /// What is shown of the field with this index, from 0 on: its stretch around the place, with a caret below the byte
    /// there. It is nothing if the row has no such field, or the field ends before the place.
    pub(crate) fn field(&self, index: usize, place: usize) -> Snippet<'a>
        ensures field { (bytes : List ℕ) → IsRowOf bytes self.now
            → IsOfField (field_of bytes self.now.number index) place result }
    {
        shown_of(self.fields.get(index), place)
    }

    /// What is shown of the domain of the row, its fourth field: its stretch around the basic domain that stands after so many
    /// others, with a caret below the first byte of that. It is nothing if the row has no such field.
    pub(crate) fn part(&self, before: u32) -> Snippet<'a>
        ensures part { (bytes : List ℕ) → IsRowOf bytes self.now
            → IsOfPart (field_of bytes self.now.number 3) before result }
    {
        part_of(self.fields.get(3), before)
    }

    /// What is shown of the whole row: its first line, and how many fields it has.
    pub(crate) fn whole(&self) -> Snippet<'a>
        ensures whole { (bytes : List ℕ) → IsRowOf bytes self.now → IsOfRowAt bytes self.now.number result }
    {
        if self.place.at > self.bytes.len() {
            return Snippet::Nothing;
        }
        let line = first_line(&self.bytes[self.place.at..]);
        Snippet::Row {
            found: Stretch::around(line, 0),
            fields: self.fields.len(),
        }
    }
}
