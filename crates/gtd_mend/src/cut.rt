//! The rows of a text, which `csv` would give with another separator, and where each begins.

ghost use Rattle.std.specs.Prelude.{◌≡◌, ◌≤◌, ◌<◌, ◌++◌, [], ◌∷◌, None, drop, take, length, IfOk, IfSome, OnOk};
ghost use Rattle.std.specs.List.{prefix_len};
ghost use Rattle.csv.specs.Machine.{next_record};
ghost use Rattle.csv.specs.Records.{fields_of, partial_of};
ghost use Rattle.csv.specs.declared.parser.State.TheVariants.{InField, StartRecord};
ghost use Rattle.gtd_records.specs.Cut.{is_line_end};
ghost use Rattle.gtd_mend.specs.Cutting.{IsFed, IsRowRead, IsStep, state_of};
ghost use Rattle.gtd_mend.specs.Reading as spec;
ghost use Rattle.gtd_mend.specs.Reading.{IsNextRow, by_byte, empty_lines};

use csv::ByteRecord;
use std::alloc::{AllocError, Global};

// Where the bytes of a row stop, before its end.
#[derive(Clone, Copy)]
pub(crate) enum Within {
    // Before the first byte of a field.
    FieldStart,
    // In a field outside quotes.
    Plain,
    // In quotes.
    Quoted,
    // After a quote in quotes: it ends them, or is the first of two that stand for one.
    Quote,
}

// What a byte does.
#[derive(Clone, Copy)]
pub(crate) enum Effect {
    // It is part of the field, and leads on.
    Copy(Within),
    // It is a quote that is no part of the field, and leads on.
    Skip(Within),
    // It ends the field.
    EndField,
    // It ends the row.
    EndRow,
}

// What a byte outside quotes does.
fn outside(separator: u8, byte: u8) -> Effect
    ensures effect { IsStep separator InField byte result }
{
    if byte == separator {
        Effect::EndField
    } else if byte == 13 || byte == 10 {
        Effect::EndRow
    } else {
        Effect::Copy(Within::Plain)
    }
}

// What a byte does there.
fn effect_of(separator: u8, within: Within, byte: u8) -> Effect
    ensures effect { IsStep separator (state_of within) byte result }
{
    match within {
        Within::FieldStart => {
            if byte == b'"' {
                Effect::Skip(Within::Quoted)
            } else {
                outside(separator, byte)
            }
        }
        Within::Plain => outside(separator, byte),
        Within::Quoted => {
            if byte == b'"' {
                Effect::Skip(Within::Quote)
            } else {
                Effect::Copy(Within::Quoted)
            }
        }
        Within::Quote => {
            if byte == b'"' {
                Effect::Copy(Within::Quoted)
            } else {
                outside(separator, byte)
            }
        }
    }
}

// Ends the field at hand.
fn end_field(row: &mut ByteRecord, field: &mut Vec<u8>) -> Result<(), AllocError>
    requires bare { partial_of row.old ≡ [] }
    ensures fields { OnOk result (fields_of row.new ≡ fields_of row.old ++ (field.old.items ∷ [])) }
    ensures bare { OnOk result (partial_of row.new ≡ []) }
    ensures field { OnOk result (field.new.items ≡ []) }
{
    row.push_field(field.as_slice())?;
    field.clear();
    Ok(())
}

// Takes a byte there, and says where it leads to, or `None` if it ended the row.
fn feed(
    separator: u8,
    within: Within,
    byte: u8,
    row: &mut ByteRecord,
    field: &mut Vec<u8>,
) -> Result<Option<Within>, AllocError>
    requires bare { partial_of row.old ≡ [] }
    ensures fed { IfOk result (λ next. IsFed separator (state_of within) byte (fields_of row.old) field.old.items
        (fields_of row.new) field.new.items next) }
    ensures bare { OnOk result (partial_of row.new ≡ []) }
{
    match effect_of(separator, within, byte) {
        Effect::Copy(next) => {
            field.push(byte)?;
            Ok(Some(next))
        }
        Effect::Skip(next) => Ok(Some(next)),
        Effect::EndField => {
            end_field(row, field)?;
            Ok(Some(Within::FieldStart))
        }
        Effect::EndRow => {
            end_field(row, field)?;
            Ok(None)
        }
    }
}

// Reads the row that begins with the first of these bytes, and answers how many bytes it takes, its line end included: of CR
// LF only the CR.
fn read_fields(
    alloc: Global,
    separator: u8,
    text: &[u8],
    row: &mut ByteRecord,
) -> Result<usize, AllocError>
    ensures few { IfOk result (λ taken. taken ≤ length text.now) }
    ensures some { IfOk result (λ taken. 0 < length text.now → 0 < taken) }
    ensures read { IfOk result (λ taken. IsRowRead (by_byte separator) text.now (fields_of row.new) (drop taken text.now)) }
{
    let mut field = Vec::new(alloc);
    let mut within = Within::FieldStart;
    row.clear();
    for (at, byte) in text.iter().enumerate() {
        match feed(separator, within, *byte, row, &mut field)? {
            Some(next) => within = next,
            None => return Ok(at + 1),
        }
    }
    end_field(row, &mut field)?;
    Ok(text.len())
}

// How many line ends these bytes begin with.
fn line_ends(bytes: &[u8]) -> usize
    ensures few { result ≤ length bytes.now }
    ensures value { result ≡ prefix_len is_line_end bytes.now }
{
    for (at, byte) in bytes.iter().enumerate() {
        if *byte != 13 && *byte != 10 {
            return at;
        }
    }
    bytes.len()
}

// How many line feeds there are.
pub(crate) fn line_feeds(bytes: &[u8]) -> u64
    ensures few { result ≤ length bytes.now }
    ensures count { result ≡ spec.line_feeds bytes.now }
{
    let mut count = 0u64;
    for byte in bytes {
        if *byte == 10 {
            count += 1;
        }
    }
    count
}

// What a row takes of a text.
#[derive(Clone, Copy)]
pub(crate) struct Taken {
    // The bytes of the line ends before it.
    pub(crate) before: usize,
    // All bytes, to its end.
    pub(crate) length: usize,
}

// Reads the next row of a text, and answers what it takes, or `None` if there is no row.
pub(crate) fn read_row(
    alloc: Global,
    separator: u8,
    text: &[u8],
    row: &mut ByteRecord,
) -> Result<Option<Taken>, AllocError>
    ensures none { IfOk result (λ found. found ≡ None → next_record (by_byte separator) StartRecord [] [] text.now ≡ None) }
    ensures few { IfOk result (λ found. IfSome found (λ taken. (taken.before ≤ taken.length) × (taken.length ≤ length text.now)
        × (0 < taken.length))) }
    ensures before { IfOk result (λ found. IfSome found (λ taken. take taken.before text.now ≡ empty_lines text.now)) }
    ensures row { IfOk result (λ found. IfSome found (λ taken. IsNextRow (by_byte separator) text.now (fields_of row.new)
        (take taken.length text.now) (drop taken.length text.now))) }
{
    let before = line_ends(text);
    if before >= text.len() {
        return Ok(None);
    }
    let length = before + read_fields(alloc, separator, &text[before..], row)?;
    Ok(Some(Taken { before, length }))
}
