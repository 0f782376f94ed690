//! Rows as text.

ghost use Rattle.std.specs.Prelude.{◌≡◌, ◌++◌, [], ◌∷◌, ℕ, OnOk, if◌then◌else◌};
ghost use Rattle.csv.specs.Records.{fields_of};
ghost use Rattle.csv.specs.Writing.{escaped, field_text, is_blank, next_sep, row_body, row_text};
ghost use Rattle.csv.specs.Writing as csv_spec;
ghost use Rattle.gtd_mend.specs.Mended.{writer_of};

use csv::ByteRecord;
use std::alloc::AllocError;

// Whether a field needs quotes.
fn needs_quotes(separator: u8, field: &[u8]) -> bool
    ensures value { result ≡ csv_spec.needs_quotes (writer_of separator) field.now }
{
    field.iter().any(|byte| *byte == separator || *byte == 34 || *byte == 13 || *byte == 10)
}

// Appends a byte as it stands between quotes: a quote is doubled.
fn push_byte(text: &mut Vec<u8>, byte: u8) -> Result<(), AllocError>
    ensures text { OnOk result ((separator : ℕ) → text.new.items
        ≡ text.old.items ++ escaped (writer_of separator) (byte ∷ [])) }
{
    if byte == 34 {
        text.extend_from_slice(b"\"\"")?;
        return Ok(());
    }
    text.push(byte)?;
    Ok(())
}

// Appends the bytes of a field as they stand between quotes.
fn push_escaped(text: &mut Vec<u8>, field: &[u8]) -> Result<(), AllocError>
    ensures text { OnOk result ((separator : ℕ) → text.new.items
        ≡ text.old.items ++ escaped (writer_of separator) field.now) }
{
    for byte in field {
        push_byte(text, *byte)?;
    }
    Ok(())
}

// Appends a field, in quotes if it needs them.
fn push_field(text: &mut Vec<u8>, separator: u8, field: &[u8]) -> Result<(), AllocError>
    ensures text { OnOk result (text.new.items ≡ text.old.items ++ field_text (writer_of separator) field.now) }
{
    if !needs_quotes(separator, field) {
        return text.extend_from_slice(field);
    }
    text.push(34)?;
    push_escaped(text, field)?;
    text.push(34)?;
    Ok(())
}

// Appends a field after so many others, with a separator before it, if it is not the first.
fn push_next(
    text: &mut Vec<u8>,
    separator: u8,
    before: usize,
    field: &[u8],
) -> Result<(), AllocError>
    ensures text { OnOk result (text.new.items ≡ text.old.items
        ++ (next_sep (writer_of separator) before ++ field_text (writer_of separator) field.now)) }
{
    if before == 0 {
        return push_field(text, separator, field);
    }
    text.push(separator)?;
    push_field(text, separator, field)
}

// Appends the fields of a row with separators between them.
fn push_body(text: &mut Vec<u8>, separator: u8, row: &ByteRecord) -> Result<(), AllocError>
    ensures text { OnOk result (text.new.items ≡ text.old.items ++ row_body (writer_of separator) (fields_of row.now)) }
{
    for i in 0..row.len() {
        let Some(field) = row.get(i) else {
            return Ok(());
        };
        push_next(text, separator, i, field)?;
    }
    Ok(())
}

// Whether a row has at most one field, and that is empty: it is written as two quotes.
fn is_blank(separator: u8, row: &ByteRecord) -> bool
    ensures value { result ≡ csv_spec.is_blank (writer_of separator) (fields_of row.now) }
{
    if row.len() > 1 {
        return false;
    }
    match row.get(0) {
        Some(field) => field.is_empty(),
        None => true,
    }
}

// Appends the end of a row: an LF, and before it two quotes if the row shows no byte.
fn push_end(text: &mut Vec<u8>, blank: bool) -> Result<(), AllocError>
    ensures text { OnOk result (text.new.items ≡ text.old.items ++ ((if blank then 34 ∷ 34 ∷ [] else []) ++ (10 ∷ []))) }
{
    if blank {
        text.extend_from_slice(b"\"\"\n")?;
        return Ok(());
    }
    text.push(10)?;
    Ok(())
}

// Appends the text of a row, with its end.
pub(crate) fn push_row(
    text: &mut Vec<u8>,
    separator: u8,
    row: &ByteRecord,
) -> Result<(), AllocError>
    ensures text { OnOk result (text.new.items ≡ text.old.items ++ row_text (writer_of separator) (fields_of row.now)) }
{
    push_body(text, separator, row)?;
    push_end(text, is_blank(separator, row))?;
    Ok(())
}
