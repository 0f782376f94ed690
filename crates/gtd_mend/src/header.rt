//! The separator with which a text has a header.

ghost use Rattle.std.specs.Prelude.{◌≡◌, ◌≢◌, IfOk, MatchOption, MatchBool};
ghost use Rattle.csv.specs.Records.{fields_of};
ghost use Rattle.gtd_records.specs.File.{header};
ghost use Rattle.gtd_rows.specs.declared.vehicles.Version.{Version};
ghost use Rattle.gtd_mend.specs.Mended.{HasHeader};
ghost use Rattle.gtd_mend.specs.declared.separator.Separator as separators;

use crate::cut::read_row;
use crate::listing::Listing;
use crate::row::mend_row;
use crate::separator::Separator;
use csv::ByteRecord;
use gtd_rows::four_columns;
use std::alloc::{AllocError, Global};

// Whether a row is a header.
fn is_header(row: &ByteRecord) -> bool
    ensures value { MatchBool result ((v : Version) × (fields_of row.now ≡ header v))
        ((v : Version) → fields_of row.now ≢ header v) }
{
    let Some(columns) = four_columns(row) else {
        return false;
    };
    if columns.element != b"element".as_slice() || columns.closed != b"direction".as_slice() {
        return false;
    }
    if columns.last != b"domain".as_slice() {
        return false;
    }
    columns.vehicles == b"vehicle".as_slice() || columns.vehicles == b"vehicles".as_slice()
}

// Whether the text has a header with this separator.
fn has_header(alloc: Global, text: &[u8], separator: Separator) -> Result<bool, AllocError>
    ensures value { IfOk result (λ yes. MatchBool yes (HasHeader separator text.now) (HasHeader separator text.now → ⊥)) }
{
    let mut row = ByteRecord::new(alloc);
    match read_row(alloc, separator.byte(), text, &mut row)? {
        Some(_) => {}
        None => return Ok(false),
    }
    let mut listing = Listing::new(alloc, "");
    let mended = mend_row(alloc, true, 1, &row, &mut listing)?;
    Ok(is_header(&mended))
}

// The first separator with which the text has a header.
pub(crate) fn separator_of(alloc: Global, text: &[u8]) -> Result<Option<Separator>, AllocError>
    ensures value { IfOk result (λ found. MatchOption found ((s : separators.Separator) → HasHeader s text.now → ⊥)
        (λ s. HasHeader s text.now)) }
{
    if has_header(alloc, text, Separator::Comma)? {
        return Ok(Some(Separator::Comma));
    }
    if has_header(alloc, text, Separator::Semicolon)? {
        return Ok(Some(Separator::Semicolon));
    }
    if has_header(alloc, text, Separator::Tab)? {
        return Ok(Some(Separator::Tab));
    }
    Ok(None)
}
