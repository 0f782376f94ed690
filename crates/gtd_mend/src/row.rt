//! A row, mended.

ghost use Rattle.std.specs.Prelude.{◌≡◌, IfOk, OnOk};
ghost use Rattle.csv.specs.Records.{fields_of};
ghost use Rattle.gtd_mend.specs.Fields.{mended_row};
ghost use Rattle.gtd_mend.specs.Lines.{lines_from};
ghost use Rattle.gtd_mend.specs.Standing.{AddsLines};

use crate::additions::add_field_changes;
use crate::content::content_of;
use crate::field::mend_field;
use crate::listing::Listing;
use csv::ByteRecord;
use std::alloc::{AllocError, Global};

// The row that begins on this line, mended: as the header, or as another row. Its changes are listed.
pub(crate) fn mend_row(
    alloc: Global,
    head: bool,
    line: u64,
    row: &ByteRecord,
    listing: &mut Listing<'_>,
) -> Result<ByteRecord, AllocError>
    ensures fields { IfOk result (λ mended. fields_of mended ≡ mended_row head (fields_of row.now)) }
    ensures listed { OnOk result (AddsLines (λ path. lines_from path line head 0 (fields_of row.now)) listing.old listing.new) }
{
    let mut mended = ByteRecord::new(alloc);
    for column in 0..row.len() {
        let Some(field) = row.get(column) else {
            return Ok(mended);
        };
        let found = mend_field(alloc, content_of(head, column), field)?;
        mended.push_field(found.text.as_slice())?;
        add_field_changes(listing, line, column + 1, found.changes.as_slice())?;
    }
    Ok(mended)
}
