//! Lines that are added to a listing.

ghost use Rattle.std.specs.Prelude.{OnOk};
ghost use Rattle.gtd_mend.specs.Lines.{field_lines, file_lines};
ghost use Rattle.gtd_mend.specs.Standing.{AddsLines};

use crate::change::{FieldChange, FileChange};
use crate::listing::Listing;
use std::alloc::AllocError;

// Adds the lines of changes of the whole file.
pub(crate) fn add_file_changes(
    listing: &mut Listing<'_>,
    changes: &[FileChange],
) -> Result<(), AllocError>
    ensures added { OnOk result (AddsLines (λ path. file_lines path changes.now) listing.old listing.new) }
{
    for change in changes {
        listing.add_file_change(*change)?;
    }
    Ok(())
}

// Adds the lines of changes of the field with this number, in the row that begins on this line.
pub(crate) fn add_field_changes(
    listing: &mut Listing<'_>,
    line: u64,
    number: usize,
    changes: &[FieldChange],
) -> Result<(), AllocError>
    ensures added { OnOk result (AddsLines (λ path. field_lines path line number changes.now) listing.old listing.new) }
{
    for change in changes {
        listing.add_field_change(line, number, *change)?;
    }
    Ok(())
}
