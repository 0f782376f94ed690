//! The rows of a file of tags.

ghost use Rattle.std.specs.Prelude.{◌≡◌, Some, IfOk};
ghost use Rattle.csv.specs.Records.{fields_of};
ghost use Rattle.gtd_conditional_tags.specs.Rows as spec;

use crate::columns::{Columns, three_columns};
use crate::fault::TagsFault;
use crate::key::{Key, is_at_fault, key_of, parts_of};
use csv::ByteRecord;
use gtd_conditional_means::Means;
use gtd_rows::read_number;
use std::alloc::{AllocError, Global};

/// A tag that says when a way may be used.
#[derive(Drop)]
pub struct Tag {
    /// The number of its row, from 1 on.
    pub row: u32,
    /// The road element's number.
    pub element: u64,
    /// Its key.
    pub key: Key,
    /// Its value, in bytes.
    pub value: Vec<u8>,
}

/// Such a tag, whose value stands in its row.
#[derive(Clone, Copy)]
pub(crate) struct TagRow<'a> {
    pub(crate) row: u32,
    pub(crate) element: u64,
    pub(crate) key: Key,
    pub(crate) value: &'a [u8],
}

/// The tag with its value copied.
pub(crate) fn tag_of(alloc: Global, row: TagRow<'_>) -> Result<Tag, AllocError>
    ensures { IfOk result (λ tag. spec.said_by tag ≡ spec.said_in row.entry) }
{
    Ok(Tag {
        row: row.row,
        element: row.element,
        key: row.key,
        value: row.value.to_vec(alloc)?,
    })
}

// What a row of an element says.
fn read_tag<'a>(
    means: &Means,
    number: u32,
    element: u64,
    columns: Columns<'a>,
) -> Result<Option<TagRow<'a>>, TagsFault>
    ensures { spec.IsRead result (spec.with_element means.now.rows.items number (Some element) columns.entry.key.now
        columns.entry.value.now) }
{
    let parts = parts_of(columns.key);
    match key_of(means, parts) {
        Some(key) => Ok(Some(TagRow {
            row: number,
            element,
            key,
            value: columns.value,
        })),
        None => {
            if is_at_fault(means, parts) {
                Err(TagsFault::Key { row: number })
            } else {
                Ok(None)
            }
        }
    }
}

/// What the row with this number says of itself: a tag or nothing, or its first fault, whatever rows come before it.
pub(crate) fn read_row<'a>(
    means: &Means,
    number: u32,
    row: &'a ByteRecord,
) -> Result<Option<TagRow<'a>>, TagsFault>
    ensures { spec.IsRead result (spec.alone means.now.rows.items number (fields_of row.now)) }
{
    let Some(columns) = three_columns(row) else {
        return Err(TagsFault::FieldCount { row: number });
    };
    let Some(element) = read_number(columns.element) else {
        return Err(TagsFault::Element { row: number });
    };
    read_tag(means, number, element, columns)
}
