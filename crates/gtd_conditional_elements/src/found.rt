//! The rows of elements, as they are found.

ghost use Rattle.std.specs.Prelude.{◌≡◌, ◌++◌, List, Result, map, IfOk, OnOk};
ghost use Rattle.gtd_conditional_rows.specs.declared.row.Row.{Row};
ghost use Rattle.gtd_conditional_elements.specs.Elements as spec;
ghost use Rattle.gtd_conditional_elements.specs.declared.fault.ConditionsFault.{ConditionsFault};

use crate::element::rows_of_element;
use crate::fault::ConditionsFault;
use crate::tag::ReadTag;
use gtd_conditional_means::Means;
use gtd_conditional_rows::{Row, RowsFault};
use gtd_conditional_steps::Tag;
use gtd_conditional_tags::ElementItems;
use std::alloc::{AllocError, Global};

/// A row of an element.
#[derive(Drop)]
pub struct ElementRow {
    /// The element.
    pub element: u64,
    /// What the row closes, for which vehicle types, and when.
    pub row: Row,
}

/// The rows of elements, and the faults of the others.
#[derive(Drop)]
pub(crate) struct Found {
    pub(crate) rows: Vec<ElementRow>,
    pub(crate) faults: Vec<ConditionsFault>,
}

// The row of the last of these tags, or 0 if there is none.
fn last_row(read: &[ReadTag]) -> u32
    ensures { result ≡ spec.last_row 0 read.now }
{
    let mut row = 0;
    let mut rest = read;
    while let Some((tag, more)) = rest.split_first() {
        row = tag.row;
        rest = more;
    }
    row
}

// The tags without their rows.
fn tags_of(alloc: Global, read: Vec<ReadTag>) -> Result<Vec<Tag>, AllocError>
    ensures { IfOk result (λ tags. tags.items ≡ spec.tags_of read.items) }
{
    let mut tags = Vec::new(alloc);
    for each in read {
        tags.push(each.tag)?;
    }
    Ok(tags)
}

// Adds the rows of an element.
fn put_rows(rows: &mut Vec<ElementRow>, element: u64, others: Vec<Row>) -> Result<(), AllocError>
    ensures { OnOk result (rows.new.items ≡ rows.old.items ++ map (λ row. record { element = element; row = row }) others.items) }
{
    for row in others {
        rows.push(ElementRow { element, row })?;
    }
    Ok(())
}

/// Adds the rows of an element with these tags, or its fault.
pub(crate) fn add_element(
    alloc: Global,
    means: &Means,
    group: ElementItems<ReadTag>,
    found: &mut Found,
) -> Result<(), AllocError>
    ensures { OnOk result ((answer : Result (List Row) ConditionsFault) × spec.IsElement means.now.rows.items group answer
        × (found.new.rows.items ≡ found.old.rows.items ++ spec.rows_in group.element answer)
        × (found.new.faults.items ≡ found.old.faults.items ++ spec.fault_in answer)) }
{
    let row = last_row(group.items.as_slice());
    let tags = tags_of(alloc, group.items)?;
    match rows_of_element(alloc, means, tags) {
        Ok(rows) => put_rows(&mut found.rows, group.element, rows),
        Err(why) => match why {
            RowsFault::TooMany => {
                found.faults.push(ConditionsFault::TooMany { row })?;
                Ok(())
            }
            RowsFault::NoMemory => Err(AllocError),
        },
    }
}
