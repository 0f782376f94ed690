//! The rows of a file's elements, or all its faults.

ghost use Rattle.std.specs.Prelude.{◌≡◌, ◌++◌, ◌≤◌, map, length, IfOk, OnOk};
ghost use Rattle.std.specs.List.Sorted.{IsNonDecreasingBy, IsPermutation};
ghost use Rattle.gtd_hours_options.specs.Readings.{how_read};
ghost use Rattle.gtd_conditional_elements.specs.Elements as spec;
ghost use Rattle.gtd_conditional_elements.specs.Faults.{row_number};
ghost use Rattle.gtd_conditional_elements.specs.File.{AreOfFile};
ghost use Rattle.gtd_conditional_elements.specs.Warnings.{AreWarnings};
ghost use Rattle.gtd_conditional_elements.specs.declared.fault.ConditionsFault.{ConditionsFault};

use crate::fault::ConditionsFault;
use crate::found::{ElementRow, Found, add_element};
use crate::tag::ReadTag;
use crate::values::read_values;
use crate::warnings::warnings_of;
use gtd_conditional_means::Means;
use gtd_conditional_tags::{ElementItems, TagsFault, by_element, read_tags};
use gtd_hours_options::HoursReading;
use std::alloc::{AllocError, Global};

/// What a file of tags says. It is accepted exactly if it has no fault.
#[derive(Drop)]
pub struct ElementsFile {
    /// The rows of its elements, in the order in which these first come.
    pub rows: Vec<ElementRow>,
    /// All its faults, in the order of its rows.
    pub faults: Vec<ConditionsFault>,
    /// A line for each warning of hours in its values, in their order, with the line of the file on which the row begins.
    pub warnings: Vec<u8>,
}

// The rows of elements, and the faults of the others.
fn rows_of_elements(
    alloc: Global,
    means: &Means,
    groups: Vec<ElementItems<ReadTag>>,
) -> Result<Found, AllocError>
    ensures { IfOk result (λ found. spec.AreEach means.now.rows.items groups.items found.rows.items found.faults.items) }
{
    let mut found = Found {
        rows: Vec::new(alloc),
        faults: Vec::new(alloc),
    };
    for group in groups {
        add_element(alloc, means, group, &mut found)?;
    }
    Ok(found)
}

// The faults of rows, as faults of the file.
fn faults_of_rows(alloc: Global, faults: &[TagsFault]) -> Result<Vec<ConditionsFault>, AllocError>
    ensures { IfOk result (λ found. found.items ≡ map (λ why. ConditionsFault.Row why) faults.now) }
{
    faults
        .iter()
        .map(|why| ConditionsFault::Row(*why))
        .collect(alloc)
}

// Puts faults after others.
fn put_faults(
    faults: &mut Vec<ConditionsFault>,
    others: &[ConditionsFault],
) -> Result<(), AllocError>
    ensures { OnOk result (faults.new.items ≡ faults.old.items ++ others.now) }
{
    faults.extend_from_slice(others)
}

// Faults in the order of their rows.
fn sorted(mut faults: Vec<ConditionsFault>) -> Vec<ConditionsFault>
    ensures same { IsPermutation faults.items result.items }
    ensures sorted { IsNonDecreasingBy row_number result.items }
{
    faults.sort_unstable_by_key(|why| why.row_number());
    faults
}

// All faults of a file, in the order of its rows: those of rows, of values, and of elements.
fn all_faults(
    alloc: Global,
    rows: &[TagsFault],
    values: &[ConditionsFault],
    elements: &[ConditionsFault],
) -> Result<Vec<ConditionsFault>, AllocError>
    ensures all { IfOk result (λ faults. IsPermutation
        (map (λ why. ConditionsFault.Row why) rows.now ++ values.now ++ elements.now) faults.items) }
    ensures sorted { IfOk result (λ faults. IsNonDecreasingBy row_number faults.items) }
{
    let mut faults = faults_of_rows(alloc, rows)?;
    put_faults(&mut faults, values)?;
    put_faults(&mut faults, elements)?;
    Ok(sorted(faults))
}

/// The rows of a file of tags with this path and these bytes, by a table of means, if hours are read so; all its faults; and its
/// warnings.
///
/// Elements stand in the order in which they first come. Of each come the rows of access, and then those of one-way traffic. A
/// row at fault, and one whose value is, says nothing of its element.
///
/// Faults stand in the order of the rows. A row has one of those of `read_tags`; or the first fault of its value; or `TooMany`,
/// if the hours of some part need more than 128 basic domains. Otherwise the last tag of an element has it, if some row of the
/// element would need more.
///
/// Warnings are those of the tags that say something. `AllocError` is answered only if memory was refused.
pub fn read_elements(
    alloc: Global,
    means: &Means,
    reading: HoursReading<'_>,
    path: &str,
    bytes: &[u8],
) -> Result<ElementsFile, AllocError>
    ensures file { IfOk result (λ file.
        AreOfFile (how_read reading.entry) means.now.rows.items bytes.now file.rows.items file.faults.items) }
    ensures warned { IfOk result (λ file.
        (found : AreOfFile (how_read reading.entry) means.now.rows.items bytes.now file.rows.items file.faults.items)
        × AreWarnings path.now bytes.now found.sound file.warnings.items) }
    ensures few { IfOk result (λ file. length file.rows.items ≤ 25952256) }
{
    let file = read_tags(alloc, means, bytes)?;
    let values = read_values(alloc, means, reading, file.tags.as_slice())?;
    let warnings = warnings_of(alloc, path, bytes, values.sound.as_slice())?;
    let groups = by_element(alloc, values.sound)?;
    let found = rows_of_elements(alloc, means, groups)?;
    let faults = all_faults(
        alloc,
        file.faults.as_slice(),
        values.faults.as_slice(),
        found.faults.as_slice(),
    )?;
    Ok(ElementsFile {
        rows: found.rows,
        faults,
        warnings,
    })
}
