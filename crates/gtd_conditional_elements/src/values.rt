//! The values of a file's tags.

ghost use Rattle.std.specs.Prelude.{◌≡◌, ◌++◌, Result, IfOk, OnOk};
ghost use Rattle.gtd_hours_options.specs.Readings.{how_read};
ghost use Rattle.gtd_conditional_elements.specs.Values as spec;
ghost use Rattle.gtd_conditional_elements.specs.declared.fault.ConditionsFault.{ConditionsFault};
ghost use Rattle.gtd_conditional_elements.specs.declared.tag.ReadTag.{ReadTag};

use crate::fault::ConditionsFault;
use crate::tag::{ReadTag, TagStop, read_tag};
use gtd_conditional_means::Means;
use gtd_conditional_tags::{ElementItem, Tag as FileTag};
use gtd_hours_options::HoursReading;
use std::alloc::{AllocError, Global};

/// What the values of tags say.
#[derive(Drop)]
pub(crate) struct Values {
    /// The tags that are sound, with their elements.
    pub(crate) sound: Vec<ElementItem<ReadTag>>,
    /// The faults of the others.
    pub(crate) faults: Vec<ConditionsFault>,
}

// Adds what a tag says.
fn add_tag(
    alloc: Global,
    means: &Means,
    reading: HoursReading<'_>,
    tag: &FileTag,
    found: &mut Values,
) -> Result<(), AllocError>
    ensures { OnOk result ((answer : Result ReadTag ConditionsFault)
        × spec.IsTag (how_read reading.entry) means.now.rows.items tag.now answer
        × (found.new.sound.items ≡ found.old.sound.items ++ spec.sound_of tag.now answer)
        × (found.new.faults.items ≡ found.old.faults.items ++ spec.faults_of answer)) }
{
    match read_tag(alloc, means, reading, tag) {
        Ok(read) => found.sound.push(ElementItem {
            element: tag.element,
            item: read,
        })?,
        Err(TagStop::Fault(why)) => found.faults.push(why)?,
        Err(TagStop::NoMemory) => return Err(AllocError),
    }
    Ok(())
}

/// The tags that are sound, and the faults of the others.
pub(crate) fn read_values(
    alloc: Global,
    means: &Means,
    reading: HoursReading<'_>,
    tags: &[FileTag],
) -> Result<Values, AllocError>
    ensures { IfOk result (λ found.
        spec.AreValues (how_read reading.entry) means.now.rows.items tags.now found.sound.items found.faults.items) }
{
    let mut found = Values {
        sound: Vec::new(alloc),
        faults: Vec::new(alloc),
    };
    for tag in tags {
        add_tag(alloc, means, reading, tag, &mut found)?;
    }
    Ok(found)
}
