//! The tags of a file, with what their values say.

ghost use Rattle.std.specs.Prelude.{◌≡◌, IfOk, IfErr};
ghost use Rattle.gtd_hours_options.specs.Readings.{how_read};
ghost use Rattle.gtd_conditional_elements.specs.Values as spec;

use crate::fault::ConditionsFault;
use gtd_conditional_means::Means;
use gtd_conditional_parts::{Subject, UnreadValue, Value, read_plain, read_value, subject_of};
use gtd_conditional_steps::{Tag, needs_too_many};
use gtd_conditional_tags::Tag as FileTag;
use gtd_hours_options::HoursReading;
use std::alloc::Global;

/// A tag of a way, with what its value says.
#[derive(Drop)]
pub struct ReadTag {
    /// The number of its row, from 1 on.
    pub row: u32,
    /// What it says.
    pub tag: Tag,
}

/// Why a tag says nothing.
#[derive(Clone, Copy)]
pub(crate) enum TagStop {
    /// Its value is at fault.
    Fault(ConditionsFault),
    /// Memory was refused.
    NoMemory,
}

// What keys of a mode speak of, by the number of rows of the table before that of the mode.
fn subject_at(means: &Means, mode: usize) -> Subject
    ensures { result ≡ spec.subject_at means.now.rows.items mode }
{
    match means.rows.as_slice().get(mode) {
        Some(row) => subject_of(row.name.as_slice()),
        None => Subject::Access,
    }
}

// What the value of a tag says.
fn read_said(
    alloc: Global,
    means: &Means,
    reading: HoursReading<'_>,
    tag: &FileTag,
) -> Result<Value, UnreadValue>
    ensures value { IfOk result (λ read. spec.IsValueOf (how_read reading.entry) means.now.rows.items tag.now read) }
    ensures fault { IfErr result (λ why. spec.IsStopOf (how_read reading.entry) means.now.rows.items tag.now why) }
{
    let subject = subject_at(means, tag.key.mode);
    if tag.key.conditional {
        read_value(alloc, means, reading, subject, tag.value.as_slice())
    } else {
        read_plain(alloc, means, subject, tag.value.as_slice())
    }
}

/// A tag of a file with what its value says, or why it says nothing.
pub(crate) fn read_tag(
    alloc: Global,
    means: &Means,
    reading: HoursReading<'_>,
    tag: &FileTag,
) -> Result<ReadTag, TagStop>
    ensures { spec.IsTagRead (how_read reading.entry) means.now.rows.items tag.now result }
{
    let value = match read_said(alloc, means, reading, tag) {
        Ok(value) => value,
        Err(UnreadValue::Fault(fault)) => {
            return Err(TagStop::Fault(ConditionsFault::Value {
                row: tag.row,
                fault,
            }));
        }
        Err(UnreadValue::NoMemory) => return Err(TagStop::NoMemory),
    };
    if needs_too_many(&value) {
        return Err(TagStop::Fault(ConditionsFault::TooMany { row: tag.row }));
    }
    Ok(ReadTag {
        row: tag.row,
        tag: Tag {
            mode: tag.key.mode,
            direction: tag.key.direction,
            conditional: tag.key.conditional,
            value,
        },
    })
}
