//! The rows and the places of faults.

ghost use Rattle.std.specs.Prelude.{◌≡◌};
ghost use Rattle.gtd_conditional_faults.specs.Places as spec;

use crate::fault::FileFault;
use gtd_conditional_elements::ConditionsFault;
use gtd_conditional_means::MeansFault;
use gtd_conditional_parts::ValueFault;
use gtd_conditional_tags::TagsFault;
use gtd_conditional_values::TermFault;
use gtd_core::limits::MOST_ROWS;
use gtd_hours_faults::place_in;

/// The place of a fault in its value: of hours, where they begin, and their own place from there on.
pub(crate) fn place_of(fault: ValueFault) -> usize
    ensures { result ≡ spec.place_of fault }
{
    match fault {
        ValueFault::Part { place } => place,
        ValueFault::Value { place } => place,
        ValueFault::Term(TermFault::Condition { place }) => place,
        ValueFault::Term(TermFault::Hours { start, fault }) => {
            start.saturating_add(place_in(fault))
        }
    }
}

// The row of a fault of a table of means, if it is of one.
fn means_row(fault: MeansFault) -> Option<u32>
    ensures { result ≡ spec.means_row fault }
{
    match fault {
        MeansFault::TooLarge => None,
        MeansFault::Header => None,
        MeansFault::TooManyRows => Some(4097),
        MeansFault::FieldCount { row } => Some(row),
        MeansFault::Vehicle { row } => Some(row),
        MeansFault::Name { row } => Some(row),
        MeansFault::Repeated { row } => Some(row),
        MeansFault::Value { row } => Some(row),
        MeansFault::Kind { row } => Some(row),
    }
}

// The row of a fault of a file of tags, if it is of one, whatever its value says.
fn row_in(fault: TagsFault) -> Option<u32>
    ensures { result ≡ spec.row_in fault }
{
    match fault {
        TagsFault::TooLarge => None,
        TagsFault::Header => None,
        TagsFault::FieldCount { row } => Some(row),
        TagsFault::Element { row } => Some(row),
        TagsFault::Key { row } => Some(row),
        TagsFault::Repeated { row } => Some(row),
        TagsFault::TooManyRows => Some(MOST_ROWS + 1),
    }
}

// The row of a fault of a file of tags or of its values, if it is of one.
fn tags_row(fault: ConditionsFault) -> Option<u32>
    ensures { result ≡ spec.tags_row fault }
{
    match fault {
        ConditionsFault::Row(fault) => row_in(fault),
        ConditionsFault::Value { row, .. } => Some(row),
        ConditionsFault::TooMany { row } => Some(row),
    }
}

/// The row of a fault, if it is of one.
pub(crate) fn row_of(fault: FileFault) -> Option<u32>
    ensures { result ≡ spec.row_of fault }
{
    match fault {
        FileFault::Means(fault) => means_row(fault),
        FileFault::Tags(fault) => tags_row(fault),
    }
}
