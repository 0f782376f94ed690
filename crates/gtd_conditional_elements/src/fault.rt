//! Why a file of tags has no rows.

ghost use Rattle.std.specs.Prelude.{◌≡◌};
ghost use Rattle.gtd_conditional_elements.specs.Faults as spec;

use gtd_conditional_parts::ValueFault;
use gtd_conditional_tags::TagsFault;
use gtd_core::limits::MOST_ROWS;

/// A fault of a file of tags, or of a value in it. Rows are numbered from 1, after the header.
#[derive(Clone, Copy, Debug, PartialEq, Eq)]
pub enum ConditionsFault {
    /// The file or a row is at fault, whatever its value says.
    Row(TagsFault),
    /// The value of a row is at fault.
    Value {
        /// The row.
        row: u32,
        /// The first fault of the value, with its place there.
        fault: ValueFault,
    },
    /// The hours of this row's value, or a row of its element, would need more than 128 basic domains. Of an element it is the
    /// last row whose tag says when it may be used.
    TooMany {
        /// The row.
        row: u32,
    },
}

// The number of the row of a fault that has no value: 0 of the whole file, and that of the first row too many.
fn row_number(fault: TagsFault) -> u32
    ensures { result ≡ spec.tags_row fault }
{
    match fault {
        TagsFault::TooLarge => 0,
        TagsFault::Header => 0,
        TagsFault::FieldCount { row } => row,
        TagsFault::Element { row } => row,
        TagsFault::Key { row } => row,
        TagsFault::Repeated { row } => row,
        TagsFault::TooManyRows => MOST_ROWS + 1,
    }
}

impl ConditionsFault {
    /// The number of its row: 0, if it is of the whole file, and 65,537, if there are too many rows.
    pub fn row_number(self) -> u32
        ensures row { result ≡ spec.row_number self }
    {
        match self {
            ConditionsFault::Row(fault) => row_number(fault),
            ConditionsFault::Value { row, .. } => row,
            ConditionsFault::TooMany { row } => row,
        }
    }
}
