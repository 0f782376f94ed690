//! Why a file of tags is at fault.

ghost use Rattle.std.specs.Prelude.{◌≡◌, Some};
ghost use Rattle.gtd_conditional_tags.specs.FaultTexts as spec;

use std::fmt;
use std::fmt::{Display, Formatter};

/// A fault of a file of tags. Rows are numbered from 1, after the header. A file with `TooLarge` or `Header` has no other
/// fault. Of each row that is at fault it has the first in this order: `FieldCount`, `Element`, `Key`, `Repeated`.
/// `TooManyRows` comes last.
#[derive(Clone, Copy, Debug, PartialEq, Eq)]
pub enum TagsFault {
    /// The file has more than 16,777,216 bytes.
    TooLarge,
    /// The first record is not `element,key,value`, or there is none.
    Header,
    /// A row does not have three fields.
    FieldCount { row: u32 },
    /// A row's first field is not a number of 1 to 10 digits.
    Element { row: u32 },
    /// A row's key ends in `:conditional`, is not one of a mode of the table, and the table does not ignore its name.
    Key { row: u32 },
    /// A row's key is that of an earlier row of its element.
    Repeated { row: u32 },
    /// There are more than 65,536 rows.
    TooManyRows,
}

/// The line of a fault after the file's name: the row, if the fault is of one, and the fault's name.
#[derive(Clone, Copy)]
pub struct TagsFaultText(pub TagsFault);

impl Display for TagsFaultText {
    ghost output = { λ shown. Some (spec.fault_text shown.0) };

    fn fmt<W: fmt::Write>(&self, f: &mut Formatter<W>) -> fmt::Result {
        match self.0 {
            TagsFault::TooLarge => write!(f, "TooLarge"),
            TagsFault::Header => write!(f, "Header"),
            TagsFault::FieldCount { row } => write!(f, "row {row}: FieldCount"),
            TagsFault::Element { row } => write!(f, "row {row}: Element"),
            TagsFault::Key { row } => write!(f, "row {row}: Key"),
            TagsFault::Repeated { row } => write!(f, "row {row}: Repeated"),
            TagsFault::TooManyRows => write!(f, "row 65537: TooManyRows"),
        }
    }
}
