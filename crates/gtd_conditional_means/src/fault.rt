//! Why a table of means is not read.

ghost use Rattle.std.specs.Prelude.{◌≡◌, Some};
ghost use Rattle.gtd_conditional_means.specs.FaultTexts as spec;

use std::fmt;
use std::fmt::{Display, Formatter};

/// A fault of a table of means. Rows are numbered from 1, after the header. A table with `TooLarge` or `Header` has no other
/// fault. Of each row that is at fault it has the first in this order: `FieldCount`, `Kind`, `Vehicle`, `Name`, `Repeated`,
/// `Value`. `TooManyRows` comes last.
#[derive(Clone, Copy, Debug, PartialEq, Eq)]
pub enum MeansFault {
    /// The table has more than 16,777,216 bytes.
    TooLarge,
    /// The first record is not `kind,name,means`, or there is none.
    Header,
    /// There are more than 4,096 rows.
    TooManyRows,
    /// A row does not have three fields.
    FieldCount { row: u32 },
    /// A row's third field names no vehicle types, and its kind is `mode` or `condition`.
    Vehicle { row: u32 },
    /// A row's name is not one of its kind.
    Name { row: u32 },
    /// A row's name and kind are those of an earlier row, or `value` and one of `no`, `yes`, `designated` and `permissive`.
    Repeated { row: u32 },
    /// A row's third field is not `open` or `closed`, and its kind is `value`; or it is not empty, and its kind is `ignore`.
    Value { row: u32 },
    /// A row's first field is not `mode`, `condition`, `value` or `ignore`.
    Kind { row: u32 },
}

/// The line of a fault after the table's name: the row, if the fault is of one, and the fault's name.
#[derive(Clone, Copy)]
pub struct MeansFaultText(pub MeansFault);

impl Display for MeansFaultText {
    ghost output = { λ shown. Some (spec.fault_text shown.0) };

    fn fmt<W: fmt::Write>(&self, f: &mut Formatter<W>) -> fmt::Result {
        match self.0 {
            MeansFault::TooLarge => write!(f, "TooLarge"),
            MeansFault::Header => write!(f, "Header"),
            MeansFault::TooManyRows => write!(f, "row 4097: TooManyRows"),
            MeansFault::FieldCount { row } => write!(f, "row {row}: FieldCount"),
            MeansFault::Vehicle { row } => write!(f, "row {row}: Vehicle"),
            MeansFault::Name { row } => write!(f, "row {row}: Name"),
            MeansFault::Repeated { row } => write!(f, "row {row}: Repeated"),
            MeansFault::Value { row } => write!(f, "row {row}: Value"),
            MeansFault::Kind { row } => write!(f, "row {row}: Kind"),
        }
    }
}
