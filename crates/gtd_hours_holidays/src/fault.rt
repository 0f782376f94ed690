//! Why a table of holidays is not read.

ghost use Rattle.std.specs.Prelude.{◌≡◌, Some};
ghost use Rattle.gtd_hours_holidays.specs.FaultTexts as spec;

use std::fmt;
use std::fmt::{Display, Formatter};

/// A fault of a table of holidays. Rows are numbered from 1, after the header. A table with `TooLarge` or `Header` has no other
/// fault. Of each row that is at fault it has the first from the left; `TooManyRows` comes last. Only a table without these has
/// faults `Outside`.
#[derive(Clone, Copy, Debug, PartialEq, Eq)]
pub enum HolidaysFault {
    /// The table has more than 16,777,216 bytes.
    TooLarge,
    /// The first record is not `first,last,kind,name`, or there is none.
    Header,
    /// There are more than 4,096 rows.
    TooManyRows,
    /// A row does not have four fields.
    FieldCount { row: u32 },
    /// A row's first field is not a date of the years 1800 to 2799.
    First { row: u32 },
    /// A row's second field is neither empty nor a date of these years from the first on, and at most 36,599 days after it.
    Last { row: u32 },
    /// A row's third field is not `PH`, `SH`, `PH-covered` or `SH-covered`.
    Kind { row: u32 },
    /// A day of a row `PH` or `SH` is in no row that covers it.
    Outside { row: u32 },
}

/// The line of a fault after the table's name: the row, if the fault is of one, and the fault's name.
#[derive(Clone, Copy)]
pub struct HolidaysFaultText(pub HolidaysFault);

impl Display for HolidaysFaultText {
    ghost output = { λ shown. Some (spec.fault_text shown.0) };

    fn fmt<W: fmt::Write>(&self, f: &mut Formatter<W>) -> fmt::Result {
        match self.0 {
            HolidaysFault::TooLarge => write!(f, "TooLarge"),
            HolidaysFault::Header => write!(f, "Header"),
            HolidaysFault::TooManyRows => write!(f, "row 4097: TooManyRows"),
            HolidaysFault::FieldCount { row } => write!(f, "row {row}: FieldCount"),
            HolidaysFault::First { row } => write!(f, "row {row}: First"),
            HolidaysFault::Last { row } => write!(f, "row {row}: Last"),
            HolidaysFault::Kind { row } => write!(f, "row {row}: Kind"),
            HolidaysFault::Outside { row } => write!(f, "row {row}: Outside"),
        }
    }
}
