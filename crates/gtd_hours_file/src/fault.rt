//! Why a file of hours is at fault.

use gtd_hours_options::OptionsFault;

/// A fault of a file of hours. The variants of rows are in the order of the columns. Rows are numbered from 1, after the
/// header.
#[derive(Clone, Copy, Debug, PartialEq, Eq)]
pub enum HoursFileFault {
    /// The file has more than 16,777,216 bytes.
    TooLarge,
    /// The first record is not the header, or there is none.
    Header,
    /// A row does not have four fields.
    FieldCount { row: u32 },
    /// A row's first field is not a number of 1 to 10 digits.
    Element { row: u32 },
    /// A row's second field is not `positive`, `negative` or `both`.
    Direction { row: u32 },
    /// A row's third field names no vehicle types.
    Vehicle { row: u32 },
    /// A row's fourth field is neither empty nor opening hours that are read; this is the fault of its text.
    Hours { row: u32, fault: OptionsFault },
    /// The hours of a row take more than 128 basic domains: so many, where `u32::MAX` stands for it and for more.
    TooMany { row: u32, needed: u32 },
    /// There are more than 65,536 rows.
    TooManyRows,
}
