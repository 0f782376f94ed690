//! What is asked about the elements of a record file.

use gtd_core::Sec;

/// How states are printed.
#[derive(Clone, Copy, Debug, PartialEq, Eq)]
pub enum Form {
    /// A line of fields with commas between them for each state, after a header.
    Lines,
    /// A JSON object on a line of its own for each state.
    Json,
    /// Columns for a screen, after a header.
    Table,
}

/// What is asked about the elements of a record file: the state of which of them, at which second, and for which vehicle type;
/// and how it is printed.
#[derive(Clone, Copy)]
pub struct Asked<'a> {
    /// The vehicle type.
    pub vehicle: u8,
    /// The second.
    pub second: Sec,
    /// Whether those alone are asked about that are closed at the second.
    pub closed: bool,
    /// The elements that are asked about. If none is named, all are.
    pub elements: &'a [u64],
    /// How states are printed.
    pub form: Form,
    /// Whether the rows that close an element are told with it: each with its number, the canonical text of its domain, and the
    /// words of that.
    pub why: bool,
}
