//! What is asked about two files, and how it is told.

use gtd_core::Horizon;

/// How the changes from one record file to another are told.
#[derive(Clone, Copy, Debug, PartialEq, Eq)]
pub enum Form {
    /// A line for each interval in which one of the files alone closes an element.
    Intervals,
    /// The same, and in each line the rows of either file that close the element at the first second of the interval.
    Rows,
    /// A line for each element and direction that differs, with the seconds in which it is open by either file.
    Summary,
}

/// What is asked about two record files.
#[derive(Clone, Copy, Debug)]
pub struct Asked {
    /// The days.
    pub horizon: Horizon,
    /// The vehicle type.
    pub vehicle: u8,
    /// How the changes are told.
    pub form: Form,
}
