//! How the two files are read.

use gtd_hours_options::HoursReading;

/// The paths of the two files, as faults name them.
#[derive(Clone, Copy)]
pub struct Paths<'a> {
    /// That of the file of tags.
    pub tags: &'a str,
    /// That of the table of means.
    pub means: &'a str,
}

/// How the two files are read.
#[derive(Clone, Copy)]
pub struct ConditionsReading<'a> {
    /// Their paths.
    pub paths: Paths<'a>,
    /// How hours in values are read.
    pub hours: HoursReading<'a>,
}
