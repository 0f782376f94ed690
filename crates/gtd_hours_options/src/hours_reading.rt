//! How texts of hours are read.

use crate::options::Options;
use gtd_hours_loose::Manner;

/// How texts of hours are read: what [`read_hours_with_in`](crate::read_hours_with_in) is told beside the text.
#[derive(Clone, Copy)]
pub struct HoursReading<'a> {
    /// Whether as they are written, or also where they are written loosely.
    pub manner: Manner,
    /// What is known of holidays, and what is given for times.
    pub options: &'a Options,
}
