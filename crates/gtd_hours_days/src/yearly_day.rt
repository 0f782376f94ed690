//! Days of each year.

use crate::offset::Offset;
use gtd_hours::End;

/// A day of each year.
#[derive(Clone, Copy, Debug, PartialEq, Eq)]
pub enum YearlyDay {
    /// A date, or a place of a weekday in a month: `Oct 31`, `Mar Su[-1]`.
    Calendar(End),
    /// So many days after Easter Sunday: `easter`, `easter -47 days`.
    Easter(Offset),
}
