//! Ranges of days to or from Easter.

ghost use Rattle.gtd_hours_days.specs.EasterRanges.{IsEasterRange};
ghost use Rattle.std.proofs.Props.{props};

use crate::yearly_day::YearlyDay;

/// From a day of each year to one of the same or the next year, at least one of which is so many days after Easter Sunday. The
/// order of the two is the same in each year from 1800 to 2799, and a range ends before the next begins.
#[derive(Clone, Copy, Debug, PartialEq, Eq)]
pub struct EasterRange {
    /// The first day. Not 29 February.
    pub first: YearlyDay,
    /// The last day, which is included. Not 29 February.
    pub last: YearlyDay,
    /// Whether the range goes on to the last day of the next year.
    pub is_over: bool,
    pub ghost in_order: { IsEasterRange is_over first last } by { Prim.hlevel props },
}
