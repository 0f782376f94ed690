//! Ranges of days that move from year to year.

ghost use Rattle.gtd_hours.specs.Moving.{IsMoving};
ghost use Rattle.std.proofs.Props.{props};

use crate::places::End;

/// From a day of each year to one of the same or the next year, at least one of which is a place of a weekday. The order of
/// the two is the same in each year, and a range ends before the next begins.
#[derive(Clone, Copy, Debug, PartialEq, Eq)]
pub struct Moving {
    /// The first day. Not 29 February.
    pub first: End,
    /// The last day, which is included. Not 29 February.
    pub last: End,
    /// Whether the range goes over the end of the year, to the last day of the next one.
    pub is_over: bool,
    pub ghost in_order: { IsMoving is_over first last } by { Prim.hlevel props },
}
