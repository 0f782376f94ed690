//! Places of weekdays in the month, with days before or after them, and the ends of ranges that move from year to year.

ghost use Rattle.gtd_hours.specs.Ranges.{IsMonth, IsMovable};
ghost use Rattle.std.proofs.Props.{props};

use crate::hours::{MonthDay, WeekdayPlace};

/// The day that is so many days after a place of a weekday in the month, or so many days before it.
#[derive(Clone, Copy, Debug, PartialEq, Eq)]
pub struct MovedPlace {
    /// The weekday and its place, 1 to 4.
    pub place: WeekdayPlace,
    /// Whether the place is counted back from the end of the month.
    pub is_back: bool,
    /// How many days after or before the place, 0 to 27.
    pub days: u8,
    /// Whether the days are before the place. Not so if there are none. Before a place from the end of the month there are
    /// at most as many that it is the fourth last week, or a later one.
    pub is_before: bool,
    pub ghost in_range: { IsMovable place.number is_back days is_before } by { Prim.hlevel props },
}

/// A month, and a place in it with days after or before it. That day may be in another month, and even in another year.
#[derive(Clone, Copy, Debug, PartialEq, Eq)]
pub struct MonthPlace {
    /// The month of the place, 1 to 12.
    pub month: u8,
    pub place: MovedPlace,
    pub ghost month_in: { IsMonth month } by { Prim.hlevel props },
}

/// An end of a range that moves: one day of each year.
#[derive(Clone, Copy, Debug, PartialEq, Eq)]
pub enum End {
    /// `Oct 15`
    Date(MonthDay),
    /// `Oct Su[-1] -1 day`
    Place(MonthPlace),
}
