//! Days that come each year.

ghost use Rattle.gtd_hours_days.specs.Ranges.{IsGroup};
ghost use Rattle.std.proofs.Props.{props};

/// Consecutive days from a day of a month on, the same in each year.
#[derive(Clone, Copy)]
pub struct Group {
    /// The month of the first day, 1 to 12.
    pub month: u8,
    /// The first day, which the month has in each year.
    pub day: u8,
    /// How many days they are, 1 to 366.
    pub days: u16,
    pub ghost in_range: { IsGroup month day days } by { Prim.hlevel props },
}
