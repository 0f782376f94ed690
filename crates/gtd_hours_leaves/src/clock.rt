//! Clocks, to the minute.

ghost use Rattle.gtd_hours.specs.Ranges.{IsClock};
ghost use Rattle.std.proofs.Props.{props};

/// An hour and a minute of a day.
#[derive(Clone, Copy, Debug, PartialEq, Eq)]
pub struct Clock {
    pub hour: u8,
    pub minute: u8,
    pub ghost in_range: { IsClock hour minute } by { Prim.hlevel props },
}
