//! How many days one day is after another.

ghost use Rattle.std.specs.Prelude.{◌≤ℤ◌, neg_ℤ, pos};
ghost use Rattle.std.proofs.Props.{props};

/// So many days later, or earlier if they are less than 0: at most 366.
#[derive(Clone, Copy, Debug, PartialEq, Eq)]
pub struct Offset {
    /// The days, from -366 to 366.
    pub days: i64,
    pub ghost in_range: { (neg_ℤ (pos 366) ≤ℤ days) × (days ≤ℤ pos 366) } by { Prim.hlevel props },
}
