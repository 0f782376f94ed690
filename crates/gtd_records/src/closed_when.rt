//! When rows close an element, as far as this is seen without their domains.

ghost use Rattle.std.specs.Prelude.{◌≡◌};
ghost use Rattle.gtd_rows.specs.declared.direction.Direction.TheVariants.{Positive, Negative};

use gtd_rows::Direction;

/// When the records of an element close a direction of it for a vehicle type, as far as this is seen without their domains.
#[derive(Clone, Copy, Debug)]
pub enum ClosedWhen {
    /// At no second: no record concerns the direction and the vehicle type.
    Never,
    /// At every second: a record without a domain does.
    Always,
    /// At the seconds of domains: some records do, and each of these has a domain.
    ByDomains,
}

/// When the records of an element close a direction of it, and a hash of what closes it.
#[derive(Clone, Copy, Debug)]
pub struct ClosedDirection {
    /// When they close it.
    pub when: ClosedWhen,
    /// The hash of the texts of their domains, in whatever order. If as many rows with the same texts close another element, it
    /// has the same, and few others have.
    pub hash: u32,
}

/// When the records of an element close each direction of it.
#[derive(Clone, Copy, Debug)]
pub struct ClosedDirections {
    /// The positive direction.
    pub positive: ClosedDirection,
    /// The negative direction.
    pub negative: ClosedDirection,
}

impl ClosedDirections {
    /// A direction of the two.
    pub fn of(&self, direction: Direction) -> ClosedDirection
        ensures positive { direction ≡ Positive → result ≡ self.now.positive }
        ensures negative { direction ≡ Negative → result ≡ self.now.negative }
    {
        match direction {
            Direction::Positive => self.positive,
            Direction::Negative => self.negative,
        }
    }
}
