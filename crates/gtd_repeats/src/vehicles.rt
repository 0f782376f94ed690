//! Whether the vehicle types and the directions of a row are among those of another.

ghost use Rattle.std.specs.Prelude.{◌≡◌, ◌↔◌, IsTrue};
ghost use Rattle.gtd_rows.specs.Serving.{Serves};
ghost use Rattle.gtd_repeats.specs.Sameness.{ClosesWithin, ServeSame, ServesWithin};

use gtd_rows::{Closed, Direction, Vehicles};

// Whether a type is one of them.
fn serves(vehicles: &Vehicles, vehicle: u8) -> bool
    ensures member { IsTrue result ↔ Serves vehicles.now vehicle }
{
    match vehicles {
        Vehicles::Every => true,
        Vehicles::Only(types) => types.as_slice().contains(&vehicle),
        Vehicles::AllBut(types) => !types.as_slice().contains(&vehicle),
    }
}

// Whether a type is one of the others, if it is one of them.
fn serves_also(vehicles: &Vehicles, other: &Vehicles, vehicle: u8) -> bool
    ensures also { IsTrue result ↔ (Serves vehicles.now vehicle → Serves other.now vehicle) }
{
    if serves(vehicles, vehicle) {
        serves(other, vehicle)
    } else {
        true
    }
}

// Whether the others are all types, or the same types, by the way in which they are given.
fn are_seen_within(vehicles: &Vehicles, other: &Vehicles) -> bool
    ensures seen { IsTrue result → ServesWithin vehicles.now other.now }
{
    match other {
        Vehicles::Every => true,
        Vehicles::Only(types) => match vehicles {
            Vehicles::Only(those) => types.as_slice() == those.as_slice(),
            _ => false,
        },
        Vehicles::AllBut(_) => false,
    }
}

/// Whether each of the types from 1 to 99 that the one has the other has, too.
pub(crate) fn serves_within(vehicles: &Vehicles, other: &Vehicles) -> bool
    ensures within { IsTrue result ↔ ServesWithin vehicles.now other.now }
{
    if are_seen_within(vehicles, other) {
        return true;
    }
    for vehicle in 1..100u8 {
        if !serves_also(vehicles, other, vehicle) {
            return false;
        }
    }
    true
}

/// Whether both have the same of the types from 1 to 99.
pub(crate) fn serve_same(first: &Vehicles, second: &Vehicles) -> bool
    ensures same { IsTrue result ↔ ServeSame first.now second.now }
{
    serves_within(first, second) && serves_within(second, first)
}

fn is_same_direction(first: Direction, second: Direction) -> bool
    ensures same { IsTrue result ↔ (first ≡ second) }
{
    first == second
}

/// Whether both close the same directions.
pub(crate) fn close_same(first: Closed, second: Closed) -> bool
    ensures same { IsTrue result ↔ (first ≡ second) }
{
    match first {
        Closed::Both => match second {
            Closed::Both => true,
            Closed::One(_) => false,
        },
        Closed::One(direction) => match second {
            Closed::Both => false,
            Closed::One(other) => is_same_direction(direction, other),
        },
    }
}

/// Whether each direction that the one closes the other closes, too.
pub(crate) fn closes_within(closed: Closed, other: Closed) -> bool
    ensures within { IsTrue result ↔ ClosesWithin closed other }
{
    match other {
        Closed::Both => true,
        Closed::One(only) => match closed {
            Closed::Both => false,
            Closed::One(direction) => is_same_direction(direction, only),
        },
    }
}
