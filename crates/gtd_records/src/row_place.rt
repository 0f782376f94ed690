//! The places of records, with the directions and vehicle types of these.

ghost use Rattle.std.specs.Prelude.{◌≡◌, ◌↔◌, IsTrue};
ghost use Rattle.gtd_rows.specs.Serving.{ClosesDirection};
ghost use Rattle.gtd_records.specs.RowPlaces.{directions_of, one_or_row, place_of, vehicles_of};
ghost use Rattle.gtd_rows.specs.declared.direction.Closed.{Closed as closed_spec};

use crate::record::Record;
use gtd_places::{RowDirections, RowPlace, RowVehicles};
use gtd_rows::{Closed, Codes, Direction, Vehicles};

// The directions that a record closes, as its place has them.
fn directions_of(closed: Closed) -> RowDirections
    ensures { result ≡ directions_of closed }
{
    match closed {
        Closed::One(direction) => match direction {
            Direction::Positive => RowDirections::Positive,
            Direction::Negative => RowDirections::Negative,
        },
        Closed::Both => RowDirections::Both,
    }
}

// The vehicle types with these codes, as a place has them: a single one, or else those of the row.
fn one_or_row(codes: &Codes) -> RowVehicles
    ensures { result ≡ one_or_row codes.now }
{
    let codes = codes.as_slice();
    if codes.len() == 1 {
        return RowVehicles::One(codes[0]);
    }
    RowVehicles::SeeRow
}

// The vehicle types of a record, as its place has them.
fn vehicles_of(vehicles: &Vehicles) -> RowVehicles
    ensures { result ≡ vehicles_of vehicles.now }
{
    match vehicles {
        Vehicles::Every => RowVehicles::Every,
        Vehicles::Only(types) => one_or_row(types),
        Vehicles::AllBut(_) => RowVehicles::SeeRow,
    }
}

/// The place of a record whose row comes after so many others.
pub(crate) fn place_of(restriction: &Record, row: u32) -> RowPlace
    ensures { result ≡ place_of restriction.now row }
{
    RowPlace {
        element: restriction.element,
        row,
        directions: directions_of(restriction.closed),
        vehicles: vehicles_of(&restriction.vehicles),
    }
}

/// Whether a direction is one of those that a place has.
pub(crate) fn is_closed_in(directions: RowDirections, direction: Direction) -> bool
    ensures closes { (closed : closed_spec) → directions ≡ directions_of closed
        → IsTrue result ↔ ClosesDirection closed direction }
{
    match directions {
        RowDirections::Positive => direction == Direction::Positive,
        RowDirections::Negative => direction == Direction::Negative,
        RowDirections::Both => true,
    }
}
