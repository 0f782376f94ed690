//! Elements that rows with the same domains close.

ghost use Rattle.std.specs.Prelude.{◌≡◌, ◌↔◌, ℤ, IsTrue, length, slice_index_or};
ghost use Rattle.gtd_records.specs.Alike.{AreCovered};
ghost use Rattle.gtd_records.specs.Closing.{IsClosed, Restriction};
ghost use Rattle.gtd_records.specs.Index.{AreElementPlaces, ArePlacesWithin, IsRepeated};

use crate::index::Records;
use gtd_places::RowPlace;
use gtd_rows::{DirectedElement, Direction};

/// How many rows an element has at most that is compared with others.
const MOST_ROWS: usize = 64;

/// The places of an element's rows, and a direction of it.
#[derive(Clone, Copy)]
struct Side<'a> {
    places: &'a [RowPlace],
    direction: Direction,
}

// Whether the row of a side at a place is this one, and closes that side's direction. Its domain is then not compared.
fn is_at(found: &Records, side: Side<'_>, at: usize, row: usize, vehicle: u8) -> bool
    requires side { ArePlacesWithin found.now side.places.now }
    ensures repeated { IsTrue result → (r : Restriction) → slice_index_or found.now row r ≡ r
        → IsRepeated found.now side.entry.places.now side.entry.direction vehicle (length side.entry.places.now) r.domain }
{
    let Some(place) = side.places.get(at) else {
        return false;
    };
    place.row as usize == row && found.rows()[row].concerns(side.direction, vehicle)
}

// Whether rows of the other side have the same domains as those of the one.
fn is_within(found: &Records, one: Side<'_>, other: Side<'_>, vehicle: u8) -> bool
    requires one { ArePlacesWithin found.now one.places.now }
    requires other { ArePlacesWithin found.now other.places.now }
    ensures covered { IsTrue result → AreCovered found.now one.entry.places.now other.entry.places.now one.entry.direction
        other.entry.direction vehicle (length one.entry.places.now) }
{
    let (part, others) = (one.places, other.places);
    if part.len() > MOST_ROWS || others.len() > MOST_ROWS {
        return false;
    }
    for at in 0..part.len() {
        let place = part[at];
        let row = &found.rows()[place.row as usize];
        if row.concerns(one.direction, vehicle)
            && !is_at(found, other, at, place.row as usize, vehicle)
            && !found.is_repeated(others, others.len(), row, other.direction, vehicle)
        {
            return false;
        }
    }
    true
}

// The places of an element's rows, where those of another one are known, which may be the same.
fn places_beside<'a>(
    found: &'a Records,
    places: &'a [RowPlace],
    one: u64,
    other: u64,
) -> &'a [RowPlace]
    requires known { AreElementPlaces found.now one places.now }
    ensures places { AreElementPlaces found.now other result.now }
{
    if other == one {
        return places;
    }
    found.places_of_element(other)
}

/// Whether an element in a direction is seen to be closed for the vehicle type at the same seconds as another, since rows with
/// the same domains close both. Domains in different texts count as different. Takes no memory.
pub fn are_closed_alike(
    found: &Records,
    one: DirectedElement,
    other: DirectedElement,
    vehicle: u8,
) -> bool
    ensures alike { IsTrue result → (t : ℤ) → IsClosed found.now one.element one.direction vehicle t
        ↔ IsClosed found.now other.element other.direction vehicle t }
{
    let places = found.places_of_element(one.element);
    let first = Side {
        places,
        direction: one.direction,
    };
    let second = Side {
        places: places_beside(found, places, one.element, other.element),
        direction: other.direction,
    };
    is_within(found, first, second, vehicle) && is_within(found, second, first, vehicle)
}
