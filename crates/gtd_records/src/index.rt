//! The records of a file in memory, found by their element.

ghost use Rattle.std.specs.Prelude.{Any, ◌≡◌, ◌↔◌, ◌≤◌, ◌<◌, length, slice_index_or, ℤ, IfOk, IfSome, IsFalse, IsTrue};
ghost use Rattle.gtd_core.specs.Limits.{most_nodes, most_rows};
ghost use Rattle.gtd_core.specs.Seconds.{IsHorizonSecond, Within};
ghost use Rattle.gtd_core.specs.Whole.{whole};
ghost use Rattle.gtd_eval.specs.Periods.{RepeatsFrom};
ghost use Rattle.gtd_eval.specs.Stays.{IsStay};
ghost use Rattle.gtd_records.specs.ClosedWhen.{IsClosedWhen};
ghost use Rattle.gtd_records.specs.Closing.{AreElements, Closes, ClosesOneWay, Concerns, IsClosed, Restriction};
ghost use Rattle.gtd_eval.specs.Cursors.{SomeHolds};
ghost use Rattle.gtd_records.specs.ClosingCursors.{AreAtStart, HasSecond, IsClosedRepeating, RepeatIn, nodes_with_cursors};
ghost use Rattle.gtd_records.specs.ClosingRows.{AreClosingRows};
ghost use Rattle.gtd_records.specs.Index.{AreClosing, AreElementPlaces, ArePlaces, ArePlacesWithin, IsRepeated, IsSoleRow};
ghost use Rattle.gtd_rows.specs.Columns.{IsSortedSet};
ghost use Rattle.gtd_rows.specs.declared.direction.Direction.TheVariants.{Positive, Negative};
ghost use Rattle.gtd_records.specs.RowPlaces.{place_of};

use crate::closed_when::{ClosedDirection, ClosedDirections, ClosedWhen};
use crate::closing_cursors::ClosingCursors;
use crate::record::Record;
use crate::row_place::{is_closed_in, place_of};
use gtd_core::{Horizon, Op, Sec};
use gtd_eval::{Period, Stay};
use gtd_places::{
    OrderedPlaces, RowPlace, RowVehicles, Sections, by_element, elements_of, places_below_near,
};
use gtd_rows::{DirectedElement, Direction};
use std::alloc::{AllocError, Global};
use std::marker::Model;

// How many records of an element are not compared with one another: so few are joined sooner than compared.
const FEW: usize = 4;

// With how many of the records before it a later one is compared.
const MOST_COMPARED: usize = 64;

/// The records of a file, in the order of its rows and found by their element. There are at most 65,536.
#[derive(Drop)]
pub struct Records {
    rows: Vec<Record>,
    places: Vec<RowPlace>,
    elements: Vec<u64>,
    sections: Sections,
}

impl Model for Records {
    ghost use Rattle.std.specs.Prelude.{List};
    ghost use Rattle.std.specs.Coded.{coded_list};
    ghost use Rattle.gtd_records.specs.Index.{IsIndexed};
    ghost use Rattle.gtd_records.specs.Closing.{Restriction};
    ghost use Rattle.gtd_records.specs.facts.RestrictionCode.{restriction_code};

    ghost Value = { List Restriction };

    ghost coded = { coded_list restriction_code };

    ghost view = { λ a. a.rows.items };

    ghost invariant = { λ a. IsIndexed a.rows.items a.places.items a.elements.items };
}

// The places of records, by element.
fn places_of(alloc: Global, rows: &[Record]) -> Result<OrderedPlaces, AllocError>
    requires { length rows.now ≤ most_rows }
    ensures { IfOk result (λ ordered. ArePlaces rows.now ordered.places.items) }
{
    let mut places = Vec::with_capacity(alloc, rows.len())?;
    for (row, record) in rows.iter().enumerate() {
        places.push(place_of(record, row as u32))?;
    }
    let ordered = by_element(alloc, places)?;
    Ok(ordered)
}

// The same numbers, in ascending order, each once.
fn in_order(mut numbers: Vec<usize>) -> Vec<usize>
    ensures { IsSortedSet numbers.items result.items }
{
    numbers.sort_unstable();
    numbers.dedup();
    numbers
}

impl Records {
    // The records of rows, in their order.
    pub(crate) fn new(alloc: Global, rows: Vec<Record>) -> Result<Records, AllocError>
        requires { length rows.items ≤ most_rows }
        ensures { IfOk result (λ records. records ≡ rows.items) }
    {
        let ordered = places_of(alloc, rows.as_slice())?;
        let elements = elements_of(alloc, ordered.places.as_slice())?;
        let OrderedPlaces { places, sections } = ordered;
        Ok(Records {
            rows,
            places,
            elements,
            sections,
        })
    }

    /// The records, in the order of the file's rows. Takes no memory.
    pub fn rows(&self) -> &[Record]
        ensures rows { result.now ≡ self.now }
    {
        self.rows.as_slice()
    }

    /// The elements that the records name, in ascending order, each once. Takes no memory.
    pub fn elements(&self) -> &[u64]
        ensures named { AreElements self.now result.now }
    {
        self.elements.as_slice()
    }

    // The places of the element's records.
    pub(crate) fn places_of_element(&self, element: u64) -> &[RowPlace]
        ensures places { AreElementPlaces self.now element result.now }
    {
        let places = self.places.as_slice();
        let from = places_below_near(places, self.sections.start_near(element), element);
        for at in from..places.len() {
            let place = places[at];
            if place.element != element {
                return &places[from..at];
            }
        }
        &places[from..]
    }

    // Whether the record at a place closes its element in a direction for a vehicle type, whatever the second. Mostly the place
    // decides this, without a look at the record.
    fn concerns_at(&self, place: &RowPlace, direction: Direction, vehicle: u8) -> bool
        requires inside { place.now.row < length self.now }
        ensures concerns { (r : Restriction) → r ≡ slice_index_or self.now place.now.row r
            → place.now ≡ place_of r place.now.row → IsTrue result ↔ Concerns direction vehicle r }
    {
        if !is_closed_in(place.directions, direction) {
            return false;
        }
        match place.vehicles {
            RowVehicles::Every => true,
            RowVehicles::One(code) => code == vehicle,
            RowVehicles::SeeRow => self.rows[place.row as usize].vehicles.serves(vehicle),
        }
    }

    // Whether the record at a place closes its element in a direction for a vehicle type at a second.
    fn closes_at(&self, place: &RowPlace, direction: Direction, vehicle: u8, second: Sec) -> bool
        requires inside { place.now.row < length self.now }
        requires in_range { IsHorizonSecond second.0 }
        ensures closes { (r : Restriction) → r ≡ slice_index_or self.now place.now.row r
            → place.now ≡ place_of r place.now.row
            → IsTrue result ↔ Closes r.element direction vehicle second.0 r }
    {
        self.concerns_at(place, direction, vehicle) && self.rows[place.row as usize].holds(second)
    }

    /// Whether some record closes the element in the direction for the vehicle type at the second. The vehicle type
    /// must be from 1 to 99, and the second on a day that a horizon may have. Takes no memory.
    pub fn closed_at(&self, element: u64, direction: Direction, vehicle: u8, second: Sec) -> bool
        requires in_range { IsHorizonSecond second.0 }
        ensures closed { IsTrue result ↔ IsClosed self.now element direction vehicle second.0 }
    {
        for place in self.places_of_element(element) {
            if self.closes_at(place, direction, vehicle, second) {
                return true;
            }
        }
        false
    }

    /// Whether some record closes the element in one direction alone for the vehicle type. If none does, the element is open
    /// in one direction at the seconds at which it is open in the other. Takes no memory.
    pub fn closes_one_way(&self, element: u64, vehicle: u8) -> bool
        ensures one_way { IsTrue result ↔ Any (ClosesOneWay element vehicle) self.now }
    {
        for place in self.places_of_element(element) {
            if self.rows[place.row as usize].closes_one_way(vehicle) {
                return true;
            }
        }
        false
    }

    /// The numbers of the rows that close the element in the direction for the vehicle type at the second, counted from
    /// 1 and in ascending order. The vehicle type must be from 1 to 99, and the second on a day that a horizon may have.
    /// `AllocError` is answered only if memory was refused.
    pub fn closing_rows(
        &self,
        alloc: Global,
        element: u64,
        direction: Direction,
        vehicle: u8,
        second: Sec,
    ) -> Result<Vec<usize>, AllocError>
        requires in_range { IsHorizonSecond second.0 }
        ensures rows { IfOk result
            (λ rows. AreClosingRows self.now element direction vehicle second.0 rows.items) }
    {
        let mut rows = Vec::new(alloc);
        for place in self.places_of_element(element) {
            let restriction = &self.rows[place.row as usize];
            if restriction.closes(direction, vehicle, second) {
                rows.push(place.row as usize + 1)?;
            }
        }
        Ok(in_order(rows))
    }

    // Whether the record at one of the places just before has the same domain, and concerns the direction and the vehicle type.
    pub(crate) fn is_repeated(
        &self,
        places: &[RowPlace],
        at: usize,
        other: &Record,
        direction: Direction,
        vehicle: u8,
    ) -> bool
        requires placed { ArePlacesWithin self.now places.now }
        requires at_in { at ≤ length places.now }
        ensures repeated { IsTrue result
            → IsRepeated self.now places.now direction vehicle at other.now.domain }
    {
        for before in at.saturating_sub(MOST_COMPARED)..at {
            let place = places[before];
            if self.rows[place.row as usize].closes_alike(other, direction, vehicle) {
                return true;
            }
        }
        false
    }

    // Whether the record at one of the places of an element concerns the direction and the vehicle type, and may close the
    // element at seconds at which those before it do not. Where an element has many records, equal ones add nothing.
    fn adds(
        &self,
        places: &[RowPlace],
        at: usize,
        other: &Record,
        direction: Direction,
        vehicle: u8,
    ) -> bool
        requires placed { ArePlacesWithin self.now places.now }
        requires at_in { at ≤ length places.now }
        ensures concerns { IsTrue result → Concerns direction vehicle other.now }
        ensures repeated { IsFalse result → Concerns direction vehicle other.now
            → IsRepeated self.now places.now direction vehicle at other.now.domain }
    {
        if !other.concerns(direction, vehicle) {
            return false;
        }
        at < FEW || !self.is_repeated(places, at, other, direction, vehicle)
    }

    // Whether some record closes the element in the direction for the vehicle type at the second, and how long that does
    // not change.
    pub(crate) fn stay(
        &self,
        element: u64,
        direction: Direction,
        vehicle: u8,
        second: Sec,
        horizon: Horizon,
    ) -> Stay
        requires inside { Within (whole horizon) second.0 }
        ensures stays { IsStay (IsClosed self.now element direction vehicle) second.0 (whole horizon).until result }
    {
        let mut stay = Stay {
            holds: false,
            until: horizon.until(),
        };
        let places = self.places_of_element(element);
        for (at, place) in places.iter().enumerate() {
            let restriction = &self.rows[place.row as usize];
            if self.adds(places, at, restriction, direction, vehicle) {
                stay = Stay::joined(Op::Union, stay, restriction.stay(second, horizon));
            }
        }
        stay
    }

    // The row of a record at whose seconds alone the element is closed in the direction for the vehicle type, if there is one: it
    // is the only such record, or the others have its domain. Takes no memory.
    pub(crate) fn sole_row(&self, element: u64, direction: Direction, vehicle: u8) -> Option<usize>
        ensures sole { IfSome result (IsSoleRow self.now element direction vehicle) }
    {
        let mut sole = None;
        let places = self.places_of_element(element);
        for (at, place) in places.iter().enumerate() {
            let row = place.row as usize;
            if self.adds(places, at, &self.rows[row], direction, vehicle) {
                if sole.is_some() {
                    return None;
                }
                sole = Some(row);
            }
        }
        sole
    }

    // The period after which each record that closes the element in the direction for the vehicle type repeats, if all do.
    pub(crate) fn period(&self, element: u64, direction: Direction, vehicle: u8) -> Option<Period>
        ensures repeats { IfSome result (λ x. RepeatsFrom x (IsClosed self.now element direction vehicle)) }
    {
        let mut longest = Period::Minute;
        for place in self.places_of_element(element) {
            let restriction = &self.rows[place.row as usize];
            if restriction.concerns(direction, vehicle) {
                let period = restriction.period()?;
                longest = longest.longer(period);
            }
        }
        Some(longest)
    }

    // When the records at the places of an element close a direction of it. The search ends at a record without a domain.
    fn closed_direction(
        &self,
        places: &[RowPlace],
        at: DirectedElement,
        vehicle: u8,
    ) -> ClosedDirection
        requires places { AreElementPlaces self.now at.element places.now }
        ensures when { IsClosedWhen at.element at.direction vehicle self.now result.when }
    {
        let mut when = ClosedWhen::Never;
        let mut hash = 0u32;
        for place in places {
            if self.concerns_at(place, at.direction, vehicle) {
                let row = &self.rows[place.row as usize];
                if row.domain().is_none() {
                    let when = ClosedWhen::Always;
                    return ClosedDirection { when, hash: 1 };
                }
                when = ClosedWhen::ByDomains;
                hash = hash.wrapping_add(row.spread_hash());
            }
        }
        ClosedDirection { when, hash }
    }

    /// When the records close the element in each direction for the vehicle type, as far as this is seen without their domains:
    /// never, always, or at the seconds of domains. The search ends at a record without a domain that closes it. Takes no memory.
    pub fn closed_directions(&self, element: u64, vehicle: u8) -> ClosedDirections
        ensures positive { IsClosedWhen element Positive vehicle self.now result.positive.when }
        ensures negative { IsClosedWhen element Negative vehicle self.now result.negative.when }
    {
        let places = self.places_of_element(element);
        let positive = DirectedElement {
            element,
            direction: Direction::Positive,
        };
        let negative = DirectedElement {
            element,
            direction: Direction::Negative,
        };
        ClosedDirections {
            positive: self.closed_direction(places, positive, vehicle),
            negative: self.closed_direction(places, negative, vehicle),
        }
    }

    // The same for one direction.
    pub(crate) fn closed_when(&self, at: DirectedElement, vehicle: u8) -> ClosedWhen
        ensures when { IsClosedWhen at.element at.direction vehicle self.now result }
    {
        let places = self.places_of_element(at.element);
        self.closed_direction(places, at, vehicle).when
    }

    // The cursors of the records that close the element in the direction for the vehicle type, of equal ones perhaps one.
    pub(crate) fn closing(
        &self,
        alloc: Global,
        element: u64,
        direction: Direction,
        vehicle: u8,
        horizon: Horizon,
    ) -> Result<ClosingCursors, AllocError>
        ensures nodes { IfOk result (λ c. nodes_with_cursors c ≤ most_nodes) }
        ensures seconds { IfOk result (λ c. AreClosing self.now element direction vehicle horizon (HasSecond c)) }
        ensures repeats { IfOk result (λ c. RepeatIn horizon c.period c.repeating.items) }
        ensures again { IfOk result (λ c. (t : ℤ) → SomeHolds c.repeating.items t
            → IsClosedRepeating c.period self.now element direction vehicle t) }
        ensures start { IfOk result AreAtStart }
    {
        let places = self.places_of_element(element);
        let mut cursors = ClosingCursors::none(alloc);
        for (at, place) in places.iter().enumerate() {
            let restriction = &self.rows[place.row as usize];
            if self.adds(places, at, restriction, direction, vehicle) {
                cursors.add(alloc, restriction, horizon)?;
            }
        }
        Ok(cursors)
    }
}
