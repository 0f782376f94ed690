//! Places in the order of their elements.

ghost use Rattle.std.specs.Prelude.{◌≡◌, ◌↔◌, ◌<◌, ◌≤◌, ℕ, length, map, IfOk};
ghost use Rattle.std.specs.List.{AllWithin, Contains};
ghost use Rattle.std.specs.List.Sorted.{IsNonDecreasingBy, IsPermutation, IsStrictlyIncreasing};

use crate::place::RowPlace;
use crate::sections::Sections;
use crate::spread::spread;
use std::alloc::{AllocError, Global};

/// Places in the order of their elements, and the sections in which an element is found among them.
#[derive(Drop)]
pub struct OrderedPlaces {
    /// The places.
    pub places: Vec<RowPlace>,
    /// Their sections.
    pub sections: Sections,
}

/// The same places, in the order of their elements. `AllocError` is answered only if memory was refused.
pub fn by_element(alloc: Global, mut places: Vec<RowPlace>) -> Result<OrderedPlaces, AllocError>
    ensures moved { IfOk result (λ ordered. IsPermutation places.items ordered.places.items) }
    ensures sorted { IfOk result (λ ordered. IsNonDecreasingBy (λ (p : RowPlace). p.element) ordered.places.items) }
    ensures long { IfOk result (λ ordered. length ordered.places.items ≡ length places.items) }
{
    let sections = Sections::new(alloc, places.as_slice())?;
    let mut ready = sections.starts(alloc)?;
    spread(places.as_mut_slice(), &sections, ready.as_mut_slice());
    places.sort_unstable_by_key(|place| place.element);
    Ok(OrderedPlaces { places, sections })
}

// The elements of places, in their order.
fn numbers_of(alloc: Global, places: &[RowPlace]) -> Result<Vec<u64>, AllocError>
    ensures { IfOk result (λ numbers. numbers.items ≡ map (λ (p : RowPlace). p.element) places.now) }
{
    places.iter().map(|place| place.element).collect(alloc)
}

/// The elements of places that are ordered by element, in ascending order, each once. `AllocError` is answered only if memory
/// was refused.
pub fn elements_of(alloc: Global, places: &[RowPlace]) -> Result<Vec<u64>, AllocError>
    requires { IsNonDecreasingBy (λ (p : RowPlace). p.element) places.now }
    ensures ascending { IfOk result (λ elements. IsStrictlyIncreasing elements.items) }
    ensures same { IfOk result (λ elements. (element : ℕ) → Contains elements.items element
        ↔ Contains (map (λ (p : RowPlace). p.element) places.now) element) }
{
    let mut elements = numbers_of(alloc, places)?;
    elements.dedup();
    Ok(elements)
}

// The number of places of elements below a given one.
pub(crate) fn places_below(places: &[RowPlace], element: u64) -> usize
    requires { IsNonDecreasingBy (λ (p : RowPlace). p.element) places.now }
    ensures within { result ≤ length places.now }
    ensures below { AllWithin (λ (p : RowPlace). p.element < element) places.now 0 result }
    ensures rest { AllWithin (λ (p : RowPlace). element ≤ p.element) places.now result (length places.now) }
{
    places.partition_point(|place| place.element < element)
}
