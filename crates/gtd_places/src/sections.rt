//! Where the places of an element are looked for.

ghost use Rattle.std.specs.Prelude.{◌<◌, ◌≤◌, IsTrue, length};
ghost use Rattle.std.specs.List.{AllWithin};
ghost use Rattle.std.specs.List.Sorted.{IsNonDecreasingBy};
ghost use Rattle.gtd_places.specs.declared.place.RowPlace.{RowPlace};

use crate::order::places_below;
use crate::place::RowPlace;
use std::alloc::{AllocError, Global};

/// How many places a section has at most, if elements are spread evenly.
const SHARE: usize = 4;

/// How many places are gone through one by one, before an element is looked for among all of them.
const FEW: usize = 8;

/// Elements in sections of one length, and how many places there are up to the end of each section. By them an element is found
/// sooner than among all places. Nothing rests on what they say: whoever looks sees whether it holds.
#[derive(Drop)]
pub struct Sections {
    /// The least element.
    least: u64,
    /// A section has as many elements as 2 to this power.
    bits: u32,
    /// The number of places up to the end of each section.
    upto: Vec<u32>,
}

// The length of sections, as a power of two, if elements from the first to the last are to be in so many, or up to twice as many.
fn bits_for(range: u64, count: usize) -> u32 {
    let length = range.saturating_add(1).checked_div(count as u64);
    match length {
        Some(length) => 63u32.saturating_sub(length.leading_zeros()),
        None => 63,
    }
}

// The least element of places, and the greatest less the least.
fn range_of(places: &[RowPlace]) -> (u64, u64) {
    let mut least = u64::MAX;
    let mut greatest = 0u64;
    for place in places {
        least = least.min(place.element);
        greatest = greatest.max(place.element);
    }
    (least, greatest.saturating_sub(least))
}

// So many zeros.
fn zeros(alloc: Global, count: usize) -> Result<Vec<u32>, AllocError> {
    let mut zeros = Vec::with_capacity(alloc, count)?;
    for _ in 0..count {
        zeros.push(0)?;
    }
    Ok(zeros)
}

/// Counts one more in a section.
pub(crate) fn count_one(counts: &mut [u32], section: usize) {
    if let Some(count) = counts.get_mut(section) {
        *count = count.saturating_add(1);
    }
}

// Adds to the count of each section those of the sections before it.
fn add_up(counts: &mut [u32]) {
    let mut sum = 0u32;
    for section in 0..counts.len() {
        sum = sum.saturating_add(counts[section]);
        counts[section] = sum;
    }
}

impl Sections {
    /// The sections of places, in whatever order.
    pub(crate) fn new(alloc: Global, places: &[RowPlace]) -> Result<Sections, AllocError> {
        let (least, range) = range_of(places);
        let bits = bits_for(range, places.len() / SHARE);
        let count = (range >> (bits % 64)).saturating_add(1);
        let mut sections = Sections {
            least,
            bits,
            upto: zeros(alloc, count as usize)?,
        };
        for place in places {
            let section = sections.section_of(place.element);
            count_one(sections.upto.as_mut_slice(), section);
        }
        add_up(sections.upto.as_mut_slice());
        Ok(sections)
    }

    /// The section of an element.
    pub(crate) fn section_of(&self, element: u64) -> usize {
        (element.saturating_sub(self.least) >> (self.bits % 64)) as usize
    }

    /// The number of places before a section.
    pub(crate) fn start(&self, section: usize) -> usize {
        let Some(before) = section.checked_sub(1) else {
            return 0;
        };
        match self.upto.get(before) {
            Some(start) => *start as usize,
            None => 0,
        }
    }

    /// The number of places before the section of an element, once they are ordered.
    pub fn start_near(&self, element: u64) -> usize {
        self.start(self.section_of(element))
    }

    /// The number of places before each section.
    pub(crate) fn starts(&self, alloc: Global) -> Result<Vec<u32>, AllocError> {
        let mut starts = Vec::with_capacity(alloc, self.upto.len())?;
        let mut start = 0u32;
        for end in self.upto.as_slice() {
            starts.push(start)?;
            start = *end;
        }
        Ok(starts)
    }
}

// Whether the places before one are of elements below a given one.
fn are_below(places: &[RowPlace], from: usize, element: u64) -> bool
    requires sorted { IsNonDecreasingBy (λ (p : RowPlace). p.element) places.now }
    requires within { from ≤ length places.now }
    ensures below { IsTrue result → AllWithin (λ (p : RowPlace). p.element < element) places.now 0 from }
{
    if from == 0 {
        return true;
    }
    let last = places[from - 1];
    if last.element < element {
        return true;
    }
    false
}

/// The number of places of elements below a given one. It is looked for in a few places from `near` on first, and then in all.
pub fn places_below_near(places: &[RowPlace], near: usize, element: u64) -> usize
    requires { IsNonDecreasingBy (λ (p : RowPlace). p.element) places.now }
    ensures within { result ≤ length places.now }
    ensures below { AllWithin (λ (p : RowPlace). p.element < element) places.now 0 result }
    ensures rest { AllWithin (λ (p : RowPlace). element ≤ p.element) places.now result (length places.now) }
{
    if places.len() < near || !are_below(places, near, element) {
        return places_below(places, element);
    }
    let until = near.saturating_add(FEW).min(places.len());
    for at in near..until {
        let place = places[at];
        if element <= place.element {
            return at;
        }
    }
    places_below(places, element)
}
