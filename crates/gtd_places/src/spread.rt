//! Places near to where they are in the order of elements.

ghost use Rattle.std.specs.Prelude.{◌≡◌, ◌<◌, length};
ghost use Rattle.std.specs.List.Sorted.{IsPermutation};

use crate::place::RowPlace;
use crate::sections::{Sections, count_one};

/// How often a place is exchanged at most with the one before it, on average. Where elements are spread so unevenly that this is
/// not enough, the sort that follows does the rest.
const MOST_EXCHANGES: usize = 8;

// The place to which one of a section is to go, unless it is in its section already.
fn place_for(sections: &Sections, ready: &[u32], section: usize, at: usize) -> Option<usize> {
    let Some(next) = ready.get(section) else {
        return None;
    };
    let next = *next as usize;
    if sections.start(section) <= at && at < next {
        return None;
    }
    Some(next)
}

// Exchanges each place with the first of its section that is not there yet, until the places of each section stand together.
// Of each section, `ready` has the number of places before those that are still to go there.
fn gather(places: &mut [RowPlace], sections: &Sections, ready: &mut [u32])
    ensures moved { IsPermutation places.old places.new }
    ensures long { length places.new ≡ length places.old }
{
    let mut at = 0usize;
    for _ in 0..places.len().saturating_mul(2) {
        if at >= places.len() {
            return;
        }
        let section = sections.section_of(places[at].element);
        match place_for(sections, ready, section, at) {
            Some(to) if to < places.len() => {
                places.swap(at, to);
                count_one(ready, section);
            }
            _ => at += 1,
        }
    }
}

// Moves a place down past those of greater elements, as long as exchanges are left.
fn sink(places: &mut [RowPlace], at: usize, left: &mut usize)
    requires at_in { at < length places.old }
    ensures moved { IsPermutation places.old places.new }
    ensures long { length places.new ≡ length places.old }
{
    for step in 0..at {
        let above = at - step;
        if *left == 0 || places[above - 1].element <= places[above].element {
            return;
        }
        places.swap(above - 1, above);
        *left -= 1;
    }
}

// Moves each place down past those of greater elements.
fn settle(places: &mut [RowPlace])
    ensures moved { IsPermutation places.old places.new }
    ensures long { length places.new ≡ length places.old }
{
    let mut left = places.len().saturating_mul(MOST_EXCHANGES);
    for at in 1..places.len() {
        sink(places, at, &mut left);
    }
}

/// Brings places near to their order by element, in a time that grows as their number does: sorting them is then a matter of one
/// pass. Of each section, `ready` has the number of places before it.
pub(crate) fn spread(places: &mut [RowPlace], sections: &Sections, ready: &mut [u32])
    ensures moved { IsPermutation places.old places.new }
    ensures long { length places.new ≡ length places.old }
{
    gather(places, sections, ready);
    settle(places);
}
