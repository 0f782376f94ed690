//! For each of many things an earlier one that is like it.

ghost use Rattle.std.specs.Prelude.{◌≡◌, ◌<◌, ℕ, IfOk, IsTrue, Some, get_or, length};
ghost use Rattle.gtd_alike.specs.Firsts.{IsEarlier};

use std::alloc::{AllocError, Global};

/// At how many places a thing is looked for.
const MOST_TRIED: usize = 8;

/// What stands at a place that has no thing yet.
const NOTHING: usize = usize::MAX;

/// When two of many things are alike. They are counted from 0.
pub(crate) trait Likeness {
    // The things are alike.
    ghost alike: { Self → ℕ → ℕ → Type 0 };

    /// Whether two things are seen to be alike.
    fn is_alike(&self, first: usize, second: usize) -> bool
        ensures alike { IsTrue result → alike self.now first second };

    /// A hash of a thing. Things that are alike mostly have the same, and others mostly have not.
    fn hash(&self, at: usize) -> u32;
}

// Places without things: more than twice as many as there are things.
fn empty_places(alloc: Global, count: usize) -> Result<Vec<usize>, AllocError> {
    let mut places = Vec::new(alloc);
    for _ in 0..count.saturating_mul(2).saturating_add(MOST_TRIED) {
        places.push(NOTHING)?;
    }
    Ok(places)
}

// The place for a hash after so many others.
fn place_of(hash: u32, tried: usize, places: usize) -> usize {
    match (hash as usize).saturating_add(tried).checked_rem(places) {
        Some(place) => place,
        None => 0,
    }
}

// The earlier thing at a place that is like this one; this one, if the place was empty, and then has it; `None` if another
// thing stands there.
fn first_there<L: Likeness>(
    things: &L,
    places: &mut [usize],
    place: usize,
    at: usize,
) -> Option<usize>
    ensures first { (first : ℕ) → result ≡ Some first → IsEarlier (L.alike things.now) first at }
{
    let Some(there) = places.get_mut(place) else {
        return None;
    };
    let earlier = *there;
    if at <= earlier {
        *there = at;
        return Some(at);
    }
    if things.is_alike(earlier, at) {
        return Some(earlier);
    }
    None
}

// An earlier thing that is like this one, or itself.
fn first_of<L: Likeness>(things: &L, places: &mut [usize], at: usize) -> usize
    ensures first { IsEarlier (L.alike things.now) result at }
{
    let hash = things.hash(at);
    for tried in 0..MOST_TRIED {
        let place = place_of(hash, tried, places.len());
        if let Some(first) = first_there(things, places, place, at) {
            return first;
        }
    }
    at
}

/// For each of so many things an earlier one that is like it, or itself.
pub(crate) fn firsts_of<L: Likeness>(
    alloc: Global,
    things: &L,
    count: usize,
) -> Result<Vec<usize>, AllocError>
    ensures many { IfOk result (λ firsts. length firsts.items ≡ count) }
    ensures each { IfOk result (λ firsts. (k : ℕ) → k < count
        → IsEarlier (L.alike things.now) (get_or firsts.items k 0) k) }
{
    let mut places = empty_places(alloc, count)?;
    let mut firsts = Vec::with_capacity(alloc, count)?;
    for at in 0..count {
        let first = first_of(things, places.as_mut_slice(), at);
        firsts.push(first)?;
    }
    Ok(firsts)
}
