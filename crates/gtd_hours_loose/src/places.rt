//! Where the parts of a strict form are written in the text, and whether they are written loosely.

ghost use Rattle.std.specs.Prelude.{◌≡◌, ◌≤◌, ℕ, map, IfOk};
ghost use Rattle.gtd_hours_loose.specs.Mending.{is_loose, strict_place, written_place};

use crate::strict::{Part, stretch};
use std::alloc::{AllocError, Global};

/// Whether the strict form of a part, in the strict text, is not what is written in the text.
pub fn is_loose(text: &[u8], strict: &[u8], part: Part) -> bool
    ensures { result ≡ is_loose text.now strict.now part }
{
    stretch(text, part.from, part.to) != stretch(strict, part.start, part.end)
}

/// Where in the text the token is written that begins at a place of the strict text; the end of the text for another place.
pub fn written_place(place: usize, end: usize, parts: &[Part]) -> usize
    ensures { result ≡ written_place place end parts.now }
{
    let mut rest = parts;
    while let Some((part, later)) = rest.split_first() {
        if part.start == place {
            return part.from;
        }
        rest = later;
    }
    end
}

// The parts from the first one on that does not begin before a place.
fn parts_from(place: usize, parts: &[Part]) -> &[Part]
    ensures { (p end : ℕ) → place ≤ p → written_place p end result.now ≡ written_place p end parts.now }
{
    let mut rest = parts;
    while let Some((part, later)) = rest.split_first() {
        if place <= part.start {
            return rest;
        }
        rest = later;
    }
    rest
}

// The same, where the parts are known from an earlier place on. If this place is before it, all are gone through again.
fn parts_near<'a>(place: usize, earlier: usize, known: &'a [Part], parts: &'a [Part]) -> &'a [Part]
    requires { (p end : ℕ) → earlier ≤ p → written_place p end known.now ≡ written_place p end parts.now }
    ensures { (p end : ℕ) → place ≤ p → written_place p end result.now ≡ written_place p end parts.now }
{
    if place < earlier {
        return parts_from(place, parts);
    }
    parts_from(place, known)
}

/// Where the tokens are written that begin at places of the strict text, each as by [`written_place`]. If the places ascend, the
/// parts are gone through once. `AllocError` is answered only if memory was refused.
pub fn written_places(
    alloc: Global,
    places: &[usize],
    end: usize,
    parts: &[Part],
) -> Result<Vec<usize>, AllocError>
    ensures { IfOk result (λ made. made.items ≡ map (λ place. written_place place end parts.now) places.now) }
{
    let mut made = Vec::with_capacity(alloc, places.len())?;
    let (mut earlier, mut known) = (0, parts);
    let mut rest = places;
    while let Some((place, more)) = rest.split_first() {
        known = parts_near(*place, earlier, known, parts);
        earlier = *place;
        made.push(written_place(*place, end, known))?;
        rest = more;
    }
    Ok(made)
}

/// Where the strict form begins of what is written at a place of the text; the end of the strict text for another place.
pub fn strict_place(place: usize, end: usize, parts: &[Part]) -> usize
    ensures { result ≡ strict_place place end parts.now }
{
    let mut rest = parts;
    while let Some((part, later)) = rest.split_first() {
        if part.from == place {
            return part.start;
        }
        rest = later;
    }
    end
}
