//! Texts of which each form has a place in another text.

ghost use Rattle.std.specs.Prelude.{◌≡◌, ◌++◌, ◌∷◌, ◌≤◌, [], ℕ, List, map, IfOk, OnOk};
ghost use Rattle.gtd_hours_moments.specs.Places.{Holds, Put, written_place};

use std::alloc::{AllocError, Global};

/// Where a form stands.
#[derive(Clone, Copy, Debug)]
pub struct Placed {
    /// Where in the text that which it stands for is written.
    pub from: usize,
    /// Where the form begins.
    pub start: usize,
}

/// A text of forms, each with a space behind it.
#[derive(Drop)]
pub struct PlacedText {
    /// The text.
    pub text: Vec<u8>,
    /// Its forms.
    pub places: Vec<Placed>,
}

/// Nothing.
pub fn nothing(alloc: Global) -> PlacedText
    ensures { Holds result [] }
{
    PlacedText {
        text: Vec::new(alloc),
        places: Vec::new(alloc),
    }
}

/// Ends a form that stands for what is written at a place, and begins at another one of the text of forms.
pub fn end_placed(placed: &mut PlacedText, from: usize, start: usize) -> Result<(), AllocError>
    ensures text { OnOk result (placed.new.text.items ≡ placed.old.text.items ++ 32 ∷ []) }
    ensures places { OnOk result (placed.new.places.items
        ≡ placed.old.places.items ++ record { from = from; start = start } ∷ []) }
{
    placed.text.push(b' ')?;
    placed.places.push(Placed { from, start })?;
    Ok(())
}

/// Appends a form that stands for what is written at a place.
pub fn push_placed(placed: &mut PlacedText, from: usize, form: &[u8]) -> Result<(), AllocError>
    ensures { OnOk result ((ps : List Put) → Holds placed.old ps
        → Holds placed.new (ps ++ record { from = from; form = form.now } ∷ [])) }
{
    let start = placed.text.len();
    placed.text.extend_from_slice(form)?;
    end_placed(placed, from, start)?;
    Ok(())
}

/// Where in the text that is written for which a form stands that begins at this place; `end` if none does.
pub fn written_place(place: usize, end: usize, places: &[Placed]) -> usize
    ensures { result ≡ written_place place end places.now }
{
    let mut rest = places;
    while let Some((form, later)) = rest.split_first() {
        if form.start == place {
            return form.from;
        }
        rest = later;
    }
    end
}

// The forms from the first one on that does not begin before a place.
fn forms_from(place: usize, places: &[Placed]) -> &[Placed]
    ensures { (p end : ℕ) → place ≤ p → written_place p end result.now ≡ written_place p end places.now }
{
    let mut rest = places;
    while let Some((form, later)) = rest.split_first() {
        if place <= form.start {
            return rest;
        }
        rest = later;
    }
    rest
}

// The same, where the forms are known from an earlier place on. If this place is before it, all are gone through again.
fn forms_near<'a>(
    place: usize,
    earlier: usize,
    known: &'a [Placed],
    places: &'a [Placed],
) -> &'a [Placed]
    requires { (p end : ℕ) → earlier ≤ p → written_place p end known.now ≡ written_place p end places.now }
    ensures { (p end : ℕ) → place ≤ p → written_place p end result.now ≡ written_place p end places.now }
{
    if place < earlier {
        return forms_from(place, places);
    }
    forms_from(place, known)
}

/// Where in the text that is written for which forms stand, each as by [`written_place`]. If the places at which they begin
/// ascend, the forms are gone through once. `AllocError` is answered only if memory was refused.
pub fn written_places(
    alloc: Global,
    begins: &[usize],
    end: usize,
    places: &[Placed],
) -> Result<Vec<usize>, AllocError>
    ensures { IfOk result (λ made. made.items ≡ map (λ place. written_place place end places.now) begins.now) }
{
    let mut made = Vec::with_capacity(alloc, begins.len())?;
    let (mut earlier, mut known) = (0, places);
    let mut rest = begins;
    while let Some((place, more)) = rest.split_first() {
        known = forms_near(*place, earlier, known, places);
        earlier = *place;
        made.push(written_place(*place, end, known))?;
        rest = more;
    }
    Ok(made)
}
