//! The warnings of fallback rules that are unknown, of which a text may have very many.

ghost use Rattle.std.specs.Prelude.{◌≡◌, ◌≤◌, ◌++◌, ◌∷◌, IsTrue, List, IfOk, OnOk};
ghost use Rattle.gtd_hours_warnings.specs.Marks.{AddsNotKnown, IsNotKnownWarning};
ghost use Rattle.gtd_hours_warnings.specs.Unknowns.{AreBy, BeginsAt, IsBefore};
ghost use Rattle.gtd_hours_warnings.specs.declared.warnings.Warning.{Warning};

use crate::warnings::{Warning, WarningKind, put_in};
use std::alloc::{AllocError, Global};

// The places that are left, and the greatest place of the warnings so far.
#[derive(Clone, Copy)]
struct Left<'a> {
    places: &'a [usize],
    latest: usize,
}

// The warning of a fallback rule that is unknown by what stands at a place.
fn not_known_warning(alloc: Global, place: usize) -> Warning
    ensures { IsNotKnownWarning place result }
{
    Warning {
        kind: WarningKind::NotKnown,
        place,
        form: Vec::new(alloc),
    }
}

// Whether a warning at a place comes next: it is not before those so far, and before the one that follows.
fn comes_next(place: usize, latest: usize, next: Option<usize>) -> bool
    ensures { IsTrue result → latest ≤ place × IsBefore place next }
{
    latest <= place
        && match next {
            None => true,
            Some(next) => place < next,
        }
}

// Adds the warnings of the places that come before the next warning, as far as they ascend.
fn push_ready<'a>(
    alloc: Global,
    all: &mut Vec<Warning>,
    left: Left<'a>,
    next: Option<usize>,
) -> Result<Left<'a>, AllocError>
    requires by { AreBy left.latest all.old.items }
    ensures by { IfOk result (λ now. AreBy now.latest all.new.items) }
    ensures adds { IfOk result (λ now. (more found : List Warning) → BeginsAt next more
        → AddsNotKnown now.places.now (all.new.items ++ more) found
        → AddsNotKnown left.entry.places.now (all.old.items ++ more) found) }
{
    let (mut rest, mut latest) = (left.places, left.latest);
    while let Some((place, later)) = rest.split_first() {
        if !comes_next(*place, latest, next) {
            break;
        }
        all.push(not_known_warning(alloc, *place))?;
        latest = *place;
        rest = later;
    }
    Ok(Left {
        places: rest,
        latest,
    })
}

// Puts the warnings of places among others, one after another.
fn add_in_order(
    alloc: Global,
    warnings: &mut Vec<Warning>,
    places: &[usize],
) -> Result<(), AllocError>
    ensures { OnOk result (AddsNotKnown places.now warnings.old.items warnings.new.items) }
{
    let mut rest = places;
    while let Some((place, later)) = rest.split_first() {
        put_in(warnings, not_known_warning(alloc, *place))?;
        rest = later;
    }
    Ok(())
}

// One warning more, behind those of the places before it.
fn push_one<'a>(
    alloc: Global,
    all: &mut Vec<Warning>,
    left: Left<'a>,
    warning: Warning,
) -> Result<Left<'a>, AllocError>
    requires by { AreBy left.latest all.old.items }
    ensures by { IfOk result (λ now. AreBy now.latest all.new.items) }
    ensures adds { IfOk result (λ now. (more found : List Warning)
        → AddsNotKnown now.places.now (all.new.items ++ more) found
        → AddsNotKnown left.entry.places.now (all.old.items ++ warning ∷ more) found) }
{
    let place = warning.place;
    let now = push_ready(alloc, all, left, Some(place))?;
    all.push(warning)?;
    Ok(Left {
        places: now.places,
        latest: now.latest.max(place),
    })
}

/// The warnings, among which those of the fallback rules are put that are unknown by what stands at these places. If the places
/// ascend, and so do those of the warnings, all are gone through once. `AllocError` is answered only if memory was refused.
pub fn add_not_known(
    alloc: Global,
    warnings: Vec<Warning>,
    places: &[usize],
) -> Result<Vec<Warning>, AllocError>
    ensures { IfOk result (λ found. AddsNotKnown places.now warnings.items found.items) }
{
    let mut all = Vec::with_capacity(alloc, warnings.len())?;
    let mut left = Left { places, latest: 0 };
    for warning in warnings {
        left = push_one(alloc, &mut all, left, warning)?;
    }
    let last = push_ready(alloc, &mut all, left, None)?;
    add_in_order(alloc, &mut all, last.places)?;
    Ok(all)
}
