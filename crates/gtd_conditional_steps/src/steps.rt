//! The steps of tags.

ghost use Rattle.std.specs.Prelude.{◌≡◌, ◌↔◌, ◌∷◌, ◌++◌, [], ℕ, ℤ, false, true, Err, IfOk, OnOk, if◌then◌else◌};
ghost use Rattle.std.specs.List.Sorted.{IsNonDecreasingBy};
ghost use Rattle.gtd_conditional_rows.specs.Steps.{IsClosed};
ghost use Rattle.gtd_conditional_rows.specs.Types.{IsVehicle};
ghost use Rattle.gtd_conditional_steps.specs.Closing.{IsClosedByTags};
ghost use Rattle.gtd_conditional_steps.specs.Hours.{NeedTooMany};
ghost use Rattle.gtd_conditional_steps.specs.Sayings as spec;
ghost use Rattle.gtd_conditional_steps.specs.Steps.{Adds, AreStepsOf, IsStepOf};

use crate::count::need_too_many;
use crate::hours::hours_of;
use crate::keys::{Key, is_of_key, mode_types};
use crate::modes::{count_of, next_mode};
use crate::ordered::OrderedTags;
use crate::tag::{StepsFault, Tag};
use crate::types::types_for;
use gtd_conditional_means::Means;
use gtd_conditional_parts::{Part, Subject};
use gtd_conditional_rows::Step;
use gtd_rows::{Direction, Vehicles};
use std::alloc::{AllocError, Global};

// For what steps are asked.
#[derive(Clone, Copy)]
struct Asked<'a> {
    alloc: Global,
    means: &'a Means,
    direction: Direction,
}

// The step of a part, whose mode has these types.
fn step_of(asked: Asked<'_>, types: &Vehicles, part: &Part) -> Result<Step, StepsFault>
    ensures { IfOk result (λ step. IsStepOf asked.entry.means.now.rows.items asked.entry.direction
        (record { types = types.now; part = part.now }) step) }
{
    let hours = hours_of(asked.alloc, part.terms.as_slice())?;
    Ok(Step {
        types: types_for(asked.means, types, part.terms.as_slice()),
        access: part.said.access_in(asked.direction),
        hours,
    })
}

fn push_step(steps: &mut Vec<Step>, step: Step) -> Result<(), AllocError>
    ensures { OnOk result (steps.new.items ≡ steps.old.items ++ step ∷ []) }
{
    steps.push(step)?;
    Ok(())
}

// Adds the steps of parts.
fn push_parts(
    steps: &mut Vec<Step>,
    asked: Asked<'_>,
    types: &Vehicles,
    parts: &[Part],
) -> Result<(), StepsFault>
    ensures { OnOk result (Adds asked.entry.means.now.rows.items asked.entry.direction
        (spec.said_by_parts types.now parts.now) steps.old.items steps.new.items) }
{
    let mut rest = parts;
    while let Some((part, more)) = rest.split_first() {
        let step = step_of(asked, types, part)?;
        push_step(steps, step)?;
        rest = more;
    }
    Ok(())
}

// Adds those of a tag, if it is of a key.
fn push_tag(
    steps: &mut Vec<Step>,
    asked: Asked<'_>,
    types: &Vehicles,
    key: Key,
    tag: &Tag,
) -> Result<(), StepsFault>
    ensures { OnOk result (Adds asked.entry.means.now.rows.items asked.entry.direction
        (if spec.is_of_key key.mode key.direction key.conditional tag.now
        then spec.said_by_parts types.now tag.now.value.parts.items else []) steps.old.items steps.new.items) }
{
    if !is_of_key(key, tag) {
        return Ok(());
    }
    push_parts(steps, asked, types, tag.value.parts.as_slice())
}

// Adds those of the tags of a key.
fn push_key(
    steps: &mut Vec<Step>,
    asked: Asked<'_>,
    types: &Vehicles,
    key: Key,
    tags: &[Tag],
) -> Result<(), StepsFault>
    ensures { OnOk result (Adds asked.entry.means.now.rows.items asked.entry.direction
        (spec.said_by_key types.now key.mode key.direction key.conditional tags.now) steps.old.items steps.new.items) }
{
    let mut rest = tags;
    while let Some((tag, more)) = rest.split_first() {
        push_tag(steps, asked, types, key, tag)?;
        rest = more;
    }
    Ok(())
}

// Adds those of the keys of a mode that speak of a direction or of both: first without conditions.
fn push_keys(
    steps: &mut Vec<Step>,
    asked: Asked<'_>,
    types: &Vehicles,
    key: Key,
    tags: &[Tag],
) -> Result<(), StepsFault>
    ensures { OnOk result (Adds asked.entry.means.now.rows.items asked.entry.direction
        (spec.said_by_key types.now key.mode key.direction false tags.now
        ++ spec.said_by_key types.now key.mode key.direction true tags.now) steps.old.items steps.new.items) }
{
    push_key(
        steps,
        asked,
        types,
        Key {
            conditional: false,
            ..key
        },
        tags,
    )?;
    push_key(
        steps,
        asked,
        types,
        Key {
            conditional: true,
            ..key
        },
        tags,
    )?;
    Ok(())
}

// Adds those of a mode with these types.
fn push_mode(
    steps: &mut Vec<Step>,
    asked: Asked<'_>,
    types: &Vehicles,
    mode: usize,
    tags: &[Tag],
) -> Result<(), StepsFault>
    ensures { OnOk result (Adds asked.entry.means.now.rows.items asked.entry.direction
        (spec.said_for types.now mode asked.entry.direction tags.now) steps.old.items steps.new.items) }
{
    let both = Key {
        mode,
        direction: None,
        conditional: false,
    };
    push_keys(steps, asked, types, both, tags)?;
    let one = Key {
        mode,
        direction: Some(asked.direction),
        conditional: false,
    };
    push_keys(steps, asked, types, one, tags)?;
    Ok(())
}

// Adds those of a row of the table, if it is one of a mode that speaks of the subject.
fn push_row(
    steps: &mut Vec<Step>,
    asked: Asked<'_>,
    subject: Subject,
    mode: usize,
    tags: &[Tag],
) -> Result<(), StepsFault>
    ensures { OnOk result (Adds asked.entry.means.now.rows.items asked.entry.direction
        (spec.said_by_types (spec.mode_types subject asked.entry.means.now.rows.items mode) mode asked.entry.direction tags.now)
        steps.old.items steps.new.items) }
{
    match mode_types(asked.means, subject, mode) {
        Some(types) => push_mode(steps, asked, types, mode, tags),
        None => Ok(()),
    }
}

// The steps of all rows. Rows of modes that no tag has are passed over, and each mode goes over its own tags alone: a table may
// have thousands of modes, and an element as many tags.
fn all_steps(asked: Asked<'_>, subject: Subject, tags: &[Tag]) -> Result<Vec<Step>, StepsFault>
    requires order { IsNonDecreasingBy (λ tag. tag.mode) tags.now }
    ensures { IfOk result (λ steps. AreStepsOf asked.entry.means.now.rows.items asked.entry.direction
        (spec.said_by subject asked.entry.means.now.rows.items asked.entry.direction tags.now) steps.items) }
{
    let mut steps = Vec::new(asked.alloc);
    let end = asked.means.rows.len();
    let mut rest = tags;
    let mut mode = next_mode(rest, end);
    while mode < end {
        let (same, later) = rest.split_at(count_of(rest, mode));
        push_row(&mut steps, asked, subject, mode, same)?;
        rest = later;
        mode = next_mode(rest, end);
    }
    Ok(steps)
}

/// The steps that do in a direction what tags say of a subject, in the order in which later ones win. `TooMany` is answered
/// exactly if the hours of some part of the tags need more than 128 basic domains, before memory is taken, and otherwise
/// `NoMemory` only if memory was refused.
pub fn steps_of(
    alloc: Global,
    means: &Means,
    subject: Subject,
    tags: &OrderedTags,
    direction: Direction,
) -> Result<Vec<Step>, StepsFault>
    ensures steps { IfOk result (λ steps. AreStepsOf means.now.rows.items direction
        (spec.said_by subject means.now.rows.items direction tags.now.tags.items) steps.items) }
    ensures closed { IfOk result (λ steps. (t : ℕ) (s : ℤ) → IsVehicle t
        → IsClosed steps.items t s ↔ IsClosedByTags means.now.rows.items subject tags.now.tags.items direction t s) }
    ensures too_many { (result ≡ Err StepsFault.TooMany) ↔ NeedTooMany tags.now.tags.items }
{
    let tags = tags.tags.as_slice();
    if need_too_many(tags) {
        return Err(StepsFault::TooMany);
    }
    match all_steps(
        Asked {
            alloc,
            means,
            direction,
        },
        subject,
        tags,
    ) {
        Ok(steps) => Ok(steps),
        Err(_) => Err(StepsFault::NoMemory),
    }
}
