//! Which tags are of which key, and which modes speak of which subject.

ghost use Rattle.std.specs.Prelude.{◌≡◌, None, Some, MatchOption, slice_get};
ghost use Rattle.gtd_conditional_steps.specs.Sayings as spec;

use crate::tag::Tag;
use gtd_conditional_means::{Meaning, Means, MeansRow};
use gtd_conditional_parts::{Subject, subject_of};
use gtd_rows::{Direction, Vehicles};

/// A key of a mode: of both directions or of one, with conditions or without.
#[derive(Clone, Copy)]
pub(crate) struct Key {
    pub(crate) mode: usize,
    pub(crate) direction: Option<Direction>,
    pub(crate) conditional: bool,
}

fn same_subject(one: Subject, other: Subject) -> bool
    ensures { result ≡ spec.same_subject one other }
{
    match one {
        Subject::Access => match other {
            Subject::Access => true,
            Subject::Oneway => false,
        },
        Subject::Oneway => match other {
            Subject::Access => false,
            Subject::Oneway => true,
        },
    }
}

// The vehicle types of a row, if it is one of a mode that speaks of the subject.
fn types_in(subject: Subject, row: &MeansRow) -> Option<&Vehicles>
    ensures { MatchOption result (spec.types_in subject (Some row.now) ≡ None)
        (λ types. spec.types_in subject (Some row.now) ≡ Some types.now) }
{
    if !same_subject(subject, subject_of(row.name.as_slice())) {
        return None;
    }
    match &row.meaning {
        Meaning::Mode(types) => Some(types),
        Meaning::Condition(_) => None,
        Meaning::Value(_) => None,
        Meaning::Ignore => None,
    }
}

/// The vehicle types of the mode with so many rows before it, if it is one that speaks of the subject.
pub(crate) fn mode_types(means: &Means, subject: Subject, mode: usize) -> Option<&Vehicles>
    ensures { MatchOption result (spec.mode_types subject means.now.rows.items mode ≡ None)
        (λ types. spec.mode_types subject means.now.rows.items mode ≡ Some types.now) }
{
    match means.rows.as_slice().get(mode) {
        Some(row) => types_in(subject, row),
        None => None,
    }
}

fn is_direction(direction: Direction, other: Direction) -> bool
    ensures { result ≡ spec.same_direction (Some direction) (Some other) }
{
    match direction {
        Direction::Positive => match other {
            Direction::Positive => true,
            Direction::Negative => false,
        },
        Direction::Negative => match other {
            Direction::Positive => false,
            Direction::Negative => true,
        },
    }
}

fn same_direction(one: Option<Direction>, other: Option<Direction>) -> bool
    ensures { result ≡ spec.same_direction one other }
{
    match one {
        None => match other {
            None => true,
            Some(_) => false,
        },
        Some(direction) => match other {
            None => false,
            Some(other) => is_direction(direction, other),
        },
    }
}

fn same_flag(one: bool, other: bool) -> bool
    ensures { result ≡ spec.same_flag one other }
{
    if one { other } else { !other }
}

/// Whether a tag is of a key.
pub(crate) fn is_of_key(key: Key, tag: &Tag) -> bool
    ensures { result ≡ spec.is_of_key key.mode key.direction key.conditional tag.now }
{
    tag.mode == key.mode
        && same_direction(tag.direction, key.direction)
        && same_flag(tag.conditional, key.conditional)
}
