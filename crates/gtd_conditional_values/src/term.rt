//! What a term stands for.

ghost use Rattle.std.specs.Prelude.{◌≡◌, ◌≤◌, ◌+◌, length};
ghost use Rattle.gtd_hours_options.specs.Readings.{how_read};
ghost use Rattle.gtd_conditional_values.specs.ReadTerms.{IsHoursOf, IsHoursTerm, IsNamed, IsTerm};

use crate::hours::{TermHours, hours_at};
use crate::names::{condition_name, has_condition};
use crate::pieces::enclosed;
use gtd_conditional_means::Means;
use gtd_hours_options::{HoursReading, OptionsFault, OptionsReadFault, read_hours_with_in};
use std::alloc::{AllocError, Global};

/// What a term of a condition stands for.
#[derive(Drop)]
pub enum Term {
    /// The condition of this name, which the table of means has: a comparison in its normal form, or a word.
    Named(Vec<u8>),
    /// These hours.
    Hours(TermHours),
}

/// What is wrong with a term. Places are numbers of bytes of the value before them.
#[derive(Clone, Copy, Debug, PartialEq, Eq)]
pub enum TermFault {
    /// The table of means has no such condition.
    Condition {
        /// The place of the term.
        place: usize,
    },
    /// The hours are at fault.
    Hours {
        /// The place at which the hours begin.
        start: usize,
        /// Their fault, whose place is counted from there.
        fault: OptionsFault,
    },
}

/// Why a term is not read.
#[derive(Clone, Copy, Debug, PartialEq, Eq)]
pub enum UnreadTerm {
    /// It is at fault.
    Fault(TermFault),
    /// Memory was refused.
    NoMemory,
}

impl From<AllocError> for UnreadTerm {
    ghost use Rattle.std.specs.Prelude.{◌≡◌};
    ghost use Rattle.gtd_conditional_values.specs.declared.term.UnreadTerm.TheVariants.{NoMemory};

    ghost from_gives = { λ _ why. why ≡ NoMemory };

    fn from(_: AllocError) -> UnreadTerm {
        UnreadTerm::NoMemory
    }
}

// The hours of a text that begins at this place.
fn read_hours_at(
    alloc: Global,
    reading: HoursReading<'_>,
    start: usize,
    text: &[u8],
) -> Result<Term, UnreadTerm>
    ensures { IsHoursTerm (how_read reading.entry) start text.now result }
{
    match read_hours_with_in(alloc, text, reading.manner, reading.options) {
        Ok(read) => match hours_at(alloc, start, text, read, reading.options.known.years) {
            Ok(hours) => Ok(Term::Hours(hours)),
            Err(_) => Err(UnreadTerm::NoMemory),
        },
        Err(OptionsReadFault::Fault(fault)) => {
            Err(UnreadTerm::Fault(TermFault::Hours { start, fault }))
        }
        Err(OptionsReadFault::NoMemory) => Err(UnreadTerm::NoMemory),
    }
}

// The hours of a term, which may stand in parentheses.
fn read_hours_of(
    alloc: Global,
    reading: HoursReading<'_>,
    place: usize,
    term: &[u8],
) -> Result<Term, UnreadTerm>
    requires { place + length term.now ≤ 18446744073709551615 }
    ensures { IsHoursOf (how_read reading.entry) place term.now result }
{
    match enclosed(term) {
        Some(inside) => read_hours_at(alloc, reading, place + 1, inside),
        None => read_hours_at(alloc, reading, place, term),
    }
}

// The condition of this name, if the table has it.
fn named(means: &Means, place: usize, name: Vec<u8>) -> Result<Term, UnreadTerm>
    ensures { IsNamed means.now.rows.items place name.items result }
{
    if !has_condition(means, name.as_slice()) {
        return Err(UnreadTerm::Fault(TermFault::Condition { place }));
    }
    Ok(Term::Named(name))
}

/// What the term at this place of a value stands for, without spaces around it, if hours are read so; or its fault.
/// `NoMemory` is answered only if memory was refused.
pub fn read_term(
    alloc: Global,
    means: &Means,
    reading: HoursReading<'_>,
    place: usize,
    term: &[u8],
) -> Result<Term, UnreadTerm>
    requires fits { place + length term.now ≤ 18446744073709551615 }
    ensures term { IsTerm (how_read reading.entry) means.now.rows.items place term.now result }
{
    match condition_name(alloc, means, term)? {
        Some(name) => named(means, place, name),
        None => read_hours_of(alloc, reading, place, term),
    }
}
