//! The hours that a text stands for.

ghost use Rattle.std.specs.Prelude.{◌≡◌, ◌<◌, ◌∷◌, ◌++◌, IfErr, IfOk, IfSome, List, None, Ok, []};
ghost use Rattle.gtd_hours_parts.specs.SoundPieces.{IsPiece};
ghost use Rattle.gtd_hours_parts.specs.Values.{IsPartOf};
ghost use Rattle.gtd_hours_parts.specs.declared.piece.Piece.{Piece};
ghost use Rattle.gtd_hours_grammar.specs.Faults.{IsHoursText};
ghost use Rattle.gtd_hours_grammar.specs.Steps.{IsReading, moves_left};
ghost use Rattle.gtd_hours_text.specs.Drafts.{Builds};
ghost use Rattle.gtd_hours_text.specs.Reading.{IsFaultOf};
ghost use Rattle.gtd_hours_text.specs.Standing.{StandsFor};

use crate::builder::{Building, hours_of, nothing, with_next};
use gtd_hours::Hours;
use gtd_hours_grammar::{HoursFault, Reading, begin, check_behind, next_part};
use gtd_hours_parts::Part;
use std::alloc::Global;
use thiserror::Error;

/// Why the hours of a text cannot be read.
#[derive(Clone, Copy, Debug, PartialEq, Eq, Error)]
pub enum HoursTextFault {
    /// The first fault of the text.
    #[error("{0}")]
    Fault(HoursFault),
    /// There is no memory for the hours.
    #[error("no memory")]
    NoMemory,
}

/// The hours that a text stands for. Errors: the first fault of the text; or, where there is none, that there is no memory.
pub fn read_hours(alloc: Global, text: &[u8]) -> Result<Hours, HoursTextFault>
    ensures hours { IfOk result (λ hours. StandsFor text.now hours) }
    ensures fault { IfErr result (λ fault. IsFaultOf text.now fault) }
{
    build(alloc, text, begin())
}

// The hours of a text of which nothing has been read.
fn build(alloc: Global, text: &[u8], begun: Reading) -> Result<Hours, HoursTextFault>
    requires begins { IsReading text.now begun [] }
    ensures hours { IfOk result (λ hours. StandsFor text.now hours) }
    ensures fault { IfErr result (λ fault. IsFaultOf text.now fault) }
{
    let mut so_far = nothing(alloc);
    let mut reading = begun;
    while let Some((part, next)) = part_behind(text, reading)? {
        so_far = with_behind(alloc, text, so_far, part, next)?;
        reading = next;
    }
    match hours_of(alloc, so_far) {
        Ok(hours) => Ok(hours),
        Err(_) => Err(HoursTextFault::NoMemory),
    }
}

// What the next piece of a text stands for.
fn part_behind(text: &[u8], reading: Reading) -> Result<Option<(Part, Reading)>, HoursTextFault>
    requires stands { (given : List Piece) × IsReading text.now reading given }
    ensures piece { (given : List Piece) → IsReading text.now reading given →
        IfOk result (λ next. IfSome next (λ x.
        (y : Piece) × IsPiece y × IsPartOf x.0 y × IsReading text.now x.1 (given ++ y ∷ []))) }
    ensures all { (given : List Piece) → IsReading text.now reading given →
        result ≡ Ok None → IsHoursText text.now given }
    ensures nearer { IfOk result (λ next. IfSome next (λ x. moves_left text.now x.1 < moves_left text.now reading)) }
    ensures fault { IfErr result (λ fault. IsFaultOf text.now fault) }
{
    match next_part(text, reading) {
        Ok(next) => Ok(next),
        Err(bad) => Err(HoursTextFault::Fault(bad)),
    }
}

// The hours with one part more, behind which the reading stands.
fn with_behind(
    alloc: Global,
    text: &[u8],
    so_far: Building,
    part: Part,
    reading: Reading,
) -> Result<Building, HoursTextFault>
    requires stands { (given : List Piece) × IsReading text.now reading given }
    ensures built { IfOk result (λ then. (y : Piece) → IsPartOf part y → Builds so_far y then) }
    ensures fault { IfErr result (λ fault. IsFaultOf text.now fault) }
{
    match with_next(alloc, so_far, part) {
        Ok(then) => Ok(then),
        Err(_) => Err(unbuilt(text, reading)),
    }
}

// What is wrong where memory has ended: the first fault, if what is left of the text has one.
fn unbuilt(text: &[u8], reading: Reading) -> HoursTextFault
    requires stands { (given : List Piece) × IsReading text.now reading given }
    ensures { IsFaultOf text.now result }
{
    match check_behind(text, reading) {
        Ok(()) => HoursTextFault::NoMemory,
        Err(bad) => HoursTextFault::Fault(bad),
    }
}
