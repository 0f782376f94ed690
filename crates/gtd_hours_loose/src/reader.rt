//! The hours that a loosely written text stands for.

ghost use Rattle.std.specs.Prelude.{◌≡◌, IfErr, IfOk, IfSome, IsSome};
ghost use Rattle.gtd_hours_text.specs.Standing.{StandsFor};
ghost use Rattle.gtd_hours_loose.specs.Reading.{IsLooseReading, IsMendedStop, IsReadFault, placed, stopped};
ghost use Rattle.gtd_hours_loose.specs.Reading.{token_fault};
ghost use Rattle.gtd_hours_loose.specs.StrictForms.{IsStrictForm};

use crate::mending::strict_form;
use crate::places::written_place;
use crate::strict::StrictForm;
use gtd_hours::Hours;
use gtd_hours_grammar::{FaultKind, HoursFault};
use gtd_hours_loose_tokens::{DayNames, LooseStop, TokenFault};
use gtd_hours_text::{HoursTextFault, read_hours};
use std::alloc::Global;
use thiserror::Error;

/// The hours of a text.
#[derive(Drop)]
pub struct LooseHours {
    /// What they are.
    pub hours: Hours,
    /// The strict form of the text, if it is written loosely.
    pub form: Option<StrictForm>,
}

/// What is wrong with a loosely written text.
#[derive(Clone, Copy, Debug, PartialEq, Eq, Error)]
pub enum LooseFault {
    /// People read what stands here in two ways.
    #[error("Ambiguous at {place}")]
    Ambiguous {
        /// The number of bytes before it.
        place: usize,
    },
    /// The first fault of the strict form, at its place in the text; or a byte with which no token begins.
    #[error("{0}")]
    Hours(HoursFault),
}

/// Why the hours of a text cannot be read.
#[derive(Clone, Copy, Debug, PartialEq, Eq)]
pub enum LooseReadFault {
    /// The first fault of the text.
    Fault(LooseFault),
    /// There is no memory for the hours.
    NoMemory,
}

/// The hours that a text stands for, also where it is written loosely. Errors: the first fault of the text; or that there is no
/// memory.
pub fn read_loose_hours(
    alloc: Global,
    text: &[u8],
    names: DayNames,
) -> Result<LooseHours, LooseReadFault>
    ensures hours { IfOk result (IsLooseReading names text.now) }
    ensures fault { IfErr result (IsReadFault names text.now) }
{
    match read_hours(alloc, text) {
        Ok(hours) => Ok(LooseHours { hours, form: None }),
        Err(why) => match why {
            HoursTextFault::NoMemory => Err(LooseReadFault::NoMemory),
            HoursTextFault::Fault(_) => read_mended(alloc, text, names),
        },
    }
}

// The hours of a text that is not written strictly.
fn read_mended(alloc: Global, text: &[u8], names: DayNames) -> Result<LooseHours, LooseReadFault>
    ensures hours { IfOk result (λ read. IfSome read.form (λ form. IsStrictForm names text.now form
        × StandsFor form.text.items read.hours)) }
    ensures mended { IfOk result (λ read. IsSome read.form) }
    ensures fault { IfErr result (IsMendedStop names text.now) }
{
    match strict_form(alloc, text, names) {
        Err(stop) => Err(stopped(stop)),
        Ok(form) => match read_hours(alloc, form.text.as_slice()) {
            Ok(hours) => Ok(LooseHours {
                hours,
                form: Some(form),
            }),
            Err(why) => Err(placed(why, text.len(), &form)),
        },
    }
}

// What is wrong with a token, as a fault of the text.
fn token_fault(bad: TokenFault) -> LooseFault
    ensures { result ≡ token_fault bad }
{
    match bad {
        TokenFault::BadToken { place } => LooseFault::Hours(HoursFault {
            kind: FaultKind::BadToken,
            place,
        }),
        TokenFault::Ambiguous { place } => LooseFault::Ambiguous { place },
    }
}

// Why there is no strict form.
fn stopped(stop: LooseStop) -> LooseReadFault
    ensures { result ≡ stopped stop }
{
    match stop {
        LooseStop::NoMemory => LooseReadFault::NoMemory,
        LooseStop::Token(bad) => LooseReadFault::Fault(token_fault(bad)),
    }
}

// Why the strict form is not read, at the place of the text with so many bytes.
fn placed(why: HoursTextFault, end: usize, form: &StrictForm) -> LooseReadFault
    ensures { result ≡ placed why end form.now.parts.items }
{
    match why {
        HoursTextFault::NoMemory => LooseReadFault::NoMemory,
        HoursTextFault::Fault(bad) => LooseReadFault::Fault(LooseFault::Hours(HoursFault {
            kind: bad.kind,
            place: written_place(bad.place, end, form.parts.as_slice()),
        })),
    }
}
