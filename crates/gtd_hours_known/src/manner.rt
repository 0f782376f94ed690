//! Reading a text with holidays, comments, unknown and fallback rules strictly or loosely.

ghost use Rattle.std.specs.Prelude.{◌≡◌, IfErr, IfOk};
ghost use Rattle.gtd_hours_loose.specs.Reading.{IsStrict};
ghost use Rattle.gtd_hours_known.specs.Manners.{IsKnownLooseReading, IsKnownLooseStop, IsKnownReadFaultIn};
ghost use Rattle.gtd_hours_known.specs.Manners.{IsKnownReadingIn, IsMendedStop, IsPlaced};
ghost use Rattle.gtd_hours_known.specs.Manners.{no_form, placed, placed_fault, placed_holiday, token_fault};

use crate::fault::{KnownFault, KnownReadFault};
use crate::known::{Known, KnownHours};
use crate::marks::without_marks;
use crate::reader::read_known_hours;
use gtd_hours_grammar::{FaultKind, HoursFault};
use gtd_hours_loose::{Manner, Part, StrictForm, strict_form, written_place, written_places};
use gtd_hours_loose_tokens::{DayNames, LooseStop, TokenFault};
use gtd_hours_text::{HoursTextFault, read_hours};
use std::alloc::{AllocError, Global};

/// The hours that a text stands for in a manner of reading, with the holidays that the table has in the years.
///
/// Strictly it is read as it is written, as by [`read_known_hours`]. Loosely it is read as it is written if it is plain hours;
/// else its strict form is read so, and all places are told where that is written in the text. Errors: the first fault of the
/// text; or that there is no memory.
pub fn read_known_hours_in(
    alloc: Global,
    text: &[u8],
    manner: Manner,
    known: &Known,
) -> Result<KnownHours, KnownReadFault>
    ensures hours { IfOk result (IsKnownReadingIn manner known.now text.now) }
    ensures fault { IfErr result (IsKnownReadFaultIn manner known.now text.now) }
{
    match manner {
        Manner::Strict => read_known_hours(alloc, text, known),
        Manner::Loose(names) => read_loosely(alloc, text, names, known),
    }
}

// The hours of a text that may be written loosely.
fn read_loosely(
    alloc: Global,
    text: &[u8],
    names: DayNames,
    known: &Known,
) -> Result<KnownHours, KnownReadFault>
    ensures hours { IfOk result (IsKnownLooseReading names known.now text.now) }
    ensures fault { IfErr result (IsKnownLooseStop names known.now text.now) }
{
    match read_hours(alloc, text) {
        Ok(hours) => Ok(without_marks(alloc, hours)),
        Err(why) => match why {
            HoursTextFault::NoMemory => Err(KnownReadFault::NoMemory),
            HoursTextFault::Fault(_) => read_mended(alloc, text, names, known),
        },
    }
}

// The hours of a text that is no plain hours as it is written.
fn read_mended(
    alloc: Global,
    text: &[u8],
    names: DayNames,
    known: &Known,
) -> Result<KnownHours, KnownReadFault>
    requires { IsStrict text.now → ⊥ }
    ensures hours { IfOk result (IsKnownLooseReading names known.now text.now) }
    ensures fault { IfErr result (IsMendedStop names known.now text.now) }
{
    match strict_form(alloc, text, names) {
        Err(stop) => Err(no_form(stop)),
        Ok(form) => match read_known_hours(alloc, form.text.as_slice(), known) {
            Err(why) => Err(placed(text.len(), form.parts.as_slice(), why)),
            Ok(read) => match placed_read(alloc, text.len(), form, read) {
                Err(_) => Err(KnownReadFault::NoMemory),
                Ok(read) => Ok(read),
            },
        },
    }
}

/// What is wrong with a token, as a fault of the text. Takes no memory.
pub fn token_fault(why: TokenFault) -> KnownFault
    ensures { result ≡ token_fault why }
{
    match why {
        TokenFault::BadToken { place } => KnownFault::Hours(HoursFault {
            kind: FaultKind::BadToken,
            place,
        }),
        TokenFault::Ambiguous { place } => KnownFault::Ambiguous { place },
    }
}

// Why there is no strict form.
fn no_form(stop: LooseStop) -> KnownReadFault
    ensures { result ≡ no_form stop }
{
    match stop {
        LooseStop::NoMemory => KnownReadFault::NoMemory,
        LooseStop::Token(why) => KnownReadFault::Fault(token_fault(why)),
    }
}

/// A fault of the strict form with these parts, at its place in the text with so many bytes. Takes no memory.
pub fn placed_fault(end: usize, parts: &[Part], bad: KnownFault) -> KnownFault
    ensures { result ≡ placed_fault end parts.now bad }
{
    match bad {
        KnownFault::Hours(bad) => KnownFault::Hours(HoursFault {
            kind: bad.kind,
            place: written_place(bad.place, end, parts),
        }),
        KnownFault::Ambiguous { place } => KnownFault::Ambiguous {
            place: written_place(place, end, parts),
        },
        KnownFault::Holidays { place } => KnownFault::Holidays {
            place: written_place(place, end, parts),
        },
        KnownFault::Years { place } => KnownFault::Years {
            place: written_place(place, end, parts),
        },
        KnownFault::Uncovered { place, day } => KnownFault::Uncovered {
            place: written_place(place, end, parts),
            day,
        },
        KnownFault::Unknown { place } => KnownFault::Unknown {
            place: written_place(place, end, parts),
        },
    }
}

// Why the strict form is not read, at its place in the text.
fn placed(end: usize, parts: &[Part], why: KnownReadFault) -> KnownReadFault
    ensures { result ≡ placed end parts.now why }
{
    match why {
        KnownReadFault::NoMemory => KnownReadFault::NoMemory,
        KnownReadFault::Fault(bad) => KnownReadFault::Fault(placed_fault(end, parts, bad)),
    }
}

// The first holiday of the strict form, at its place in the text.
fn placed_holiday(end: usize, parts: &[Part], first: Option<usize>) -> Option<usize>
    ensures { result ≡ placed_holiday end parts.now first }
{
    match first {
        None => None,
        Some(place) => Some(written_place(place, end, parts)),
    }
}

/// The hours of a text with so many bytes by those of its strict form: all places are where that is written in the text.
/// `AllocError` is answered only if memory was refused.
pub fn placed_read(
    alloc: Global,
    end: usize,
    form: StrictForm,
    read: KnownHours,
) -> Result<KnownHours, AllocError>
    ensures { IfOk result (IsPlaced end form read) }
{
    let parts = form.parts.as_slice();
    let first_holiday = placed_holiday(end, parts, read.first_holiday);
    let remarks = written_places(alloc, read.remarks.as_slice(), end, parts)?;
    let unknowns = written_places(alloc, read.unknowns.as_slice(), end, parts)?;
    Ok(KnownHours {
        hours: read.hours,
        form: Some(form),
        first_holiday,
        remarks,
        unknowns,
    })
}
