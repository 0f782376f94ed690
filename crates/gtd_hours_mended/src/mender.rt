//! The mended text of a text, also where it is written loosely.

ghost use Rattle.std.specs.Prelude.{◌≡◌, IfErr, IfOk};
ghost use Rattle.gtd_hours.specs.Written.{hours_text};
ghost use Rattle.gtd_hours_options.specs.declared.fault.OptionsReadFault.TheVariants as reading;
ghost use Rattle.gtd_hours_mended.specs.Mending.{IsFormStop, IsMendStop, IsMendedForm, IsMendedText, IsOtherStop, IsOtherText};
ghost use Rattle.gtd_hours_options.specs.Manners.{no_form, placed, placed_fault};

use crate::written::mended_as_written;
use gtd_hours::{Hours, print_hours};
use gtd_hours_known::{placed_fault as placed_known, token_fault};
use gtd_hours_loose::{
    LooseHours, LooseReadFault, Part, read_loose_hours, strict_form, written_place,
};
use gtd_hours_loose_tokens::{DayNames, LooseStop};
use gtd_hours_moments::Need;
use gtd_hours_options::{OptionsFault, OptionsReadFault};
use gtd_hours_writing::copy_of;
use std::alloc::{AllocError, Global};

// Plain hours, as they are written.
fn hours_text(alloc: Global, hours: &Hours) -> Result<Vec<u8>, AllocError>
    ensures { IfOk result (λ text. text.items ≡ hours_text hours.now) }
{
    let written = print_hours(alloc, hours)?;
    copy_of(alloc, written.as_bytes())
}

// The hours that were read of a text, as they are written; or that there is no memory.
fn mended_plain(alloc: Global, read: &LooseHours) -> Result<Vec<u8>, OptionsReadFault>
    ensures written { IfOk result (λ text. text.items ≡ hours_text read.now.hours) }
    ensures memory { IfErr result (λ why. why ≡ reading.NoMemory) }
{
    match hours_text(alloc, &read.hours) {
        Ok(mended) => Ok(mended),
        Err(_) => Err(OptionsReadFault::NoMemory),
    }
}

// Why there is no strict form.
fn no_form(stop: LooseStop) -> OptionsReadFault
    ensures { result ≡ no_form stop }
{
    match stop {
        LooseStop::NoMemory => OptionsReadFault::NoMemory,
        LooseStop::Token(why) => OptionsReadFault::Fault(OptionsFault::Known(token_fault(why))),
    }
}

// A fault of the strict form with these parts, at its place in the text with so many bytes.
fn placed_fault(end: usize, parts: &[Part], bad: OptionsFault) -> OptionsFault
    ensures { result ≡ placed_fault end parts.now bad }
{
    match bad {
        OptionsFault::Known(bad) => OptionsFault::Known(placed_known(end, parts, bad)),
        OptionsFault::Time(need) => OptionsFault::Time(Need {
            kind: need.kind,
            place: written_place(need.place, end, parts),
        }),
    }
}

// Why the strict form has no mended text, at its place in the text.
fn placed(end: usize, parts: &[Part], why: OptionsReadFault) -> OptionsReadFault
    ensures { result ≡ placed end parts.now why }
{
    match why {
        OptionsReadFault::NoMemory => OptionsReadFault::NoMemory,
        OptionsReadFault::Fault(bad) => OptionsReadFault::Fault(placed_fault(end, parts, bad)),
    }
}

// The mended text of the strict form of a text.
fn mended_form(alloc: Global, text: &[u8], names: DayNames) -> Result<Vec<u8>, OptionsReadFault>
    ensures mended { IfOk result (λ mended. IsMendedForm names text.now mended.items) }
    ensures fault { IfErr result (IsFormStop names text.now) }
{
    match strict_form(alloc, text, names) {
        Err(stop) => Err(no_form(stop)),
        Ok(form) => match mended_as_written(alloc, form.text.as_slice()) {
            Ok(mended) => Ok(mended),
            Err(why) => Err(placed(text.len(), form.parts.as_slice(), why)),
        },
    }
}

// The mended text of a text that is no plain hours.
fn mended_other(alloc: Global, text: &[u8], names: DayNames) -> Result<Vec<u8>, OptionsReadFault>
    ensures mended { IfOk result (λ mended. IsOtherText names text.now mended.items) }
    ensures fault { IfErr result (IsOtherStop names text.now) }
{
    match mended_as_written(alloc, text) {
        Ok(mended) => Ok(mended),
        Err(OptionsReadFault::NoMemory) => Err(OptionsReadFault::NoMemory),
        Err(OptionsReadFault::Fault(_)) => mended_form(alloc, text, names),
    }
}

/// The mended text of opening hours, with these names of weekdays: strictly written, in one form. Plain hours are written as
/// `print_hours` writes them. No text asks for options here, and none is refused since it is unknown whether a rule is open.
/// Errors: the first fault of the tokens or of the grammar, where it stands in the text; or that there is no memory.
pub fn mended_hours(
    alloc: Global,
    text: &[u8],
    names: DayNames,
) -> Result<Vec<u8>, OptionsReadFault>
    ensures mended { IfOk result (λ mended. IsMendedText names text.now mended.items) }
    ensures fault { IfErr result (IsMendStop names text.now) }
{
    match read_loose_hours(alloc, text, names) {
        Ok(read) => mended_plain(alloc, &read),
        Err(LooseReadFault::NoMemory) => Err(OptionsReadFault::NoMemory),
        Err(LooseReadFault::Fault(_)) => mended_other(alloc, text, names),
    }
}
