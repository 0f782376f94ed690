//! Reading a text with options strictly or loosely.

ghost use Rattle.std.specs.Prelude.{◌≡◌, IfErr, IfOk};
ghost use Rattle.gtd_hours_options.specs.Manners.{IsLooseReading, IsLooseStop, IsMendedStop, IsReadFaultWithIn};
ghost use Rattle.gtd_hours_options.specs.Manners.{IsReadingWithIn, no_form, placed, placed_fault};
ghost use Rattle.gtd_hours_options.specs.Reading.{IsOptionsFault};

use crate::fault::{OptionsFault, OptionsReadFault};
use crate::options::Options;
use crate::reader::read_hours_with;
use gtd_hours_known::{KnownHours, placed_fault as placed_known, placed_read, token_fault};
use gtd_hours_loose::{Manner, Part, strict_form, written_place};
use gtd_hours_loose_tokens::{DayNames, LooseStop};
use gtd_hours_moments::Need;
use std::alloc::Global;

/// The hours that a text stands for in a manner of reading, with these options.
///
/// Strictly it is read as it is written, as by [`read_hours_with`]. Loosely it is read as it is written if it has no fault so;
/// else its strict form is read so, and all places are told where that is written in the text. Errors: the first fault of the
/// text; or that there is no memory.
pub fn read_hours_with_in(
    alloc: Global,
    text: &[u8],
    manner: Manner,
    options: &Options,
) -> Result<KnownHours, OptionsReadFault>
    ensures hours { IfOk result (IsReadingWithIn manner options.now text.now) }
    ensures fault { IfErr result (IsReadFaultWithIn manner options.now text.now) }
{
    match manner {
        Manner::Strict => read_hours_with(alloc, text, options),
        Manner::Loose(names) => read_loosely(alloc, text, names, options),
    }
}

// The hours of a text that may be written loosely.
fn read_loosely(
    alloc: Global,
    text: &[u8],
    names: DayNames,
    options: &Options,
) -> Result<KnownHours, OptionsReadFault>
    ensures hours { IfOk result (IsLooseReading names options.now text.now) }
    ensures fault { IfErr result (IsLooseStop names options.now text.now) }
{
    match read_hours_with(alloc, text, options) {
        Ok(read) => Ok(read),
        Err(why) => match why {
            OptionsReadFault::NoMemory => Err(OptionsReadFault::NoMemory),
            OptionsReadFault::Fault(bad) => read_mended(alloc, text, names, bad, options),
        },
    }
}

// The hours of a text that has this fault as it is written.
fn read_mended(
    alloc: Global,
    text: &[u8],
    names: DayNames,
    bad: OptionsFault,
    options: &Options,
) -> Result<KnownHours, OptionsReadFault>
    requires { IsOptionsFault options.now text.now bad }
    ensures hours { IfOk result (IsLooseReading names options.now text.now) }
    ensures fault { IfErr result (IsMendedStop names options.now text.now) }
{
    match strict_form(alloc, text, names) {
        Err(stop) => Err(no_form(stop)),
        Ok(form) => match read_hours_with(alloc, form.text.as_slice(), options) {
            Err(why) => Err(placed(text.len(), form.parts.as_slice(), why)),
            Ok(read) => match placed_read(alloc, text.len(), form, read) {
                Err(_) => Err(OptionsReadFault::NoMemory),
                Ok(read) => Ok(read),
            },
        },
    }
}

// Why there is no strict form.
fn no_form(stop: LooseStop) -> OptionsReadFault
    ensures { result ≡ no_form stop }
{
    match stop {
        LooseStop::NoMemory => OptionsReadFault::NoMemory,
        LooseStop::Token(why) => OptionsReadFault::Fault(OptionsFault::Known(token_fault(why))),
    }
}

// A fault of the strict form with these parts, at its place in the text with so many bytes.
fn placed_fault(end: usize, parts: &[Part], bad: OptionsFault) -> OptionsFault
    ensures { result ≡ placed_fault end parts.now bad }
{
    match bad {
        OptionsFault::Known(bad) => OptionsFault::Known(placed_known(end, parts, bad)),
        OptionsFault::Time(need) => OptionsFault::Time(Need {
            kind: need.kind,
            place: written_place(need.place, end, parts),
        }),
    }
}

// Why the strict form is not read, at its place in the text.
fn placed(end: usize, parts: &[Part], why: OptionsReadFault) -> OptionsReadFault
    ensures { result ≡ placed end parts.now why }
{
    match why {
        OptionsReadFault::NoMemory => OptionsReadFault::NoMemory,
        OptionsReadFault::Fault(bad) => OptionsReadFault::Fault(placed_fault(end, parts, bad)),
    }
}
