//! Reading a text strictly or loosely.

ghost use Rattle.std.specs.Prelude.{◌≡◌, IfErr, IfOk};
ghost use Rattle.gtd_hours_loose.specs.Manners.{IsReadFaultIn, IsReadingIn, IsStrictStop, as_written};

use crate::reader::{LooseFault, LooseHours, LooseReadFault, read_loose_hours};
use gtd_hours_loose_tokens::DayNames;
use gtd_hours_text::{HoursTextFault, read_hours};
use std::alloc::Global;

/// How texts are read.
#[derive(Clone, Copy, Debug, PartialEq, Eq)]
pub enum Manner {
    /// As they are written: loose forms are refused.
    Strict,
    /// Also where they are written loosely, with these names of weekdays.
    Loose(DayNames),
}

// Why a text is not read as it is written.
fn as_written(why: HoursTextFault) -> LooseReadFault
    ensures { result ≡ as_written why }
{
    match why {
        HoursTextFault::NoMemory => LooseReadFault::NoMemory,
        HoursTextFault::Fault(bad) => LooseReadFault::Fault(LooseFault::Hours(bad)),
    }
}

// The hours that a text stands for as it is written.
fn read_as_written(alloc: Global, text: &[u8]) -> Result<LooseHours, LooseReadFault>
    ensures hours { IfOk result (IsReadingIn Manner.Strict text.now) }
    ensures fault { IfErr result (IsStrictStop text.now) }
{
    match read_hours(alloc, text) {
        Ok(hours) => Ok(LooseHours { hours, form: None }),
        Err(why) => Err(as_written(why)),
    }
}

/// The hours that a text stands for in a manner of reading. Errors: the first fault of the text; or that there is no memory.
pub fn read_hours_in(
    alloc: Global,
    text: &[u8],
    manner: Manner,
) -> Result<LooseHours, LooseReadFault>
    ensures hours { IfOk result (IsReadingIn manner text.now) }
    ensures fault { IfErr result (IsReadFaultIn manner text.now) }
{
    match manner {
        Manner::Strict => read_as_written(alloc, text),
        Manner::Loose(names) => read_loose_hours(alloc, text, names),
    }
}
