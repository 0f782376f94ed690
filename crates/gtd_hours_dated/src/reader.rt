//! The hours that a text stands for with more month days.

ghost use Rattle.std.specs.Prelude.{IfErr, IfOk, Some};
ghost use Rattle.gtd_hours_dated.specs.Dated.{IsDatedHours, more_of};
ghost use Rattle.gtd_hours_text.specs.Reading.{IsFaultOf};

use crate::joining::rules_with_dates;
use crate::more::MoreDays;
use gtd_hours::Hours;
use gtd_hours_text::{HoursTextFault, read_hours};
use std::alloc::Global;

/// The hours that a text stands for, where each of its rules has these month days, too. Where they are no days at all, no day
/// matches a rule without month days of its own. Errors: the first fault of the text; or, where there is none, that there is no
/// memory.
pub fn read_dated_hours(
    alloc: Global,
    text: &[u8],
    more: &MoreDays,
) -> Result<Hours, HoursTextFault>
    ensures hours { IfOk result (λ hours. IsDatedHours text.now (Some (more_of more.now)) hours) }
    ensures fault { IfErr result (λ fault. IsFaultOf text.now fault) }
{
    let plain = read_hours(alloc, text)?;
    match rules_with_dates(alloc, plain.rules, more) {
        Ok(rules) => Ok(Hours { rules }),
        Err(_) => Err(HoursTextFault::NoMemory),
    }
}
