//! Reading the hours of a text with holidays, comments, unknown and fallback rules.

ghost use Rattle.std.specs.Prelude.{◌≡◌, IfErr, IfOk, None};
ghost use Rattle.gtd_hours_loose.specs.Reading.{IsStrict};
ghost use Rattle.gtd_hours_known.specs.Faults.{uncovered};
ghost use Rattle.gtd_hours_known.specs.Given.{AreAllGiven};
ghost use Rattle.gtd_hours_known.specs.Marks.{HasMarks};
ghost use Rattle.gtd_hours_known.specs.Reading.{IsHolidayStop, IsKnown, IsKnownStop, IsOtherStop, IsSound};
ghost use Rattle.gtd_hours_known.specs.Reading.{IsTableStop, KnownStandsFor};
ghost use Rattle.gtd_hours_known.specs.Rules.{AreAllStrict, AreHolidayRules};

use crate::checks::check_found;
use crate::fault::{KnownFault, KnownReadFault, stopped};
use crate::known::{Known, KnownHours};
use crate::marks::{with_marks, without_marks};
use crate::needs::first_need;
use crate::rules::{RulesStop, hours_of_rules};
use gtd_hours_holiday_rules::{HolidayRule, HolidayText, holiday_text};
use gtd_hours_text::{HoursTextFault, read_hours};
use std::alloc::Global;

/// The hours that a text stands for as it is written, with the holidays that the table has in the years.
///
/// Errors, the first in this order: a byte with which no token begins, or a comment that does not end or has a control
/// byte, whichever stands first; the first fault of the text, or a place that people read in two ways; the first need of
/// its rules, from left to right; `Uncovered` at the first holiday of whose kind the table does not say all in the years. A
/// need is `Years` at the slash of the first years without a last one of a rule, or at its first Easter, where no years are
/// given; `Holidays` or `Years` at a holiday for which there is no table that says all of its kind for some day, or else no
/// years are given; `Unknown` where an unknown rule is no fallback rule, or a fallback rule that is not unknown comes after
/// it. `NoMemory` is answered only if memory was refused. A text without holidays asks for no table, and one without Easter
/// and without such years either for no years. No text is known whose rules are at fault by themselves, where the text with
/// words in place of its holidays and comments is not; such a fault would come before the needs, at its place in the rule
/// alone.
pub fn read_known_hours(
    alloc: Global,
    text: &[u8],
    known: &Known,
) -> Result<KnownHours, KnownReadFault>
    ensures hours { IfOk result (KnownStandsFor known.now text.now) }
    ensures form { IfOk result (λ read. read.form ≡ None) }
    ensures fault { IfErr result (IsKnownStop known.now text.now) }
{
    match read_hours(alloc, text) {
        Ok(hours) => Ok(without_marks(alloc, hours)),
        Err(why) => match why {
            HoursTextFault::NoMemory => Err(KnownReadFault::NoMemory),
            HoursTextFault::Fault(_) => read_other(alloc, text, known),
        },
    }
}

// The hours of a text that is no plain hours.
fn read_other(alloc: Global, text: &[u8], known: &Known) -> Result<KnownHours, KnownReadFault>
    requires { IsStrict text.now → ⊥ }
    ensures hours { IfOk result (KnownStandsFor known.now text.now) }
    ensures form { IfOk result (λ read. read.form ≡ None) }
    ensures fault { IfErr result (IsOtherStop known.now text.now) }
{
    match holiday_text(alloc, text) {
        Err(why) => Err(stopped(why)),
        Ok(found) => read_found(alloc, &found, known),
    }
}

// The hours of such a text with its rules.
fn read_found(
    alloc: Global,
    found: &HolidayText,
    known: &Known,
) -> Result<KnownHours, KnownReadFault>
    ensures sound { IfOk result (λ read. IsSound found.now) }
    ensures hours { IfOk result (λ read. IsKnown known.now found.now read.hours) }
    ensures marks { IfOk result (HasMarks found.now.rules.items) }
    ensures form { IfOk result (λ read. read.form ≡ None) }
    ensures fault { IfErr result (IsHolidayStop known.now found.now) }
{
    match check_found(found) {
        Err(bad) => Err(KnownReadFault::Fault(bad)),
        Ok(()) => read_sound(alloc, found, known),
    }
}

// The hours of such a text, whose checked text and rules are hours.
fn read_sound(
    alloc: Global,
    found: &HolidayText,
    known: &Known,
) -> Result<KnownHours, KnownReadFault>
    requires { IsSound found.now }
    ensures hours { IfOk result (λ read. IsKnown known.now found.now read.hours) }
    ensures marks { IfOk result (HasMarks found.now.rules.items) }
    ensures form { IfOk result (λ read. read.form ≡ None) }
    ensures fault { IfErr result (IsHolidayStop known.now found.now) }
{
    match first_need(known, found.rules.as_slice()) {
        Some(bad) => Err(KnownReadFault::Fault(bad)),
        None => read_given(alloc, found.rules.as_slice(), known),
    }
}

// The hours of rules for which all is given.
fn read_given(
    alloc: Global,
    rules: &[HolidayRule],
    known: &Known,
) -> Result<KnownHours, KnownReadFault>
    requires strict { AreAllStrict rules.now }
    requires given { AreAllGiven known.now rules.now }
    ensures rules { IfOk result (λ read. AreHolidayRules known.now rules.now read.hours.rules.items) }
    ensures marks { IfOk result (HasMarks rules.now) }
    ensures form { IfOk result (λ read. read.form ≡ None) }
    ensures fault { IfErr result (IsTableStop known.now rules.now) }
{
    match hours_of_rules(alloc, rules, known) {
        Err(why) => Err(uncovered(why)),
        Ok(hours) => match with_marks(alloc, hours, rules) {
            Err(_) => Err(KnownReadFault::NoMemory),
            Ok(read) => Ok(read),
        },
    }
}

// Why rules with holidays have no hours, as a fault of the text.
fn uncovered(why: RulesStop) -> KnownReadFault
    ensures { result ≡ uncovered why }
{
    match why {
        RulesStop::NoMemory => KnownReadFault::NoMemory,
        RulesStop::Uncovered { place, day } => {
            KnownReadFault::Fault(KnownFault::Uncovered { place, day })
        }
    }
}
