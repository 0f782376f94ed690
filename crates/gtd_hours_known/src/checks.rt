//! What is wrong with a text with holidays apart from the table.

ghost use Rattle.std.specs.Prelude.{◌≡◌, IfErr, IfOk};
ghost use Rattle.gtd_hours_known.specs.Reading.{IsSound, IsUnsound};
ghost use Rattle.gtd_hours_known.specs.Rules.{AreAllStrict, IsRuleFault, first_holiday};

use crate::fault::{KnownFault, told};
use crate::given::first_place;
use gtd_hours_grammar::{HoursFault, check_hours};
use gtd_hours_holiday_rules::{HolidayRule, HolidayText, told_fault};

/// Where the first rule that needs years has the slash of its first years without a last one, or else its first Easter, or its
/// first holiday.
pub(crate) fn first_holiday(rules: &[HolidayRule]) -> Option<usize>
    ensures { result ≡ first_holiday rules.now }
{
    let mut rest = rules;
    while let Some((rule, more)) = rest.split_first() {
        if let Some(place) = rule.every_place {
            return Some(place);
        }
        if !rule.easter.is_empty() {
            return Some(first_place(rule.easter_places.as_slice()));
        }
        if !rule.holidays.is_empty() {
            return Some(first_place(rule.places.as_slice()));
        }
        rest = more;
    }
    None
}

// Whether each rule's own text is hours, or the first fault of the first one that is not.
fn check_rules(rules: &[HolidayRule]) -> Result<(), HoursFault>
    ensures rules { IfOk result (λ done. AreAllStrict rules.now) }
    ensures fault { IfErr result (IsRuleFault rules.now) }
{
    let mut rest = rules;
    while let Some((rule, more)) = rest.split_first() {
        check_hours(rule.text.as_slice())?;
        rest = more;
    }
    Ok(())
}

/// Whether the checked text, and each rule's own text, are hours, or the first fault.
pub(crate) fn check_found(found: &HolidayText) -> Result<(), KnownFault>
    ensures sound { IfOk result (λ done. IsSound found.now) }
    ensures fault { IfErr result (IsUnsound found.now) }
{
    match check_hours(found.checked.as_slice()) {
        Err(bad) => Err(told(told_fault(bad, found.told.as_slice()))),
        Ok(()) => match check_rules(found.rules.as_slice()) {
            Err(bad) => Err(KnownFault::Hours(bad)),
            Ok(()) => Ok(()),
        },
    }
}
