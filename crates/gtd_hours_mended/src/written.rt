//! The mended text of a text as it is written.

ghost use Rattle.std.specs.Prelude.{◌≡◌, IfErr, IfOk};
ghost use Rattle.gtd_hours_options.specs.Told.{bad_token};
ghost use Rattle.gtd_hours_options.specs.declared.fault.OptionsReadFault.TheVariants as reading;
ghost use Rattle.gtd_hours_mended.specs.Mending.{HasRules, HasRulesIn, HasRulesOf, IsCheckedStop, IsMended, IsPartsStop};
ghost use Rattle.gtd_hours_mended.specs.Mending.{IsSound, IsTokensStop, IsUnmendedStop};
ghost use Rattle.gtd_hours_mended.specs.Stops.{no_items, no_moments, no_rules};

use crate::comments::comments_of;
use crate::making::{MakeStop, made_rules};
use crate::sound::check_sound;
use gtd_hours_grammar::{FaultKind, HoursFault};
use gtd_hours_holiday_rules::{Part, parts_of, rules_of};
use gtd_hours_items::{NoHolidayText, items_of, tokens_of};
use gtd_hours_known::KnownFault;
use gtd_hours_moments::{NoMomentText, TimeForm, moment_text};
use gtd_hours_options::{OptionsFault, OptionsReadFault};
use gtd_hours_tokens::Token;
use gtd_hours_writing::rules_text;
use std::alloc::Global;

// The text of rules with these parts and forms of times.
fn mended_parts(
    alloc: Global,
    checked: &[u8],
    parts: &[Part],
    forms: &[TimeForm],
) -> Result<Vec<u8>, MakeStop>
    ensures mended { IfOk result (λ mended. HasRulesOf checked.now parts.now forms.now mended.items) }
    ensures stop { IfErr result (IsPartsStop checked.now parts.now) }
{
    let found = rules_of(alloc, checked, parts)?;
    let comments = comments_of(alloc, parts)?;
    let made = made_rules(alloc, checked, found.as_slice(), comments.as_slice(), forms)?;
    let mended = rules_text(alloc, made.as_slice())?;
    Ok(mended)
}

// The text of the rules of these tokens.
fn mended_tokens(
    alloc: Global,
    checked: &[u8],
    tokens: &[Token],
    forms: &[TimeForm],
) -> Result<Vec<u8>, MakeStop>
    ensures mended { IfOk result (λ mended. HasRulesIn checked.now tokens.now forms.now mended.items) }
    ensures stop { IfErr result (IsTokensStop checked.now tokens.now) }
{
    let items = items_of(alloc, checked, tokens)?;
    let parts = parts_of(alloc, items.as_slice())?;
    mended_parts(alloc, checked, parts.as_slice(), forms)
}

fn bad_token(place: usize) -> OptionsReadFault
    ensures { result ≡ reading.Fault (bad_token place) }
{
    OptionsReadFault::Fault(OptionsFault::Known(KnownFault::Hours(HoursFault {
        kind: FaultKind::BadToken,
        place,
    })))
}

// Why a text has no items.
fn no_items(why: NoHolidayText) -> OptionsReadFault
    ensures { result ≡ no_items why }
{
    match why {
        NoHolidayText::BadToken { place } => bad_token(place),
        NoHolidayText::NoMemory => OptionsReadFault::NoMemory,
    }
}

// Why a text has no forms of times.
fn no_moments(why: NoMomentText) -> OptionsReadFault
    ensures { result ≡ no_moments why }
{
    match why {
        NoMomentText::BadToken { place } => bad_token(place),
        NoMomentText::NoMemory => OptionsReadFault::NoMemory,
    }
}

// Why rules are not written.
fn no_rules(why: MakeStop) -> OptionsReadFault
    ensures { result ≡ no_rules why }
{
    match why {
        MakeStop::Own(bad) => OptionsReadFault::Fault(OptionsFault::Known(KnownFault::Hours(bad))),
        MakeStop::NoMemory => OptionsReadFault::NoMemory,
    }
}

// The text of the rules of a text in which a range of times stands for each of these forms.
fn mended_checked(
    alloc: Global,
    checked: &[u8],
    forms: &[TimeForm],
) -> Result<Vec<u8>, OptionsReadFault>
    ensures mended { IfOk result (λ mended. HasRules checked.now forms.now mended.items) }
    ensures fault { IfErr result (IsCheckedStop checked.now) }
{
    match tokens_of(alloc, checked) {
        Err(why) => Err(no_items(why)),
        Ok(tokens) => match mended_tokens(alloc, checked, tokens.as_slice(), forms) {
            Ok(mended) => Ok(mended),
            Err(why) => Err(no_rules(why)),
        },
    }
}

// The mended text of a text that is not at fault.
fn mended_sound(alloc: Global, text: &[u8]) -> Result<Vec<u8>, OptionsReadFault>
    requires { IsSound text.now }
    ensures mended { IfOk result (λ mended. IsMended text.now mended.items) }
    ensures fault { IfErr result (IsUnmendedStop text.now) }
{
    match moment_text(alloc, text) {
        Err(why) => Err(no_moments(why)),
        Ok(moments) => mended_checked(
            alloc,
            moments.checked.text.as_slice(),
            moments.forms.as_slice(),
        ),
    }
}

/// The mended text of a text as it is written, whatever options it asks for and whether it is known or not when its rules are
/// open. Errors: the first fault of its tokens or of the grammar; or that there is no memory.
pub fn mended_as_written(alloc: Global, text: &[u8]) -> Result<Vec<u8>, OptionsReadFault>
    ensures mended { IfOk result (λ mended. IsMended text.now mended.items) }
    ensures fault { IfErr result (IsUnmendedStop text.now) }
{
    match check_sound(alloc, text) {
        Err(why) => Err(why),
        Ok(()) => mended_sound(alloc, text),
    }
}
