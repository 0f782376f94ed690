//! The warnings of a text.

ghost use Rattle.std.specs.Prelude.{◌≡◌, ◌<◌, ◌≤◌, [], IfOk, OnOk, length};
ghost use Rattle.std.specs.List.{prefix_len};
ghost use Rattle.gtd_hours_warnings.specs.Warnings.{AddsAllHides, AddsLoose, AddsLooseForm, IsHidesWarning};
ghost use Rattle.gtd_hours_warnings.specs.Warnings.{IsLooseWarning, IsPutIf, is_by, place_in, put_in, strict_text};

use crate::commas::{rule_place, semicolon_of, word_before};
use crate::forms::joined_form;
use gtd_hours::Hours;
use gtd_hours_hidden::hiding_rules;
use gtd_hours_loose::{Part, StrictForm, is_loose, stretch, written_place};
use std::alloc::{AllocError, Global};

/// What a warning is of.
#[derive(Clone, Copy, Debug, PartialEq, Eq)]
pub enum WarningKind {
    /// A token that is written loosely, or is missing.
    Loose,
    /// A rule that hides hours of an earlier one.
    Hides,
    /// A holiday, Easter or years without a last one, which are known in some years alone.
    KnownYears,
    /// A comment on an open rule without a word that says that it is open.
    Remark,
    /// A fallback rule of which it is not known whether it is open.
    NotKnown,
    /// A rule that says days alone, and behind which a comma begins another rule: it holds all day.
    WholeDay,
}

/// A warning of a text of opening hours.
#[derive(Drop)]
pub struct Warning {
    /// What it is of.
    pub kind: WarningKind,
    /// The number of bytes before the token, before the rule, before the holiday, Easter or the slash of years without a last
    /// one, before the comment, or before the word or the comment that makes a fallback rule unknown.
    pub place: usize,
    /// What is written there strictly; or the hours with a comma before the rule, as they are strictly written; or the years; or
    /// the comment behind the word that it lacks; or the word that a rule lacks. It may be empty.
    pub form: Vec<u8>,
}

/// The text as it is strictly written.
pub(crate) fn strict_text<'a>(text: &'a [u8], form: &'a Option<StrictForm>) -> &'a [u8]
    ensures { result.now ≡ strict_text text.now form.now }
{
    match form {
        Some(form) => form.text.as_slice(),
        None => text,
    }
}

/// The place in the text of what begins here in its strict form.
pub(crate) fn place_in(text: &[u8], form: &Option<StrictForm>, place: usize) -> usize
    ensures { result ≡ place_in text.now form.now place }
{
    match form {
        Some(form) => written_place(place, text.len(), form.parts.as_slice()),
        None => place,
    }
}

// The warning of a part that is written loosely.
fn loose_warning(alloc: Global, strict: &[u8], part: Part) -> Result<Warning, AllocError>
    ensures { IfOk result (IsLooseWarning strict.now part) }
{
    let mut form = Vec::new(alloc);
    form.extend_from_slice(stretch(strict, part.start, part.end))?;
    Ok(Warning {
        kind: WarningKind::Loose,
        place: part.from,
        form,
    })
}

// Adds the warning of a part, if it is written loosely.
fn add_loose(
    alloc: Global,
    warnings: &mut Vec<Warning>,
    text: &[u8],
    strict: &[u8],
    part: Part,
) -> Result<(), AllocError>
    ensures { OnOk result (IsPutIf text.now strict.now part warnings.old.items warnings.new.items) }
{
    if is_loose(text, strict, part) {
        warnings.push(loose_warning(alloc, strict, part)?)?;
    }
    Ok(())
}

// The warnings of the parts of a strict form.
fn loose_warnings(alloc: Global, text: &[u8], form: &StrictForm) -> Result<Vec<Warning>, AllocError>
    ensures { IfOk result (λ found. AddsLoose text.now form.now.text.items form.now.parts.items [] found.items) }
{
    let mut warnings = Vec::new(alloc);
    let strict = form.text.as_slice();
    let mut rest = form.parts.as_slice();
    while let Some((part, later)) = rest.split_first() {
        add_loose(alloc, &mut warnings, text, strict, *part)?;
        rest = later;
    }
    Ok(warnings)
}

/// The warnings of what is written loosely, of a text that may have no strict form of its own.
pub(crate) fn form_warnings(
    alloc: Global,
    text: &[u8],
    form: &Option<StrictForm>,
) -> Result<Vec<Warning>, AllocError>
    ensures { IfOk result (λ found. AddsLooseForm text.now form.now found.items) }
{
    match form {
        Some(form) => loose_warnings(alloc, text, form),
        None => Ok(Vec::new(alloc)),
    }
}

// The warning of a rule that hides hours.
fn hides_warning(
    alloc: Global,
    text: &[u8],
    hours: &Hours,
    form: &Option<StrictForm>,
    rule: usize,
) -> Result<Warning, AllocError>
    requires later { 0 < rule }
    requires some { rule < length hours.now.rules.items }
    ensures { IfOk result (IsHidesWarning text.now hours.now form.now rule) }
{
    let strict = strict_text(text, form);
    let rules = hours.rules.as_slice();
    let semicolon = semicolon_of(strict, rules, rule);
    let place = place_in(text, form, rule_place(strict, semicolon));
    let form = joined_form(alloc, strict, semicolon, word_before(rules, rule))?;
    Ok(Warning {
        kind: WarningKind::Hides,
        place,
        form,
    })
}

// How many warnings from the first on are not behind this place.
fn count_by(warnings: &[Warning], place: usize) -> usize
    ensures count { result ≡ prefix_len (is_by place) warnings.now }
    ensures within { result ≤ length warnings.now }
{
    let mut count = 0;
    let mut rest = warnings;
    while let Some((warning, later)) = rest.split_first() {
        if place < warning.place {
            return count;
        }
        count += 1;
        rest = later;
    }
    count
}

/// Puts a warning behind those that are not behind its place.
pub(crate) fn put_in(warnings: &mut Vec<Warning>, warning: Warning) -> Result<(), AllocError>
    ensures { OnOk result (warnings.new.items ≡ put_in warning warnings.old.items) }
{
    let index = count_by(warnings.as_slice(), warning.place);
    warnings.insert(index, warning)?;
    Ok(())
}

/// Adds the warnings of the rules that hide hours, each at its place.
pub(crate) fn add_hides(
    alloc: Global,
    warnings: &mut Vec<Warning>,
    text: &[u8],
    hours: &Hours,
    form: &Option<StrictForm>,
) -> Result<(), AllocError>
    ensures { OnOk result (AddsAllHides text.now hours.now form.now warnings.old.items warnings.new.items) }
{
    let rules = hiding_rules(alloc, hours)?;
    let mut rest = rules.as_slice();
    while let Some((rule, later)) = rest.split_first() {
        let warning = hides_warning(alloc, text, hours, form, *rule)?;
        put_in(warnings, warning)?;
        rest = later;
    }
    Ok(())
}
