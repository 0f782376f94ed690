//! The text of selectors of one class.

ghost use Rattle.std.specs.Prelude.{◌≡◌, ◌++◌, ◌∷◌, [], IfOk, codes, length, string_bytes, take, true, false, ◌-◌};
ghost use Rattle.gtd_hours.specs.Written.{hours_text, kind_text};
ghost use Rattle.gtd_hours.specs.declared.hours.Modifier.TheVariants as modifier;
ghost use Rattle.gtd_hours_writing.specs.Selecting.{HasKinds};

use crate::copies::copy_of;
use gtd_hours::{Hours, Kind, Link, Modifier, Months, Rule, Selector, print_hours};
use std::alloc::{AllocError, Global};

// How many bytes ` Jan` has.
const JANUARY: usize = 4;

// A kind of selectors.
fn kind_with(alloc: Global, selectors: &[Selector]) -> Result<Kind, AllocError>
    ensures { IfOk result (λ kind. kind.selectors.items ≡ selectors.now) }
{
    let selectors = copy_of(alloc, selectors)?;
    Ok(Kind { selectors })
}

// January as a kind of selectors.
fn january(alloc: Global) -> Result<Kind, AllocError>
    ensures { IfOk result (λ kind. kind_text false kind.selectors.items ≡ codes "Jan") }
{
    let mut selectors = Vec::new(alloc);
    selectors.push(Selector::Months(Months { first: 1, last: 1 }))?;
    Ok(Kind { selectors })
}

// An open rule with these kinds.
fn open_rule(alloc: Global, kinds: Vec<Kind>) -> Rule
    ensures has { result.kinds.items ≡ kinds.items }
    ensures times { result.times.items ≡ [] }
    ensures opens { result.modifier ≡ modifier.Open }
{
    Rule {
        link: Link::Instead,
        kinds,
        times: Vec::new(alloc),
        modifier: Modifier::Open,
    }
}

// Hours of one rule.
fn one_rule(alloc: Global, rule: Rule) -> Result<Hours, AllocError>
    ensures { IfOk result (λ hours. hours.rules.items ≡ rule ∷ []) }
{
    let mut rules = Vec::new(alloc);
    rules.push(rule)?;
    Ok(Hours { rules })
}

// Hours of one open rule with these kinds.
fn hours_with(alloc: Global, kinds: Vec<Kind>) -> Result<Hours, AllocError>
    ensures { IfOk result (HasKinds kinds.items) }
{
    let rule = open_rule(alloc, kinds);
    let hours = one_rule(alloc, rule)?;
    Ok(hours)
}

// Hours with these selectors alone.
fn hours_of(alloc: Global, selectors: &[Selector]) -> Result<Hours, AllocError>
    ensures { IfOk result (λ hours. hours_text hours ≡ kind_text false selectors.now) }
{
    let mut kinds = Vec::new(alloc);
    let kind = kind_with(alloc, selectors)?;
    kinds.push(kind)?;
    hours_with(alloc, kinds)
}

// Hours with these selectors, and January.
fn hours_before(alloc: Global, selectors: &[Selector]) -> Result<Hours, AllocError>
    ensures { IfOk result (λ hours. hours_text hours ≡ kind_text true selectors.now ++ codes " Jan") }
{
    let mut kinds = Vec::new(alloc);
    let kind = kind_with(alloc, selectors)?;
    kinds.push(kind)?;
    let month = january(alloc)?;
    kinds.push(month)?;
    hours_with(alloc, kinds)
}

/// Selectors of one class, as `print_hours` writes them by themselves.
pub(crate) fn text_of(alloc: Global, selectors: &[Selector]) -> Result<Vec<u8>, AllocError>
    ensures { IfOk result (λ text. text.items ≡ kind_text false selectors.now) }
{
    let hours = hours_of(alloc, selectors)?;
    let written = print_hours(alloc, &hours)?;
    copy_of(alloc, written.as_bytes())
}

// The bytes without those at the end that January is written with.
fn without_january(bytes: &[u8]) -> &[u8]
    ensures { result.now ≡ take (length bytes.now - 4) bytes.now }
{
    if bytes.len() < JANUARY {
        return &bytes[..0];
    }
    &bytes[..bytes.len() - JANUARY]
}

/// Selectors of one class, as `print_hours` writes them before others: before January, which is left out.
pub(crate) fn text_before(alloc: Global, selectors: &[Selector]) -> Result<Vec<u8>, AllocError>
    ensures { IfOk result (λ text. text.items ≡ kind_text true selectors.now) }
{
    let hours = hours_before(alloc, selectors)?;
    let written = print_hours(alloc, &hours)?;
    copy_of(alloc, without_january(written.as_bytes()))
}
