//! Hours in a condition, and where they are warned of.

ghost use Rattle.std.specs.Prelude.{◌≡◌, IfOk, map};
ghost use Rattle.gtd_conditional_values.specs.TermHours as spec;

use gtd_core::limits::MOST_BASIC_DOMAINS;
use gtd_hours::Hours;
use gtd_hours_domain::cost_of;
use gtd_hours_holidays::KnownYears;
use gtd_hours_known::KnownHours;
use gtd_hours_warnings::{Warning, warnings_with};
use std::alloc::{AllocError, Global};

/// Hours in a condition.
#[derive(Drop)]
pub struct TermHours {
    /// The hours.
    pub hours: Hours,
    /// Their warnings, in the order of their places, which are numbers of bytes of the value before them. None if they need more
    /// than 128 basic domains.
    pub warnings: Vec<Warning>,
}

// The warnings of a text that begins at this place of a value, with their places there.
fn placed(alloc: Global, start: usize, warnings: Vec<Warning>) -> Result<Vec<Warning>, AllocError>
    ensures { IfOk result (λ found. found.items ≡ map (spec.placed start) warnings.items) }
{
    let mut found = Vec::new(alloc);
    for warning in warnings {
        found.push(Warning {
            kind: warning.kind,
            place: start.saturating_add(warning.place),
            form: warning.form,
        })?;
    }
    Ok(found)
}

// Whether hours need more basic domains than a domain may have.
fn need_too_many(hours: &Hours) -> bool
    ensures { result ≡ spec.need_too_many hours.now }
{
    cost_of(hours) > u32::from(MOST_BASIC_DOMAINS)
}

// The warnings of a text from which these hours are read, and which begins at this place of a value. Hours that need too many
// basic domains are at fault, so that nothing is to be warned of: they may have very many rules.
fn warnings_at(
    alloc: Global,
    start: usize,
    text: &[u8],
    read: &KnownHours,
    years: Option<KnownYears>,
) -> Result<Vec<Warning>, AllocError>
    ensures { IfOk result (λ warnings.
        spec.AreWarnedIf (spec.need_too_many read.now.hours) start text.now years read.now warnings.items) }
{
    if need_too_many(&read.hours) {
        return Ok(Vec::new(alloc));
    }
    let found = warnings_with(alloc, text, read, years)?;
    let warnings = placed(alloc, start, found)?;
    Ok(warnings)
}

/// The hours that were read of a text that begins at this place of a value, with its warnings, if holidays are known in these
/// years.
pub(crate) fn hours_at(
    alloc: Global,
    start: usize,
    text: &[u8],
    read: KnownHours,
    years: Option<KnownYears>,
) -> Result<TermHours, AllocError>
    ensures { IfOk result (spec.AreHoursAt start text.now years read) }
{
    let warnings = warnings_at(alloc, start, text, &read, years)?;
    Ok(TermHours {
        hours: read.hours,
        warnings,
    })
}
