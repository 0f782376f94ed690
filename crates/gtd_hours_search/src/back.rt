//! Opening hours for a domain.

ghost use Rattle.std.specs.Prelude.{◌↔◌, ℤ, IfOk, IfSome};
ghost use Rattle.gtd_eval.specs.Membership.{InDomain};
ghost use Rattle.gtd_hours.specs.Opening.{IsOpen};
ghost use Rattle.gtd_hours.specs.Writable.{IsWritable};

use crate::certain::{Comparison, have_same_seconds};
use crate::rules::rules_of;
use crate::writable::can_be_written;
use gtd_core::Domain;
use gtd_hours::{Hours, Rule};
use gtd_hours_cells::{Cell, Midnight, cells_of, cells_of_week};
use gtd_hours_domain::{TranslationFault, domain_of};
use gtd_hours_rules::rules_of_cells;
use std::alloc::{AllocError, Global};

// The hours of rules, if they can be written and are open at exactly the seconds of the domain.
fn checked(
    alloc: Global,
    rules: Vec<Rule>,
    domain: &Domain,
    comparison: Comparison,
) -> Result<Option<Hours>, AllocError>
    ensures same { IfOk result (λ found. IfSome found (λ hours. (s : ℤ) → IsOpen hours s ↔ InDomain domain.now s)) }
    ensures writable { IfOk result (λ found. IfSome found IsWritable) }
{
    let hours = Hours { rules };
    if !can_be_written(&hours) {
        return Ok(None);
    }
    match domain_of(alloc, &hours) {
        Ok(made) => {
            if have_same_seconds(alloc, &made, domain, comparison)? {
                return Ok(Some(hours));
            }
            Ok(None)
        }
        Err(TranslationFault::TooMany) => Ok(None),
        Err(TranslationFault::NoMemory) => Err(AllocError),
    }
}

// The hours of cells.
fn checked_cells(
    alloc: Global,
    cells: &[Cell],
    domain: &Domain,
) -> Result<Option<Hours>, AllocError>
    ensures same { IfOk result (λ found. IfSome found (λ hours. (s : ℤ) → IsOpen hours s ↔ InDomain domain.now s)) }
    ensures writable { IfOk result (λ found. IfSome found IsWritable) }
{
    let rules = rules_of_cells(alloc, cells)?;
    checked(alloc, rules, domain, Comparison::Seconds)
}

// The hours of the form of the domain.
fn of_form(
    alloc: Global,
    domain: &Domain,
    comparison: Comparison,
) -> Result<Option<Hours>, AllocError>
    ensures same { IfOk result (λ found. IfSome found (λ hours. (s : ℤ) → IsOpen hours s ↔ InDomain domain.now s)) }
    ensures writable { IfOk result (λ found. IfSome found IsWritable) }
{
    match rules_of(alloc, domain.expr())? {
        Some(rules) => checked(alloc, rules, domain, comparison),
        None => Ok(None),
    }
}

// The hours of the cells of the domain.
fn of_cells(alloc: Global, domain: &Domain, midnight: Midnight) -> Result<Option<Hours>, AllocError>
    ensures same { IfOk result (λ found. IfSome found (λ hours. (s : ℤ) → IsOpen hours s ↔ InDomain domain.now s)) }
    ensures writable { IfOk result (λ found. IfSome found IsWritable) }
{
    let cells = cells_of(alloc, domain.expr(), midnight)?;
    checked_cells(alloc, cells.as_slice(), domain)
}

// The hours of the weeks of the domain, or else those of its form.
fn of_week(alloc: Global, domain: &Domain) -> Result<Option<Hours>, AllocError>
    ensures same { IfOk result (λ found. IfSome found (λ hours. (s : ℤ) → IsOpen hours s ↔ InDomain domain.now s)) }
    ensures writable { IfOk result (λ found. IfSome found IsWritable) }
{
    let cells = cells_of_week(alloc, domain)?;
    match checked_cells(alloc, cells.as_slice(), domain)? {
        Some(hours) => Ok(Some(hours)),
        None => of_form(alloc, domain, Comparison::Seconds),
    }
}

// The hours of the cells of the domain, with stretches over midnight or cut there, or of its weeks.
fn of_parts(alloc: Global, domain: &Domain) -> Result<Option<Hours>, AllocError>
    ensures same { IfOk result (λ found. IfSome found (λ hours. (s : ℤ) → IsOpen hours s ↔ InDomain domain.now s)) }
    ensures writable { IfOk result (λ found. IfSome found IsWritable) }
{
    match of_cells(alloc, domain, Midnight::Kept)? {
        Some(hours) => Ok(Some(hours)),
        None => match of_cells(alloc, domain, Midnight::Cut)? {
            Some(hours) => Ok(Some(hours)),
            None => of_week(alloc, domain),
        },
    }
}

/// Hours that are open at exactly the seconds of the domain, or `None` if none are found. They are found for each domain that has
/// the form of a translation of hours, and for other domains that are joined of years, dates, weeks, weekdays and minutes of
/// days. The hours can be written: their kinds of selectors stand in the order of the syntax. `AllocError` is answered only if
/// memory was refused.
pub fn hours_of(alloc: Global, domain: &Domain) -> Result<Option<Hours>, AllocError>
    ensures same { IfOk result (λ found. IfSome found (λ hours. (s : ℤ) → IsOpen hours s ↔ InDomain domain.now s)) }
    ensures writable { IfOk result (λ found. IfSome found IsWritable) }
{
    match of_form(alloc, domain, Comparison::Equal)? {
        Some(hours) => Ok(Some(hours)),
        None => of_parts(alloc, domain),
    }
}
