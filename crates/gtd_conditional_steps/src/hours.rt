//! The hours of terms, as one expression.

ghost use Rattle.std.specs.Prelude.{◌≡◌, ◌↔◌, ℤ, IfOk};
ghost use Rattle.gtd_core.specs.Trees.{tree_of};
ghost use Rattle.gtd_eval.specs.Membership.{InTree};
ghost use Rattle.gtd_hours.specs.Opening.{IsOpen};
ghost use Rattle.gtd_conditional_rows.specs.Steps.{HoursHold};
ghost use Rattle.gtd_conditional_steps.specs.Hours.{EachHoldsAt, HoldsAt};

use crate::tag::StepsFault;
use gtd_conditional_values::Term;
use gtd_core::{Expr, Op};
use gtd_hours::Hours;
use gtd_hours_domain::{TranslationFault, domain_of};
use gtd_hours_leaves::{copied, join};
use std::alloc::{AllocError, Global};

// The seconds at which hours are open.
fn seconds_of(alloc: Global, hours: &Hours) -> Result<Expr, StepsFault>
    ensures { IfOk result (λ expr. (s : ℤ) → InTree (tree_of expr) s ↔ IsOpen hours.now s) }
{
    match domain_of(alloc, hours) {
        Ok(domain) => match copied(alloc, domain.expr()) {
            Ok(expr) => Ok(expr),
            Err(_) => Err(StepsFault::NoMemory),
        },
        Err(why) => match why {
            TranslationFault::TooMany => Err(StepsFault::TooMany),
            TranslationFault::NoMemory => Err(StepsFault::NoMemory),
        },
    }
}

// The seconds of an expression at which the hours before hold too.
fn met(alloc: Global, before: Option<Expr>, more: Expr) -> Result<Expr, AllocError>
    ensures { IfOk result (λ expr. (s : ℤ) → InTree (tree_of expr) s ↔ (HoursHold before s × InTree (tree_of more) s)) }
{
    match before {
        None => Ok(more),
        Some(hours) => join(alloc, Op::Meet, hours, more),
    }
}

// The hours before, with one term more.
fn with_term(alloc: Global, before: Option<Expr>, term: &Term) -> Result<Option<Expr>, StepsFault>
    ensures { IfOk result (λ after. (s : ℤ) → HoursHold after s ↔ (HoursHold before s × HoldsAt term.now s)) }
{
    match term {
        Term::Named(_) => Ok(before),
        Term::Hours(given) => {
            let more = seconds_of(alloc, &given.hours)?;
            let expr = met(alloc, before, more)?;
            Ok(Some(expr))
        }
    }
}

/// The hours of terms, from left to right: `None` if there are none. `TooMany` is answered only if hours need more than 128 basic
/// domains, and `NoMemory` only if memory was refused.
pub(crate) fn hours_of(alloc: Global, terms: &[Term]) -> Result<Option<Expr>, StepsFault>
    ensures { IfOk result (λ hours. (s : ℤ) → HoursHold hours s ↔ EachHoldsAt terms.now s) }
{
    let mut hours = None;
    let mut rest = terms;
    while let Some((term, more)) = rest.split_first() {
        hours = with_term(alloc, hours, term)?;
        rest = more;
    }
    Ok(hours)
}
