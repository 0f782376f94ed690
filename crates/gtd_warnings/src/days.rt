//! Domains that are over, or soon.

ghost use Rattle.std.specs.Prelude.{◌≡◌, ◌↔◌, ◌+ℤ◌, IfOk, IsTrue, MatchOption, Some, pos};
ghost use Rattle.gtd_core.specs.Parts.{domain_tree};
ghost use Rattle.gtd_core.specs.Whole.{from_day};
ghost use Rattle.gtd_core.specs.declared.horizon.Horizon.{Horizon};
ghost use Rattle.gtd_mistakes.specs.declared.rule.Rule.TheVariants as rule;
ghost use Rattle.gtd_warnings.specs.Days.{AreDaysFrom, HoldsOn};
ghost use Rattle.gtd_warnings.specs.EndDays.{IsEndedBy};
ghost use Rattle.gtd_warnings.specs.Extents.{HoldsThroughout};
ghost use Rattle.gtd_warnings.specs.Found.{IsFound};
ghost use Rattle.gtd_warnings.specs.RowsTold.{IsOnDay};

use crate::over::{end_day, gives_year, holds_none_from};
use gtd_core::limits::HORIZONS_END;
use gtd_core::{Domain, Horizon};
use gtd_mistakes::Rule;
use std::alloc::{AllocError, Global};

/// How many days from the one that is asked about are soon.
pub const DAYS_AHEAD: i64 = 30;

/// How many days are at most given for one that is asked about: those of 400 years.
pub const DAYS_LOOKED_AT: i64 = 146_097;

/// The days that are given for rows that are over on a day: the 400 years from it on, but none after 2699-12-31. `None` if there
/// are none, or the day is before 1901-01-01.
pub fn days_from(day: i64) -> Option<Horizon>
    ensures days { MatchOption result ((days : Horizon) → AreDaysFrom day days → ⊥) (AreDaysFrom day) }
{
    let end = if day < HORIZONS_END - DAYS_LOOKED_AT {
        day + DAYS_LOOKED_AT
    } else {
        HORIZONS_END
    };
    match Horizon::new(day, end) {
        Ok(days) => Some(days),
        Err(_) => None,
    }
}

// The day 30 days after the first of these days.
fn soon_after(days: Horizon) -> i64
    ensures value { result ≡ (from_day days +ℤ pos 30) }
{
    days.from_day() + DAYS_AHEAD
}

// The rule that holds on the first of these days of a domain that ends by its years before another day.
fn rule_by_end(
    alloc: Global,
    domain: &Domain,
    days: Horizon,
    end: i64,
) -> Result<Option<Rule>, AllocError>
    requires ended { IsEndedBy (domain_tree domain.now) end }
    ensures found { IfOk result (IsFound (λ it. HoldsOn it days (domain_tree domain.now))) }
{
    let day = days.from_day();
    if holds_none_from(alloc, domain, day, end)? {
        return Ok(Some(Rule::Past));
    }
    let soon = soon_after(days);
    if holds_none_from(alloc, domain, soon, end)? {
        return Ok(Some(Rule::EndsSoon));
    }
    Ok(None)
}

// The rule that holds on the first of these days of a domain that some second from 1901 on is in, or of which that is not known.
fn rule_of_some(alloc: Global, domain: &Domain, days: Horizon) -> Result<Option<Rule>, AllocError>
    requires some { HoldsThroughout (domain_tree domain.now) rule.NeverHolds → ⊥ }
    ensures found { IfOk result (IsFound (λ it. HoldsOn it days (domain_tree domain.now))) }
{
    // It repeats for ever.
    if !gives_year(domain.expr()) {
        return Ok(None);
    }
    match end_day(domain.expr()) {
        Some(end) => rule_by_end(alloc, domain, days, end),
        None => Ok(None),
    }
}

// Whether `NeverHolds` was found.
fn is_never(found: Option<Rule>) -> bool
    ensures never { IsTrue result ↔ (found ≡ Some rule.NeverHolds) }
{
    match found {
        Some(rule) => rule == Rule::NeverHolds,
        None => false,
    }
}

/// The rule that holds of a domain on the first of these days, if some are given and one does: `Past` or `EndsSoon`. What holds
/// of it throughout was found before.
pub(crate) fn rule_on_given(
    alloc: Global,
    domain: &Domain,
    days: Option<Horizon>,
    throughout: Option<Rule>,
) -> Result<Option<Rule>, AllocError>
    requires throughout { IsFound (HoldsThroughout (domain_tree domain.now)) throughout }
    ensures found { IfOk result (IsFound (IsOnDay days (domain_tree domain.now))) }
{
    let Some(days) = days else {
        return Ok(None);
    };
    if is_never(throughout) {
        Ok(Some(Rule::Past))
    } else {
        rule_of_some(alloc, domain, days)
    }
}
