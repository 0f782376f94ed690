//! Domains that never or always hold.

ghost use Rattle.std.specs.Prelude.{IfOk};
ghost use Rattle.gtd_core.specs.Parts.{domain_tree};
ghost use Rattle.gtd_eval.specs.Membership.{SomeGivesYear};
ghost use Rattle.gtd_warnings.specs.EndDays.{IsEndedBy};
ghost use Rattle.gtd_warnings.specs.Extents.{HoldsThroughout};
ghost use Rattle.gtd_warnings.specs.Found.{IsFound};

use crate::over::{end_day, gives_year, holds_none_from};
use gtd_core::Domain;
use gtd_core::limits::FIRST_HORIZON_DAY;
use gtd_eval::{Extent, extent_of};
use gtd_mistakes::Rule;
use std::alloc::{AllocError, Global};

// The rule that holds throughout of a domain without years.
fn rule_ever(alloc: Global, domain: &Domain) -> Result<Option<Rule>, AllocError>
    requires no_year { SomeGivesYear (domain_tree domain.now) → ⊥ }
    ensures found { IfOk result (IsFound (HoldsThroughout (domain_tree domain.now))) }
{
    match extent_of(alloc, domain)? {
        Extent::Never => Ok(Some(Rule::NeverHolds)),
        Extent::Sometimes => Ok(None),
        Extent::Always => Ok(Some(Rule::AlwaysHolds)),
    }
}

// The same of a domain that gives a year and ends by its years before a day.
fn rule_by_end(alloc: Global, domain: &Domain, end: i64) -> Result<Option<Rule>, AllocError>
    requires year { SomeGivesYear (domain_tree domain.now) }
    requires ended { IsEndedBy (domain_tree domain.now) end }
    ensures found { IfOk result (IsFound (HoldsThroughout (domain_tree domain.now))) }
{
    if holds_none_from(alloc, domain, FIRST_HORIZON_DAY, end)? {
        Ok(Some(Rule::NeverHolds))
    } else {
        Ok(None)
    }
}

/// The rule that holds of a domain throughout: `NeverHolds` or `AlwaysHolds`, if one does.
pub(crate) fn rule_throughout(alloc: Global, domain: &Domain) -> Result<Option<Rule>, AllocError>
    ensures found { IfOk result (IsFound (HoldsThroughout (domain_tree domain.now))) }
{
    if !gives_year(domain.expr()) {
        return rule_ever(alloc, domain);
    }
    match end_day(domain.expr()) {
        Some(end) => rule_by_end(alloc, domain, end),
        None => Ok(None),
    }
}
