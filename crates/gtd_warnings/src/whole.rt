//! The rules that hold of a domain as a whole, which are costly to find.

ghost use Rattle.std.specs.Prelude.{IfOk};
ghost use Rattle.gtd_core.specs.Parts.{domain_tree};
ghost use Rattle.gtd_warnings.specs.Whole.{AreOfWhole};

use crate::days::rule_on_given;
use crate::extents::rule_throughout;
use gtd_core::{Domain, Horizon};
use gtd_mistakes::Rule;
use std::alloc::{AllocError, Global};

/// What was found of a domain.
#[derive(Clone, Copy)]
pub(crate) struct WholeRules {
    /// `NeverHolds` or `AlwaysHolds`, if one holds.
    pub(crate) throughout: Option<Rule>,
    /// `Past` or `EndsSoon`, if days were given and one holds on the first of them.
    pub(crate) on_day: Option<Rule>,
}

/// The rules that hold of a domain as a whole, on the first of these days if some are given.
pub(crate) fn rules_of_whole(
    alloc: Global,
    domain: &Domain,
    days: Option<Horizon>,
) -> Result<WholeRules, AllocError>
    ensures { IfOk result (AreOfWhole days (domain_tree domain.now)) }
{
    let throughout = rule_throughout(alloc, domain)?;
    let on_day = rule_on_given(alloc, domain, days, throughout)?;
    Ok(WholeRules { throughout, on_day })
}
