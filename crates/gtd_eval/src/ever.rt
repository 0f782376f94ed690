//! Changes of a domain over all later seconds.

ghost use Rattle.std.specs.Prelude.{◌≡◌, ◌↔◌, IfOk, MatchOption, codes};
ghost use Rattle.gtd_core.specs.Parts.{domain_tree};
ghost use Rattle.gtd_eval.specs.Membership.{InDomain, SomeGivesYear};
ghost use Rattle.gtd_core.specs.Seconds.{IsMomentSecond};
ghost use Rattle.gtd_eval.specs.Ever.{NeverChangesAfter, IsFirstChange};

use crate::membership::{days_to_repeat, gives_year};
use crate::queries::next_change;
use gtd_core::{Domain, Horizon, Sec};
use std::alloc::Global;
use thiserror::Error;

/// Why there is no answer about the changes of a domain for ever.
#[derive(Clone, Copy, Debug, PartialEq, Eq, Error)]
pub enum EverFault {
    /// Some start of the domain gives a year, so that the domain need not repeat.
    #[error("HasYear")]
    HasYear,
    /// Memory was refused.
    #[error("NoMemory")]
    NoMemory,
}

impl EverFault {
    ghost use Rattle.gtd_eval.specs.Names.{ever_fault_name};

    /// The fault's name, as fault lines show it.
    pub fn name(&self) -> &'static str
        ensures text { result.now ≡ ever_fault_name self.now }
    {
        match self {
            EverFault::HasYear => "HasYear",
            EverFault::NoMemory => "NoMemory",
        }
    }
}

/// The least later second, however late, at which membership in the domain differs from that at the given one, which is
/// a moment. `None` exactly if there is no such second. Faults, in order: `HasYear` exactly if some start of the domain
/// gives a year, `NoMemory`.
pub fn next_change_ever(
    alloc: Global,
    domain: &Domain,
    second: Sec,
) -> Result<Option<Sec>, EverFault>
    requires moment { IsMomentSecond second.0 }
    ensures change { IfOk result (λ change. MatchOption change
        (NeverChangesAfter (InDomain domain.now) second.0)
        (λ c. IsFirstChange (InDomain domain.now) second.0 c.0)) }
    ensures has_year { (result ≡ Err EverFault.HasYear)
        ↔ SomeGivesYear (domain_tree domain.now) }
{
    if gives_year(domain.expr()) {
        return Err(EverFault::HasYear);
    }
    let day = second.day();
    let Ok(horizon) = Horizon::new(day, day + days_to_repeat(domain.expr())) else {
        unreachable!();
    };
    match next_change(alloc, domain, second, horizon) {
        Ok(change) => Ok(change),
        Err(_) => Err(EverFault::NoMemory),
    }
}
