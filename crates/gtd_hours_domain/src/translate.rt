//! Opening hours, as a domain.

ghost use Rattle.std.specs.Prelude.{◌≡◌, ◌↔◌, ◌<◌, max, ℤ, IfErr, IfOk};
ghost use Rattle.gtd_core.specs.Limits.{most_basic_domains};
ghost use Rattle.gtd_core.specs.Parts.{domain_tree};
ghost use Rattle.gtd_core.specs.Trees.{leaf_count};
ghost use Rattle.gtd_eval.specs.Membership.{InDomain};
ghost use Rattle.gtd_hours.specs.Cost.{cost_after, hours_cost};
ghost use Rattle.gtd_hours.specs.Opening.{IsOpen, IsOpenAfter};
ghost use Rattle.gtd_hours_leaves.specs.Leaves.{InMaybe, maybe_leaves};

use crate::cost::{cost_of, up_to_fallback};
use crate::said::{Said, after_rule};
use gtd_core::limits::MOST_BASIC_DOMAINS;
use gtd_core::{Domain, Expr};
use gtd_hours::{Hours, Rule};
use gtd_hours_leaves::or_nothing;
use std::alloc::{AllocError, Global};
use thiserror::Error;

/// Why there is no domain.
#[derive(Clone, Copy, Debug, PartialEq, Eq, Error)]
pub enum TranslationFault {
    /// The domain would have more than 128 basic domains.
    #[error("TooMany")]
    TooMany,
    /// Memory was refused.
    #[error("NoMemory")]
    NoMemory,
}

// What is open after rules.
fn after_rules(alloc: Global, rules: &[Rule]) -> Result<Option<Expr>, AllocError>
    ensures seconds { IfOk result (λ after. (s : ℤ) → InMaybe after s ↔ IsOpenAfter rules.now ⊥ ⊥ s) }
    ensures leaves { IfOk result (λ after. maybe_leaves after ≡ cost_after rules.now 0 0) }
{
    let mut said = Said {
        opened: None,
        closed: None,
    };
    let mut left = up_to_fallback(rules);
    let mut rest = rules;
    while let Some((rule, more)) = rest.split_first() {
        left = left.saturating_sub(1);
        said = after_rule(alloc, said, rule, left > 0)?;
        rest = more;
    }
    Ok(said.opened)
}

/// The domain that contains exactly the seconds at which the hours are open, over all time. It has as many basic domains as
/// `cost_of` says. If these are more than 128, the answer is `TooMany`, and no memory is taken. `NoMemory` is answered only
/// if the allocator refused memory.
pub fn domain_of(alloc: Global, hours: &Hours) -> Result<Domain, TranslationFault>
    ensures open { IfOk result (λ domain. (s : ℤ) → InDomain domain s ↔ IsOpen hours.now s) }
    ensures count { IfOk result (λ domain. leaf_count (domain_tree domain) ≡ hours_cost hours.now) }
    ensures too_many { IfErr result (λ fault. (fault ≡ TranslationFault.TooMany) ↔ (most_basic_domains < hours_cost hours.now)) }
{
    if cost_of(hours) > u32::from(MOST_BASIC_DOMAINS) {
        return Err(TranslationFault::TooMany);
    }
    let Ok(seconds) = after_rules(alloc, hours.rules.as_slice()) else {
        return Err(TranslationFault::NoMemory);
    };
    match Domain::new(or_nothing(seconds)) {
        Ok(domain) => Ok(domain),
        Err(_) => unreachable!(),
    }
}
