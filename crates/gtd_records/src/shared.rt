//! Domains that records share.

ghost use Rattle.std.specs.Prelude.{◌≡◌, ◌↔◌, IfOk, IsTrue};
ghost use Rattle.gtd_core.specs.Parts.{domain_tree};
ghost use Rattle.gtd_core.specs.Seconds.{IsHorizonSecond};
ghost use Rattle.gtd_eval.specs.Membership.{InTree};

use crate::week::{holds_weekly, week_of};
use gtd_core::{Domain, Sec};
use gtd_eval::holds;
use gtd_spans::SpanList;
use std::alloc::{AllocError, Global};
use std::marker::Model;
use std::sync::Arc;

/// A domain, and perhaps its spans in a week, among which a second is found sooner. In contracts it is the domain's tree.
#[derive(Drop)]
struct KeptDomain {
    domain: Domain,
    week: Option<SpanList>,
}

impl Model for KeptDomain {
    ghost use Rattle.std.specs.Prelude.{IfSome};
    ghost use Rattle.gtd_core.specs.Parts.{domain_tree};
    ghost use Rattle.gtd_core.specs.Trees.{Tree};
    ghost use Rattle.gtd_core.specs.facts.TreeCode.{tree_code};
    ghost use Rattle.gtd_records.specs.Week.{IsWeekOf};

    ghost Value = { Tree };

    ghost coded = { tree_code };

    ghost view = { λ a. domain_tree a.domain };

    ghost invariant = { λ a. IfSome a.week (IsWeekOf (domain_tree a.domain)) };
}

impl KeptDomain {
    // A domain, with its spans in a week if these are to be kept, it repeats weekly, and there are few.
    fn new(alloc: Global, domain: Domain, keep_week: bool) -> Result<KeptDomain, AllocError>
        ensures { IfOk result (λ kept. kept ≡ domain_tree domain) }
    {
        if !keep_week {
            return Ok(KeptDomain { domain, week: None });
        }
        let week = week_of(alloc, &domain)?;
        Ok(KeptDomain { domain, week })
    }

    fn domain(&self) -> &Domain
        ensures { domain_tree result.now ≡ self.now }
    {
        &self.domain
    }

    // Whether the domain contains a second.
    fn holds(&self, second: Sec) -> bool
        requires { IsHorizonSecond second.0 }
        ensures { IsTrue result ↔ InTree self.now second.0 }
    {
        match &self.week {
            Some(week) => holds_weekly(week, second),
            None => holds(&self.domain, second),
        }
    }
}

/// A domain that all records have whose domains are written in one text. In contracts it is its tree.
#[derive(Drop)]
pub(crate) struct SharedDomain {
    kept: Arc<KeptDomain>,
}

impl Model for SharedDomain {
    ghost use Rattle.std.specs.Arc.{arc_value};
    ghost use Rattle.gtd_core.specs.Trees.{Tree};
    ghost use Rattle.gtd_core.specs.facts.TreeCode.{tree_code};

    ghost Value = { Tree };

    ghost coded = { tree_code };

    ghost view = { λ a. arc_value a.kept };
}

impl SharedDomain {
    /// A domain that nothing shares yet. It may keep its spans in a week, by which the calls of `holds` are faster, if it repeats
    /// weekly and there are few. `AllocError` is answered only if memory was refused.
    pub(crate) fn new(
        alloc: Global,
        domain: Domain,
        keep_week: bool,
    ) -> Result<SharedDomain, AllocError>
        ensures { IfOk result (λ shared. shared ≡ domain_tree domain) }
    {
        let kept = KeptDomain::new(alloc, domain, keep_week)?;
        match Arc::new(alloc, kept) {
            Ok(kept) => Ok(SharedDomain { kept }),
            Err(_) => Err(AllocError),
        }
    }

    /// The same domain once more. `AllocError` is answered only if it is shared as often as can be counted.
    pub(crate) fn share(&self) -> Result<SharedDomain, AllocError>
        ensures { IfOk result (λ shared. shared ≡ self.now) }
    {
        let kept = Arc::try_clone(&self.kept)?;
        Ok(SharedDomain { kept })
    }

    /// The domain.
    pub(crate) fn domain(&self) -> &Domain
        ensures { domain_tree result.now ≡ self.now }
    {
        self.kept.domain()
    }

    /// Whether the domain contains a second.
    pub(crate) fn holds(&self, second: Sec) -> bool
        requires { IsHorizonSecond second.0 }
        ensures { IsTrue result ↔ InTree self.now second.0 }
    {
        self.kept.holds(second)
    }
}
