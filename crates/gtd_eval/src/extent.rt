//! Whether a domain holds at no second, at some, or at all.

ghost use Rattle.std.specs.Prelude.{◌≡◌, IfOk};
ghost use Rattle.gtd_core.specs.Horizons.{IsHorizon};
ghost use Rattle.gtd_core.specs.Parts.{domain_tree};
ghost use Rattle.gtd_core.specs.Whole as spec;
ghost use Rattle.gtd_core.specs.Whole.{whole};
ghost use Rattle.gtd_eval.specs.Extent.{IsChanging, IsExtent, IsVaried, first_second};
ghost use Rattle.gtd_eval.specs.Membership.{InDomain, SomeGivesYear};

use crate::membership::{days_to_repeat, gives_year, holds};
use crate::queries::next_change;
use gtd_core::limits::{FIRST_HORIZON_DAY, FIRST_MOMENT, HORIZONS_END, MOST_HORIZON_DAYS};
use gtd_core::{Domain, Horizon, Sec};
use std::alloc::{AllocError, Global};

/// At which seconds a domain holds: of all time, or if some start gives a year, of the days from 1901-01-01 to
/// 2699-12-31.
#[derive(Clone, Copy, Debug, PartialEq, Eq)]
pub enum Extent {
    /// At no second.
    Never,
    /// At some seconds, but not at all.
    Sometimes,
    /// At all seconds.
    Always,
}

// The days from one up to but not including another.
fn days_between(from_day: i64, to_day: i64) -> Horizon
    requires days { IsHorizon from_day to_day }
    ensures first { spec.from_day result ≡ from_day }
    ensures last { spec.to_day result ≡ to_day }
{
    match Horizon::new(from_day, to_day) {
        Ok(days) => days,
        Err(_) => unreachable!(),
    }
}

// Whether membership in the domain differs at some second of the days from that at their first.
fn changes_in(alloc: Global, domain: &Domain, days: Horizon) -> Result<bool, AllocError>
    ensures changes { IfOk result
        (IsChanging (InDomain domain.now) (whole days).from (whole days).until) }
{
    let change = next_change(alloc, domain, days.from(), days)?;
    Ok(change.is_some())
}

// Whether membership in a domain without years differs at some second of all time from that at the first.
fn is_varied_ever(alloc: Global, domain: &Domain) -> Result<bool, AllocError>
    requires no_year { SomeGivesYear (domain_tree domain.now) → ⊥ }
    ensures varied { IfOk result (IsVaried (domain_tree domain.now) first_second) }
{
    let repeated = FIRST_HORIZON_DAY + days_to_repeat(domain.expr());
    changes_in(alloc, domain, days_between(FIRST_HORIZON_DAY, repeated))
}

// The same for a domain that gives a year. Its 799 years need two horizons, which share a day.
fn is_varied_in_years(alloc: Global, domain: &Domain) -> Result<bool, AllocError>
    requires year { SomeGivesYear (domain_tree domain.now) }
    ensures varied { IfOk result (IsVaried (domain_tree domain.now) first_second) }
{
    let middle = FIRST_HORIZON_DAY + MOST_HORIZON_DAYS;
    if changes_in(alloc, domain, days_between(FIRST_HORIZON_DAY, middle))? {
        return Ok(true);
    }
    changes_in(alloc, domain, days_between(middle - 1, HORIZONS_END))
}

// Whether membership in the domain differs at some second looked at from that at the first one of horizons.
fn is_varied(alloc: Global, domain: &Domain) -> Result<bool, AllocError>
    ensures varied { IfOk result (IsVaried (domain_tree domain.now) first_second) }
{
    if gives_year(domain.expr()) {
        is_varied_in_years(alloc, domain)
    } else {
        is_varied_ever(alloc, domain)
    }
}

/// At which seconds the domain holds: at none, at some, or at all.
pub fn extent_of(alloc: Global, domain: &Domain) -> Result<Extent, AllocError>
    ensures extent { IfOk result (IsExtent domain.now) }
{
    if is_varied(alloc, domain)? {
        return Ok(Extent::Sometimes);
    }
    if holds(domain, Sec(FIRST_MOMENT)) {
        Ok(Extent::Always)
    } else {
        Ok(Extent::Never)
    }
}
