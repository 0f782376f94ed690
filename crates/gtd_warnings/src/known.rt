//! Domains that rows repeat, so that what holds of them as a whole is not found each time.

ghost use Rattle.std.specs.Prelude.{◌≡◌, IfOk, IfSome, IsTrue};
ghost use Rattle.gtd_core.specs.Parts.{domain_tree};
ghost use Rattle.gtd_core.specs.Trees.{tree_of};
ghost use Rattle.gtd_warnings.specs.Whole.{AreOfWhole};

use crate::hash::hash_of;
use crate::whole::{WholeRules, rules_of_whole};
use gtd_core::{Domain, Expr, Horizon};
use std::alloc::{AllocError, Global};
use std::marker::Model;

/// How many domains are kept.
const PLACES: usize = 1024;

// A copy of an expression.
fn copy_expr(alloc: Global, expr: &Expr) -> Result<Expr, AllocError>
    ensures { IfOk result (λ copy. tree_of copy ≡ tree_of expr.now) }
{
    match expr {
        Expr::Leaf(basic) => Ok(Expr::Leaf(*basic)),
        Expr::Join(op, left, right) => {
            let left = copy_expr(alloc, left)?;
            let right = copy_expr(alloc, right)?;
            Ok(Expr::Join(*op, Box::new(alloc, left)?, Box::new(alloc, right)?))
        }
    }
}

// A copy of a domain.
fn copy_domain(alloc: Global, domain: &Domain) -> Result<Domain, AllocError>
    ensures { IfOk result (λ copy. domain_tree copy ≡ domain_tree domain.now) }
{
    match Domain::new(copy_expr(alloc, domain.expr())?) {
        Ok(copy) => Ok(copy),
        // A copy has as many basic domains as the domain.
        Err(_) => Err(AllocError),
    }
}

/// A domain, and what was found of it as a whole with these days. In contracts it is the domain's tree.
#[derive(Drop)]
struct KnownDomain {
    domain: Domain,
    days: Option<Horizon>,
    rules: WholeRules,
}

impl Model for KnownDomain {
    ghost use Rattle.gtd_core.specs.Parts.{domain_tree};
    ghost use Rattle.gtd_core.specs.Trees.{Tree};
    ghost use Rattle.gtd_core.specs.facts.TreeCode.{tree_code};
    ghost use Rattle.gtd_warnings.specs.Whole.{AreOfWhole};

    ghost Value = { Tree };

    ghost coded = { tree_code };

    ghost view = { λ a. domain_tree a.domain };

    ghost invariant = { λ a. AreOfWhole a.days (domain_tree a.domain) a.rules };
}

// Whether the same days are given.
fn are_same(days: Option<Horizon>, other: Option<Horizon>) -> bool
    ensures { IsTrue result → days ≡ other }
{
    match days {
        None => other.is_none(),
        Some(days) => match other {
            None => false,
            Some(other) => days == other,
        },
    }
}

// The place of a domain with this hash. Other domains may have the same place.
fn place_of(hash: u32) -> usize {
    (hash >> 22) as usize
}

// A copy of a domain, with what was found of it.
fn known_domain(
    alloc: Global,
    domain: &Domain,
    days: Option<Horizon>,
    rules: WholeRules,
) -> Result<KnownDomain, AllocError>
    requires found { AreOfWhole days (domain_tree domain.now) rules }
{
    Ok(KnownDomain {
        domain: copy_domain(alloc, domain)?,
        days,
        rules,
    })
}

/// The latest domains that came twice, each at its place, with what was found of them as a whole.
#[derive(Drop)]
pub struct KnownDomains {
    pub(crate) alloc: Global,
    places: Vec<Option<KnownDomain>>,
    // The hash of the latest domain of each place that was not known.
    latest_hashes: Vec<u32>,
}

impl KnownDomains {
    /// Holds no domain yet. Takes no memory.
    pub fn new(alloc: Global) -> KnownDomains {
        KnownDomains {
            alloc,
            places: Vec::new(alloc),
            latest_hashes: Vec::new(alloc),
        }
    }

    // Whether the latest domain of the same place had the same hash. From now on, this one is the latest.
    fn replace_latest_hash(&mut self, hash: u32) -> Result<bool, AllocError> {
        for _ in self.latest_hashes.len()..PLACES {
            self.latest_hashes.push(0)?;
        }
        let Some(latest) = self.latest_hashes.get_mut(place_of(hash)) else {
            return Ok(false);
        };
        let is_same = *latest == hash;
        *latest = hash;
        Ok(is_same)
    }

    // What was found of a domain with this hash and these days, if it is known.
    fn find(&self, domain: &Domain, days: Option<Horizon>, hash: u32) -> Option<WholeRules>
        ensures { IfSome result (AreOfWhole days (domain_tree domain.now)) }
    {
        let Some(Some(known)) = self.places.get(place_of(hash)) else {
            return None;
        };
        if known.domain == *domain && are_same(known.days, days) {
            Some(known.rules)
        } else {
            None
        }
    }

    // Keeps what was found of a domain with this hash at its place, if the domain came before. A file that repeats no domain
    // would only pay for the copies.
    fn keep(
        &mut self,
        domain: &Domain,
        days: Option<Horizon>,
        hash: u32,
        rules: WholeRules,
    ) -> Result<(), AllocError>
        requires found { AreOfWhole days (domain_tree domain.now) rules }
    {
        if !self.replace_latest_hash(hash)? {
            return Ok(());
        }
        for _ in self.places.len()..PLACES {
            self.places.push(None)?;
        }
        let known = known_domain(self.alloc, domain, days, rules)?;
        if let Some(place) = self.places.get_mut(place_of(hash)) {
            *place = Some(known);
        }
        Ok(())
    }

    /// The rules that hold of a domain as a whole, on the first of these days if some are given: as `rules_of_whole` answers.
    pub(crate) fn rules_of(
        &mut self,
        domain: &Domain,
        days: Option<Horizon>,
    ) -> Result<WholeRules, AllocError>
        ensures { IfOk result (AreOfWhole days (domain_tree domain.now)) }
    {
        let hash = hash_of(domain);
        if let Some(rules) = self.find(domain, days, hash) {
            return Ok(rules);
        }
        let rules = rules_of_whole(self.alloc, domain, days)?;
        self.keep(domain, days, hash, rules)?;
        Ok(rules)
    }
}
