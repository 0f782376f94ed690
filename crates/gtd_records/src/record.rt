//! One restriction record.

ghost use Rattle.std.specs.Prelude.{◌≡◌, ◌↔◌, ◌≤◌, ℤ, IfOk, IfSome, IsTrue, option_map};
ghost use Rattle.gtd_core.specs.Parts.{domain_tree};
ghost use Rattle.gtd_core.specs.Seconds.{Within, IsHorizonSecond};
ghost use Rattle.gtd_core.specs.Whole.{whole};
ghost use Rattle.gtd_eval.specs.Cursors.{cursor_list, cursor_nodes, IsAtStart};
ghost use Rattle.gtd_records.specs.Closing.{Closes, ClosesOneWay, Concerns, HoldsAt};
ghost use Rattle.gtd_eval.specs.Periods.{RepeatsFrom};
ghost use Rattle.gtd_eval.specs.Stays.{IsStay};
ghost use Rattle.gtd_spans.specs.Normal.{Holds};

use crate::shared::SharedDomain;
use gtd_core::{Domain, Horizon, Sec};
use gtd_eval::{Leaf, Period, Stay, SweepTree, period_of, stay_of};
use gtd_rows::{Closed, Direction, Vehicles};
use std::alloc::{AllocError, Global};
use std::marker::Model;

/// One restriction of a road element.
#[derive(Drop)]
pub struct Record {
    /// The road element's number.
    pub element: u64,
    /// The directions that it closes.
    pub closed: Closed,
    /// The vehicle types for which it closes them.
    pub vehicles: Vehicles,
    // When it closes them: at the seconds of a domain, or always.
    pub(crate) domain: Option<SharedDomain>,
    // The hash of the domain's text. Records with the same text have the same.
    pub(crate) text_hash: u32,
}

impl Model for Record {
    ghost use Rattle.gtd_records.specs.Closing.{Restriction};
    ghost use Rattle.gtd_records.specs.facts.RestrictionCode.{restriction_code};

    ghost Value = { Restriction };

    ghost coded = { restriction_code };

    ghost view = { λ a. record {
      element = a.element;
      closed = a.closed;
      vehicles = a.vehicles;
      domain = a.domain;
    } };
}

impl Record {
    /// When it closes what it concerns: at the seconds of a domain, or always if there is none. Records whose domains are written
    /// in one text may share it. Takes no memory.
    pub fn domain(&self) -> Option<&Domain>
        ensures domain { option_map (λ domain. domain_tree domain.now) result ≡ self.now.domain }
    {
        match &self.domain {
            Some(shared) => Some(shared.domain()),
            None => None,
        }
    }

    // Whether the record closes its element in a direction for a vehicle type, whatever the second.
    pub(crate) fn concerns(&self, direction: Direction, vehicle: u8) -> bool
        ensures { IsTrue result ↔ Concerns direction vehicle self.now }
    {
        if !self.vehicles.serves(vehicle) {
            return false;
        }
        match self.closed {
            Closed::One(closed) => closed == direction,
            Closed::Both => true,
        }
    }

    // Whether the record has the same domain as another.
    fn has_domain_of(&self, other: &Record) -> bool
        ensures { IsTrue result → self.now.domain ≡ other.now.domain }
    {
        match self.domain() {
            None => other.domain().is_none(),
            Some(domain) => match other.domain() {
                None => false,
                Some(other) => *domain == *other,
            },
        }
    }

    // Whether the record closes its element in a direction for a vehicle type, and has the same domain as another. Of most that
    // differ, the hashes of the texts differ already. The same domain in another text counts as another.
    #[inline(always)]
    pub(crate) fn closes_alike(&self, other: &Record, direction: Direction, vehicle: u8) -> bool
        ensures concerns { IsTrue result → Concerns direction vehicle self.now }
        ensures same { IsTrue result → self.now.domain ≡ other.now.domain }
    {
        self.text_hash == other.text_hash
            && self.has_domain_of(other)
            && self.concerns(direction, vehicle)
    }

    // The hash of the domain's text, which has the same part in a sum of such hashes whatever their order.
    pub(crate) fn spread_hash(&self) -> u32 {
        (self.text_hash ^ 1).wrapping_mul(16_777_619)
    }

    // Whether the record closes its element for a vehicle type in one direction alone, whatever the second.
    pub(crate) fn closes_one_way(&self, vehicle: u8) -> bool
        ensures { IsTrue result ↔ ClosesOneWay self.now.element vehicle self.now }
    {
        match self.closed {
            Closed::One(_) => self.vehicles.serves(vehicle),
            Closed::Both => false,
        }
    }

    // Whether the record closes its element in a direction for a vehicle type at a second.
    pub(crate) fn closes(&self, direction: Direction, vehicle: u8, second: Sec) -> bool
        requires { IsHorizonSecond second.0 }
        ensures { IsTrue result ↔ Closes self.now.element direction vehicle second.0 self.now }
    {
        self.concerns(direction, vehicle) && self.holds(second)
    }

    // Whether the record closes what it concerns at a second.
    pub(crate) fn holds(&self, second: Sec) -> bool
        requires { IsHorizonSecond second.0 }
        ensures { IsTrue result ↔ HoldsAt self.now.domain second.0 }
    {
        match &self.domain {
            Some(domain) => domain.holds(second),
            None => true,
        }
    }

    // Whether the record closes what it concerns at a second, and how long that does not change.
    pub(crate) fn stay(&self, second: Sec, horizon: Horizon) -> Stay
        requires inside { Within (whole horizon) second.0 }
        ensures stays { IsStay (HoldsAt self.now.domain) second.0 (whole horizon).until result }
    {
        match self.domain() {
            Some(domain) => stay_of(domain, second, horizon),
            None => Stay {
                holds: true,
                until: horizon.until(),
            },
        }
    }

    // The period after which the seconds repeat at which the record closes what it concerns: all do, or those of a domain
    // whose basic domains repeat. They repeat after each longer period too.
    pub(crate) fn period(&self) -> Option<Period>
        ensures repeats { IfSome result (λ x. RepeatsFrom x (HoldsAt self.now.domain)) }
    {
        let Some(domain) = self.domain() else {
            return Some(Period::Minute);
        };
        period_of(domain)
    }

    // The seconds of a horizon at which the record closes what it concerns.
    pub(crate) fn cursor<L: Leaf>(
        &self,
        alloc: Global,
        horizon: Horizon,
    ) -> Result<SweepTree<L>, AllocError>
        ensures seconds { IfOk result (λ c. (t : ℤ) → Holds (cursor_list c) t
            ↔ (Within (whole horizon) t × HoldsAt self.now.domain t)) }
        ensures nodes { IfOk result (λ c. cursor_nodes c ≤ 255) }
        ensures start { IfOk result IsAtStart }
    {
        match self.domain() {
            Some(domain) => SweepTree::<L>::open(alloc, domain, horizon),
            None => Ok(SweepTree::<L>::whole(horizon)),
        }
    }
}
