//! Whether a basic domain holds at a second, and how long it stays so.

ghost use Rattle.std.specs.Prelude.{◌≡◌, ◌<ℤ◌, ◌≤ℤ◌};
ghost use Rattle.gtd_core.specs.Seconds.{Within};
ghost use Rattle.gtd_core.specs.Whole.{whole};

use gtd_core::{Domain, Horizon, Sec};
use gtd_eval::{Period, period_of, stay_of};

/// How many basic domains are looked at in the time in which the stay of one is found.
pub(crate) const STEPS_OF_A_STAY: i64 = 40;

/// A basic domain, and seconds at which it stays as it is: each from one on and before another.
#[derive(Drop)]
pub(crate) struct BasicState {
    pub(crate) domain: Domain,
    /// The period after which it repeats. If there is none, it has a date, or lasts months or years.
    pub(crate) period: Option<Period>,
    /// Whether it has these seconds.
    pub(crate) holds: bool,
    pub(crate) from: Sec,
    pub(crate) until: Sec,
}

impl BasicState {
    ghost use Rattle.std.specs.Prelude.{◌≡◌, ◌<ℤ◌, ◌≤ℤ◌};
    ghost use Rattle.gtd_core.specs.Seconds.{Within};
    ghost use Rattle.gtd_core.specs.Whole.{whole};
    ghost use Rattle.gtd_difference.specs.Dates.{IsKnown};

    /// The state of a basic domain of which no second is known yet.
    pub(crate) fn new(domain: Domain, days: Horizon) -> BasicState
        ensures domain { result.domain ≡ domain }
        ensures known { IsKnown (whole days).until result }
    {
        let period = period_of(&domain);
        BasicState {
            domain,
            period,
            holds: false,
            from: days.from(),
            until: days.from(),
        }
    }

    /// Finds whether the basic domain has a second, and how long it stays so, unless that is known. To find it takes
    /// steps.
    pub(crate) fn reach(&mut self, at: Sec, days: Horizon, steps: &mut i64)
        requires known { IsKnown (whole days).until self.old }
        requires inside { Within (whole days) at.0 }
        ensures domain { self.new.domain ≡ self.old.domain }
        ensures period { self.new.period ≡ self.old.period }
        ensures begun { self.new.from.0 ≤ℤ at.0 }
        ensures later { at.0 <ℤ self.new.until.0 }
        ensures known { IsKnown (whole days).until self.new }
    {
        if self.from.0 <= at.0 && at.0 < self.until.0 {
            return;
        }
        *steps = steps.saturating_sub(STEPS_OF_A_STAY);
        let stay = stay_of(&self.domain, at, days);
        self.holds = stay.holds;
        self.from = at;
        self.until = stay.until;
    }
}
