//! Basic domains with a date that begin each hour or each minute on it. While the date stays, they are as without it.

ghost use Rattle.std.specs.Prelude.{◌≡◌, ◌↔◌, ◌<ℤ◌, ◌≤ℤ◌, ℤ, IfSome, IsTrue};
ghost use Rattle.gtd_core.specs.Parts.{domain_tree, duration_parts, start_parts};
ghost use Rattle.gtd_core.specs.Seconds.{Within};
ghost use Rattle.gtd_core.specs.Whole.{whole};
ghost use Rattle.gtd_difference.specs.Dates.{clock_parts, date_parts, one_day};
ghost use Rattle.gtd_difference.specs.Difference.{single_of};
ghost use Rattle.gtd_recur.specs.Begins.{gives_clock};

use crate::basic_state::BasicState;
use crate::basics::single;
use gtd_core::{Basic, Duration, DurationParts, Horizon, Sec, Start, StartParts};
use gtd_eval::{Period, Stay, period_of};

// How long the stretches may last, which begin each hour or each minute: longer ones make one span of the date.
const MOST_SECONDS: i64 = 3_600;

// The start with its time of day alone.
fn clock_start(start: &Start) -> Option<Start>
    ensures parts { IfSome result (λ clock. start_parts clock ≡ clock_parts (start_parts start.now)) }
{
    let parts = start.parts();
    Start::new(StartParts {
        year: None,
        month: None,
        week: None,
        day: None,
        hour: parts.hour,
        minute: parts.minute,
        second: parts.second,
        nth: None,
        nth_back: None,
        weekdays: 0,
    })
}

// The first second of each day on which the start begins.
fn date_start(start: &Start) -> Option<Start>
    ensures parts { IfSome result (λ date. start_parts date ≡ date_parts (start_parts start.now)) }
{
    let parts = start.parts();
    Start::new(StartParts {
        year: parts.year,
        month: parts.month,
        week: parts.week,
        day: parts.day,
        hour: Some(0),
        minute: None,
        second: None,
        nth: parts.nth,
        nth_back: parts.nth_back,
        weekdays: parts.weekdays,
    })
}

fn a_day() -> Option<Duration>
    ensures parts { IfSome result (λ day. duration_parts day ≡ one_day) }
{
    Duration::new(DurationParts {
        years: 0,
        months: 0,
        weeks: 0,
        days: 1,
        hours: 0,
        minutes: 0,
        seconds: 0,
    })
}

// Whether the start begins each hour or each minute of a date.
fn begins_often(start: &Start) -> bool
    ensures clock { IsTrue result → IsTrue (gives_clock (start_parts start.now)) }
{
    let parts = start.parts();
    parts.hour.is_none() && (parts.minute.is_some() || parts.second.is_some())
}

/// A basic domain with a date, and what it is while that stays.
#[derive(Drop)]
pub(crate) struct DatedState {
    /// The basic domain.
    pub(crate) own: BasicState,
    /// The basic domain without its date.
    pub(crate) wide: BasicState,
    /// The whole days of the date.
    pub(crate) date: BasicState,
    /// The period after which the basic domain without its date repeats.
    pub(crate) period: Period,
    /// The seconds that a stretch lasts at most.
    pub(crate) longest: i64,
    /// Whether the basic domain is fixed to be as it is without its date.
    pub(crate) is_wide: bool,
}

impl DatedState {
    ghost use Rattle.std.specs.Prelude.{◌≡◌, ◌↔◌, ◌<ℤ◌, ◌≤ℤ◌, ℤ, IfSome, IsTrue};
    ghost use Rattle.gtd_core.specs.Parts.{domain_tree};
    ghost use Rattle.gtd_core.specs.Seconds.{Within};
    ghost use Rattle.gtd_core.specs.Whole.{whole};
    ghost use Rattle.gtd_eval.specs.Membership.{InDomain};
    ghost use Rattle.gtd_eval.specs.Stays.{IsStay};
    ghost use Rattle.gtd_difference.specs.Dates.{InFixedDate, IsKnownDated};
    ghost use Rattle.gtd_difference.specs.Difference.{single_of};

    /// The state of a basic domain, if it begins each hour or each minute of a date, and lasts an hour at most.
    pub(crate) fn of(basic: &Basic, days: Horizon) -> Option<DatedState>
        ensures tree { IfSome result (λ state. domain_tree state.own.domain ≡ single_of basic.now) }
        ensures known { IfSome result (IsKnownDated (whole days).until) }
    {
        let longest = basic.duration.bound();
        if longest > MOST_SECONDS || !begins_often(&basic.start) {
            return None;
        }
        let own = single(basic);
        if period_of(&own).is_some() {
            return None;
        }
        let wide = single(&Basic {
            start: clock_start(&basic.start)?,
            duration: basic.duration,
        });
        let date = single(&Basic {
            start: date_start(&basic.start)?,
            duration: a_day()?,
        });
        let period = period_of(&wide)?;
        Some(DatedState {
            own: BasicState::new(own, days),
            wide: BasicState::new(wide, days),
            date: BasicState::new(date, days),
            period,
            longest,
            is_wide: false,
        })
    }

    // Whether the date holds, and each stretch that has the second, or a later one while the date stays, is known to begin on
    // it: it has held for as long as a stretch lasts, or no stretch has the second before.
    fn is_begun_on_date(&mut self, at: Sec, days: Horizon, steps: &mut i64) -> bool
        requires known { IsKnownDated (whole days).until self.old }
        requires inside { Within (whole days) at.0 }
        requires begun { self.old.date.from.0 ≤ℤ at.0 }
        ensures own { self.new.own ≡ self.old.own }
        ensures date { self.new.date ≡ self.old.date }
        ensures known { IsKnownDated (whole days).until self.new }
        ensures begun { IsTrue result → (t : ℤ) → at.0 ≤ℤ t → t <ℤ self.old.date.until.0
            → InDomain self.new.wide.domain t ↔ InDomain self.old.own.domain t }
    {
        if !self.date.holds {
            return false;
        }
        if self.date.from.0 <= at.0 - self.longest {
            return true;
        }
        if at.0 <= days.from().0 {
            return false;
        }
        self.wide.reach(Sec(at.0 - 1), days, steps);
        !self.wide.holds
    }

    /// Fixes the basic domain as it is at a second: as without its date, if each stretch that has the second or a later one
    /// begins on the date; and otherwise to hold, or not to hold. The first later second, or an earlier one, at which it is not
    /// so any more.
    pub(crate) fn fix(&mut self, at: Sec, days: Horizon, steps: &mut i64) -> Sec
        requires known { IsKnownDated (whole days).until self.old }
        requires inside { Within (whole days) at.0 }
        ensures domain { self.new.own.domain ≡ self.old.own.domain }
        ensures known { IsKnownDated (whole days).until self.new }
        ensures later { at.0 <ℤ result.0 }
        ensures within { result.0 ≤ℤ (whole days).until }
        ensures fixed { (t : ℤ) → at.0 ≤ℤ t → t <ℤ result.0 → InFixedDate self.new t ↔ InDomain self.old.own.domain t }
    {
        self.date.reach(at, days, steps);
        self.is_wide = self.is_begun_on_date(at, days, steps);
        if self.is_wide {
            return self.date.until;
        }
        self.own.reach(at, days, steps);
        self.own.until
    }

    /// The stay, at a second, of the basic domain as it is fixed.
    pub(crate) fn stay(&mut self, at: Sec, days: Horizon, steps: &mut i64) -> Stay
        requires known { IsKnownDated (whole days).until self.old }
        requires inside { Within (whole days) at.0 }
        ensures domain { self.new.own.domain ≡ self.old.own.domain }
        ensures known { IsKnownDated (whole days).until self.new }
        ensures fixed { (t : ℤ) → InFixedDate self.new t ↔ InFixedDate self.old t }
        ensures stays { IsStay (InFixedDate self.old) at.0 (whole days).until result }
    {
        if !self.is_wide {
            return Stay {
                holds: self.own.holds,
                until: days.until(),
            };
        }
        self.wide.reach(at, days, steps);
        Stay {
            holds: self.wide.holds,
            until: self.wide.until,
        }
    }
}
