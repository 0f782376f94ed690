//! How long a basic domain stays as it is, at later and later seconds.

ghost use Rattle.std.specs.Prelude.{◌≡◌, ◌≤ℤ◌, ◌<ℤ◌, false, true};
ghost use Rattle.gtd_core.specs.Whole.{whole};
ghost use Rattle.gtd_recur.specs.RunsToCome.{runs_to_come};
ghost use Rattle.gtd_eval.specs.Basics.{ahead_list};
ghost use Rattle.gtd_eval.specs.facts.BasicLists.{basic_list};

use crate::stay::Stay;
use gtd_core::{Basic, Horizon, Sec, Span};
use gtd_recur::Runs;
use gtd_spans::SpanSource;

// How many spans are passed over one by one before the runs are begun again on the day that is asked for.
const MOST_PASSED: u32 = 4;

/// The runs of a basic domain from a second on. Where many of them end before the second that is asked for, they are begun
/// again on its day, so that what lies between costs nothing.
#[derive(Drop)]
pub(crate) struct BasicStays {
    pub(crate) basic: Basic,
    pub(crate) horizon: Horizon,
    /// All of the domain's seconds from this one on are still to come.
    pub(crate) at: Sec,
    /// The run that was taken ahead.
    ahead: Option<Span>,
    runs: Runs,
    ghost is: { ahead_list ahead (runs_to_come runs) ≡ basic_list basic at.0 (whole horizon).until },
}

// The stay at a second that is not after the first run still to come.
fn stay_by_run(run: Span, at: Sec) -> Stay
    ensures out { at.0 <ℤ run.from → (result.holds ≡ false) × (result.until.0 ≡ run.from) }
    ensures inside { run.from ≤ℤ at.0 → (result.holds ≡ true) × (result.until.0 ≡ run.until) }
{
    if at.0 < run.from().0 {
        return Stay {
            holds: false,
            until: run.from(),
        };
    }
    Stay {
        holds: true,
        until: run.until(),
    }
}

impl BasicStays {
    ghost use Rattle.std.specs.Prelude.{◌≡◌, ◌≤ℤ◌, ◌<ℤ◌, [], None, Some};
    ghost use Rattle.gtd_core.specs.Whole.{whole};
    ghost use Rattle.gtd_recur.specs.Membership.{InBasic};
    ghost use Rattle.gtd_recur.specs.RunsToCome.{runs_to_come};
    ghost use Rattle.gtd_eval.specs.Basics.{ahead_list};
    ghost use Rattle.gtd_eval.specs.Onward.{IsReached, IsSameBasic};
    ghost use Rattle.gtd_eval.specs.Stays.{IsStay};

    /// The stays of a basic domain in a horizon.
    pub(crate) fn new(basic: Basic, horizon: Horizon) -> BasicStays
        ensures basic { result.basic ≡ basic }
        ensures horizon { result.horizon ≡ horizon }
        ensures at { result.at.0 ≡ (whole horizon).from }
    {
        BasicStays {
            basic,
            horizon,
            at: horizon.from(),
            ahead: None,
            runs: Runs::new(basic, horizon),
        }
    }

    // The first run that is still to come, which is taken ahead.
    fn first(&mut self) -> Option<Span>
        ensures same { IsSameBasic self.old self.new }
        ensures at { self.new.at ≡ self.old.at }
        ensures ahead { self.new.ahead ≡ result }
        ensures none { result ≡ None → runs_to_come self.new.runs ≡ [] }
        ensures list { ahead_list self.new.ahead (runs_to_come self.new.runs)
            ≡ ahead_list self.old.ahead (runs_to_come self.old.runs) }
    {
        if self.ahead.is_none() {
            let told = self.runs.next();
            self.ahead = told;
        }
        self.ahead
    }

    // Takes the run off that was taken ahead.
    fn pass(&mut self, span: Span)
        requires ahead { self.old.ahead ≡ Some span }
        ensures same { IsSameBasic self.old self.new }
        ensures at { self.new.at.0 ≡ span.until }
        ensures ahead { self.new.ahead ≡ None }
        ensures runs { self.new.runs ≡ self.old.runs }
    {
        self.ahead = None;
        self.at = span.until();
    }

    // Begins the runs again on the day of a second.
    fn begin_again(&mut self, at: Sec)
        requires later { self.old.at.0 ≤ℤ at.0 }
        ensures same { IsSameBasic self.old self.new }
        ensures at { self.new.at.0 ≤ℤ at.0 }
    {
        let Ok(rest) = Horizon::new(at.day(), self.horizon.to_day()) else {
            return;
        };
        *self = BasicStays::new(self.basic, rest);
    }

    // Passes over the runs that end by a second, but over no more than so many. Answers whether that were all.
    fn pass_some(&mut self, at: Sec, most: u32) -> bool
        requires later { self.old.at.0 ≤ℤ at.0 }
        ensures same { IsSameBasic self.old self.new }
        ensures at { self.new.at.0 ≤ℤ at.0 }
    {
        for _ in 0..most {
            let Some(span) = self.first() else {
                return true;
            };
            if at.0 < span.until().0 {
                return true;
            }
            self.pass(span);
        }
        false
    }

    // Passes over the runs that end by a second, and answers the first that does not.
    fn pass_all(&mut self, at: Sec) -> Option<Span>
        requires later { self.old.at.0 ≤ℤ at.0 }
        ensures same { IsSameBasic self.old self.new }
        ensures at { self.new.at.0 ≤ℤ at.0 }
        ensures reached { IsReached at.0 result self.new }
    {
        while let Some(span) = self.first() {
            if at.0 < span.until().0 {
                return Some(span);
            }
            self.pass(span);
        }
        None
    }

    // Passes over runs that end by a second: the next few, and if there are more, those before its day.
    fn pass_far(&mut self, at: Sec)
        requires later { self.old.at.0 ≤ℤ at.0 }
        ensures same { IsSameBasic self.old self.new }
        ensures at { self.new.at.0 ≤ℤ at.0 }
    {
        if self.pass_some(at, MOST_PASSED) {
            return;
        }
        self.begin_again(at);
    }

    /// The stay of the basic domain at a second of the horizon, which is not before the one that was asked for last.
    pub(crate) fn stay(&mut self, at: Sec) -> Stay
        requires later { self.old.at.0 ≤ℤ at.0 }
        requires early { at.0 <ℤ (whole self.old.horizon).until }
        ensures same { IsSameBasic self.old self.new }
        ensures at { self.new.at.0 ≤ℤ at.0 }
        ensures stays { IsStay (InBasic self.old.basic) at.0 (whole self.old.horizon).until result }
    {
        self.pass_far(at);
        let Some(first) = self.pass_all(at) else {
            return Stay {
                holds: false,
                until: self.horizon.until(),
            };
        };
        stay_by_run(first, at)
    }
}
