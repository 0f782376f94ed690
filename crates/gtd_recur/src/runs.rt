//! The runs of a basic domain, one after another: the spans that its stretches make, joined where they overlap or
//! touch.

ghost use Rattle.std.specs.Prelude.{◌≡◌, length, ℤ, ◌+ℤ◌, IfSome, ◌≤◌, ◌≤ℤ◌, ◌<ℤ◌, pos, ◌∷◌};
ghost use Rattle.gtd_core.specs.Parts.{start_parts, duration_parts};
ghost use Rattle.gtd_calendar.specs.Calendar.{IsCalendarDay};
ghost use Rattle.gtd_core.specs.Seconds.{day_of_second};
ghost use Rattle.gtd_recur.specs.Ascending.{IsAscending, AllAfter, AllBefore, Has};
ghost use Rattle.gtd_recur.specs.facts.AscendingProps.{IsAscending-prop};
ghost use Rattle.gtd_recur.specs.Stretches.{IsAheadIn, IsCut, IsEarlier, IsLater, IsRun, starts_ahead};
ghost use Rattle.gtd_recur.specs.facts.StretchFacts.{IsAheadIn-prop};
ghost use Rattle.gtd_recur.specs.Walking.{walk_days, walk_all, walk_to_come, walk_ticks, walk_given, IsSameWindow};
ghost use Rattle.gtd_recur.specs.Walking.{IsCountedTo, IsStartOf};
ghost use Rattle.gtd_recur.specs.facts.WalkProps.{IsCountedTo-prop, IsStartOf-prop};
ghost use Rattle.gtd_recur.specs.Work.{work};

use crate::walk::Walk;
use gtd_calendar::end_of;
use gtd_core::{Basic, Duration, Horizon, Sec, Span};
use gtd_spans::SpanSource;

/// The runs of a basic domain in a horizon that are still to come. It is a source of the list that is normal for the
/// domain's seconds in the horizon.
#[derive(Debug, Drop)]
pub struct Runs {
    /// The start that was taken ahead: the first that is still to come.
    ahead: Option<Sec>,
    /// The walk over the starts that follow. It looked back no further than it had to.
    pub(crate) walk: Walk,
    /// Both as they were before the first run was handed out.
    first: Option<Sec>,
    begun: Walk,
    ghost start: { IsStartOf walk first begun } by { IsStartOf-prop walk first begun },
    ghost ascending: { IsAscending (starts_ahead ahead (walk_to_come walk)) } by { IsAscending-prop _ },
    ghost ahead_in: { IsAheadIn ahead } by { IsAheadIn-prop _ },
    ghost counted: { IsCountedTo walk ahead } by { IsCountedTo-prop walk ahead },
}

// The end of the run that begins at a start, and the first start after it.
fn run_end(walk: &mut Walk, duration: &Duration, first: Sec) -> (Sec, Option<Sec>)
    requires first_in { IsCalendarDay (day_of_second first.0) }
    requires ascending { IsAscending (first.0 ∷ walk_to_come walk.old) }
    requires counted { AllBefore (first.0 +ℤ pos 1) (walk_given walk.old) }
    ensures run { IsRun (duration_parts duration.now) (first.0 ∷ walk_to_come walk.old)
        (starts_ahead result.1 (walk_to_come walk.new)) first.0 result.0.0 }
    ensures after { AllAfter result.0.0 (starts_ahead result.1 (walk_to_come walk.new)) }
    ensures ascending { IsAscending (starts_ahead result.1 (walk_to_come walk.new)) }
    ensures ahead_in { IsAheadIn result.1 }
    ensures fewer { length (starts_ahead result.1 (walk_to_come walk.new)) ≤ length (walk_to_come walk.old) }
    ensures same { IsSameWindow walk.old walk.new }
    ensures counted_ahead { IsCountedTo walk.new result.1 }
    ensures at_most { (b : ℤ)
        → Has (walk_all walk.old) b → result.0.0 <ℤ b → walk.old.seen ≤ℤ (day_of_second b +ℤ pos 1)
        → walk_ticks walk.new ≤ work (start_parts walk.old.basic.start) (walk_days walk.old) b }
    ensures grows { walk_ticks walk.old ≤ walk_ticks walk.new }
{
    let mut end = end_of(first, duration);
    loop {
        let Some(start) = walk.next() else {
            return (end, None);
        };
        if start > end {
            return (end, Some(start));
        }
        let reached = end_of(start, duration);
        let last = walk.pass_day(start, reached.0 - start.0);
        end = later(end, Sec(reached.0 + (last.0 - start.0)));
    }
}

// The later of two seconds.
fn later(a: Sec, b: Sec) -> Sec
    ensures { IsLater a.0 b.0 result.0 }
{
    a.later(b)
}

// The earlier of two seconds.
fn earlier(a: Sec, b: Sec) -> Sec
    ensures { IsEarlier a.0 b.0 result.0 }
{
    a.earlier(b)
}

// The part of a run that is in a horizon.
fn cut(from: Sec, until: Sec, first: Sec, end: Sec) -> Option<Span>
    ensures { IsCut from.0 until.0 first.0 end.0 result }
{
    Span::new(later(first, from), earlier(end, until))
}

impl Runs {
    ghost use Rattle.std.specs.Prelude.{◌≡◌, IfSome, ◌≤◌, ◌<ℤ◌, ℤ};
    ghost use Rattle.gtd_core.specs.Whole.{whole};
    ghost use Rattle.gtd_spans.specs.Normal.{IsNormalFor};
    ghost use Rattle.gtd_spans.specs.Sweeping.{Takes};
    ghost use Rattle.gtd_recur.specs.Ascending.{Has};
    ghost use Rattle.gtd_recur.specs.Membership.{InBasic};
    ghost use Rattle.gtd_recur.specs.RunsToCome.{runs_basic, runs_horizon, runs_to_come, runs_ticks, runs_whole};
    ghost use Rattle.gtd_recur.specs.Work.{starts_in, work_up_to, work_of, least_of_horizon};

    /// The runs of a basic domain in a horizon.
    pub fn new(basic: Basic, horizon: Horizon) -> Runs
        ensures normal { IsNormalFor (InBasic basic) (whole horizon).from (whole horizon).until (runs_to_come result) }
        ensures basic { runs_basic result ≡ basic }
        ensures horizon { runs_horizon result ≡ horizon }
        ensures whole { runs_to_come result ≡ runs_whole result }
    {
        let mut walk = Walk::from_last(basic, horizon);
        let ahead = walk.next();
        Runs {
            ahead,
            walk,
            first: ahead,
            begun: walk,
        }
    }

    /// Begins again with the first run. The ticks are counted anew from then on.
    pub fn begin_again(&mut self)
        ensures list { runs_to_come self.new ≡ runs_whole self.old }
        ensures whole { runs_whole self.new ≡ runs_whole self.old }
        ensures basic { runs_basic self.new ≡ runs_basic self.old }
        ensures horizon { runs_horizon self.new ≡ runs_horizon self.old }
        ensures ticks { runs_ticks self.new ≤ runs_ticks self.old }
    {
        self.walk = self.begun;
        self.ahead = self.first;
    }

    /// One for each day that was looked at, also before the horizon, and one for each start that was taken. No day is
    /// looked at twice.
    pub fn ticks(&self) -> u64
        ensures value { result ≡ runs_ticks self.now }
        ensures at_most { result ≤ work_of (runs_basic self.now) (runs_horizon self.now) }
    {
        self.walk.ticks()
    }

    // The next run, and what was counted for it.
    fn next_run(&mut self) -> Option<Span>
        ensures takes { Takes (runs_to_come self.old) result (runs_to_come self.new) }
        ensures basic { runs_basic self.new ≡ runs_basic self.old }
        ensures horizon { runs_horizon self.new ≡ runs_horizon self.old }
        ensures whole { runs_whole self.new ≡ runs_whole self.old }
        ensures at_most { IfSome result (λ x. (b : ℤ)
            → Has (starts_in (runs_basic self.old) (runs_horizon self.old)) b → x.until <ℤ b
            → runs_ticks self.new ≤ work_up_to (runs_basic self.old) (runs_horizon self.old) b) }
        ensures at_least { IfSome result (λ x.
            least_of_horizon (runs_basic self.old) (runs_horizon self.old) x.from ≤ runs_ticks self.new) }
        ensures grows { runs_ticks self.old ≤ runs_ticks self.new }
    {
        let (from, until) = (self.walk.horizon.from(), self.walk.horizon.until());
        let duration = self.walk.basic.duration;
        while let Some(first) = self.ahead {
            let (end, ahead) = run_end(&mut self.walk, &duration, first);
            self.ahead = ahead;
            if let Some(span) = cut(from, until, first, end) {
                return Some(span);
            }
        }
        None
    }
}

impl SpanSource for Runs {
    ghost use Rattle.std.specs.Prelude.{◌≡◌, IfSome, ◌≤◌, ◌<ℤ◌, ℤ};
    ghost use Rattle.gtd_core.specs.Parts.{duration_parts};
    ghost use Rattle.gtd_core.specs.Whole.{whole};
    ghost use Rattle.gtd_spans.specs.Sweeping.{Takes};
    ghost use Rattle.gtd_recur.specs.Ascending.{Has};
    ghost use Rattle.gtd_recur.specs.Stretches.{runs_between, starts_ahead};
    ghost use Rattle.gtd_recur.specs.facts.StretchFacts.{runs_between-normal};
    ghost use Rattle.gtd_recur.specs.StartsToCome.{starts_to_come};
    ghost use Rattle.gtd_recur.specs.RunsToCome.{runs_basic, runs_horizon, runs_to_come, runs_ticks, runs_whole};
    ghost use Rattle.gtd_recur.specs.Work.{starts_in, work_up_to, least_of_horizon};

    ghost rest = { λ r. runs_to_come r };

    fn next(&mut self) -> Option<Span>
        ensures takes { Takes (runs_to_come self.old) result (runs_to_come self.new) }
        ensures basic { runs_basic self.new ≡ runs_basic self.old }
        ensures horizon { runs_horizon self.new ≡ runs_horizon self.old }
        ensures whole { runs_whole self.new ≡ runs_whole self.old }
        ensures at_most { IfSome result (λ x. (b : ℤ)
            → Has (starts_in (runs_basic self.old) (runs_horizon self.old)) b → x.until <ℤ b
            → runs_ticks self.new ≤ work_up_to (runs_basic self.old) (runs_horizon self.old) b) }
        ensures at_least { IfSome result (λ x.
            least_of_horizon (runs_basic self.old) (runs_horizon self.old) x.from ≤ runs_ticks self.new) }
        ensures grows { runs_ticks self.old ≤ runs_ticks self.new }
    {
        self.next_run()
    }

    ghost is_normal = { λ r. runs_between-normal _ _ _ _ };
}
