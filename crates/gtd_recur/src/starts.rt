//! The starts of a basic domain, one after another.

ghost use Rattle.std.specs.Prelude.{◌≡◌};
ghost use Rattle.gtd_recur.specs.Work.{window_begin};

use crate::walk::Walk;
use gtd_core::{Basic, Horizon, Sec};

/// A walk over the starts of a basic domain on the days of a horizon and of the lookback before it.
#[derive(Debug, Drop)]
pub struct Starts {
    pub(crate) walk: Walk,
    ghost whole: { walk.first ≡ window_begin walk.basic walk.horizon },
    ghost ahead: { walk.seen ≡ walk.first },
}

impl Starts {
    ghost use Rattle.std.specs.Prelude.{◌≡◌, ◌≤◌, ◌+◌, [], IfSome, IfNone};
    ghost use Rattle.gtd_calendar.specs.Calendar.{IsCalendarDay};
    ghost use Rattle.gtd_core.specs.Seconds.{day_of_second};
    ghost use Rattle.gtd_recur.specs.Starts.{TakesSecond};
    ghost use Rattle.gtd_recur.specs.Work.{starts_in, work_up_to, work_of, least_of_window, counted_work};
    ghost use Rattle.gtd_recur.specs.StartsToCome.{starts_basic, starts_horizon, starts_to_come, starts_ticks, IsSameWalk};
    ghost use Rattle.gtd_recur.specs.StartsToCome.{IsOpenAfter, starts_given};

    /// The walk over all starts of the basic domain on the days of the horizon and of the lookback before it.
    pub fn new(basic: Basic, horizon: Horizon) -> Starts
        ensures basic { starts_basic result ≡ basic }
        ensures horizon { starts_horizon result ≡ horizon }
        ensures to_come { starts_to_come result ≡ starts_in basic horizon }
        ensures none_given { starts_given result ≡ [] }
        ensures ticks { starts_ticks result ≡ 0 }
    {
        Starts {
            walk: Walk::new(basic, horizon),
        }
    }

    /// One for each day that was looked at, and one for each start that was handed out. Days that a given month or
    /// year excludes are not looked at.
    pub fn ticks(&self) -> u64
        ensures value { result ≡ starts_ticks self.now }
        ensures at_most { result ≤ work_of (starts_basic self.now) (starts_horizon self.now) }
    {
        self.walk.ticks()
    }

    /// The next start, or `None` if there is none; after that, always `None`.
    pub fn next(&mut self) -> Option<Sec>
        ensures takes { TakesSecond (starts_to_come self.old) result (starts_to_come self.new) }
        ensures same { IsSameWalk self.old self.new }
        ensures at_most { IfSome result (λ b.
            starts_ticks self.new ≤ work_up_to (starts_basic self.old) (starts_horizon self.old) b.0) }
        ensures at_least { IfSome result (λ b.
            least_of_window (starts_basic self.old) (starts_horizon self.old) b.0 + 1 ≤ starts_ticks self.new) }
        ensures exact { IfSome result (λ b.
            starts_ticks self.new ≡ least_of_window (starts_basic self.old) (starts_horizon self.old) b.0 + 2) }
        ensures ended { IfNone result (
            starts_ticks self.new ≡ counted_work (starts_basic self.old) (starts_horizon self.old)) }
        ensures rises { IfSome result (λ b. starts_ticks self.old + 1 ≤ starts_ticks self.new) }
        ensures grows { starts_ticks self.old ≤ starts_ticks self.new }
        ensures calendar { IfSome result (λ b. IsCalendarDay (day_of_second b.0)) }
        ensures open { IfSome result (λ b. IsOpenAfter self.new b.0) }
    {
        self.walk.next()
    }
}
