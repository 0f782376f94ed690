//! A walk over the starts on the days from a first one to the end of the horizon.

ghost use Rattle.std.specs.Prelude.{◌≤◌, ◌≤ℤ◌};
ghost use Rattle.gtd_core.specs.Parts.{start_parts};
ghost use Rattle.gtd_core.specs.Whole.{from_day, to_day};
ghost use Rattle.gtd_recur.specs.Starts.{AreLeft, IsInWindow, IsLookedCount, AreFitting, starts_left};
ghost use Rattle.gtd_recur.specs.facts.WindowProps.{AreLeft-prop, IsInWindow-prop, IsLookedCount-prop, AreFitting-prop};
ghost use Rattle.gtd_recur.specs.Work.{days_between, starts_of, window_begin};
ghost use Rattle.gtd_recur.specs.Asked.{IsAsked};
ghost use Rattle.gtd_recur.specs.Begins.{begins_at};
ghost use Rattle.gtd_recur.specs.Stepping.{AreClocks, IsBehindOne};
ghost use Rattle.gtd_recur.specs.facts.ClockProps.{AreClocks-prop, IsAsked-prop, IsBehindOne-prop};
ghost use Rattle.gtd_core.specs.Limits.{day_seconds};

use crate::asks::{Asks, asked};
use crate::clocks::{Clocks, day_clocks};
use crate::cover::first_look;
use crate::find::{next_begun, next_weekday};
use crate::jump::{Days, next_days};
use gtd_core::limits::DAY_SECONDS;
use gtd_core::{Basic, Horizon, Sec};

/// A walk over the starts of a basic domain on the days from a first one to the last of the horizon.
#[derive(Clone, Copy, Debug)]
pub(crate) struct Walk {
    pub(crate) basic: Basic,
    pub(crate) horizon: Horizon,
    /// The first day of the walk.
    pub(crate) first: i64,
    /// Days before this one were looked at when the walk began.
    pub(crate) seen: i64,
    /// What must be known of a day to say whether the start begins on it, and the starts of a day on which it does.
    asks: Asks,
    clocks: Clocks,
    /// The open day: the last one that was opened.
    day: i64,
    /// The second of that day from which on its starts are still to come.
    clock: u32,
    /// The next day to look at.
    next_day: i64,
    /// The days from the next one up to this one are not excluded.
    fits_until: i64,
    /// How many days were looked at, and how many starts were handed out.
    looked: u64,
    handed: u64,
    ghost first_in: { window_begin basic horizon ≤ℤ first },
    ghost seen_in: { seen ≤ℤ from_day horizon },
    ghost clock_in: { clock ≤ day_seconds },
    ghost asked: { IsAsked (start_parts basic.start) asks } by { IsAsked-prop (start_parts basic.start) asks },
    ghost clocked: { AreClocks (begins_at (start_parts basic.start)) clocks.first clocks.last
        clocks.step } by { AreClocks-prop _ _ _ _ },
    ghost behind: { IsBehindOne (begins_at (start_parts basic.start)) clocks.first clocks.last
        clock } by { IsBehindOne-prop _ _ _ _ },
    ghost in_window: { IsInWindow first day next_day (to_day horizon) } by { IsInWindow-prop _ _ _ _ },
    ghost fitting: { AreFitting (start_parts basic.start) next_day fits_until
        (to_day horizon) } by { AreFitting-prop _ _ _ _ },
    ghost left: { AreLeft handed (starts_of (start_parts basic.start) (days_between first (to_day horizon)))
        (starts_left (start_parts basic.start) day clock next_day (to_day horizon)) } by { AreLeft-prop _ _ _ },
    ghost counted: { IsLookedCount (start_parts basic.start) first
        seen day next_day looked } by { IsLookedCount-prop _ _ _ _ _ _ },
}

impl Walk {
    ghost use Rattle.std.specs.Prelude.{◌≡◌, ◌+◌, ◌<ℤ◌, ◌+ℤ◌, ℤ, pos, [], ◌∷◌, IfSome, IfNone, IsTrue, length, ◌≤ℤ◌, false};
    ghost use Rattle.std.specs.Prelude.{count_by};
    ghost use Rattle.gtd_core.specs.Parts.{start_parts};
    ghost use Rattle.gtd_core.specs.Whole.{from_day, to_day};
    ghost use Rattle.gtd_calendar.specs.Calendar.{IsCalendarDay};
    ghost use Rattle.gtd_core.specs.Seconds.{day_of_second};
    ghost use Rattle.gtd_calendar.specs.ComputedFields.{day_fields};
    ghost use Rattle.gtd_recur.specs.Begins.{begins_at, begins_on, month_and_year_fit};
    ghost use Rattle.gtd_recur.specs.ClockSearch.{IsNextPassing};
    ghost use Rattle.gtd_recur.specs.Jumps.{IsFirstBegun, IsNextRun};
    ghost use Rattle.gtd_recur.specs.Look.{IsFirstDay};
    ghost use Rattle.gtd_recur.specs.Starts.{TakesSecond, clock_starts, IsOpened};
    ghost use Rattle.gtd_recur.specs.Work.{work, least_work, whole_work, window_begin};
    ghost use Rattle.gtd_recur.specs.Walking.{walk_days, walk_all, walk_to_come, walk_ticks, walk_given, IsSameWindow};
    ghost use Rattle.gtd_recur.specs.Walking.{IsOpenBehind, IsPassed};

    /// The walk over all starts, from the first day of the lookback on.
    pub(crate) fn new(basic: Basic, horizon: Horizon) -> Walk
        ensures basic { result.basic ≡ basic }
        ensures horizon { result.horizon ≡ horizon }
        ensures first { result.first ≡ window_begin basic horizon }
        ensures seen { result.seen ≡ result.first }
        ensures to_come { walk_to_come result ≡ walk_all result }
        ensures ticks { walk_ticks result ≡ 0 }
        ensures none_handed { result.handed ≡ 0 }
    {
        let start = basic.start.parts();
        let first = horizon.from_day() - i64::from(basic.duration.lookback());
        let days = next_days(&start, first, horizon.to_day());
        Walk {
            basic,
            horizon,
            first,
            seen: first,
            asks: asked(&start),
            clocks: day_clocks(&start),
            day: first - 1,
            clock: DAY_SECONDS as u32,
            next_day: days.from,
            fits_until: days.until,
            looked: 0,
            handed: 0,
        }
    }

    /// The walk that looks backwards for the last day before the horizon on which the start begins, starts there, and
    /// goes on with the days of the horizon.
    pub(crate) fn from_last(basic: Basic, horizon: Horizon) -> Walk
        ensures basic { result.basic ≡ basic }
        ensures horizon { result.horizon ≡ horizon }
        ensures first { IsFirstDay (start_parts basic.start) (window_begin basic horizon) (from_day horizon) result.first
            (walk_ticks result) }
        ensures to_come { walk_to_come result ≡ walk_all result }
        ensures none_handed { result.handed ≡ 0 }
    {
        let start = basic.start.parts();
        let seen = horizon.from_day();
        let low = seen - i64::from(basic.duration.lookback());
        let look = first_look(&start, low, seen);
        let days = next_days(&start, seen, horizon.to_day());
        Walk {
            basic,
            horizon,
            first: look.first,
            seen,
            asks: asked(&start),
            clocks: day_clocks(&start),
            day: look.day,
            clock: look.clock,
            next_day: days.from,
            fits_until: days.until,
            looked: look.looked,
            handed: 0,
        }
    }

    /// One for each day that was looked at, and one for each start that was handed out.
    pub(crate) fn ticks(&self) -> u64
        ensures value { result ≡ walk_ticks self.now }
        ensures at_most { result ≤ whole_work (start_parts self.now.basic.start) (walk_days self.now) }
    {
        self.looked + self.handed
    }

    /// The next start, or `None` if there is none; after that, always `None`.
    pub(crate) fn next(&mut self) -> Option<Sec>
        ensures takes { TakesSecond (walk_to_come self.old) result (walk_to_come self.new) }
        ensures same { IsSameWindow self.old self.new }
        ensures at_most { IfSome result (λ b. (t : ℤ) → b.0 ≤ℤ t → self.old.seen ≤ℤ (day_of_second t +ℤ pos 1)
            → walk_ticks self.new ≤ work (start_parts self.old.basic.start) (walk_days self.old) t) }
        ensures at_least { IfSome result (λ b.
            least_work (start_parts self.old.basic.start) (walk_days self.old) b.0 + 1 ≤ walk_ticks self.new) }
        ensures exact { IfSome result (λ b. self.old.seen ≡ self.old.first → walk_ticks self.new
            ≡ least_work (start_parts self.old.basic.start) (walk_days self.old) b.0 + 2) }
        ensures begun { IfSome result (λ b. self.old.first ≤ℤ (day_of_second b.0 +ℤ pos 1)) }
        ensures ended { IfNone result (walk_ticks self.new
            ≡ count_by (month_and_year_fit (start_parts self.old.basic.start)) (walk_days self.old)
            + length (walk_all self.old)) }
        ensures rises { IfSome result (λ b. walk_ticks self.old + 1 ≤ walk_ticks self.new) }
        ensures grows { walk_ticks self.old ≤ walk_ticks self.new }
        ensures calendar { IfSome result (λ b. IsCalendarDay (day_of_second b.0)) }
        ensures open { IfSome result (λ b. IsOpenBehind self.new b.0) }
    {
        loop {
            if let Some(start) = self.next_of_day() {
                return Some(start);
            }
            if self.next_day >= self.horizon.to_day() {
                return None;
            }
            self.look();
        }
    }

    // The next start of the open day.
    fn next_of_day(&mut self) -> Option<Sec>
        ensures takes { IfSome result (λ b. walk_to_come self.old ≡ b.0 ∷ walk_to_come self.new) }
        ensures none { result ≡ None → (walk_to_come self.new ≡ walk_to_come self.old)
            × (clock_starts (start_parts self.new.basic.start) self.new.day self.new.clock ≡ []) }
        ensures same { IsSameWindow self.old self.new }
        ensures at_most { IfSome result (λ b. (t : ℤ) → b.0 ≤ℤ t → self.old.seen ≤ℤ (day_of_second t +ℤ pos 1)
            → walk_ticks self.new ≤ work (start_parts self.old.basic.start) (walk_days self.old) t) }
        ensures at_least { IfSome result (λ b.
            least_work (start_parts self.old.basic.start) (walk_days self.old) b.0 + 1 ≤ walk_ticks self.new) }
        ensures exact { IfSome result (λ b. self.old.seen ≡ self.old.first → walk_ticks self.new
            ≡ least_work (start_parts self.old.basic.start) (walk_days self.old) b.0 + 2) }
        ensures begun { IfSome result (λ b. self.old.first ≤ℤ (day_of_second b.0 +ℤ pos 1)) }
        ensures rises { IfSome result (λ b. walk_ticks self.old + 1 ≤ walk_ticks self.new) }
        ensures grows { walk_ticks self.old ≤ walk_ticks self.new }
        ensures calendar { IfSome result (λ b. IsCalendarDay (day_of_second b.0)) }
        ensures next_day { self.new.next_day ≡ self.old.next_day }
        ensures open { IfSome result (λ b. IsOpenBehind self.new b.0) }
    {
        match self.next_clock() {
            Some(clock) => {
                self.clock = clock + 1;
                self.handed += 1;
                Some(Sec(DAY_SECONDS * self.day + i64::from(clock)))
            }
            None => None,
        }
    }

    // The second of the next start of the open day.
    fn next_clock(&self) -> Option<u32>
        ensures next { IsNextPassing (begins_at (start_parts self.now.basic.start)) self.now.clock result }
    {
        if self.clock <= self.clocks.first {
            return Some(self.clocks.first);
        }
        if self.clock <= self.clocks.last {
            return Some(self.clock - 1 + self.clocks.step);
        }
        None
    }

    // Passes over the starts after a given one, up to the last of its day, if no two are further apart than a length.
    pub(crate) fn pass_day(&mut self, start: Sec, length: i64) -> Sec
        requires open { IsOpenBehind self.old start.0 }
        requires length_in { pos 0 ≤ℤ length }
        ensures passed { IsPassed self.old self.new start.0 length result.0 }
    {
        let clocks = self.clocks;
        if length < i64::from(clocks.step) {
            return start;
        }
        self.handed += u64::from((clocks.last + 1 - self.clock) / clocks.step);
        self.clock = DAY_SECONDS as u32;
        Sec(DAY_SECONDS * self.day + i64::from(clocks.last))
    }

    // Opens the next day on which the start begins; if it begins on none that is not excluded, opens the last of these.
    // Days are looked at only here, and each day that is passed over is counted.
    fn look(&mut self)
        requires done { clock_starts (start_parts self.old.basic.start) self.old.day self.old.clock ≡ [] }
        requires more { self.old.next_day <ℤ to_day self.old.horizon }
        ensures left { walk_to_come self.new ≡ walk_to_come self.old }
        ensures same { IsSameWindow self.old self.new }
        ensures later { self.old.next_day <ℤ self.new.next_day }
        ensures grows { walk_ticks self.old ≤ walk_ticks self.new }
    {
        let found = self.next_found();
        if found < self.fits_until {
            self.open(found, 0);
        } else {
            self.open(found - 1, DAY_SECONDS as u32);
        }
    }

    // The first day, from the next one to look at, that is not excluded and on which the start begins; or the end of the
    // days that are not excluded.
    fn next_found(&self) -> i64
        requires more { self.now.next_day <ℤ to_day self.now.horizon }
        ensures found { IsFirstBegun (start_parts self.now.basic.start) self.now.next_day self.now.fits_until result }
    {
        let start = self.basic.start.as_parts();
        match self.asks {
            Asks::Nothing => self.next_day,
            Asks::Weekday => next_weekday(start, self.next_day, self.fits_until),
            Asks::Date => next_begun(start, self.next_day, self.fits_until),
        }
    }

    // Opens a day that is not excluded, from a second on. The start begins on no day before it.
    fn open(&mut self, day: i64, clock: u32)
        requires done { clock_starts (start_parts self.old.basic.start) self.old.day self.old.clock ≡ [] }
        requires low { self.old.next_day ≤ℤ day }
        requires high { day <ℤ self.old.fits_until }
        requires none { (n : ℤ) → self.old.next_day ≤ℤ n → n <ℤ day
            → begins_on (start_parts self.old.basic.start) (day_fields n) ≡ false }
        requires opened { IsOpened (start_parts self.old.basic.start) day clock }
        ensures left { walk_to_come self.new ≡ walk_to_come self.old }
        ensures same { IsSameWindow self.old self.new }
        ensures later { self.old.next_day <ℤ self.new.next_day }
        ensures grows { walk_ticks self.old ≤ walk_ticks self.new }
    {
        let after = self.days_after(day);
        self.looked += (day + 1 - self.next_day) as u64;
        self.day = day;
        self.clock = clock;
        self.next_day = after.from;
        self.fits_until = after.until;
    }

    // The days to look at after a given one.
    fn days_after(&self, day: i64) -> Days
        requires low { self.now.next_day ≤ℤ day }
        requires high { day <ℤ self.now.fits_until }
        ensures run { IsNextRun (λ n. IsTrue (month_and_year_fit (start_parts self.now.basic.start) n))
            (day +ℤ pos 1) (to_day self.now.horizon) result.from result.until }
    {
        let next = day + 1;
        if next < self.fits_until {
            return Days {
                from: next,
                until: self.fits_until,
            };
        }
        next_days(self.basic.start.as_parts(), next, self.horizon.to_day())
    }
}
