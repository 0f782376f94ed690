//! The spans of a period, from which all later ones follow.

ghost use Rattle.std.specs.Prelude.{◌≡◌, ◌++◌, ◌∷◌, [], IsTrue, ◌+◌, ◌≤◌, ◌+ℤ◌, ◌*ℤ◌, ◌≤ℤ◌, ◌<ℤ◌, pos, length, map};
ghost use Rattle.gtd_core.specs.Limits.{day_seconds, first_horizon_day};
ghost use Rattle.gtd_kept.specs.Repeating.{AllDoneBy, AreLastTold, IsPlace, IsWhole, KeepsNone, moved};
ghost use Rattle.gtd_kept.specs.facts.RepeatProps.{AreLastTold-prop, IsPlace-prop, KeepsNone-prop};

use crate::room::at_most_kept;
use gtd_core::{Horizon, Sec, Span};
use gtd_recur::Period;
use gtd_spans::Bounds;
use std::alloc::{AllocError, Global};

/// What is known of the spans of a period.
#[derive(Clone, Copy, Debug)]
pub enum Stage {
    /// They are still being handed out, and kept.
    Learning,
    /// All of them are kept. The last span that was handed out ends at this second.
    Repeating(Sec),
    /// They are too many to be kept.
    GivenUp,
}

/// The spans of a period that a tree has handed out over a horizon. In order they begin at the place, and after the end of the
/// list they go on at its beginning.
#[derive(Debug, Drop)]
pub struct Repeat {
    /// The spans, of which the one at the place comes first.
    pub kept: Vec<Span>,
    /// How many there may be.
    pub room: usize,
    /// The place of the first one.
    pub place: usize,
    /// What is known of them.
    pub stage: Stage,
    /// The spans that the tree handed out before all of a period were kept: two more at most than may be kept, since the first one
    /// may be cut, and the last one follows from the kept ones.
    pub told: Vec<Span>,
    /// How many of these have been handed out since the list was begun again.
    pub lap: usize,
    /// The end of the last of them.
    pub learnt: Sec,
    /// The period in seconds.
    pub period: i64,
    /// The horizon of the tree.
    pub horizon: Span,
    pub ghost enough: { length kept.items ≤ length told.items },
    pub ghost last: { AreLastTold stage kept.items told.items } by { AreLastTold-prop stage kept.items told.items },
    pub ghost few: { room ≤ 4096 },
    pub ghost within: { length kept.items ≤ room },
    pub ghost told_within: { length told.items ≤ room + 2 },
    ghost none: { KeepsNone stage (length kept.items) } by { KeepsNone-prop stage (length kept.items) },
    ghost among: { IsPlace place (length kept.items) stage } by { IsPlace-prop place (length kept.items) stage },
    ghost some: { pos 0 <ℤ period },
    ghost short: { period ≤ℤ pos 604_800 },
    ghost not_early: { (first_horizon_day *ℤ pos day_seconds) ≤ℤ horizon.until },
}

impl Repeat {
    ghost use Rattle.std.specs.Prelude.{◌≡◌, ◌≤◌, ◌⊎◌, ◌+ℤ◌, ◌≤ℤ◌, ◌<ℤ◌, ◌<◌, ◌∷◌, ◌++◌, [], List, length, drop, map, pos};
    ghost use Rattle.std.specs.Prelude.{IfNone, IfOk, IfSome, IsTrue, IsFalse, MatchOption};
    ghost use Rattle.gtd_core.specs.Seconds.{Interval};
    ghost use Rattle.gtd_core.specs.Whole.{whole};
    ghost use Rattle.gtd_spans.specs.Normal.{IsNormal};
    ghost use Rattle.gtd_spans.specs.Inside.{IsInside};
    ghost use Rattle.gtd_spans.specs.Skipping.{LeavesOut};
    ghost use Rattle.gtd_spans.specs.Sweeping.{Takes};
    ghost use Rattle.gtd_recur.specs.Periods.{period_seconds};
    ghost use Rattle.gtd_kept.specs.Repeating.{AllDoneBy, IsRepeating, IsWhole, later, moved, to_come};
    ghost use Rattle.gtd_kept.specs.Kept.{kept_list, last_told, HasKept, CanBeginAgain, IsLapEnded, rest_of, whole_of};
    ghost use Rattle.gtd_kept.specs.declared.repeat.Stage.TheVariants.{Learning, Repeating, GivenUp};

    /// No span is kept, now and later.
    pub fn given_up(alloc: Global, period: Period, horizon: Horizon) -> Repeat
        ensures stage { result.stage ≡ GivenUp }
        ensures ended { IsLapEnded result }
        ensures room { result.room ≡ 0 }
    {
        Repeat {
            kept: Vec::new(alloc),
            room: 0,
            place: 0,
            stage: Stage::GivenUp,
            told: Vec::new(alloc),
            lap: 0,
            learnt: Sec(0),
            period: period.seconds(),
            horizon: horizon.whole(),
        }
    }

    /// How many spans are kept.
    pub fn count(&self) -> usize
        ensures value { result ≡ length self.now.kept.items }
    {
        self.kept.len()
    }

    /// Room for so many spans, and at most for 4,096, none of which has been kept yet.
    pub fn new(
        alloc: Global,
        period: Period,
        horizon: Horizon,
        room: usize,
    ) -> Result<Repeat, AllocError>
        ensures none { IfOk result (λ r. kept_list r ≡ []) }
        ensures stage { IfOk result (λ r. r.stage ≡ Learning) }
        ensures period { IfOk result (λ r. r.period ≡ period_seconds period) }
        ensures horizon { IfOk result (λ r. r.horizon ≡ whole horizon) }
        ensures told { IfOk result (λ r. r.told.items ≡ []) }
        ensures ended { IfOk result IsLapEnded }
        ensures room { IfOk result (λ r. r.room ≤ room) }
    {
        let room = at_most_kept(room);
        let kept = Vec::with_capacity(alloc, room)?;
        Ok(Repeat {
            kept,
            room,
            place: 0,
            stage: Stage::Learning,
            told: Vec::with_capacity(alloc, room + 2)?,
            lap: 0,
            learnt: Sec(0),
            period: period.seconds(),
            horizon: horizon.whole(),
        })
    }

    /// Whether all spans of a period are kept.
    pub fn is_repeating(&self) -> bool
        ensures yes { IsTrue result → IsRepeating self.now.stage }
        ensures no { IsFalse result → IsRepeating self.now.stage → ⊥ }
    {
        match self.stage {
            Stage::Repeating(_) => true,
            Stage::Learning => false,
            Stage::GivenUp => false,
        }
    }

    // The span a period later, as far as it is in the horizon.
    fn a_period_later(&self, span: Span) -> Option<Span>
        ensures later { MatchOption result (self.now.horizon.until ≤ℤ (span.from +ℤ self.now.period))
            (λ x. ((span.from +ℤ self.now.period) <ℤ self.now.horizon.until)
            × (x ≡ later self.now.period self.now.horizon.until span)) }
    {
        let from = span.from().0;
        let until = span.until().0;
        let end = self.horizon.until();
        let too_late = end.0 - self.period;
        if from >= too_late {
            return None;
        }
        if until >= too_late {
            return Some(Span::between(Sec(from + self.period), end));
        }
        Some(Span::between(Sec(from + self.period), Sec(until + self.period)))
    }

    // Whether a span begins a period after another.
    fn is_period_after(&self, first: Span, span: Span) -> bool
        ensures after { IsTrue result → span.from ≡ first.from +ℤ self.now.period }
    {
        match self.a_period_later(first) {
            Some(later) => later.from().0 == span.from().0,
            None => false,
        }
    }

    // The first of the kept spans.
    fn first(&self) -> Option<Span>
        ensures first { MatchOption result (kept_list self.now ≡ [])
            (λ x. kept_list self.now ≡ x ∷ drop 1 (kept_list self.now)) }
    {
        match self.kept.get(self.place) {
            Some(first) => Some(*first),
            None => None,
        }
    }

    // The span, which was handed out, takes the place of the first of the kept ones, and is the last of them.
    #[tactic(auto, using(crate::proofs::RepeatLemmas::put_at_end))]
    fn put_last(&mut self, span: Span)
        requires some { 0 < length (kept_list self.old) }
        ensures kept { kept_list self.new ≡ drop 1 (kept_list self.old) ++ span ∷ [] }
        ensures stage { self.new.stage ≡ Repeating (record { 0 = span.until }) }
        ensures period { self.new.period ≡ self.old.period }
        ensures horizon { self.new.horizon ≡ self.old.horizon }
        ensures count { length self.new.kept.items ≡ length self.old.kept.items }
        ensures told { self.new.told ≡ self.old.told }
        ensures lap { self.new.lap ≡ self.old.lap }
        ensures learnt { self.new.learnt ≡ self.old.learnt }
        ensures room { self.new.room ≡ self.old.room }
    {
        self.stage = Stage::Repeating(span.until());
        self.kept[self.place] = span;
        self.place += 1;
        if self.place == self.kept.len() {
            self.place = 0;
        }
    }

    /// The next span: the first of the kept ones, a period later. It takes that one's place.
    pub fn turn(&mut self) -> Option<Span>
        requires repeating { IsRepeating self.old.stage }
        ensures takes { (xs : List Interval) → IsNormal xs → HasKept self.old xs
            → Takes (to_come self.old.stage xs) result (to_come self.new.stage xs) }
        ensures kept { (xs : List Interval) → IsNormal xs → HasKept self.old xs → HasKept self.new xs }
        ensures again { (xs : List Interval) → CanBeginAgain self.old xs → CanBeginAgain self.new xs }
        ensures ended { IsLapEnded self.old → IsLapEnded self.new }
        ensures told { self.new.told.items ≡ self.old.told.items }
        ensures room { self.new.room ≡ self.old.room }
    {
        let first = self.first()?;
        let span = self.a_period_later(first)?;
        self.put_last(span);
        Some(span)
    }

    // Leaves the next span out, if it ends by a second, and answers whether it did.
    fn skips_one(&mut self, second: Sec) -> bool
        requires repeating { IsRepeating self.old.stage }
        ensures leaves { (xs : List Interval) → IsNormal xs → HasKept self.old xs
            → LeavesOut second.0 (to_come self.old.stage xs) (to_come self.new.stage xs) }
        ensures kept { (xs : List Interval) → IsNormal xs → HasKept self.old xs → HasKept self.new xs }
        ensures again { (xs : List Interval) → CanBeginAgain self.old xs → CanBeginAgain self.new xs }
        ensures ended { IsLapEnded self.old → IsLapEnded self.new }
        ensures told { self.new.told.items ≡ self.old.told.items }
        ensures repeating { IsRepeating self.new.stage }
        ensures room { self.new.room ≡ self.old.room }
    {
        let Some(first) = self.first() else {
            return false;
        };
        let Some(span) = self.a_period_later(first) else {
            return false;
        };
        if span.until() > second {
            return false;
        }
        self.put_last(span);
        true
    }

    // The seconds of the whole periods from the end of the last span to another second, and to the end of the horizon, if there
    // is such a period.
    fn whole_periods(&self, last: Sec, second: Sec) -> Option<i64>
        ensures whole { IfSome result (IsWhole self.now.period) }
        ensures not_back { IfSome result (λ by. pos 0 ≤ℤ by) }
        ensures in_time { IfSome result (λ by. (last.0 +ℤ by) ≤ℤ second.0) }
        ensures inside { IfSome result (λ by. (last.0 +ℤ by) ≤ℤ self.now.horizon.until) }
    {
        let latest = self.horizon.until().earlier(second);
        let past = latest.0.checked_sub(last.0)?;
        if past < self.period {
            return None;
        }
        Some(whole_part(past, self.period))
    }

    // Moves all kept spans by some seconds, and with them the second by which they end: the last span that was handed out ended
    // there.
    fn move_kept(&mut self, last: Sec, by: i64)
        requires done { AllDoneBy last.0 self.old.kept.items }
        requires not_back { pos 0 ≤ℤ by }
        requires fits { (last.0 +ℤ by) <ℤ pos 9223372036854775808 }
        requires repeating { IsRepeating self.old.stage }
        ensures kept { kept_list self.new ≡ map (moved by) (kept_list self.old) }
        ensures stage { self.new.stage ≡ Repeating (record { 0 = last.0 +ℤ by }) }
        ensures period { self.new.period ≡ self.old.period }
        ensures horizon { self.new.horizon ≡ self.old.horizon }
        ensures count { length self.new.kept.items ≡ length self.old.kept.items }
        ensures told { self.new.told ≡ self.old.told }
        ensures lap { self.new.lap ≡ self.old.lap }
        ensures learnt { self.new.learnt ≡ self.old.learnt }
        ensures room { self.new.room ≡ self.old.room }
    {
        move_all(self.kept.as_mut_slice(), last, by);
        self.stage = Stage::Repeating(Sec(last.0 + by));
    }

    // Leaves out the spans of the whole periods that are over by a second.
    fn skip_periods(&mut self, second: Sec)
        requires repeating { IsRepeating self.old.stage }
        ensures leaves { (xs : List Interval) → IsNormal xs → HasKept self.old xs
            → LeavesOut second.0 (to_come self.old.stage xs) (to_come self.new.stage xs) }
        ensures kept { (xs : List Interval) → IsNormal xs → HasKept self.old xs → HasKept self.new xs }
        ensures again { (xs : List Interval) → CanBeginAgain self.old xs → CanBeginAgain self.new xs }
        ensures ended { IsLapEnded self.old → IsLapEnded self.new }
        ensures told { self.new.told.items ≡ self.old.told.items }
        ensures repeating { IsRepeating self.new.stage }
        ensures room { self.new.room ≡ self.old.room }
    {
        let Stage::Repeating(last) = self.stage else {
            return;
        };
        let Some(by) = self.whole_periods(last, second) else {
            return;
        };
        if !are_done_by(self.kept.as_slice(), last) {
            return;
        }
        self.move_kept(last, by);
    }

    // Leaves out the next spans that end by a second: whole periods at once, and then span by span.
    #[inline(never)]
    fn skip_spans(&mut self, second: Sec)
        requires repeating { IsRepeating self.old.stage }
        ensures leaves { (xs : List Interval) → IsNormal xs → HasKept self.old xs
            → LeavesOut second.0 (to_come self.old.stage xs) (to_come self.new.stage xs) }
        ensures kept { (xs : List Interval) → IsNormal xs → HasKept self.old xs → HasKept self.new xs }
        ensures again { (xs : List Interval) → CanBeginAgain self.old xs → CanBeginAgain self.new xs }
        ensures ended { IsLapEnded self.old → IsLapEnded self.new }
        ensures told { self.new.told.items ≡ self.old.told.items }
        ensures repeating { IsRepeating self.new.stage }
        ensures room { self.new.room ≡ self.old.room }
    {
        self.skip_periods(second);
        for _ in 0..u64::MAX {
            if !self.skips_one(second) {
                return;
            }
        }
    }

    /// Leaves out the next spans that end by a second. Mostly there is none, since the last span did not end before that.
    #[inline(always)]
    pub fn skip_to(&mut self, second: Sec)
        requires repeating { IsRepeating self.old.stage }
        ensures leaves { (xs : List Interval) → IsNormal xs → HasKept self.old xs
            → LeavesOut second.0 (to_come self.old.stage xs) (to_come self.new.stage xs) }
        ensures kept { (xs : List Interval) → IsNormal xs → HasKept self.old xs → HasKept self.new xs }
        ensures again { (xs : List Interval) → CanBeginAgain self.old xs → CanBeginAgain self.new xs }
        ensures ended { IsLapEnded self.old → IsLapEnded self.new }
        ensures told { self.new.told.items ≡ self.old.told.items }
        ensures repeating { IsRepeating self.new.stage }
        ensures room { self.new.room ≡ self.old.room }
    {
        let Stage::Repeating(last) = self.stage else {
            return;
        };
        if second > last {
            self.skip_spans(second);
        }
    }

    /// The next span, as `turn` finds it, if it lies inside of bounds. Otherwise nothing changes.
    #[inline(always)]
    pub fn turn_within(&mut self, bounds: Bounds) -> Option<Span>
        requires repeating { IsRepeating self.old.stage }
        ensures takes { (xs : List Interval) → IsNormal xs → HasKept self.old xs
            → MatchOption result (to_come self.new.stage xs ≡ to_come self.old.stage xs)
            (λ x. to_come self.old.stage xs ≡ x ∷ to_come self.new.stage xs) }
        ensures inside { IfSome result (IsInside bounds) }
        ensures kept { (xs : List Interval) → IsNormal xs → HasKept self.old xs → HasKept self.new xs }
        ensures again { (xs : List Interval) → CanBeginAgain self.old xs → CanBeginAgain self.new xs }
        ensures ended { IsLapEnded self.old → IsLapEnded self.new }
        ensures told { self.new.told.items ≡ self.old.told.items }
        ensures repeating { IsRepeating self.new.stage }
        ensures room { self.new.room ≡ self.old.room }
    {
        let first = self.first()?;
        let span = self.a_period_later(first)?;
        if !bounds.contain(span) {
            return None;
        }
        self.put_last(span);
        Some(span)
    }

    /// Whether nothing is left of the spans that came before all of a period were kept.
    pub fn is_lap_ended(&self) -> bool
        ensures ended { IsTrue result → IsLapEnded self.now }
    {
        self.lap >= self.told.len()
    }

    /// The next span, after the list was begun again: as long as there are any, one of those that came before all of a period
    /// were kept.
    pub fn next_again(&mut self) -> Option<Span>
        ensures takes { (xs : List Interval) → MatchOption result (rest_of self.old xs ≡ to_come self.old.stage xs)
            (λ x. rest_of self.old xs ≡ x ∷ rest_of self.new xs) }
        ensures ended { IfNone result (IsLapEnded self.new) }
        ensures same { (xs : List Interval) → HasKept self.old xs → HasKept self.new xs }
        ensures again { (xs : List Interval) → CanBeginAgain self.old xs → CanBeginAgain self.new xs }
        ensures told { self.new.told.items ≡ self.old.told.items }
        ensures stage { self.new.stage ≡ self.old.stage }
        ensures room { self.new.room ≡ self.old.room }
    {
        if self.lap >= self.told.len() {
            return None;
        }
        let span = self.told[self.lap];
        self.lap += 1;
        Some(span)
    }

    /// Begins the list again with its first span.
    pub fn begin_again(&mut self)
        requires repeating { IsRepeating self.old.stage }
        ensures whole { (xs : List Interval) → CanBeginAgain self.old xs → rest_of self.new xs ≡ whole_of self.old xs }
        ensures kept { (xs : List Interval) → CanBeginAgain self.old xs → HasKept self.new xs }
        ensures again { (xs : List Interval) → CanBeginAgain self.old xs → CanBeginAgain self.new xs }
        ensures told { self.new.told.items ≡ self.old.told.items }
        ensures repeating { IsRepeating self.new.stage }
        ensures room { self.new.room ≡ self.old.room }
    {
        self.put_back();
    }

    // Puts the kept spans back to how they were when all of a period were first kept.
    fn put_back(&mut self)
        requires repeating { IsRepeating self.old.stage }
        requires enough { length self.old.kept.items ≤ length self.old.told.items }
        ensures whole { (xs : List Interval) → CanBeginAgain self.old xs → rest_of self.new xs ≡ whole_of self.old xs }
        ensures kept { (xs : List Interval) → CanBeginAgain self.old xs → HasKept self.new xs }
        ensures again { (xs : List Interval) → CanBeginAgain self.old xs → CanBeginAgain self.new xs }
        ensures told { self.new.told.items ≡ self.old.told.items }
        ensures repeating { IsRepeating self.new.stage }
        ensures room { self.new.room ≡ self.old.room }
    {
        let count = self.kept.len();
        let from = self.told.len() - count;
        self.kept.as_mut_slice().copy_from_slice(&self.told[from..]);
        self.place = 0;
        self.lap = 0;
        self.stage = Stage::Repeating(self.learnt);
    }

    /// Keeps a span that was handed out. With the first one that is a period after the first kept one, all of a period
    /// are kept.
    pub fn keep(&mut self, span: Span)
        requires learning { IsRepeating self.old.stage → ⊥ }
        ensures all { (xs : List Interval) → IsNormal (span ∷ xs) → HasKept self.old (span ∷ xs)
            → to_come self.new.stage xs ≡ xs }
        ensures kept { (xs : List Interval) → IsNormal (span ∷ xs) → HasKept self.old (span ∷ xs) → HasKept self.new xs }
        ensures again { (xs : List Interval) → IsNormal (span ∷ xs) → HasKept self.old (span ∷ xs)
            → CanBeginAgain self.new xs }
        ensures ended { IsLapEnded self.old → IsLapEnded self.new }
        ensures told { (self.new.stage ≡ GivenUp) ⊎ (self.new.told.items ≡ self.old.told.items ++ span ∷ []) }
        ensures given_up { self.old.stage ≡ GivenUp → self.new.stage ≡ GivenUp }
        ensures room { self.new.room ≡ self.old.room }
    {
        match self.stage {
            Stage::Repeating(_) => {}
            Stage::Learning => self.learn(span),
            Stage::GivenUp => {}
        }
    }

    fn learn(&mut self, span: Span)
        requires learning { self.old.stage ≡ Learning }
        ensures all { (xs : List Interval) → IsNormal (span ∷ xs) → to_come self.new.stage xs ≡ xs }
        ensures kept { (xs : List Interval) → IsNormal (span ∷ xs) → HasKept self.old (span ∷ xs) → HasKept self.new xs }
        ensures again { (xs : List Interval) → IsNormal (span ∷ xs) → HasKept self.old (span ∷ xs)
            → CanBeginAgain self.new xs }
        ensures ended { IsLapEnded self.new }
        ensures told { (self.new.stage ≡ GivenUp) ⊎ (self.new.told.items ≡ self.old.told.items ++ span ∷ []) }
        ensures room { self.new.room ≡ self.old.room }
    {
        let Some(first) = self.first() else {
            self.begin(span);
            return;
        };
        if self.is_period_after(first, span) {
            self.close(span);
        } else {
            self.append(span);
        }
    }

    // The span closes the period: all of it are kept.
    fn close(&mut self, span: Span)
        requires learning { self.old.stage ≡ Learning }
        requires some { 0 < length (kept_list self.old) }
        ensures kept { IsRepeating self.new.stage → kept_list self.new ≡ drop 1 (kept_list self.old) ++ span ∷ [] }
        ensures last { IsRepeating self.new.stage → last_told self.new ≡ drop 1 (kept_list self.old) ++ span ∷ [] }
        ensures stage { (self.new.stage ≡ GivenUp) ⊎ (self.new.stage ≡ Repeating (record { 0 = span.until })) }
        ensures learnt { IsRepeating self.new.stage → self.new.learnt ≡ record { 0 = span.until } }
        ensures period { self.new.period ≡ self.old.period }
        ensures horizon { self.new.horizon ≡ self.old.horizon }
        ensures ended { IsLapEnded self.new }
        ensures told { (self.new.stage ≡ GivenUp) ⊎ (self.new.told.items ≡ self.old.told.items ++ span ∷ []) }
        ensures room { self.new.room ≡ self.old.room }
    {
        if self.told.len() > self.room + 1 || self.told.push(span).is_err() {
            self.give_up();
            return;
        }
        self.lap = self.told.len();
        self.learnt = span.until();
        self.stage = Stage::Repeating(span.until());
        self.put_last(span);
    }

    // The first span of a horizon may have been cut by its beginning. Then it is not kept, since it would not come again.
    fn begin(&mut self, span: Span)
        requires learning { self.old.stage ≡ Learning }
        requires none { kept_list self.old ≡ [] }
        ensures all { (xs : List Interval) → to_come self.new.stage xs ≡ xs }
        ensures kept { (xs : List Interval) → HasKept self.old (span ∷ xs) → HasKept self.new xs }
        ensures again { IsRepeating self.new.stage → ⊥ }
        ensures ended { IsLapEnded self.new }
        ensures told { (self.new.stage ≡ GivenUp) ⊎ (self.new.told.items ≡ self.old.told.items ++ span ∷ []) }
        ensures room { self.new.room ≡ self.old.room }
    {
        if span.from().0 > self.horizon.from().0 {
            self.append(span);
            return;
        }
        if self.told.len() <= self.room && push_one(&mut self.told, span) {
            self.lap = self.told.len();
            return;
        }
        clear_both(&mut self.kept, &mut self.told);
        self.lap = 0;
        self.place = 0;
        self.stage = Stage::GivenUp;
    }

    /// Keeps no span, now and later.
    pub fn give_up(&mut self)
        ensures stage { self.new.stage ≡ GivenUp }
        ensures ended { IsLapEnded self.new }
        ensures room { self.new.room ≡ self.old.room }
        ensures period { self.new.period ≡ self.old.period }
        ensures horizon { self.new.horizon ≡ self.old.horizon }
    {
        clear_both(&mut self.kept, &mut self.told);
        self.lap = 0;
        self.place = 0;
        self.stage = Stage::GivenUp;
    }

    // Puts a span after the kept ones, if there is room.
    fn append(&mut self, span: Span)
        requires learning { self.old.stage ≡ Learning }
        ensures all { (xs : List Interval) → to_come self.new.stage xs ≡ xs }
        ensures kept { (xs : List Interval) → HasKept self.old (span ∷ xs) → HasKept self.new xs }
        ensures again { IsRepeating self.new.stage → ⊥ }
        ensures ended { IsLapEnded self.new }
        ensures told { (self.new.stage ≡ GivenUp) ⊎ (self.new.told.items ≡ self.old.told.items ++ span ∷ []) }
        ensures room { self.new.room ≡ self.old.room }
    {
        if self.kept.len() >= self.room || self.told.len() > self.room {
            self.give_up();
            return;
        }
        if push_both(&mut self.kept, &mut self.told, span) {
            self.lap = self.told.len();
            return;
        }
        clear_both(&mut self.kept, &mut self.told);
        self.lap = 0;
        self.place = 0;
        self.stage = Stage::GivenUp;
    }
}

// The seconds of the whole periods in a time.
fn whole_part(time: i64, period: i64) -> i64
    requires not_back { pos 0 ≤ℤ time }
    requires some { pos 0 <ℤ period }
    ensures whole { IsWhole period result }
    ensures not_back { pos 0 ≤ℤ result }
    ensures within { result ≤ℤ time }
{
    time - time.rem_euclid(period)
}

// Whether each span ends by a second.
fn are_done_by(spans: &[Span], second: Sec) -> bool
    ensures done { IsTrue result → AllDoneBy second.0 spans.now }
{
    for at in 0..spans.len() {
        if spans[at].until() > second {
            return false;
        }
    }
    true
}

// Moves spans that end by a second by some seconds.
fn move_all(spans: &mut [Span], last: Sec, by: i64)
    requires done { AllDoneBy last.0 spans.old }
    requires not_back { pos 0 ≤ℤ by }
    requires fits { (last.0 +ℤ by) <ℤ pos 9223372036854775808 }
    ensures moved { spans.new ≡ map (moved by) spans.old }
{
    for at in 0..spans.len() {
        let span = spans[at];
        let from = span.from().0 + by;
        spans[at] = Span::between(Sec(from), Sec(span.until().0 + by));
    }
}

// Appends a span to two lists. If memory is refused, we do not say what they hold.
fn push_both(one: &mut Vec<Span>, other: &mut Vec<Span>, span: Span) -> bool
    ensures one { IsTrue result → one.new.items ≡ one.old.items ++ span ∷ [] }
    ensures other { IsTrue result → other.new.items ≡ other.old.items ++ span ∷ [] }
{
    one.push(span).is_ok() && other.push(span).is_ok()
}

// Appends a span to a list. If memory is refused, we do not say what it holds.
fn push_one(list: &mut Vec<Span>, span: Span) -> bool
    ensures list { IsTrue result → list.new.items ≡ list.old.items ++ span ∷ [] }
{
    list.push(span).is_ok()
}

// Takes all spans off two lists.
fn clear_both(kept: &mut Vec<Span>, told: &mut Vec<Span>)
    ensures kept { kept.new.items ≡ [] }
    ensures told { told.new.items ≡ [] }
{
    kept.clear();
    told.clear();
}
