//! Sets of days.

ghost use Rattle.std.specs.Prelude.{◌≡◌, ◌⊎◌, ◌<◌, ◌≤◌, ◌+ℤ◌, ◌≤ℤ◌, ◌<ℤ◌, ℕ, pos, true, false, length, get_or};
ghost use Rattle.std.specs.Prelude.{◌↔◌, IsTrue, MatchOption, OnOk};
ghost use Rattle.std.proofs.Props.{props};
ghost use Rattle.gtd_core.specs.Limits.{last_calendar_day};
ghost use Rattle.gtd_calendar.specs.Calendar.{IsCalendarDay};
ghost use Rattle.gtd_hours_holidays.specs.Marks.{AreMarked, IsFirstMark};

use std::alloc::{AllocError, Global};

/// 1800-01-01, the first day of the calendar.
pub(crate) const FIRST_DAY: i64 = -62_091;

/// 2799-12-31, the last day of the calendar.
pub(crate) const LAST_DAY: i64 = 303_150;

/// A set of days of the years 1800 to 2799, from a first day on.
#[derive(Drop)]
pub struct Days {
    /// The first day that can be in the set.
    pub first: i64,
    /// Whether each day is in the set, from the first one on. The days after the last mark are not.
    pub marks: Vec<bool>,
    pub ghost first_in: { IsCalendarDay first } by { Prim.hlevel props },
}

// How many days a day comes after another one.
fn place_of(first: i64, day: i64) -> usize
    requires first_in { IsCalendarDay first }
    requires day_in { IsCalendarDay day }
    requires order { first ≤ℤ day }
    ensures place { day ≡ first +ℤ pos result }
    ensures near { result < 365_242 }
{
    (day - first) as usize
}

// The day that comes so many days after another one.
fn day_at(first: i64, place: usize) -> i64
    requires first_in { IsCalendarDay first }
    requires near { (first +ℤ pos place) ≤ℤ last_calendar_day }
    ensures day { result ≡ first +ℤ pos place }
    ensures near { IsCalendarDay result }
{
    first + place as i64
}

// The later of two days.
fn later(a: i64, b: i64) -> i64
    ensures { (a ≤ℤ result) × (b ≤ℤ result) × ((result ≡ a) ⊎ (result ≡ b)) }
{
    if a < b { b } else { a }
}

// Whether a day comes before another one.
fn is_before(a: i64, b: i64) -> bool
    ensures { IsTrue result ↔ (a <ℤ b) }
{
    a < b
}

// Adds marks that say no, until there are so many.
fn grow(marks: &mut Vec<bool>, count: usize) -> Result<(), AllocError>
    ensures same { (k : ℕ) → get_or marks.new.items k false ≡ get_or marks.old.items k false }
    ensures many { OnOk result (count ≤ length marks.new.items) }
{
    for _ in marks.len()..count {
        marks.push(false)?;
    }
    Ok(())
}

// Makes the marks from one on say yes, before another.
fn mark(marks: &mut Vec<bool>, first: usize, until: usize)
    requires { until ≤ length marks.old.items }
    ensures { AreMarked marks.old.items marks.new.items first until }
{
    for place in first..until {
        marks[place] = true;
    }
}

// Whether a mark says yes.
fn is_marked(marks: &[bool], place: usize) -> bool
    ensures { result ≡ get_or marks.now place false }
{
    match marks.get(place) {
        Some(mark) => *mark,
        None => false,
    }
}

// The first mark from one on that says this, before another.
fn first_marked(marks: &[bool], first: usize, until: usize, says: bool) -> Option<usize>
    ensures { MatchOption result
        ((k : ℕ) → first ≤ k → k < until → get_or marks.now k false ≡ says → ⊥)
        (IsFirstMark marks.now first until says) }
{
    for place in first..until {
        if is_marked(marks, place) == says {
            return Some(place);
        }
    }
    None
}

// The first mark from one on that says yes, before another. Those behind the last are not looked at.
fn first_set(marks: &[bool], first: usize, until: usize) -> Option<usize>
    ensures { MatchOption result
        ((k : ℕ) → first ≤ k → k < until → get_or marks.now k false ≡ true → ⊥)
        (IsFirstMark marks.now first until true) }
{
    if marks.len() < until {
        return first_marked(marks, first, marks.len(), true);
    }
    first_marked(marks, first, until, true)
}

impl Days {
    ghost use Rattle.std.specs.Prelude.{◌≡◌, ◌↔◌, ◌⊎◌, ◌≤ℤ◌, ℤ, IsTrue, MatchOption, OnErr, OnOk};
    ghost use Rattle.gtd_calendar.specs.Calendar.{IsCalendarDay};
    ghost use Rattle.gtd_hours_holidays.specs.Days.{AreAll, AreNone, IsFirst, IsFirstWithout, IsIn};

    /// A set without a day, which can hold the days from this one on. It must be of the years 1800 to 2799. Takes no memory.
    pub fn new(alloc: Global, first: i64) -> Days
        requires first_in { IsCalendarDay first }
        ensures begins { result.first ≡ first }
        ensures none { (n : ℤ) → IsIn result n → ⊥ }
    {
        Days {
            first,
            marks: Vec::new(alloc),
        }
    }

    /// Adds the days from one to another, both included; none if the last comes before the first. Both must be of the years
    /// 1800 to 2799, and none of them before the first day that the set can hold. `AllocError` is answered only if memory was
    /// refused, and then the set is as it was.
    pub fn add(&mut self, first: i64, last: i64) -> Result<(), AllocError>
        requires first_in { IsCalendarDay first }
        requires last_in { IsCalendarDay last }
        requires begun { self.old.first ≤ℤ first }
        ensures begins { self.new.first ≡ self.old.first }
        ensures added { OnOk result ((n : ℤ) → IsIn self.new n ↔ (IsIn self.old n ⊎ ((first ≤ℤ n) × (n ≤ℤ last)))) }
        ensures kept { OnErr result ((n : ℤ) → IsIn self.new n ↔ IsIn self.old n) }
    {
        if is_before(last, first) {
            return Ok(());
        }
        let until = place_of(self.first, last) + 1;
        grow(&mut self.marks, until)?;
        mark(&mut self.marks, place_of(self.first, first), until);
        Ok(())
    }

    /// Whether a day is in the set. The day must be of the years 1800 to 2799. Takes no memory.
    pub fn contains(&self, day: i64) -> bool
        requires { IsCalendarDay day }
        ensures is { IsTrue result ↔ IsIn self.now day }
    {
        if is_before(day, self.first) {
            return false;
        }
        is_marked(self.marks.as_slice(), place_of(self.first, day))
    }

    /// The first day from one to another, both included, that is not in the set, or `None` if all are. Both must be of the years
    /// 1800 to 2799. Takes no memory.
    pub fn first_missing(&self, from: i64, to: i64) -> Option<i64>
        requires from_in { IsCalendarDay from }
        requires to_in { IsCalendarDay to }
        ensures first { MatchOption result (AreAll (IsIn self.now) from to) (IsFirstWithout (IsIn self.now) from to) }
    {
        if is_before(to, from) {
            return None;
        }
        if is_before(from, self.first) {
            return Some(from);
        }
        let first = place_of(self.first, from);
        let until = place_of(self.first, to) + 1;
        match first_marked(self.marks.as_slice(), first, until, false) {
            Some(place) => Some(day_at(self.first, place)),
            None => None,
        }
    }

    /// The first day from one to another, both included, that is in the set, or `None` if none is. Both must be of the years 1800
    /// to 2799. Takes no memory.
    pub fn first_in(&self, from: i64, to: i64) -> Option<i64>
        requires from_in { IsCalendarDay from }
        requires to_in { IsCalendarDay to }
        ensures first { MatchOption result (AreNone (IsIn self.now) from to) (IsFirst (IsIn self.now) from to) }
    {
        let begin = later(from, self.first);
        if is_before(to, begin) {
            return None;
        }
        let first = place_of(self.first, begin);
        let until = place_of(self.first, to) + 1;
        match first_set(self.marks.as_slice(), first, until) {
            Some(place) => Some(day_at(self.first, place)),
            None => None,
        }
    }
}
