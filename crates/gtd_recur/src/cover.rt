//! Whether a basic domain contains a second, and the end of a stretch that holds it.

ghost use Rattle.std.specs.Prelude.{◌≡◌, ◌↔◌, ℤ, ◌≤ℤ◌, ◌<ℤ◌, IsTrue, MatchOption};
ghost use Rattle.gtd_core.specs.Limits.{horizons_end, first_window_day};
ghost use Rattle.gtd_recur.specs.Look.{IsLookBack};
ghost use Rattle.gtd_recur.specs.Weekly.{IsWeekly};
ghost use Rattle.gtd_core.specs.Parts.{start_parts, duration_parts};
ghost use Rattle.gtd_core.specs.Ranges.{IsStart};
ghost use Rattle.gtd_calendar.specs.Calendar.{IsCalendarDay};
ghost use Rattle.gtd_recur.specs.Membership.{InBasic};
ghost use Rattle.gtd_recur.specs.Changes.{IsStretchEnd};
ghost use Rattle.gtd_recur.specs.ComputedStretches.{IsHeldFromDay, IsHeldFromDays, IsLatestNotAfter};
ghost use Rattle.gtd_core.specs.Seconds.{day_of_second, IsHorizonSecond};

use crate::begin::{asks_no_date, begins_on_day, latest_begin};
use crate::find::last_begun;
use crate::jump::last_days;
use gtd_calendar::{end_of, second_of_day};
use gtd_core::limits::{DAY_SECONDS, LAST_SECOND_OF_DAY};
use gtd_core::{Basic, Duration, Sec, StartParts};

// The end of the last stretch that begins on that day and holds the second. Of the stretches of one day, the one that begins
// last ends last.
fn end_from_day(
    start: &StartParts,
    duration: &Duration,
    second: Sec,
    day: i64,
    latest: Option<u32>,
) -> Option<Sec>
    requires day_in { IsCalendarDay day }
    requires latest { IsLatestNotAfter start.now day second.0 latest }
    ensures end { MatchOption result (IsHeldFromDay start.now (duration_parts duration.now) day second.0 → ⊥)
        (λ e. IsStretchEnd start.now (duration_parts duration.now) second.0 e.0) }
{
    let Some(clock) = latest else {
        return None;
    };
    if !begins_on_day(start, day) {
        return None;
    }
    let begin = Sec(DAY_SECONDS * day + i64::from(clock));
    let end = end_of(begin, duration);
    if second.0 < end.0 {
        return Some(end);
    }
    None
}

// The end of a stretch that holds the second and begins on a day before its own, but not below a lowest day. No stretch from an
// earlier day ends later than the last from the last day on which the start begins, so that only that day is asked.
fn end_from_before(
    start: &StartParts,
    duration: &Duration,
    second: Sec,
    low: i64,
    today: i64,
) -> Option<Sec>
    requires valid { IsStart start.now }
    requires low_in { first_window_day ≤ℤ low }
    requires order { low ≤ℤ today }
    requires today_in { today ≤ℤ horizons_end }
    requires today { today ≡ day_of_second second.0 }
    ensures end { MatchOption result (IsHeldFromDays start.now (duration_parts duration.now) low today second.0 → ⊥)
        (λ e. IsStretchEnd start.now (duration_parts duration.now) second.0 e.0) }
{
    let look = first_look(start, low, today);
    if look.first >= today {
        return None;
    }
    let latest = latest_begin(start, LAST_SECOND_OF_DAY);
    end_from_day(start, duration, second, look.first, latest)
}

// Whether each stretch ends on the day on which it begins, as those of `(h10){h4}` do: then no day before a second matters.
fn ends_on_its_day(start: &StartParts, duration: &Duration) -> bool
    requires valid { IsStart start.now }
    ensures past { IsTrue result → (low s : ℤ)
        → IsHeldFromDays start.now (duration_parts duration.now) low (day_of_second s) s → ⊥ }
{
    match latest_begin(start, LAST_SECOND_OF_DAY) {
        None => false,
        Some(last) => i64::from(last) + duration.bound() <= DAY_SECONDS,
    }
}

/// The end of a stretch that holds the second, however long ago it began; `None` if none holds it. Of those that hold it, it is
/// one that began last or the day before.
pub(crate) fn stretch_end(basic: &Basic, second: Sec) -> Option<Sec>
    requires horizon { IsHorizonSecond second.0 }
    ensures end { MatchOption result (InBasic basic.now second.0 → ⊥)
        (λ e. IsStretchEnd (start_parts basic.now.start) (duration_parts basic.now.duration) second.0 e.0) }
{
    let start = basic.start.parts();
    let today = second.day();
    let latest = latest_begin(&start, second_of_day(second));
    if let Some(end) = end_from_day(&start, &basic.duration, second, today, latest) {
        return Some(end);
    }
    if ends_on_its_day(&start, &basic.duration) {
        return None;
    }
    let low = today - i64::from(basic.duration.lookback());
    end_from_before(&start, &basic.duration, second, low, today)
}

/// Whether the basic domain contains the second: the stretch of some matching start holds it, however long ago that
/// start was. The second must be from 1901-01-01 to the end of 2699-12-31.
pub fn covers(basic: &Basic, second: Sec) -> bool
    requires horizon { IsHorizonSecond second.0 }
    ensures member { IsTrue result ↔ InBasic basic.now second.0 }
{
    stretch_end(basic, second).is_some()
}

/// Where a look backwards ended.
#[derive(Clone, Copy, Debug)]
pub(crate) struct LookBack {
    /// The last day on which the start begins, if there is one, and otherwise the lowest day that could be looked at.
    pub(crate) first: i64,
    /// That day, open from its first second on; or, if the start begins on none, the day before it, which is closed.
    pub(crate) day: i64,
    pub(crate) clock: u32,
    /// How many days were looked at.
    pub(crate) looked: u64,
}

/// Looks backwards from a horizon's first day to a lowest day for a day on which the start begins: no stretch from an
/// earlier day ends later than the last from that day. Days that a given month or year excludes are not counted.
pub(crate) fn first_look(start: &StartParts, low: i64, seen: i64) -> LookBack
    requires valid { IsStart start.now }
    requires low_in { first_window_day ≤ℤ low }
    requires order { low ≤ℤ seen }
    requires seen_in { seen ≤ℤ horizons_end }
    ensures look { IsLookBack start.now low seen result.first result.day result.clock
        result.looked }
{
    let mut days = last_days(start, low, seen);
    let mut looked = 0;
    while low < days.until {
        let day = last_begun(start, days.from, days.until);
        if day >= days.from {
            return LookBack {
                first: day,
                day,
                clock: 0,
                looked: looked + (days.until - day) as u64,
            };
        }
        looked += (days.until - days.from) as u64;
        days = last_days(start, low, days.from);
    }
    LookBack {
        first: low,
        day: low - 1,
        clock: DAY_SECONDS as u32,
        looked,
    }
}

/// Whether the basic domain repeats after 7 days: its start asks for nothing of a day except the weekday, and its
/// duration has no months and no years.
pub fn is_weekly(basic: &Basic) -> bool
    ensures weekly { IsTrue result ↔ IsWeekly (start_parts basic.now.start) (duration_parts basic.now.duration) }
{
    basic.duration.whole_months() == 0 && asks_no_date(basic.start.as_parts())
}
