//! When a stretch of a basic domain begins next, and how long its stretches go on without a gap.

ghost use Rattle.std.specs.Prelude.{◌≡◌, ◌≤ℤ◌, ◌<ℤ◌, ◌+ℤ◌, ◌*ℤ◌, ◌+◌, ◌<◌, pos, MatchOption};
ghost use Rattle.gtd_core.specs.Limits.{day_seconds, first_window_day, horizons_end};
ghost use Rattle.gtd_core.specs.Ranges.{IsStart};
ghost use Rattle.gtd_core.specs.Seconds.{IsHorizonSecond, day_of_second};
ghost use Rattle.gtd_recur.specs.Begins as spec;
ghost use Rattle.gtd_recur.specs.Changes.{IsFirstFree, IsNextStart, NoneStarts};
ghost use Rattle.gtd_recur.specs.ClockSearch.{IsNextPassing};
ghost use Rattle.gtd_recur.specs.Jumps.{IsFirstBegun};
ghost use Rattle.gtd_recur.specs.Membership.{InBasic};

use crate::begin::{begins_on_day, latest_begin};
use crate::clocks::day_clocks;
use crate::cover::stretch_end;
use crate::find::next_begun;
use crate::jump::next_days;
use gtd_calendar::second_of_day;
use gtd_core::limits::DAY_SECONDS;
use gtd_core::{Basic, Sec, StartParts};

// The first day, from a given one on and before an end, on which the start begins; or the end.
fn next_day(start: &StartParts, day: i64, end: i64) -> i64
    requires valid { IsStart start.now }
    requires day_in { first_window_day ≤ℤ day }
    requires order { day ≤ℤ end }
    requires end_in { end ≤ℤ horizons_end }
    ensures first { IsFirstBegun start.now day end result }
{
    let mut days = next_days(start, day, end);
    while days.from < end {
        let found = next_begun(start, days.from, days.until);
        if found < days.until {
            return found;
        }
        days = next_days(start, days.until, end);
    }
    end
}

// The next second of a day, after one of its seconds, at which the clock of a start fits.
fn clock_after(start: &StartParts, clock: u32) -> Option<u32>
    requires valid { IsStart start.now }
    requires clock_in { clock < day_seconds }
    ensures next { IsNextPassing (spec.begins_at start.now) (clock + 1) result }
{
    let clocks = day_clocks(start);
    let Some(latest) = latest_begin(start, clock) else {
        return Some(clocks.first);
    };
    if latest < clocks.last {
        return Some(latest + clocks.step);
    }
    None
}

// The next start after a second on the second's own day.
fn start_today(start: &StartParts, second: Sec) -> Option<Sec>
    requires valid { IsStart start.now }
    requires second_in { IsHorizonSecond second.0 }
    ensures next { MatchOption result (NoneStarts start.now second.0 (day_of_second second.0 +ℤ pos 1))
        (λ b. IsNextStart start.now second.0 b.0) }
    ensures today { MatchOption result (Unit {0}) (λ b. day_of_second b.0 ≡ day_of_second second.0) }
{
    let today = second.day();
    if !begins_on_day(start, today) {
        return None;
    }
    let Some(clock) = clock_after(start, second_of_day(second)) else {
        return None;
    };
    Some(Sec(DAY_SECONDS * today + i64::from(clock)))
}

/// The first second after a given one, and before a day, that the start matches: a stretch begins there. `None` exactly if there
/// is none. Days that it excludes are passed over, and no start before that one is asked for.
pub fn next_start(start: &StartParts, second: Sec, to_day: i64) -> Option<Sec>
    requires valid { IsStart start.now }
    requires second_in { IsHorizonSecond second.0 }
    requires order { day_of_second second.0 <ℤ to_day }
    requires to_day_in { to_day ≤ℤ horizons_end }
    ensures next { MatchOption result (NoneStarts start.now second.0 to_day)
        (λ b. IsNextStart start.now second.0 b.0) }
    ensures before { MatchOption result (Unit {0}) (λ b. day_of_second b.0 <ℤ to_day) }
{
    if let Some(begin) = start_today(start, second) {
        return Some(begin);
    }
    let day = next_day(start, second.day() + 1, to_day);
    if day < to_day {
        let clock = day_clocks(start).first;
        return Some(Sec(DAY_SECONDS * day + i64::from(clock)));
    }
    None
}

/// The first second, from a given one on and before an end, that the basic domain does not contain; or the end. It goes from the
/// end of a stretch that holds a second to the end of one that holds that end, so that what begins between them is not looked at.
pub fn held_until(basic: &Basic, second: Sec, until: Sec) -> Sec
    requires second_in { IsHorizonSecond second.0 }
    requires order { second.0 ≤ℤ until.0 }
    requires until_in { until.0 ≤ℤ (horizons_end *ℤ pos day_seconds) }
    ensures free { IsFirstFree (InBasic basic.now) second.0 until.0 result.0 }
{
    let mut at = second;
    while at.0 < until.0 {
        let Some(end) = stretch_end(basic, at) else {
            return at;
        };
        at = end.earlier(until);
    }
    at
}
