//! The minutes of a day that ranges of times have.

ghost use Rattle.std.specs.Prelude.{◌≡◌, ◌↔◌, IsTrue};
ghost use Rattle.gtd_hours.specs.Ranges.{end_of};
ghost use Rattle.gtd_hours_hidden.specs.Hides.{has_minute, is_missed, MissesMinute};

use gtd_hours::TimeRange;

// How many minutes a day has.
const DAY_MINUTES: u16 = 1440;

fn end_of(time: TimeRange) -> u16
    ensures { result ≡ end_of time.begin time.last }
{
    if time.begin < time.last {
        return time.last;
    }
    time.last + DAY_MINUTES
}

fn has_minute(times: &[TimeRange], minute: u16) -> bool
    ensures { result ≡ has_minute times.now minute }
{
    let mut rest = times;
    while let Some((time, more)) = rest.split_first() {
        if time.begin <= minute && minute < end_of(*time) {
            return true;
        }
        rest = more;
    }
    false
}

fn is_missed(times: &[TimeRange], earlier: &[TimeRange], minute: u16) -> bool
    ensures { result ≡ is_missed times.now earlier.now minute }
{
    has_minute(earlier, minute) && !has_minute(times, minute)
}

/// Whether some minute before 24:00 is in one of the earlier ranges and in none of these.
pub fn misses_minute(times: &[TimeRange], earlier: &[TimeRange]) -> bool
    ensures { IsTrue result ↔ MissesMinute times.now earlier.now }
{
    for minute in 0..DAY_MINUTES {
        if is_missed(times, earlier, minute) {
            return true;
        }
    }
    false
}
