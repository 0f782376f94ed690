//! The clock, and the ends of stretches.

ghost use Rattle.std.specs.Prelude.{◌≡◌, ◌+◌, ◌*◌, ◌<◌, ◌≤◌, pos, ◌+ℤ◌, ◌≤ℤ◌};
ghost use Rattle.jiff.specs.Words.{IsEpochDay};
ghost use Rattle.gtd_core.specs.Seconds.{day_of_second};
ghost use Rattle.gtd_core.specs.Ranges.{bound_of};
ghost use Rattle.gtd_core.specs.Parts.{duration_parts};
ghost use Rattle.gtd_calendar.specs.Calendar.{IsCalendarDay};
ghost use Rattle.gtd_calendar.specs.Clock.{IsStop};
ghost use Rattle.gtd_calendar.specs.Clock as spec;
ghost use Rattle.gtd_calendar.specs.ComputedEnds as computed;
ghost use Rattle.gtd_core.specs.Limits.{day_seconds};

use crate::day::{date_of, day_number_of};
use gtd_core::limits::DAY_SECONDS;
use gtd_core::{Duration, Sec};
use jiff::civil;

/// The number of seconds of its day before a second: 0 to 86,399.
pub fn second_of_day(second: Sec) -> u32
    ensures value { result ≡ spec.second_of_day second.0 }
    ensures bound { result < day_seconds }
{
    second.0.rem_euclid(DAY_SECONDS) as u32
}

// This day of the month at a count of months from January of the year 0, or the month's last day if it has no such day.
fn day_in_month(count: u32, day: u8) -> i64
    requires count_in { count ≤ 40_000 }
    requires day_in { 1 ≤ day }
    ensures value { result ≡ computed.day_in_month (pos count) day }
{
    let first = civil::date((count / 12) as i16, (count % 12) as i8 + 1, 1);
    day_number_of(first) + i64::from(day.min(first.days_in_month() as u8)) - 1
}

// The day so many months later. The day of the month is cut to the last one of the month that is reached.
fn months_later(day: i64, months: u32) -> i64
    requires day_in { IsCalendarDay day }
    requires months_in { months ≤ 1200 }
    ensures value { result ≡ computed.months_later day months }
    ensures bound { IsEpochDay result }
{
    if months == 0 {
        return day;
    }
    let date = date_of(day);
    let count = 12 * date.year() as u32 + (date.month() as u32 - 1) + months;
    day_in_month(count, date.day() as u8)
}

/// The first second after the stretch that begins at a second. The day of that second must be from 1800-01-01 to
/// 2799-12-31.
///
/// The date is moved by the years and months in one step, and its day is cut to the last one of the month that is
/// reached; then it is moved by the weeks and days. The clock is kept, and the hours, minutes and seconds are added.
pub fn end_of(start: Sec, duration: &Duration) -> Sec
    requires { IsCalendarDay (day_of_second start.0) }
    ensures stop { IsStop (duration_parts duration.now) start.0 result.0 }
    ensures value { result.0 ≡ computed.stop (duration_parts duration.now) start.0 }
    ensures later { start.0 ≤ℤ result.0 }
    ensures within_bound { result.0 ≤ℤ (start.0 +ℤ pos (bound_of (duration_parts duration.now))) }
{
    let months = duration.whole_months();
    if months == 0 {
        let lasts = DAY_SECONDS as u64 * u64::from(duration.whole_days())
            + u64::from(duration.clock());
        return Sec(start.0 + lasts as i64);
    }
    let moved = months_later(start.day(), months);
    let day = moved + i64::from(duration.whole_days());
    Sec(DAY_SECONDS * day + i64::from(second_of_day(start) + duration.clock()))
}
