//! Easter.

ghost use Rattle.std.specs.Prelude.{◌≡◌, ◌<◌, ◌≤◌, pos};
ghost use Rattle.gtd_calendar.specs.Calendar.{IsCalendarDay};
ghost use Rattle.gtd_hours2.specs.Days as spec;
ghost use Rattle.gtd_hours2.specs.Days.{easter_in};

use gtd_calendar::day_of;

// The days from 21 March to the paschal full moon.
fn moon(year: u32) -> u32
    requires { (1800 ≤ year) × (year ≤ 2799) }
    ensures value { result ≡ spec.moon year }
    ensures few { result < 30 }
{
    let centuries = year / 100;
    let left_out = centuries - centuries / 4;
    let late = (centuries - (centuries + 8) / 25 + 1) / 3;
    (19 * (year % 19) + left_out - late + 15) % 30
}

// The days from the full moon to the last Saturday before Easter, if the full moon is so many days after 21 March.
fn week(year: u32, moon: u32) -> u32
    requires full { moon ≡ spec.moon year }
    requires few { moon < 30 }
    ensures value { result ≡ spec.week_after year }
    ensures few { result < 7 }
{
    let of_century = year % 100;
    (32 + 2 * (year / 100 % 4) + 2 * (of_century / 4) - moon - of_century % 4) % 7
}

// The days from 22 March to Easter Sunday.
fn after_equinox(year: u32) -> u32
    requires { (1800 ≤ year) × (year ≤ 2799) }
    ensures value { result ≡ spec.after_equinox year }
    ensures few { result < 35 }
{
    let moon = moon(year);
    let week = week(year, moon);
    let forward = (year % 19 + 11 * moon + 22 * week) / 451;
    moon + week - 7 * forward
}

/// Easter Sunday of a year from 1800 to 2799 in the Gregorian calendar.
pub(crate) fn easter(year: u16) -> i64
    requires { (1800 ≤ year) × (year ≤ 2799) }
    ensures day { result ≡ easter_in year }
    ensures near { IsCalendarDay result }
{
    let place = after_equinox(u32::from(year)) + 114;
    match day_of(i64::from(year), (place / 31) as u8, (place % 31) as u8 + 1) {
        Some(day) => day,
        None => unreachable!(),
    }
}
