//! Dates and moments.

ghost use Rattle.std.specs.Prelude.{◌≡◌, ◌<◌, ◌↔◌, ◌⊎◌, ◌+◌, ◌*◌, IfSome, IsSome};
ghost use Rattle.gtd_calendar.specs.Calendar.{day_number};
ghost use Rattle.gtd_calendar.specs.Clock.{IsClock, IsTimeOf};
ghost use Rattle.gtd_handles.specs.Answers.{IsRange, gtd_range, gtd_yes};
ghost use Rattle.gtd_c.specs.Dates.{IsDay, IsDayOf};

use gtd_calendar::day_of;
use gtd_core::limits::{DAY_SECONDS, FIRST_HORIZON_DAY, HORIZONS_END};
use gtd_handles::{RANGE, YES};

// The day of a date from 1901 to 2699.
fn day_in(year: i64, month: u32, day: u32) -> Option<i64>
    ensures exists { IsSome result ↔ IsDayOf year month day }
    ensures value { IfSome result (λ n. (n ≡ day_number year month day) × IsDay n) }
{
    if month > 12 || day > 31 {
        return None;
    }
    let number = day_of(year, month as u8, day as u8)?;
    if number < FIRST_HORIZON_DAY || number >= HORIZONS_END {
        return None;
    }
    Some(number)
}

// The second of a day at a clock time.
fn second_in(hour: u32, minute: u32, second: u32) -> Option<u32>
    ensures exists { IsSome result ↔ IsClock hour minute second }
    ensures value { IfSome result (λ clock. (clock ≡ 3600 * hour + 60 * minute + second) × (clock < 86400)) }
{
    if hour > 23 || minute > 59 || second > 59 {
        return None;
    }
    Some(3600 * hour + 60 * minute + second)
}

/// The second of a date and a clock time: yes, and the second. There must be such a date, from 1901 to 2699, and such a time.
#[unsafe(no_mangle)]
pub extern "C" fn gtd_second(
    year: i64,
    month: u32,
    day: u32,
    hour: u32,
    minute: u32,
    second: u32,
    out: &mut i64,
) -> u32
    ensures second { (result ≡ gtd_yes) → IsTimeOf out.new (day_number year month day) hour minute second }
    ensures range { IsRange (IsDayOf year month day × IsClock hour minute second) result }
    ensures untouched { (result ≡ gtd_range) → out.new ≡ out.old }
    ensures answers { (result ≡ gtd_yes) ⊎ (result ≡ gtd_range) }
{
    let Some(date) = day_in(year, month, day) else {
        return RANGE;
    };
    let Some(clock) = second_in(hour, minute, second) else {
        return RANGE;
    };
    *out = DAY_SECONDS * date + i64::from(clock);
    YES
}
