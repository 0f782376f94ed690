//! The days that a given year or month does not exclude. The others are skipped.

ghost use Rattle.std.specs.Prelude.{◌≡◌, ◌≤ℤ◌, ◌<ℤ◌, ◌≤◌, ℤ, pos, IsTrue, IfSome};
ghost use Rattle.std.specs.Int.{IsInRange};
ghost use Rattle.std.specs.Option.{unwrap_or};
ghost use Rattle.gtd_core.specs.Limits.{horizons_end, first_window_day};
ghost use Rattle.gtd_core.specs.Ranges.{IsStart};
ghost use Rattle.gtd_calendar.specs.Calendar.{IsCalendarDay, IsCalendarYear, day_number};
ghost use Rattle.gtd_calendar.specs.ComputedDates.{guessed_year, year_of};
ghost use Rattle.gtd_recur.specs.Begins.{month_and_year_fit};
ghost use Rattle.gtd_recur.specs.Jumps.{IsNextRun, IsLastRun, AreMonths, IsClipped, IsClippedBack, IsOf, IsOfMonth};
ghost use Rattle.gtd_recur.specs.Stretches.{IsLater, IsEarlier};

use gtd_calendar::day_of;
use gtd_core::StartParts;

/// The days from one up to but not including another.
#[derive(Clone, Copy, Debug)]
pub(crate) struct Days {
    pub(crate) from: i64,
    pub(crate) until: i64,
}

/// The next run of days, from a day on and before an end, that the month and the year of a start do not exclude. If
/// there is none, it is empty and at the end.
///
/// It is kept apart, so that the days within such a run do not pay for it.
#[inline(never)]
pub(crate) fn next_days(start: &StartParts, day: i64, end: i64) -> Days
    requires valid { IsStart start.now }
    requires day_in { first_window_day ≤ℤ day }
    requires order { day ≤ℤ end }
    requires end_in { end ≤ℤ horizons_end }
    ensures run { IsNextRun (λ n. IsTrue (month_and_year_fit start.now n)) day end result.from result.until }
{
    if start.week.is_none() {
        if let Some(year) = start.year {
            return days_of_year(i64::from(year), start.month, day, end);
        }
    }
    match start.month {
        Some(month) => days_of_month(month, day, end),
        None => Days {
            from: day,
            until: end,
        },
    }
}

// The next run of days of one year, or of one of its months.
fn days_of_year(year: i64, month: Option<u8>, day: i64, end: i64) -> Days
    requires month_in { IfSome month (IsInRange 1 12) }
    requires day_in { first_window_day ≤ℤ day }
    requires order { day ≤ℤ end }
    requires end_in { end ≤ℤ horizons_end }
    ensures run { IsNextRun (IsOf year month) day end result.from result.until }
{
    if year < 1800 || year > 2699 {
        return Days {
            from: end,
            until: end,
        };
    }
    let months = months(year, month.unwrap_or(1), month.unwrap_or(12));
    if day < months.until {
        clip(months, day, end)
    } else {
        Days {
            from: end,
            until: end,
        }
    }
}

// The next run of days of a month, whatever the year.
fn days_of_month(month: u8, day: i64, end: i64) -> Days
    requires month_in { IsInRange 1 12 month }
    requires day_in { first_window_day ≤ℤ day }
    requires order { day ≤ℤ end }
    requires end_in { end ≤ℤ horizons_end }
    ensures run { IsNextRun (IsOfMonth month) day end result.from result.until }
{
    let year = year_of_day(day);
    let this_year = months(year, month, month);
    if day < this_year.until {
        clip(this_year, day, end)
    } else {
        clip(months(year + 1, month, month), day, end)
    }
}

/// The last run of days, before an end and not before a day, that the month and the year of a start do not exclude. If
/// there is none, it is empty and at that day.
pub(crate) fn last_days(start: &StartParts, low: i64, end: i64) -> Days
    requires valid { IsStart start.now }
    requires low_in { first_window_day ≤ℤ low }
    requires order { low ≤ℤ end }
    requires end_in { end ≤ℤ horizons_end }
    ensures run { IsLastRun (λ n. IsTrue (month_and_year_fit start.now n)) low end result.from result.until }
{
    if start.week.is_none() {
        if let Some(year) = start.year {
            return last_of_year(i64::from(year), start.month, low, end);
        }
    }
    match start.month {
        Some(month) => last_of_month(month, low, end),
        None => Days {
            from: low,
            until: end,
        },
    }
}

// The last run of days of one year, or of one of its months.
fn last_of_year(year: i64, month: Option<u8>, low: i64, end: i64) -> Days
    requires month_in { IfSome month (IsInRange 1 12) }
    requires low_in { first_window_day ≤ℤ low }
    requires order { low ≤ℤ end }
    requires end_in { end ≤ℤ horizons_end }
    ensures run { IsLastRun (IsOf year month) low end result.from result.until }
{
    if year < 1800 || year > 2699 {
        return Days {
            from: low,
            until: low,
        };
    }
    let months = months(year, month.unwrap_or(1), month.unwrap_or(12));
    if months.from < end {
        clip_back(months, low, end)
    } else {
        Days {
            from: low,
            until: low,
        }
    }
}

// The last run of days of a month, whatever the year.
fn last_of_month(month: u8, low: i64, end: i64) -> Days
    requires month_in { IsInRange 1 12 month }
    requires low_in { first_window_day ≤ℤ low }
    requires order { low ≤ℤ end }
    requires end_in { end ≤ℤ horizons_end }
    ensures run { IsLastRun (IsOfMonth month) low end result.from result.until }
{
    let none = Days {
        from: low,
        until: low,
    };
    if low >= end {
        return none;
    }
    let year = year_of_day(end - 1);
    let this_year = months(year, month, month);
    if this_year.from < end {
        return clip_back(this_year, low, end);
    }
    if year < 1801 {
        return none;
    }
    clip_back(months(year - 1, month, month), low, end)
}

// The days of some consecutive months of a year.
fn months(year: i64, low: u8, high: u8) -> Days
    requires year_in { (pos 1800 ≤ℤ year) × (year ≤ℤ pos 2798) }
    requires low_in { IsInRange 1 12 low }
    requires high_in { IsInRange low 12 high }
    ensures months { AreMonths year low high result.from result.until }
{
    let from = first_of(year, low);
    if high < 12 {
        Days {
            from,
            until: first_of(year, high + 1),
        }
    } else {
        Days {
            from,
            until: first_of(year + 1, 1),
        }
    }
}

// The first day of a month.
fn first_of(year: i64, month: u8) -> i64
    requires year_in { IsCalendarYear year }
    requires month_in { IsInRange 1 12 month }
    ensures value { result ≡ day_number year month 1 }
{
    day_of(year, month, 1).unwrap()
}

// The year of a day.
fn year_of_day(day: i64) -> i64
    requires low { first_window_day ≤ℤ day }
    requires high { day ≤ℤ horizons_end }
    ensures value { result ≡ year_of day }
    ensures bound { (pos 1800 ≤ℤ result) × (result ≤ℤ pos 2701) }
{
    let guess = guessed_year(day);
    if day < first_of(guess, 1) {
        return guess - 1;
    }
    if day < first_of(guess + 1, 1) {
        return guess;
    }
    guess + 1
}

// The year of a day by the mean length of a year. It is wrong by at most one.
fn guessed_year(day: i64) -> i64
    requires low { first_window_day ≤ℤ day }
    requires high { day ≤ℤ horizons_end }
    ensures value { result ≡ guessed_year day }
    ensures bound { (pos 1800 ≤ℤ result) × (result ≤ℤ pos 2700) }
{
    1970 + (400 * day).div_euclid(146_097)
}

// The days that are not before a given one and before an end.
fn clip(days: Days, day: i64, end: i64) -> Days
    requires some { days.from <ℤ days.until }
    requires open { day <ℤ days.until }
    requires order { day ≤ℤ end }
    ensures clipped { IsClipped days.from days.until day end result.from result.until }
{
    let from = later(days.from, day);
    if from >= end {
        return Days {
            from: end,
            until: end,
        };
    }
    Days {
        from,
        until: earlier(days.until, end),
    }
}

// The days that are before an end and not before a given one.
fn clip_back(days: Days, low: i64, end: i64) -> Days
    requires some { days.from <ℤ days.until }
    requires open { days.from <ℤ end }
    requires order { low ≤ℤ end }
    ensures clipped { IsClippedBack days.from days.until low end result.from result.until }
{
    let until = earlier(days.until, end);
    if until <= low {
        return Days {
            from: low,
            until: low,
        };
    }
    Days {
        from: later(days.from, low),
        until,
    }
}

/// The later of two days.
pub(crate) fn later(a: i64, b: i64) -> i64
    ensures { IsLater a b result }
{
    if a < b { b } else { a }
}

/// The earlier of two days.
pub(crate) fn earlier(a: i64, b: i64) -> i64
    ensures { IsEarlier a b result }
{
    if a < b { a } else { b }
}
