//! The rules of a basic domain.

ghost use Rattle.std.specs.Prelude.{◌≡◌, ◌↔◌, ◌<◌, IsTrue};
ghost use Rattle.gtd_core.specs.Parts.{duration_parts, start_parts};
ghost use Rattle.gtd_mistakes.specs.Rules as spec;
ghost use Rattle.gtd_mistakes.specs.Rules.{HoldsOfBasic, IsDaysOfYear, IsEachDayOfMonth, IsEachDayOfYear, IsEachHour};
ghost use Rattle.gtd_mistakes.specs.Rules.{IsEndAsDuration, IsEndPastMidnight, IsFirst, IsFirstOfMonth, IsMinutes};
ghost use Rattle.gtd_mistakes.specs.Rules.{IsMondayAndFriday, IsNoSuchDay, IsOneWeekday, IsSundayAndMonday};
ghost use Rattle.gtd_mistakes.specs.Rules.{IsSundayToThursday, IsThirtyFirst, IsWeekdayOnDate};

use crate::rule::Rule;
use crate::shapes::{
    DAY, begin_of, ends_within_day, has_no_clock, has_no_day, has_no_other_day, has_one_time,
    is_daily, is_month_alone, lasts, lasts_clock,
};
use gtd_core::{Basic, Duration, StartParts};

/// Sunday, as the bit of a start.
const SUNDAY: u8 = 1;

/// Sunday to Thursday.
const SUNDAY_TO_THURSDAY: u8 = 31;

/// Monday and Friday.
const MONDAY_AND_FRIDAY: u8 = 34;

/// The seconds of three hours.
const THREE_HOURS: u32 = 10_800;

fn is_first_of_month(start: &StartParts, duration: &Duration) -> bool
    ensures { IsTrue result ↔ IsFirstOfMonth start.now (duration_parts duration.now) }
{
    is_month_alone(start) && lasts(duration, 0, 1, 0)
}

fn is_each_day_of_month(start: &StartParts, duration: &Duration) -> bool
    ensures { IsTrue result ↔ IsEachDayOfMonth start.now (duration_parts duration.now) }
{
    start.month.is_some()
        && start.week.is_none()
        && has_no_day(start)
        && !has_no_clock(start)
        && ends_within_day(start, duration)
}

fn is_each_day_of_year(start: &StartParts, duration: &Duration) -> bool
    ensures { IsTrue result ↔ IsEachDayOfYear start.now (duration_parts duration.now) }
{
    start.year.is_some()
        && start.month.is_none()
        && start.week.is_none()
        && has_no_day(start)
        && !has_no_clock(start)
        && ends_within_day(start, duration)
}

fn is_each_hour(start: &StartParts) -> bool
    ensures { IsTrue result ↔ IsEachHour start.now }
{
    start.minute.is_some() && start.hour.is_none()
}

fn is_sunday_to_thursday(start: &StartParts, duration: &Duration) -> bool
    ensures { IsTrue result ↔ IsSundayToThursday start.now (duration_parts duration.now) }
{
    has_no_other_day(start)
        && ((start.weekdays == SUNDAY && has_no_clock(start) && lasts(duration, 0, 5, 0))
            || (start.weekdays == SUNDAY_TO_THURSDAY && ends_within_day(start, duration)))
}

fn is_monday_and_friday(start: &StartParts, duration: &Duration) -> bool
    ensures { IsTrue result ↔ IsMondayAndFriday start.now (duration_parts duration.now) }
{
    has_no_other_day(start)
        && start.weekdays == MONDAY_AND_FRIDAY
        && ends_within_day(start, duration)
}

fn is_sunday_and_monday(start: &StartParts, duration: &Duration) -> bool
    ensures { IsTrue result ↔ IsSundayAndMonday start.now (duration_parts duration.now) }
{
    has_no_other_day(start)
        && start.weekdays == SUNDAY
        && has_no_clock(start)
        && lasts(duration, 0, 2, 0)
}

fn is_minutes(start: &StartParts, duration: &Duration) -> bool
    ensures { IsTrue result ↔ IsMinutes start.now (duration_parts duration.now) }
{
    let parts = duration.parts();
    (start.year.is_some() || start.month.is_some())
        && has_no_clock(start)
        && lasts_clock(duration)
        && parts.hours == 0
        && parts.minutes > 0
        && parts.seconds == 0
}

fn is_end_as_duration(start: &StartParts, duration: &Duration) -> bool
    ensures { IsTrue result ↔ IsEndAsDuration start.now (duration_parts duration.now) }
{
    let begin = begin_of(start);
    let named = duration.clock();
    is_daily(start)
        && has_one_time(start)
        && lasts_clock(duration)
        && 0 < begin
        && begin < named
        && named <= begin + THREE_HOURS
        && begin + named <= DAY
}

fn is_end_past_midnight(start: &StartParts, duration: &Duration) -> bool
    ensures { IsTrue result ↔ IsEndPastMidnight start.now (duration_parts duration.now) }
{
    let begin = begin_of(start);
    let named = duration.clock();
    start.hour.is_some()
        && has_one_time(start)
        && lasts_clock(duration)
        && begin < named
        && named < DAY
        && DAY < begin + named
}

// Whether these bits are one weekday.
fn is_one_weekday(weekdays: u8) -> bool
    ensures { IsTrue result ↔ IsOneWeekday weekdays }
{
    [1, 2, 4, 8, 16, 32, 64].contains(&weekdays)
}

fn is_weekday_on_date(start: &StartParts) -> bool
    ensures { IsTrue result ↔ IsWeekdayOnDate start.now }
{
    match start.day {
        Some(day) => day <= 5 && is_one_weekday(start.weekdays),
        None => false,
    }
}

// The number of days that no year like this one has.
fn wrong_length(year: u16) -> u32
    ensures { result ≡ spec.wrong_length year }
{
    if (year % 4 == 0 && year % 100 != 0) || year % 400 == 0 {
        365
    } else {
        366
    }
}

// Whether a field is not given, or the first.
fn is_first(field: Option<u8>) -> bool
    ensures { IsTrue result ↔ IsFirst field }
{
    match field {
        Some(number) => number == 1,
        None => true,
    }
}

fn is_days_of_year(start: &StartParts, duration: &Duration) -> bool
    ensures { IsTrue result ↔ IsDaysOfYear start.now (duration_parts duration.now) }
{
    let Some(year) = start.year else {
        return false;
    };
    lasts(duration, 0, wrong_length(year), 0)
        && is_first(start.month)
        && is_first(start.day)
        && start.week.is_none()
        && start.nth.is_none()
        && start.nth_back.is_none()
        && start.weekdays == 0
        && has_no_clock(start)
}

fn is_thirty_first(start: &StartParts) -> bool
    ensures { IsTrue result ↔ IsThirtyFirst start.now }
{
    start.day == Some(31) && start.month.is_none() && start.week.is_none()
}

// The most days of a month in any year.
fn most_days(month: u8) -> u8
    ensures { result ≡ spec.most_days month }
{
    if month == 2 {
        29
    } else if month == 4 || month == 6 || month == 9 || month == 11 {
        30
    } else {
        31
    }
}

fn is_no_such_day(start: &StartParts) -> bool
    ensures { IsTrue result ↔ IsNoSuchDay start.now }
{
    match start.month {
        Some(month) => match start.day {
            Some(day) => most_days(month) < day,
            None => false,
        },
        None => false,
    }
}

/// Whether a rule holds of a basic domain, which is a whole domain or only a part of one.
pub(crate) fn holds_of_basic(rule: Rule, whole: bool, basic: &Basic) -> bool
    ensures { IsTrue result
        ↔ HoldsOfBasic rule whole (start_parts basic.now.start) (duration_parts basic.now.duration) }
{
    let start = basic.start.parts();
    let duration = &basic.duration;
    match rule {
        Rule::FirstOfMonth => is_first_of_month(&start, duration),
        Rule::EachDayOfMonth => is_each_day_of_month(&start, duration),
        Rule::EachDayOfYear => is_each_day_of_year(&start, duration),
        Rule::EachHour => whole && is_each_hour(&start),
        Rule::SundayToThursday => is_sunday_to_thursday(&start, duration),
        Rule::MondayAndFriday => is_monday_and_friday(&start, duration),
        Rule::SundayAndMonday => is_sunday_and_monday(&start, duration),
        Rule::Minutes => is_minutes(&start, duration),
        Rule::EndAsDuration => whole && is_end_as_duration(&start, duration),
        Rule::EndPastMidnight => is_end_past_midnight(&start, duration),
        Rule::DaysCutNights => false,
        Rule::SeasonCutsNights => false,
        Rule::WeekdayOnDate => is_weekday_on_date(&start),
        Rule::ProductFirst => false,
        Rule::DaysOfYear => is_days_of_year(&start, duration),
        Rule::ThirtyFirst => whole && is_thirty_first(&start),
        Rule::NoSuchDay => is_no_such_day(&start),
        Rule::NeverHolds => false,
        Rule::AlwaysHolds => false,
        Rule::Past => false,
        Rule::EndsSoon => false,
        Rule::LoneCode => false,
    }
}
