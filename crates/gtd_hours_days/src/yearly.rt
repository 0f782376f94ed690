//! Which runs of days come each year.

ghost use Rattle.std.specs.Prelude.{◌≡◌, ◌↔◌, ◌⊎◌, ◌<◌, ◌≤◌, ◌+◌, ◌-◌, ◌+ℤ◌, ◌-ℤ◌, ◌≤ℤ◌, ◌<ℤ◌, ℕ, ℤ, pos, IsTrue, MatchOption};
ghost use Rattle.gtd_calendar.specs.Calendar.{IsCalendarDay, IsDateOf, first_day};
ghost use Rattle.gtd_hours_holidays.specs.Days.{AreAll, IsIn};
ghost use Rattle.gtd_hours_holidays.specs.KnownYears.{IsOfYears};
ghost use Rattle.gtd_hours_days.specs.Groups.{HasGroup, IsEachYear, IsYearly};
ghost use Rattle.gtd_hours_days.specs.declared.group.Group.{Group};

use crate::group::Group;
use gtd_calendar::{day_of, fields};
use gtd_hours_holidays::{Days, KnownYears, Run};

// Whether a run has more than 366 days.
fn is_long(run: Run) -> bool
    ensures { IsTrue result ↔ ((run.first +ℤ pos 366) ≤ℤ run.last) }
{
    run.last - run.first >= 366
}

// How many days a run has.
fn count(run: Run) -> u16
    requires { run.last <ℤ (run.first +ℤ pos 366) }
    ensures value { run.last +ℤ pos 1 ≡ run.first +ℤ pos result }
    ensures some { 1 ≤ result }
    ensures few { result ≤ 366 }
{
    (run.last - run.first) as u16 + 1
}

// Whether a date is 29 February.
fn is_leap_day(month: u8, day: u8) -> bool
    ensures { IsTrue result ↔ ((month ≡ 2) × (day ≡ 29)) }
{
    month == 2 && day == 29
}

// The days of a run, as a group, or `None` if not each year has its first day, or it is too long.
fn group_from(run: Run) -> Option<Group>
    ensures { MatchOption result ((group : Group) → HasGroup run group → ⊥) (HasGroup run) }
{
    if is_long(run) {
        return None;
    }
    let date = fields(run.first);
    if is_leap_day(date.month, date.day) {
        return None;
    }
    Some(Group {
        month: date.month,
        day: date.day,
        days: count(run),
    })
}

// The first day of a group in a year.
fn start_in(group: Group, year: u16) -> i64
    requires { (1801 ≤ year) × (year ≤ 2797) }
    ensures date { IsDateOf result (pos year) group.month group.day }
    ensures near { IsCalendarDay result }
{
    match day_of(i64::from(year), group.month, group.day) {
        Some(day) => day,
        None => unreachable!(),
    }
}

/// The later of two days.
pub(crate) fn later(a: i64, b: i64) -> i64
    ensures { (a ≤ℤ result) × (b ≤ℤ result) × ((result ≡ a) ⊎ (result ≡ b)) }
{
    if a < b { b } else { a }
}

/// The earlier of two days.
pub(crate) fn earlier(a: i64, b: i64) -> i64
    ensures { (result ≤ℤ a) × (result ≤ℤ b) × ((result ≡ a) ⊎ (result ≡ b)) }
{
    if a < b { a } else { b }
}

// The last of so many days from one on.
fn last_from(start: i64, days: u16) -> i64
    requires start_in { IsCalendarDay start }
    requires some { 1 ≤ days }
    ensures { result ≡ start +ℤ pos (days - 1) }
{
    start + i64::from(days - 1)
}

// Whether all days from one to another are in a set.
fn has_all(days: &Days, from: i64, to: i64) -> bool
    requires from_in { IsCalendarDay from }
    requires to_in { IsCalendarDay to }
    ensures { IsTrue result ↔ AreAll (IsIn days.now) from to }
{
    match days.first_missing(from, to) {
        Some(_) => false,
        None => true,
    }
}

// Whether all days of a group that begins in a year are in a set, of those that lie in the years.
fn is_in_year(days: &Days, years: KnownYears, group: Group, year: u16) -> bool
    requires { (1801 ≤ year) × (year ≤ 2797) }
    ensures { IsTrue result ↔ ((n : ℤ) (k : ℕ) → IsOfYears years.first years.last n → k < group.days
        → IsDateOf (n -ℤ pos k) (pos year) group.month group.day → IsIn days.now n) }
{
    let start = start_in(group, year);
    let from = later(start, years.first_day());
    let to = earlier(last_from(start, group.days), years.last_day());
    has_all(days, from, to)
}

// Whether all days of a group that lie in the years are in a set.
fn is_each_year(days: &Days, years: KnownYears, group: Group) -> bool
    ensures { IsTrue result ↔ IsEachYear days.now years group }
{
    for year in years.first - 1..years.last + 1 {
        if !is_in_year(days, years, group, year) {
            return false;
        }
    }
    true
}

// Whether a run lies between two days, or on them.
fn is_between(run: Run, first: i64, last: i64) -> bool
    ensures { IsTrue result ↔ ((first ≤ℤ run.first) × (run.last ≤ℤ last)) }
{
    first <= run.first && run.last <= last
}

// Whether a run lies within the years.
fn is_within(years: KnownYears, run: Run) -> bool
    ensures { IsTrue result ↔ ((first_day (pos years.first) ≤ℤ run.first) × (run.last <ℤ first_day (pos (years.last + 1)))) }
{
    is_between(run, years.first_day(), years.last_day())
}

/// The group as which a run of a set may be written, if there is one.
pub(crate) fn yearly_group(days: &Days, years: KnownYears, run: Run) -> Option<Group>
    ensures { MatchOption result ((group : Group) → IsYearly days.now years run group → ⊥) (IsYearly days.now years run) }
{
    if !is_within(years, run) {
        return None;
    }
    let Some(group) = group_from(run) else {
        return None;
    };
    if !is_each_year(days, years, group) {
        return None;
    }
    Some(group)
}
