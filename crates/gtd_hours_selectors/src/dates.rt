//! The days of ranges of months and dates.

ghost use Rattle.std.specs.Prelude.{◌≡◌, ◌↔◌, ◌⊎◌, ◌<◌, ◌≤◌, ◌+◌, ◌==◌, ◌&&◌, if◌then◌else◌, min, nat_lt, ℤ, IfOk, IsTrue};
ghost use Rattle.gtd_core.specs.Trees.{Single, leaf_count, tree_of};
ghost use Rattle.gtd_calendar.specs.Calendar.{month_length};
ghost use Rattle.gtd_calendar.specs.ComputedDates.{month_of, day_of_month};
ghost use Rattle.gtd_hours.specs.Cost.{IsOneStretch, common_length, is_one_stretch};
ghost use Rattle.gtd_hours.specs.Cost.{dates_cost, month_after, month_cost};
ghost use Rattle.gtd_hours.specs.Opening.{IsRound, date_key};
ghost use Rattle.gtd_hours.specs.Ranges.{IsMonth, IsMonthDay};
ghost use Rattle.gtd_hours_selectors.specs.Days.{IsMonthBetween, on_month_day};
ghost use Rattle.gtd_hours_leaves.specs.Leaves.{AreDays, HoldsAt, InMaybe, clocked, maybe_leaves, minutes_of, moved_day};
ghost use Rattle.gtd_hours_leaves.specs.Leaves.{no_duration};
ghost use Rattle.gtd_hours.specs.declared.hours.Selector.TheVariants as selector;

use gtd_core::{DurationParts, Expr, StartParts};
use gtd_hours::{Dates, MonthDay, Months};
use gtd_hours_leaves::{
    Clock, NO_DURATION, NO_PARTS, each_day, each_days, leaf, or_nothing, unite,
};
use std::alloc::{AllocError, Global};

// How many months there are from one to another, with both.
fn months_within(first: u8, last: u8) -> u8
    requires first_in { IsMonth first }
    requires last_in { IsMonth last }
    ensures value { (result + first ≡ last + 1) ⊎ ((last < first) × (result + first ≡ last + 13)) }
    ensures range { (1 ≤ result) × (result ≤ 12) }
{
    if first <= last {
        last + 1 - first
    } else {
        last + 13 - first
    }
}

// The days of the months from one to another.
fn month_run(first: u8, last: u8, clock: Clock) -> Expr
    requires first_in { IsMonth first }
    requires last_in { IsMonth last }
    ensures days { AreDays (minutes_of clock) (λ n. IsRound first last (month_of n)) result }
    ensures leaves { leaf_count (tree_of result) ≡ 1 }
{
    let months = u32::from(months_within(first, last));
    leaf(
        StartParts {
            month: Some(first),
            day: Some(1),
            ..NO_PARTS
        },
        DurationParts {
            months,
            ..NO_DURATION
        },
        clock,
    )
}

/// The days of a range of months.
pub fn month_days(months: Months, clock: Clock) -> Expr
    ensures days { AreDays (minutes_of clock) (HoldsAt (selector.Months months)) result }
    ensures leaves { leaf_count (tree_of result) ≡ 1 }
{
    month_run(months.first, months.last, clock)
}

/// The month after another.
pub fn month_after(month: u8) -> u8
    requires { IsMonth month }
    ensures value { result ≡ month_after month }
    ensures month { IsMonth result }
{
    if month == 12 { 1 } else { month + 1 }
}

fn month_before(month: u8) -> u8
    requires { IsMonth month }
    ensures value { (result + 1 ≡ month) ⊎ ((month ≡ 1) × (result ≡ 12)) }
    ensures month { IsMonth result }
{
    if month == 1 { 12 } else { month - 1 }
}

// What there is so far, and the days of the months between one and another.
fn and_between(
    alloc: Global,
    so_far: Option<Expr>,
    first: u8,
    last: u8,
    clock: Clock,
) -> Result<Option<Expr>, AllocError>
    requires first_in { IsMonth first }
    requires last_in { IsMonth last }
    ensures days { IfOk result (λ more. (s : ℤ) → InMaybe more s ↔ (InMaybe so_far s
        ⊎ IsMonthBetween first last (month_of (moved_day (minutes_of clock) s)))) }
    ensures leaves { IfOk result (λ more. maybe_leaves more
        ≡ maybe_leaves so_far + (if month_after first == last then 0 else 1)) }
{
    let next = month_after(first);
    if next == last {
        return Ok(so_far);
    }
    let days = month_run(next, month_before(last), clock);
    let expr = unite(alloc, so_far, days)?;
    Ok(Some(expr))
}

// How many days each month of that number has at least.
fn shortest(month: u8) -> u8
    ensures value { result ≡ common_length month }
    ensures all { (y : ℤ) → result ≤ month_length y month }
    ensures full { (y : ℤ) → month_length y month ≡ result ⊎ ((month ≡ 2) × (month_length y month ≤ 29)) }
    ensures range { (28 ≤ result) × (result ≤ 31) }
    ensures short { month ≡ 2 → result ≡ 28 }
{
    match month {
        2 => 28,
        4 | 6 | 9 | 11 => 30,
        _ => 31,
    }
}

fn lesser(a: u8, b: u8) -> u8
    ensures { result ≡ min a b }
{
    if a < b { a } else { b }
}

// So many days from one on, which each month of that number has.
fn stretch(month: u8, day: u8, days: u32, clock: Clock) -> Expr
    requires few { days ≤ 31 }
    requires date { IsMonthDay month day }
    requires fits { (y : ℤ) → day + days ≤ month_length y month + 1 }
    ensures days { AreDays (minutes_of clock) (λ n. (month_of n ≡ month) × (day ≤ day_of_month n)
        × (day_of_month n < day + days)) result }
    ensures leaves { leaf_count (tree_of result) ≡ 1 }
{
    each_days(
        StartParts {
            month: Some(month),
            day: Some(day),
            ..NO_PARTS
        },
        days,
        clock,
    )
}

fn leap_day(clock: Clock) -> Expr
    ensures days { AreDays (minutes_of clock) (λ n. (month_of n ≡ 2) × (day_of_month n ≡ 29)) result }
    ensures leaves { leaf_count (tree_of result) ≡ 1 }
{
    each_day(
        StartParts {
            month: Some(2),
            day: Some(29),
            ..NO_PARTS
        },
        clock,
    )
}

// What there is so far, and the days from one to another of a month, apart from 29 February.
fn and_common(
    alloc: Global,
    so_far: Option<Expr>,
    month: u8,
    low: u8,
    high: u8,
    clock: Clock,
) -> Result<Option<Expr>, AllocError>
    requires date { IsMonthDay month low }
    requires order { low ≤ high }
    ensures days { IfOk result (λ more. (s : ℤ) → InMaybe more s ↔ (InMaybe so_far s
        ⊎ (let n = moved_day (minutes_of clock) s in (month_of n ≡ month) × (low ≤ day_of_month n)
        × (day_of_month n ≤ high) × ((month_of n ≡ 2) × (day_of_month n ≡ 29) → ⊥)))) }
    ensures leaves { IfOk result (λ more. maybe_leaves more
        ≡ maybe_leaves so_far + (if (month == 2) && nat_lt 28 low then 0 else 1)) }
{
    let short = shortest(month);
    let top = lesser(high, short);
    if top < low {
        return Ok(so_far);
    }
    let count = u32::from(top + 1 - low);
    let days = stretch(month, low, count, clock);
    let expr = unite(alloc, so_far, days)?;
    Ok(Some(expr))
}

// What there is so far, and the days from one to another of a month.
fn and_days_of_month(
    alloc: Global,
    so_far: Option<Expr>,
    month: u8,
    low: u8,
    high: u8,
    clock: Clock,
) -> Result<Option<Expr>, AllocError>
    requires date { IsMonthDay month low }
    requires order { low ≤ high }
    ensures days { IfOk result (λ more. (s : ℤ) → InMaybe more s ↔ (InMaybe so_far s
        ⊎ (let n = moved_day (minutes_of clock) s in (month_of n ≡ month) × (low ≤ day_of_month n)
        × (day_of_month n ≤ high)))) }
    ensures leaves { IfOk result (λ more. maybe_leaves more ≡ maybe_leaves so_far + month_cost month low high) }
{
    let more = and_common(alloc, so_far, month, low, high, clock)?;
    if month != 2 || high < 29 {
        return Ok(more);
    }
    let expr = unite(alloc, more, leap_day(clock))?;
    Ok(Some(expr))
}

fn key(date: MonthDay) -> u16
    ensures value { result ≡ date_key date.month date.day }
    ensures day { (1 ≤ date.day) × (date.day ≤ 31) }
    ensures month { IsMonth date.month }
{
    32 * u16::from(date.month) + u16::from(date.day)
}

// How many months later the last month is.
fn months_later(first: MonthDay, last: MonthDay) -> u8
    ensures value { ((first.month + result ≡ last.month)
        × (date_key first.month first.day ≤ date_key last.month last.day))
        ⊎ ((first.month + result ≡ last.month + 12)
        × (date_key last.month last.day < date_key first.month first.day)) }
    ensures few { result ≤ 12 }
    ensures some { last.day < first.day → 1 ≤ result }
{
    if key(first) <= key(last) {
        last.month - first.month
    } else {
        last.month + 12 - first.month
    }
}

/// Whether one stretch of months and days reaches from the first date to the last.
pub fn is_one_stretch(dates: Dates) -> bool
    ensures value { result ≡ is_one_stretch dates.first dates.last }
    ensures holds { IsTrue result ↔ IsOneStretch dates.first dates.last }
{
    let first = dates.first;
    let last = dates.last;
    first.day <= 28
        && last.day <= shortest(last.month)
        && (first.day <= last.day + 1 || last.month != 3)
}

// From a date of each year on, for some months and days.
fn dates_from(first: MonthDay, months: u8, days: u8, clock: Clock) -> Expr
    requires { months ≤ 12 }
    ensures { tree_of result ≡ Single (clocked (on_month_day first.month first.day) clock)
        (record no_duration { months = months; days = days }) }
{
    leaf(
        StartParts {
            month: Some(first.month),
            day: Some(first.day),
            ..NO_PARTS
        },
        DurationParts {
            months: u32::from(months),
            days: u32::from(days),
            ..NO_DURATION
        },
        clock,
    )
}

// The days of a range that one stretch reaches: by months to the last month, or to the one before it, and then by days.
fn date_run(dates: Dates, clock: Clock) -> Expr
    requires { IsOneStretch dates.first dates.last }
    ensures days { AreDays (minutes_of clock) (HoldsAt (selector.Dates dates)) result }
    ensures leaves { leaf_count (tree_of result) ≡ 1 }
{
    let first = dates.first;
    let last = dates.last;
    let months = months_later(first, last);
    if first.day <= last.day + 1 {
        return dates_from(first, months, last.day + 1 - first.day, clock);
    }
    let before = shortest(month_before(last.month));
    dates_from(first, months - 1, before + last.day + 1 - first.day, clock)
}

/// The days of a range of dates: one stretch; or those of one month; or the rest of the first month, the months between, and
/// the beginning of the last month.
pub fn date_days(alloc: Global, dates: Dates, clock: Clock) -> Result<Expr, AllocError>
    ensures days { IfOk result (AreDays (minutes_of clock) (HoldsAt (selector.Dates dates))) }
    ensures leaves { IfOk result (λ e. leaf_count (tree_of e) ≡ dates_cost dates.first dates.last) }
{
    if is_one_stretch(dates) {
        return Ok(date_run(dates, clock));
    }
    let first = dates.first;
    let last = dates.last;
    if first.month == last.month && first.day <= last.day {
        let days = and_days_of_month(alloc, None, first.month, first.day, last.day, clock)?;
        return Ok(or_nothing(days));
    }
    let rest = and_days_of_month(alloc, None, first.month, first.day, 31, clock)?;
    let months = and_between(alloc, rest, first.month, last.month, clock)?;
    let days = and_days_of_month(alloc, months, last.month, 1, last.day, clock)?;
    Ok(or_nothing(days))
}
