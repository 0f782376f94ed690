//! The days that selectors match, as expressions.

ghost use Rattle.std.specs.Prelude.{◌≡◌, ◌↔◌, ◌⊎◌, ◌+◌, ◌-◌, max, ◌/◌, ◌%◌, ◌^◌, ◌<◌, ◌≤◌, ℕ, ℤ, IfOk, IsTrue};
ghost use Rattle.std.specs.Prelude.{◌∷◌, false, None};
ghost use Rattle.gtd_core.specs.Trees.{leaf_count, tree_of};
ghost use Rattle.gtd_eval.specs.Membership.{InTree};
ghost use Rattle.gtd_hours.specs.Cost.{days_cost, kinds_cost, selector_cost, selectors_cost};
ghost use Rattle.gtd_hours.specs.Opening.{IsRound, Matches};
ghost use Rattle.gtd_hours_selectors.specs.Days.{EachHoldsAt, HasDays, SomeHoldsAt, begins_yearly, is_yearly};
ghost use Rattle.gtd_hours_leaves.specs.Leaves.{AreDays, HoldsAt, InMaybe, maybe_leaves, minutes_of, moved_day};
ghost use Rattle.gtd_hours.specs.declared.hours.Selector.TheVariants as selector;

use crate::dated::dated_days;
use crate::dates::{date_days, month_days};
use crate::moving::{moved_days, moving_days};
use crate::yearly::{SoFar, with_yearly};
use gtd_core::{Expr, Op, StartParts};
use gtd_hours::{Kind, Selector, WeekdayPlace, Weekdays, Years};
use gtd_hours_leaves::{
    Clock, NO_PARTS, each_day, join, or_nothing, unite, unite_years, week_days, year_days,
};
use std::alloc::{AllocError, Global};

fn has_weekday(days: Weekdays, weekday: u8) -> bool
    ensures { IsTrue result ↔ IsRound days.first days.last weekday }
{
    if days.first <= days.last {
        days.first <= weekday && weekday <= days.last
    } else {
        days.first <= weekday || weekday <= days.last
    }
}

fn weekday_bit(days: Weekdays, weekday: u8) -> u8
    ensures bit { result ≤ 1 }
    ensures has { (result ≡ 1) ↔ IsRound days.first days.last weekday }
{
    if has_weekday(days, weekday) { 1 } else { 0 }
}

// The weekdays of a range, one bit each, from Sunday on.
fn weekday_bits(days: Weekdays) -> u8
    ensures some { 0 < result }
    ensures small { result < 128 }
    ensures bits { (k : ℕ) → 1 ≤ k → k ≤ 7
        → (result / 2 ^ (k - 1) % 2 ≡ 1) ↔ IsRound days.first days.last k }
{
    let sun = weekday_bit(days, 1);
    let mon = weekday_bit(days, 2);
    let tue = weekday_bit(days, 3);
    let wed = weekday_bit(days, 4);
    let thu = weekday_bit(days, 5);
    let fri = weekday_bit(days, 6);
    let sat = weekday_bit(days, 7);
    sun + 2 * mon + 4 * tue + 8 * wed + 16 * thu + 32 * fri + 64 * sat
}

fn all_days(clock: Clock) -> Expr
    ensures days { AreDays (minutes_of clock) (λ n. Unit {0}) result }
    ensures leaves { leaf_count (tree_of result) ≡ 1 }
{
    each_day(NO_PARTS, clock)
}

fn weekday_days(days: Weekdays, clock: Clock) -> Expr
    ensures days { AreDays (minutes_of clock) (HoldsAt (selector.Weekdays days)) result }
    ensures leaves { leaf_count (tree_of result) ≡ 1 }
{
    each_day(
        StartParts {
            weekdays: weekday_bits(days),
            ..NO_PARTS
        },
        clock,
    )
}

fn nth_days(place: WeekdayPlace, clock: Clock) -> Expr
    ensures days { AreDays (minutes_of clock) (HoldsAt (selector.Nth place)) result }
    ensures leaves { leaf_count (tree_of result) ≡ 1 }
{
    each_day(
        StartParts {
            nth: Some((place.number, place.weekday)),
            ..NO_PARTS
        },
        clock,
    )
}

fn nth_back_days(place: WeekdayPlace, clock: Clock) -> Expr
    ensures days { AreDays (minutes_of clock) (HoldsAt (selector.NthBack place)) result }
    ensures leaves { leaf_count (tree_of result) ≡ 1 }
{
    each_day(
        StartParts {
            nth_back: Some((place.number, place.weekday)),
            ..NO_PARTS
        },
        clock,
    )
}

fn selector_days(alloc: Global, selector: Selector, clock: Clock) -> Result<Expr, AllocError>
    requires { is_yearly selector ≡ false }
    ensures days { IfOk result (AreDays (minutes_of clock) (HoldsAt selector)) }
    ensures leaves { IfOk result (λ e. leaf_count (tree_of e) ≡ selector_cost selector) }
{
    match selector {
        Selector::Years(years) => year_days(alloc, years, clock),
        Selector::Months(months) => Ok(month_days(months, clock)),
        Selector::Dates(dates) => date_days(alloc, dates, clock),
        Selector::Dated(dates) => Ok(dated_days(dates, clock)),
        Selector::Weeks(weeks) => week_days(alloc, weeks, clock),
        Selector::Weekdays(days) => Ok(weekday_days(days, clock)),
        Selector::Nth(place) => Ok(nth_days(place, clock)),
        Selector::NthBack(place) => Ok(nth_back_days(place, clock)),
        Selector::Moved(place) => moved_days(alloc, place, clock),
        Selector::Moving(range) => moving_days(alloc, range, clock),
        Selector::Yearly(_) => unreachable!(),
    }
}

// What there is so far, with the days of a selector that come not each year.
fn with_other(
    alloc: Global,
    so_far: SoFar,
    selector: Selector,
    clock: Clock,
) -> Result<SoFar, AllocError>
    requires other { is_yearly selector ≡ false }
    requires none { so_far.each ≡ None }
    ensures days { IfOk result (λ then. (s : ℤ) → InMaybe then.union s
        ↔ (InMaybe so_far.union s ⊎ HoldsAt selector (moved_day (minutes_of clock) s))) }
    ensures leaves { IfOk result (λ then. maybe_leaves then.union ≡ maybe_leaves so_far.union + selector_cost selector) }
    ensures none { IfOk result (λ then. then.each ≡ None) }
{
    let days = selector_days(alloc, selector, clock)?;
    let union = unite(alloc, so_far.union, days)?;
    Ok(SoFar {
        union: Some(union),
        each: None,
    })
}

// What there is so far, with years, which lie in one sum with it.
fn with_years(alloc: Global, so_far: SoFar, years: Years, clock: Clock) -> Result<SoFar, AllocError>
    requires none { so_far.each ≡ None }
    ensures days { IfOk result (λ then. (s : ℤ) → InMaybe then.union s
        ↔ (InMaybe so_far.union s ⊎ HoldsAt (selector.Years years) (moved_day (minutes_of clock) s))) }
    ensures leaves { IfOk result
        (λ then. maybe_leaves then.union ≡ maybe_leaves so_far.union + selector_cost (selector.Years years)) }
    ensures none { IfOk result (λ then. then.each ≡ None) }
{
    let union = unite_years(alloc, so_far.union, years, clock)?;
    Ok(SoFar {
        union: Some(union),
        each: None,
    })
}

// What there is so far, with the days of a selector, before these.
fn with_selector(
    alloc: Global,
    so_far: SoFar,
    selector: Selector,
    more: &[Selector],
    clock: Clock,
) -> Result<SoFar, AllocError>
    requires next { is_yearly selector ≡ false → so_far.each ≡ None }
    ensures days { IfOk result (λ then. (s : ℤ)
        → HasDays then.union then.each more.now (minutes_of clock) s
        ↔ HasDays so_far.union so_far.each (selector ∷ more.now) (minutes_of clock) s) }
    ensures leaves { IfOk result (λ then. maybe_leaves then.union + maybe_leaves then.each + selectors_cost more.now
        ≡ maybe_leaves so_far.union + maybe_leaves so_far.each + selectors_cost (selector ∷ more.now)) }
    ensures next { IfOk result (λ then. begins_yearly more.now ≡ false → then.each ≡ None) }
{
    match selector {
        Selector::Yearly(days) => with_yearly(alloc, so_far, days, more, clock),
        Selector::Years(years) => with_years(alloc, so_far, years, clock),
        _ => with_other(alloc, so_far, selector, clock),
    }
}

fn some_days(alloc: Global, selectors: &[Selector], clock: Clock) -> Result<Expr, AllocError>
    ensures days { IfOk result (AreDays (minutes_of clock) (SomeHoldsAt selectors.now)) }
    ensures leaves { IfOk result (λ e. leaf_count (tree_of e) ≡ max 1 (selectors_cost selectors.now)) }
{
    let mut so_far = SoFar {
        union: None,
        each: None,
    };
    let mut rest = selectors;
    while let Some((selector, more)) = rest.split_first() {
        so_far = with_selector(alloc, so_far, *selector, more, clock)?;
        rest = more;
    }
    Ok(or_nothing(so_far.union))
}

// The days of an expression on which kinds of selectors hold.
fn and_days(alloc: Global, first: Expr, kinds: &[Kind], clock: Clock) -> Result<Expr, AllocError>
    ensures days { IfOk result (λ e. (s : ℤ) → InTree (tree_of e) s
        ↔ (InTree (tree_of first) s × EachHoldsAt kinds.now (moved_day (minutes_of clock) s))) }
    ensures leaves { IfOk result
        (λ e. leaf_count (tree_of e) ≡ leaf_count (tree_of first) + kinds_cost kinds.now) }
{
    let mut meet = first;
    let mut rest = kinds;
    while let Some((kind, more)) = rest.split_first() {
        let days = some_days(alloc, kind.selectors.as_slice(), clock)?;
        meet = join(alloc, Op::Meet, meet, days)?;
        rest = more;
    }
    Ok(meet)
}

// The days on which of each kind a selector holds.
fn kind_days(alloc: Global, kinds: &[Kind], clock: Clock) -> Result<Expr, AllocError>
    ensures days { IfOk result (AreDays (minutes_of clock) (EachHoldsAt kinds.now)) }
    ensures leaves { IfOk result (λ e. leaf_count (tree_of e) ≡ days_cost kinds.now) }
{
    match kinds.split_first() {
        None => Ok(all_days(clock)),
        Some((first, rest)) => {
            let days = some_days(alloc, first.selectors.as_slice(), clock)?;
            and_days(alloc, days, rest, clock)
        }
    }
}

/// The days that match.
pub fn matching_days(alloc: Global, kinds: &[Kind], clock: Clock) -> Result<Expr, AllocError>
    ensures days { IfOk result (AreDays (minutes_of clock) (Matches kinds.now)) }
    ensures leaves { IfOk result (λ e. leaf_count (tree_of e) ≡ days_cost kinds.now) }
{
    kind_days(alloc, kinds, clock)
}
