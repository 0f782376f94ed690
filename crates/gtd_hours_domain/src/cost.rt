//! How many basic domains the translation has, counted before memory is taken.

ghost use Rattle.std.specs.Prelude.{◌≡◌, ◌+◌, ◌≤◌, ◌==◌, if◌then◌else◌, max};
ghost use Rattle.gtd_hours.specs.Cost.{closed_cost_by, cost_after, counted, dates_cost, days_cost, early_cost, ends_late};
ghost use Rattle.gtd_hours.specs.Cost.{falls_back, hours_cost, kinds_cost, open_cost_by, unsaid_cost};
ghost use Rattle.gtd_hours_domain.specs.Translation.{up_to_fallback};
ghost use Rattle.gtd_hours.specs.Cost.{late_cost, met_cost, month_cost, moved_cost, moving_cost, rule_cost, selector_cost};
ghost use Rattle.gtd_hours.specs.Cost.{selectors_cost};
ghost use Rattle.gtd_hours.specs.Cost.{spans_cost};
ghost use Rattle.gtd_hours.specs.Cost.{steps_cost, weeks_cost, years_cost};

use crate::spans::is_early;
use gtd_hours::{
    Dates, Hours, Kind, Link, Modifier, MovedPlace, Moving, Rule, Selector, TimeRange, Weeks, Years,
};
use gtd_hours_leaves::MOST_YEARS;
use gtd_hours_selectors::{
    days_on, end_days, goes_on, is_one_stretch, month_after, months_between,
};

fn add(a: u32, b: u32) -> u32
    ensures { result ≡ counted (a + b) }
{
    a.saturating_add(b)
}

fn greater(a: u32, b: u32) -> u32
    ensures { result ≡ max a b }
{
    if a < b { b } else { a }
}

fn steps_cost(first: u16, last: u16, step: u16) -> u32
    requires order { first ≤ last }
    requires some { 1 ≤ step }
    ensures value { result ≡ steps_cost first last step }
    ensures few { result ≤ 65536 }
{
    u32::from((last - first) / step) + 1
}

fn years_cost(years: Years) -> u32
    ensures value { result ≡ years_cost years.first years.last years.step }
    ensures few { result ≤ 65536 }
{
    if years.step == 1 {
        return steps_cost(years.first, years.last, MOST_YEARS);
    }
    steps_cost(years.first, years.last, years.step)
}

fn weeks_cost(weeks: Weeks) -> u32
    ensures value { result ≡ weeks_cost weeks.first weeks.last weeks.step }
    ensures few { result ≤ 65536 }
{
    if weeks.step != 1 {
        return steps_cost(weeks.first, weeks.last, weeks.step);
    }
    if weeks.first < 53 && weeks.last == 53 {
        return 2;
    }
    1
}

fn month_cost(month: u8, low: u8, high: u8) -> u32
    ensures value { result ≡ month_cost month low high }
    ensures few { result ≤ 2 }
{
    if month == 2 && low < 29 && 28 < high {
        2
    } else {
        1
    }
}

fn dates_cost(dates: Dates) -> u32
    ensures value { result ≡ dates_cost dates.first dates.last }
    ensures few { result ≤ 5 }
{
    if is_one_stretch(dates) {
        return 1;
    }
    let first = dates.first;
    let last = dates.last;
    if first.month == last.month && first.day <= last.day {
        return month_cost(first.month, first.day, last.day);
    }
    let ends = month_cost(first.month, first.day, 31) + month_cost(last.month, 1, last.day);
    if month_after(first.month) == last.month {
        return ends;
    }
    ends + 1
}

fn moved_cost(place: MovedPlace) -> u32
    ensures value { result ≡ moved_cost place.is_before place.days }
    ensures few { result ≤ 2 }
{
    if days_on(place) == 0 { 1 } else { 2 }
}

fn moving_cost(range: Moving) -> u32
    ensures value { result ≡ moving_cost range.is_over range.first range.last }
    ensures few { result ≤ 5 }
{
    let ends = if end_days(range.first) == 0 { 3 } else { 4 };
    if months_between(range) <= 10 {
        ends
    } else {
        ends + 1
    }
}

fn selector_cost(selector: Selector) -> u32
    ensures value { result ≡ selector_cost selector }
    ensures few { result ≤ 65536 }
{
    match selector {
        Selector::Years(years) => years_cost(years),
        Selector::Months(_) => 1,
        Selector::Dates(dates) => dates_cost(dates),
        Selector::Dated(_) => 1,
        Selector::Weeks(weeks) => weeks_cost(weeks),
        Selector::Weekdays(_) => 1,
        Selector::Nth(_) => 1,
        Selector::NthBack(_) => 1,
        Selector::Moved(place) => moved_cost(place),
        Selector::Moving(range) => moving_cost(range),
        Selector::Yearly(_) => 1,
    }
}

// What the years of days that come each year take, before these selectors.
fn met_cost(selector: Selector, more: &[Selector]) -> u32
    ensures value { result ≡ met_cost selector more.now }
    ensures few { result ≤ 1 }
{
    match selector {
        Selector::Yearly(days) => { if goes_on(days, more) { 0 } else { 1 } }
        _ => 0,
    }
}

fn selectors_cost(selectors: &[Selector]) -> u32
    ensures { result ≡ counted (selectors_cost selectors.now) }
{
    let mut total = 0;
    let mut rest = selectors;
    while let Some((selector, more)) = rest.split_first() {
        total = add(total, selector_cost(*selector) + met_cost(*selector, more));
        rest = more;
    }
    total
}

fn kinds_cost(kinds: &[Kind]) -> u32
    ensures { result ≡ counted (kinds_cost kinds.now) }
{
    let mut total = 0;
    let mut rest = kinds;
    while let Some((kind, more)) = rest.split_first() {
        let selectors = selectors_cost(kind.selectors.as_slice());
        total = add(total, greater(1, selectors));
        rest = more;
    }
    total
}

fn days_cost(kinds: &[Kind]) -> u32
    ensures { result ≡ counted (days_cost kinds.now) }
{
    greater(1, kinds_cost(kinds))
}

fn early_cost(times: &[TimeRange]) -> u32
    ensures { result ≡ counted (early_cost times.now) }
{
    let mut total = 0;
    let mut rest = times;
    while let Some((time, more)) = rest.split_first() {
        if is_early(*time) {
            total = add(total, 1);
        }
        rest = more;
    }
    total
}

fn late_cost(days: u32, times: &[TimeRange]) -> u32
    ensures { result ≡ counted (late_cost days times.now) }
{
    let each = add(days, 1);
    let mut total = 0;
    let mut rest = times;
    while let Some((time, more)) = rest.split_first() {
        if !is_early(*time) {
            total = add(total, each);
        }
        rest = more;
    }
    total
}

fn spans_cost(days: u32, times: &[TimeRange]) -> u32
    ensures { result ≡ counted (spans_cost days times.now) }
{
    if times.is_empty() {
        return days;
    }
    let early = early_cost(times);
    let late = late_cost(days, times);
    if early == 0 {
        return late;
    }
    add(add(days, early), late)
}

// The spans of a rule, whose days take so many.
fn rule_cost(rule: &Rule, days: u32) -> u32
    requires { days ≡ counted (days_cost rule.now.kinds.items) }
    ensures { result ≡ counted (rule_cost rule.now) }
{
    spans_cost(days, rule.times.as_slice())
}

/// Whether one of the ranges of times ends on a later day.
pub(crate) fn ends_late(times: &[TimeRange]) -> bool
    ensures { result ≡ ends_late times.now }
{
    let mut rest = times;
    while let Some((time, more)) = rest.split_first() {
        if !is_early(*time) {
            return true;
        }
        rest = more;
    }
    false
}

// The days of a rule, and its spans if they end on a later day.
fn unsaid_cost(rule: &Rule, days: u32, spans: u32) -> u32
    requires days { days ≡ counted (days_cost rule.now.kinds.items) }
    requires spans { spans ≡ counted (rule_cost rule.now) }
    ensures { result ≡ counted (unsaid_cost rule.now) }
{
    if ends_late(rule.times.as_slice()) {
        return add(days, spans);
    }
    days
}

fn is_fallback(rule: &Rule) -> bool
    ensures { result ≡ falls_back rule.now.modifier rule.now.link }
{
    match rule.modifier {
        Modifier::Open => match rule.link {
            Link::Fallback => true,
            Link::Instead => false,
            Link::Also => false,
        },
        Modifier::Closed => false,
    }
}

/// How many rules there are up to the last open fallback rule.
pub(crate) fn up_to_fallback(rules: &[Rule]) -> usize
    ensures { result ≡ up_to_fallback rules.now }
{
    let mut last = 0;
    let mut passed = 0;
    let mut rest = rules;
    while let Some((rule, more)) = rest.split_first() {
        passed += 1;
        if is_fallback(rule) {
            last = passed;
        }
        rest = more;
    }
    last
}

// Nothing, if there was nothing, or else more.
fn if_some(before: u32, more: u32) -> u32
    ensures { result ≡ (if before == 0 then 0 else counted (before + more)) }
{
    if before == 0 { 0 } else { add(before, more) }
}

// What is open after a rule, if what was open, and what was said to be closed, before it takes so many.
fn open_cost_by(rule: &Rule, opened: u32, closed: u32) -> u32
    ensures { result ≡ counted (open_cost_by rule.now.modifier rule.now.link rule.now opened closed) }
{
    let days = days_cost(rule.kinds.as_slice());
    let spans = rule_cost(rule, days);
    match rule.modifier {
        Modifier::Open => match rule.link {
            Link::Instead => add(if_some(opened, days), spans),
            Link::Also => add(opened, spans),
            Link::Fallback => add(add(opened, spans), closed),
        },
        Modifier::Closed => match rule.link {
            Link::Instead => if_some(opened, spans),
            Link::Also => if_some(opened, spans),
            Link::Fallback => opened,
        },
    }
}

// And what is said to be closed.
fn closed_cost_by(rule: &Rule, opened: u32, closed: u32) -> u32
    ensures { result ≡ counted (closed_cost_by rule.now.modifier rule.now.link rule.now opened closed) }
{
    let days = days_cost(rule.kinds.as_slice());
    let spans = rule_cost(rule, days);
    match rule.modifier {
        Modifier::Open => match rule.link {
            Link::Instead => if_some(closed, unsaid_cost(rule, days, spans)),
            Link::Also => if_some(closed, spans),
            Link::Fallback => closed,
        },
        Modifier::Closed => match rule.link {
            Link::Instead => add(closed, spans),
            Link::Also => add(closed, spans),
            Link::Fallback => add(add(closed, spans), opened),
        },
    }
}

// What is said to be closed after a rule, if it is asked for.
fn closed_cost_if(asked: bool, rule: &Rule, opened: u32, closed: u32) -> u32
    ensures { result ≡ counted (if asked
        then closed_cost_by rule.now.modifier rule.now.link rule.now opened closed else 0) }
{
    if asked {
        return closed_cost_by(rule, opened, closed);
    }
    0
}

/// How many basic domains the translation of the hours has, or `u32::MAX` if there are more. No memory is taken.
pub fn cost_of(hours: &Hours) -> u32
    ensures value { result ≡ counted (hours_cost hours.now) }
{
    let mut opened = 0;
    let mut closed = 0;
    let mut left = up_to_fallback(hours.rules.as_slice());
    let mut rest = hours.rules.as_slice();
    while let Some((rule, more)) = rest.split_first() {
        left = left.saturating_sub(1);
        let later = closed_cost_if(left > 0, rule, opened, closed);
        opened = open_cost_by(rule, opened, closed);
        closed = later;
        rest = more;
    }
    greater(1, opened)
}
