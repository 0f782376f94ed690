//! The usual duration of an end. Where a duration is written in another way, the words say it too.

ghost use Rattle.std.specs.Prelude.{◌≡◌, ◌≤◌, ◌<◌, ◌+◌, ◌-◌, ◌^◌, IfSome};
ghost use Rattle.gtd_ends.specs.Endings.{between, dates_between, is_all_day, is_beginning, is_written, months_between};
ghost use Rattle.gtd_ends.specs.Endings.{next_date, second_or_none, usual, usual_to, weekdays_between};
ghost use Rattle.gtd_ends.specs.Ends.{IsEnd};

use crate::anchor::{Anchor, anchor_of, has_clock};
use crate::date::sure_length;
use crate::end::End;
use crate::named::{first_second, named_from};
use gtd_core::{DurationParts, StartParts};

// The difference of two numbers, or 0 if the first is less.
fn less(a: u32, b: u32) -> u32
    ensures { result ≡ a - b }
{
    if a < b { 0 } else { a - b }
}

fn between(first: u32, days: u32, second: u32) -> (u32, u32, u32, u32)
    requires { first < 2 ^ 20 }
    ensures { result ≡ between first days second }
{
    if second < first {
        (0, 0, less(days, 1), less(second + 86_400, first))
    } else {
        (0, 0, days, second - first)
    }
}

fn weekdays_between(from: Option<u32>, weekday: u32) -> u32
    requires { weekday < 256 }
    ensures value { result ≡ weekdays_between from weekday }
    ensures small { result < 7 }
{
    match from {
        Some(from) => less(weekday + 7, from) % 7,
        None => 0,
    }
}

fn months_between(months: u32, days: u32) -> (u32, u32, u32, u32)
    requires few { months < 12 }
    requires short { days < 1000 }
    ensures { result ≡ months_between months days }
{
    if months + days == 0 {
        (1, 0, 0, 0)
    } else {
        (0, months, days, 0)
    }
}

fn dates_between(from: Option<(u32, u32)>, to: (u32, u32)) -> (u32, u32, u32, u32)
    requires month { to.0 < 256 }
    requires day { to.1 < 256 }
    ensures { result ≡ dates_between from to }
{
    match from {
        Some(from) => {
            if to.1 < from.1 {
                let length = sure_length((to.0 + 10) % 12 + 1);
                months_between(less(to.0 + 11, from.0) % 12, less(length + to.1, from.1))
            } else {
                months_between(less(to.0 + 12, from.0) % 12, to.1 - from.1)
            }
        }
        None => (0, 0, 0, 0),
    }
}

fn next_date(date: (u32, u32)) -> (u32, u32)
    requires { date.1 < 100 }
    ensures value { result ≡ next_date date }
{
    if date.1 == sure_length(date.0) && date.0 != 2 {
        (date.0 % 12 + 1, 1)
    } else {
        (date.0, date.1 + 1)
    }
}

fn usual_to(named: (Option<u32>, Option<(u32, u32)>), first: u32, end: End) -> (u32, u32, u32, u32)
    requires small { first < 2 ^ 20 }
    requires is_end { IsEnd end }
    ensures { result ≡ usual_to named first end }
{
    match end {
        End::Clock(end) => between(first, end.0, end.1),
        End::Weekday(end) => between(first, weekdays_between(named.0, end.0), end.1),
        End::WithWeekday(weekday) => (0, 0, weekdays_between(named.0, weekday) + 1, 0),
        End::Date(end) => dates_between(named.1, (end.0, end.1)),
        End::WithDate(end) => dates_between(named.1, next_date(end)),
        End::WithFebruary => dates_between(named.1, (3, 1)),
    }
}

fn second_or_none(second: Option<u32>) -> u32
    requires { IfSome second (λ n. n < 2 ^ 20) }
    ensures value { result ≡ second_or_none second }
    ensures small { result < 2 ^ 20 }
{
    match second {
        Some(second) => second,
        None => 0,
    }
}

/// The usual duration of an end: years, months, days and seconds.
#[tactic(auto, unfolding(crate::specs::Endings::usual))]
pub fn usual(start: &StartParts, end: End) -> (u32, u32, u32, u32)
    requires { IsEnd end }
    ensures { result ≡ usual start.now end }
{
    usual_to(named_from(start), second_or_none(first_second(start)), end)
}

/// Whether a duration is written as these years, months, days and seconds.
pub fn is_written(duration: &DurationParts, parts: (u32, u32, u32, u32)) -> bool
    ensures { result ≡ is_written duration.now parts }
{
    duration.years == parts.0
        && duration.months == parts.1
        && duration.weeks == 0
        && duration.days == parts.2
        && duration.hours == parts.3 / 3600
        && duration.minutes == parts.3 / 60 % 60
        && duration.seconds == parts.3 % 60
}

fn is_beginning(anchor: Anchor) -> bool
    ensures { result ≡ is_beginning anchor }
{
    match anchor {
        Anchor::Beginning => true,
        _ => false,
    }
}

/// Whether it is one whole day, whose start names it.
#[tactic(auto, unfolding(crate::specs::Endings::is_all_day))]
pub fn is_all_day(start: &StartParts, duration: &DurationParts) -> bool
    ensures { result ≡ is_all_day start.now duration.now }
{
    !has_clock(start) && !is_beginning(anchor_of(start)) && is_written(duration, (0, 0, 1, 0))
}
