//! The end of each stretch of a basic domain, where it is the same for all.

ghost use Rattle.std.specs.Prelude.{◌≡◌, ◌<◌, ◌^◌, Some, IfSome};
ghost use Rattle.gtd_core.specs.Parts.{duration_parts};
ghost use Rattle.gtd_ends.specs.Endings.{end_after, end_from, ending, first_second, is_empty, named_from, or_else};
ghost use Rattle.gtd_ends.specs.Endings.{weekday_after, weekday_end, without_months};

use crate::anchor::has_clock;
use crate::date::{date_end, one_less};
use crate::named::{first_second, named_from};
use gtd_core::{Duration, StartParts};

/// The end of each stretch, as words say it. Seconds are those of the day.
#[derive(Clone, Copy)]
pub enum End {
    /// So many days after the day of the start, at this second.
    Clock((u32, u32)),
    /// On the next such weekday, at this second.
    Weekday((u32, u32)),
    /// When the next such weekday is over.
    WithWeekday(u32),
    /// On the next such month and day, at this second.
    Date((u32, u32, u32)),
    /// When the next such month and day is over.
    WithDate((u32, u32)),
    /// When the next February is over.
    WithFebruary,
}

fn weekday_after(weekday: u32, days: u32) -> u32
    requires weekdays { weekday < 256 }
    requires few { days < 2 ^ 20 }
    ensures { result ≡ weekday_after weekday days }
{
    (weekday + 6 + days) % 7 + 1
}

fn weekday_end(whole: bool, weekday: Option<u32>, days: u32, second: u32) -> Option<End>
    requires { IfSome weekday (λ n. n < 256) }
    ensures { result ≡ weekday_end whole weekday days second }
{
    let weekday = weekday?;
    if whole {
        if 7 < days {
            return None;
        }
        return Some(End::WithWeekday(weekday_after(weekday, one_less(days))));
    }
    if 6 < days {
        return None;
    }
    Some(End::Weekday((weekday_after(weekday, days), second)))
}

fn or_else(first: Option<End>, other: Option<End>) -> Option<End>
    ensures { result ≡ or_else first other }
{
    match first {
        Some(end) => Some(end),
        None => other,
    }
}

// The end of a stretch of days and seconds.
fn without_months(
    whole: bool,
    named: (Option<u32>, Option<(u32, u32)>),
    days: u32,
    second: u32,
) -> Option<End>
    requires weekdays { IfSome named.0 (λ n. n < 256) }
    requires dates { IfSome named.1 (λ date. (date.0 < 256) × (date.1 < 256)) }
    requires few { days < 2 ^ 20 }
    ensures { result ≡ without_months whole named days second }
{
    if whole {
        return or_else(
            weekday_end(true, named.0, days, second),
            date_end(true, named.1, 0, days, second),
        );
    }
    let clock = Some(End::Clock((days, second)));
    if days < 2 {
        return clock;
    }
    or_else(
        weekday_end(false, named.0, days, second),
        or_else(date_end(false, named.1, 0, days, second), clock),
    )
}

fn end_after(
    whole: bool,
    named: (Option<u32>, Option<(u32, u32)>),
    months: u32,
    days: u32,
    second: u32,
) -> Option<End>
    requires weekdays { IfSome named.0 (λ n. n < 256) }
    requires dates { IfSome named.1 (λ date. (date.0 < 256) × (date.1 < 256)) }
    requires few { months < 2 ^ 20 }
    requires short { days < 2 ^ 20 }
    ensures { result ≡ end_after whole named months days second }
{
    if months == 0 {
        without_months(whole, named, days, second)
    } else {
        date_end(whole, named.1, months, days, second)
    }
}

fn end_from(start: &StartParts, duration: &Duration, second: u32) -> Option<End>
    requires { second < 2 ^ 20 }
    ensures { result ≡ end_from start.now (duration_parts duration.now) (Some second) }
{
    let clock = second + duration.clock();
    end_after(
        !has_clock(start) && clock % 86_400 == 0,
        named_from(start),
        duration.whole_months(),
        duration.whole_days() + clock / 86_400,
        clock % 86_400,
    )
}

fn is_empty(duration: &Duration) -> bool
    ensures { result ≡ is_empty (duration_parts duration.now) }
{
    duration.whole_months() + duration.whole_days() + duration.clock() == 0
}

/// The end of each stretch, where it is the same for all, and no leap day decides it.
#[tactic(auto, unfolding(crate::specs::Endings::ending))]
pub fn ending(start: &StartParts, duration: &Duration) -> Option<End>
    ensures { result ≡ ending start.now (duration_parts duration.now) }
{
    if is_empty(duration) {
        return None;
    }
    match first_second(start) {
        Some(second) => end_from(start, duration, second),
        None => None,
    }
}
