//! Dates of each year: months and days later, where no leap day decides.

ghost use Rattle.std.specs.Prelude.{◌≡◌, ◌≤◌, ◌<◌, ◌+◌, ◌-◌, ◌^◌, IfSome};
ghost use Rattle.gtd_ends.specs.Dates.{date_at, days_on, is_before, least, sure_length, years_until};
ghost use Rattle.gtd_ends.specs.Endings.{at_date, before_date, before_first, date_end, from_date, if_first, with_date};

use crate::end::End;

/// The days of a month that it has in each year.
pub fn sure_length(month: u32) -> u32
    ensures value { result ≡ sure_length month }
    ensures long { 28 ≤ result }
    ensures short { result ≤ 31 }
{
    match month {
        2 => 28,
        4 => 30,
        6 => 30,
        9 => 30,
        11 => 30,
        _ => 31,
    }
}

fn least(a: u32, b: u32) -> u32
    ensures value { result ≡ least a b }
    ensures first { result ≤ a }
{
    if a < b { a } else { b }
}

/// The number before, or 0.
pub fn one_less(n: u32) -> u32
    ensures { result ≡ n - 1 }
{
    if n == 0 { 0 } else { n - 1 }
}

// The month and day at a count of months, as years, a month and a day.
fn date_at(count: u32, day: u32) -> Option<(u32, u32, u32)>
    requires { count < 2 ^ 21 }
    ensures value { result ≡ date_at count day }
    ensures small { IfSome result (λ date. (date.0 < 2 ^ 21) × (date.1 ≤ 12) × (date.2 ≤ 31)) }
{
    if count % 12 == 1 && 28 < day {
        return None;
    }
    let month = count % 12 + 1;
    Some((count / 12, month, least(sure_length(month), day)))
}

fn days_on(ends: u8, year: u32, month: u32, day: u32, days: u32) -> Option<(u32, u32, u32)>
    requires years { year + ends < 2 ^ 22 }
    requires months { month ≤ 12 }
    requires few { day + days < 2 ^ 22 }
    ensures { result ≡ days_on ends year month day days }
{
    if ends == 0 {
        return None;
    }
    let length = sure_length(month);
    if day + days <= length {
        return Some((year, month, day + days));
    }
    if month == 2 {
        return None;
    }
    days_on(
        ends - 1,
        year + month / 12,
        month % 12 + 1,
        1,
        day + days - length - 1,
    )
}

fn is_before(month: u32, day: u32, start: (u32, u32)) -> bool
    ensures { result ≡ is_before month day start }
{
    month < start.0 || (month == start.0 && day < start.1)
}

fn years_until(start: (u32, u32), month: u32, day: u32) -> u32
    ensures { result ≡ years_until start month day }
{
    if is_before(month, day, start) { 1 } else { 0 }
}

fn if_first(start: (u32, u32), year: u32, month: u32, day: u32, end: End) -> Option<End>
    ensures { result ≡ if_first start year month day end }
{
    if year == years_until(start, month, day) {
        Some(end)
    } else {
        None
    }
}

fn before_first(start: (u32, u32), year: u32, month: u32) -> Option<End>
    ensures { result ≡ before_first start year month }
{
    if month == 3 {
        return if_first(start, year, 2, 29, End::WithFebruary);
    }
    if month == 1 {
        if year == 0 {
            return None;
        }
        return if_first(start, year - 1, 12, 31, End::WithDate((12, 31)));
    }
    let before = one_less(month);
    let last = sure_length(before);
    if_first(start, year, before, last, End::WithDate((before, last)))
}

fn before_date(start: (u32, u32), date: (u32, u32, u32)) -> Option<End>
    ensures { result ≡ before_date start date }
{
    if date.2 == 1 {
        return before_first(start, date.0, date.1);
    }
    let day = one_less(date.2);
    if_first(start, date.0, date.1, day, End::WithDate((date.1, day)))
}

fn with_date(start: (u32, u32), date: Option<(u32, u32, u32)>) -> Option<End>
    ensures { result ≡ with_date start date }
{
    match date {
        Some(date) => if_first(
            start,
            date.0,
            date.1,
            date.2,
            End::WithDate((date.1, date.2)),
        ),
        None => None,
    }
}

fn at_date(start: (u32, u32), second: u32, date: Option<(u32, u32, u32)>) -> Option<End>
    ensures { result ≡ at_date start second date }
{
    match date {
        Some(date) => if_first(
            start,
            date.0,
            date.1,
            date.2,
            End::Date((date.1, date.2, second)),
        ),
        None => None,
    }
}

fn from_date(
    whole: bool,
    start: (u32, u32),
    days: u32,
    second: u32,
    date: Option<(u32, u32, u32)>,
) -> Option<End>
    requires dates { IfSome date (λ date. (date.0 < 2 ^ 21) × (date.1 ≤ 12) × (date.2 ≤ 31)) }
    requires few { days < 2 ^ 20 }
    ensures { result ≡ from_date whole start days second date }
{
    match date {
        Some(date) => {
            if !whole {
                return at_date(start, second, days_on(13, date.0, date.1, date.2, days));
            }
            if days == 0 {
                return before_date(start, date);
            }
            with_date(start, days_on(13, date.0, date.1, date.2, days - 1))
        }
        None => None,
    }
}

/// The end of each stretch by its date, if it begins on this month and day.
pub fn date_end(
    whole: bool,
    date: Option<(u32, u32)>,
    months: u32,
    days: u32,
    second: u32,
) -> Option<End>
    requires dates { IfSome date (λ date. (date.0 < 256) × (date.1 < 256)) }
    requires few { months < 2 ^ 20 }
    requires short { days < 2 ^ 20 }
    ensures { result ≡ date_end whole date months days second }
{
    match date {
        Some(start) => from_date(
            whole,
            start,
            days,
            second,
            date_at(one_less(start.0) + months, start.1),
        ),
        None => None,
    }
}
