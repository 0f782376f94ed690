//! From the tokens of a part to its value: ends of ranges of days.

ghost use Rattle.std.specs.Prelude.{◌≡◌, ◌≤◌, Option, Some, None, pos};
ghost use Rattle.gtd_calendar.specs.Calendar.{is_leap_year, month_length};
ghost use Rattle.gtd_hours_text2.specs.Parts.{Gives, day, day_or_place, easter, end, longest, month, month_of, place, place_at, place_offset};
ghost use Rattle.gtd_hours_text2.specs.Parts.{number, weekday, weekday_of};

use crate::times::{first_kind, offset, suits};
use crate::years::{after, is, number, place_of};
use gtd_hours_grammar2::Class;
use gtd_hours_tokens2::{Token, TokenKind};
use gtd_hours2::YearlyDay;

fn month_of(kind: TokenKind) -> u8
    ensures { result ≡ month_of kind }
{
    match kind {
        TokenKind::Month(month) => month,
        _ => 0,
    }
}

fn weekday_of(kind: TokenKind) -> u8
    ensures { result ≡ weekday_of kind }
{
    match kind {
        TokenKind::Weekday(weekday) => weekday,
        _ => 0,
    }
}

pub(crate) fn month(tokens: &[Token]) -> u8
    ensures { result ≡ month tokens.now }
{
    month_of(first_kind(tokens))
}

pub(crate) fn weekday(tokens: &[Token]) -> u8
    ensures { result ≡ weekday tokens.now }
{
    weekday_of(first_kind(tokens))
}

fn is_leap_year(year: u16) -> bool
    ensures { result ≡ is_leap_year (pos year) }
{
    year % 4 == 0 && (!(year % 100 == 0) || year % 400 == 0)
}

pub(crate) fn month_length(year: u16, month: u8) -> u16
    ensures { result ≡ month_length (pos year) month }
{
    if month == 2 {
        if is_leap_year(year) { 29 } else { 28 }
    } else if month == 4 || month == 6 || month == 9 || month == 11 {
        30
    } else {
        31
    }
}

fn longest(year: Option<u16>, month: u8) -> u16
    ensures length { result ≡ longest year month }
    ensures bound { result ≤ 255 }
{
    match year {
        None => month_length(2000, month),
        Some(year) => month_length(year, month),
    }
}

fn day(year: Option<u16>, month: u8, tokens: &[Token]) -> Result<(YearlyDay, &[Token]), u16>
    ensures { Gives (λ x. (x.0, x.1.now)) result (day year month tokens.now) }
{
    let (day, rest) = small(2, 1, longest(year, month), tokens)?;
    Ok((YearlyDay::Date { month, day }, rest))
}

fn day_or_place(
    year: Option<u16>,
    month: u8,
    tokens: &[Token],
) -> Result<(YearlyDay, &[Token]), u16>
    ensures { Gives (λ x. (x.0, x.1.now)) result (day_or_place year month tokens.now) }
{
    if is(Class::Weekday, tokens) {
        return place_at(month, weekday(tokens), after(after(tokens)));
    }
    day(year, month, tokens)
}

/// An end of a range, in a year if one is said; a day by itself is of this month.
pub(crate) fn end(
    year: Option<u16>,
    listed: u8,
    tokens: &[Token],
) -> Result<(YearlyDay, &[Token]), u16>
    ensures { Gives (λ x. (x.0, x.1.now)) result (end year listed tokens.now) }
{
    if is(Class::Easter, tokens) {
        return easter(tokens);
    }
    if is(Class::Month, tokens) {
        return day_or_place(year, month(tokens), after(tokens));
    }
    day(year, listed, tokens)
}

fn small(most: u8, low: u16, high: u16, tokens: &[Token]) -> Result<(u8, &[Token]), u16>
    requires { high ≤ 255 }
    ensures { Gives (λ x. (x.0, x.1.now)) result (number most low high tokens.now) }
{
    match number(most, low, high, tokens) {
        Ok((value, rest)) => Ok((value as u8, rest)),
        Err(place) => Err(place),
    }
}

fn place_offset(
    month: u8,
    weekday: u8,
    number: u8,
    is_back: bool,
    tokens: &[Token],
) -> Result<(YearlyDay, &[Token]), u16>
    ensures { Gives (λ x. (x.0, x.1.now)) result (place_offset month weekday number is_back tokens.now) }
{
    let (offset, rest) = offset(27, tokens)?;
    if suits(offset, number as u16, is_back) {
        return Ok((
            YearlyDay::NthWeekday {
                month,
                weekday,
                number,
                is_back,
                offset,
            },
            rest,
        ));
    }
    Err(place_of(tokens))
}

fn place(
    month: u8,
    weekday: u8,
    is_back: bool,
    tokens: &[Token],
) -> Result<(YearlyDay, &[Token]), u16>
    ensures { Gives (λ x. (x.0, x.1.now)) result (place month weekday is_back tokens.now) }
{
    let (number, rest) = small(1, 1, 4, tokens)?;
    place_offset(month, weekday, number, is_back, after(rest))
}

fn place_at(month: u8, weekday: u8, tokens: &[Token]) -> Result<(YearlyDay, &[Token]), u16>
    ensures { Gives (λ x. (x.0, x.1.now)) result (place_at month weekday tokens.now) }
{
    if is(Class::Dash, tokens) {
        return place(month, weekday, true, after(tokens));
    }
    place(month, weekday, false, tokens)
}

fn easter(tokens: &[Token]) -> Result<(YearlyDay, &[Token]), u16>
    ensures { Gives (λ x. (x.0, x.1.now)) result (easter tokens.now) }
{
    let (offset, rest) = offset(366, after(tokens))?;
    Ok((YearlyDay::Easter(offset), rest))
}
