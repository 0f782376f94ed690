//! From the tokens of a part to its value: months, days of each year and dates.

ghost use Rattle.std.specs.Prelude.{◌≡◌, ◌==◌, ◌&&◌, ◌||◌, ◌≤◌, ◌≤ℤ◌, IsTrue, Option, None, Ok, Err, drop, neg_ℤ, pos};
ghost use Rattle.gtd_hours_grammar2.specs.Steps.{code};
ghost use Rattle.gtd_hours_text2.specs.Parts.{Gives, are_months, class_of, dated, days, days_of, days_without, end_month};
ghost use Rattle.gtd_hours_text2.specs.Parts.{fits_year, is_before, is_dated, is_range, last_from, last_part, last_place, listed_month, listed_year};
ghost use Rattle.gtd_hours_text2.specs.Parts.{month_days, month_days_of, months, months_of_years, or_zero, range, range_from};
ghost use Rattle.gtd_hours_text2.specs.Parts.{year_after};

use crate::ends::{end, month, month_length};
use crate::yearly::{day_in, is_sound, is_year, length_of_month};
use crate::years::{after, is, place_of, year};
use gtd_hours_grammar2::Class;
use gtd_hours_tokens2::Token;
use gtd_hours2::{RulePart, YearlyDay};

// The month in which a list of days goes on after a date.
fn end_month(day: YearlyDay) -> u8
    ensures { result ≡ end_month day }
{
    match day {
        YearlyDay::Date { month, .. } => month,
        _ => 0,
    }
}

// A range from a day without a year, after its dash.
fn range(first: YearlyDay, tokens: &[Token]) -> Result<(Option<u16>, RulePart), u16>
    ensures { Gives (λ x. (x.0, x.1)) result (range first tokens.now) }
{
    if is(Class::Year, tokens) {
        return Err(place_of(tokens));
    }
    let (last, _) = end(None, end_month(first), tokens)?;
    Ok((None, RulePart::Days { first, last }))
}

// `Dec 24`, `Mar Su[-1]-Oct 3`, `easter`, and `26-31` after a date of the month.
fn days_without(listed: u8, tokens: &[Token]) -> Result<(Option<u16>, RulePart), u16>
    ensures { Gives (λ x. (x.0, x.1)) result (days_without listed tokens.now) }
{
    let (first, rest) = end(None, listed, tokens)?;
    if is(Class::Dash, rest) {
        return range(first, after(rest));
    }
    Ok((None, RulePart::Days { first, last: first }))
}

// Whether the last day comes before the first in a year.
fn is_before(year: u16, first: YearlyDay, last: YearlyDay) -> bool
    ensures value { result ≡ is_before year first last }
    ensures bound { IsTrue result → year ≤ 2799 }
{
    is_year(year) && is_sound(first) && is_sound(last) && day_in(last, year) < day_in(first, year)
}

fn year_after(year: u16, first: YearlyDay, last: YearlyDay) -> u16
    ensures { result ≡ year_after year first last }
{
    if is_before(year, first, last) {
        year + 1
    } else {
        year
    }
}

fn fits_year(year: u16, day: YearlyDay) -> bool
    ensures { result ≡ fits_year year day }
{
    match day {
        YearlyDay::Date { month, day } => u16::from(day) <= month_length(year, month),
        _ => true,
    }
}

fn is_range(first: i64, last: i64) -> bool
    requires { (neg_ℤ (pos 130000) ≤ℤ first) × (first ≤ℤ pos 371000) }
    ensures { result ≡ is_range first last }
{
    first <= last && last < first + 36_600
}

fn is_dated(year: u16, first: YearlyDay, last_year: u16, last: YearlyDay) -> bool
    ensures { result ≡ is_dated year first last_year last }
{
    if is_year(year) && is_year(last_year) && is_sound(first) && is_sound(last) {
        return is_range(day_in(first, year), day_in(last, last_year));
    }
    false
}

fn dated(
    year: u16,
    first: YearlyDay,
    last_year: u16,
    last: YearlyDay,
    offset: u16,
) -> Result<(Option<u16>, RulePart), u16>
    ensures { Gives (λ x. (x.0, x.1)) result (dated year first last_year last offset) }
{
    if fits_year(last_year, last) && is_dated(year, first, last_year, last) {
        return Ok((
            None,
            RulePart::Dated {
                year,
                first,
                last_year,
                last,
            },
        ));
    }
    Err(offset)
}

/// The offset of the last token, or 0.
pub fn last_place(tokens: &[Token]) -> u16
    ensures { result ≡ last_place tokens.now }
{
    let mut rest = tokens;
    let mut offset = 0;
    while let Some((token, more)) = rest.split_first() {
        offset = token.from;
        rest = more;
    }
    offset
}

// A range from a day of a year, after its dash.
fn range_from(
    first_year: u16,
    first: YearlyDay,
    tokens: &[Token],
    offset: u16,
) -> Result<(Option<u16>, RulePart), u16>
    ensures { Gives (λ x. (x.0, x.1)) result (range_from first_year first tokens.now offset) }
{
    if is(Class::Year, tokens) {
        let (last_year, rest) = year(1800, tokens)?;
        let (last, _) = end(Some(last_year), end_month(first), rest)?;
        return dated(first_year, first, last_year, last, offset);
    }
    let (last, _) = end(None, end_month(first), tokens)?;
    dated(
        first_year,
        first,
        year_after(first_year, first, last),
        last,
        offset,
    )
}

// `2026 Dec 24`, `2026 easter-2026 Nov 1`
fn days_of(year: u16, listed: u8, tokens: &[Token]) -> Result<(Option<u16>, RulePart), u16>
    ensures { Gives (λ x. (x.0, x.1)) result (days_of year listed tokens.now) }
{
    let (first, rest) = end(Some(year), listed, tokens)?;
    if is(Class::Dash, rest) {
        return range_from(year, first, after(rest), last_place(tokens));
    }
    Ok((
        None,
        RulePart::Dated {
            year,
            first,
            last_year: year,
            last: first,
        },
    ))
}

fn days(year: Option<u16>, listed: u8, tokens: &[Token]) -> Result<(Option<u16>, RulePart), u16>
    ensures { Gives (λ x. (x.0, x.1)) result (days year listed tokens.now) }
{
    match year {
        None => days_without(listed, tokens),
        Some(year) => days_of(year, listed, tokens),
    }
}

// `2024 Dec-2026 Mar`, after its dash.
fn months_of_years(
    first_year: u16,
    first: u8,
    tokens: &[Token],
) -> Result<(Option<u16>, RulePart), u16>
    ensures { Gives (λ x. (x.0, x.1)) result (months_of_years first_year first tokens.now) }
{
    let (last_year, rest) = year(first_year, tokens)?;
    let last = month(rest);
    dated(
        first_year,
        YearlyDay::Date {
            month: first,
            day: 1,
        },
        last_year,
        YearlyDay::Date {
            month: last,
            day: length_of_month(last_year, last),
        },
        last_place(tokens),
    )
}

fn or_zero(year: Option<u16>) -> u16
    ensures { result ≡ or_zero year }
{
    match year {
        None => 0,
        Some(year) => year,
    }
}

// What comes after a month belongs to months, not to a date.
fn are_months(tokens: &[Token]) -> bool
    ensures { result ≡ are_months tokens.now }
{
    match tokens {
        [] => true,
        [_, rest @ ..] => {
            is(Class::Dash, tokens) && (is(Class::Month, rest) || is(Class::Year, rest))
        }
    }
}

// `Apr`, `Apr-Sep`, after the first month; a year is a selector of its own.
fn months(year: Option<u16>, first: u8, tokens: &[Token]) -> Result<(Option<u16>, RulePart), u16>
    ensures { Gives (λ x. (x.0, x.1)) result (months year first tokens.now) }
{
    match tokens {
        [] => Ok((year, RulePart::Months { first, last: first })),
        [_, rest @ ..] => {
            if is(Class::Month, rest) {
                return Ok((
                    year,
                    RulePart::Months {
                        first,
                        last: month(rest),
                    },
                ));
            }
            months_of_years(or_zero(year), first, rest)
        }
    }
}

fn month_days_of(
    year: Option<u16>,
    listed: u8,
    tokens: &[Token],
) -> Result<(Option<u16>, RulePart), u16>
    ensures { Gives (λ x. (x.0, x.1)) result (month_days_of year listed tokens.now) }
{
    if is(Class::Month, tokens) && are_months(after(tokens)) {
        return months(year, month(tokens), after(tokens));
    }
    days(year, listed, tokens)
}

fn listed_month(before: Option<RulePart>) -> u8
    ensures { result ≡ listed_month before }
{
    match before {
        Some(RulePart::Days { last, .. }) => end_month(last),
        Some(RulePart::Dated { last, .. }) => end_month(last),
        _ => 0,
    }
}

fn listed_year(before: Option<RulePart>) -> Option<u16>
    ensures { result ≡ listed_year before }
{
    match before {
        Some(RulePart::Dated { last_year, .. }) => Some(last_year),
        _ => None,
    }
}

fn last_part(parts: &[RulePart]) -> Option<RulePart>
    ensures { result ≡ last_part parts.now }
{
    match parts.split_last() {
        None => None,
        Some((last, _)) => Some(*last),
    }
}

/// Months and days, after the parts before them. The year of months is a selector of its own.
pub(crate) fn month_days(
    parts: &[RulePart],
    tokens: &[Token],
) -> Result<(Option<u16>, RulePart), u16>
    ensures { Gives (λ x. (x.0, x.1)) result (month_days (last_part parts.now) tokens.now) }
{
    if is(Class::Year, tokens) {
        let (year, rest) = year(1800, tokens)?;
        return month_days_of(Some(year), 0, rest);
    }
    if is(Class::Month, tokens) || is(Class::Easter, tokens) {
        return month_days_of(None, 0, tokens);
    }
    let before = last_part(parts);
    month_days_of(listed_year(before), listed_month(before), tokens)
}
