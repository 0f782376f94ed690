//! The items to come.

ghost use Rattle.std.specs.Prelude.{◌≡◌, false};
ghost use Rattle.gtd_hours_items.specs.Coming.{begins, begins_date, begins_month_days, is_bracket, is_comma, is_dash};
ghost use Rattle.gtd_hours_items.specs.Coming.{is_dates, is_digit, is_holiday, is_month, is_number, is_slash, is_time};
ghost use Rattle.gtd_hours_items.specs.Coming.{is_weekday, is_year, leads, places, places_in, value_of};

use crate::items::{Item, What};
use gtd_hours_tokens::TokenKind;

/// Whether it is a weekday.
pub fn is_weekday(what: What) -> bool
    ensures answer { result ≡ is_weekday what }
{
    match what {
        What::Token(TokenKind::Weekday(_)) => true,
        _ => false,
    }
}

fn is_holiday(what: What) -> bool
    ensures { result ≡ is_holiday what }
{
    match what {
        What::Holiday(_) => true,
        _ => false,
    }
}

fn is_dates(what: What) -> bool
    ensures { result ≡ is_dates what }
{
    match what {
        What::Dates(_) => true,
        What::NoDates { .. } => true,
        What::Easter { .. } => true,
        _ => false,
    }
}

fn is_comma(what: What) -> bool
    ensures { result ≡ is_comma what }
{
    match what {
        What::Token(TokenKind::Comma) => true,
        _ => false,
    }
}

fn is_month(what: What) -> bool
    ensures { result ≡ is_month what }
{
    match what {
        What::Token(TokenKind::Month(_)) => true,
        _ => false,
    }
}

fn is_slash(what: What) -> bool
    ensures { result ≡ is_slash what }
{
    match what {
        What::Token(TokenKind::Slash) => true,
        _ => false,
    }
}

fn is_dash(what: What) -> bool
    ensures { result ≡ is_dash what }
{
    match what {
        What::Token(TokenKind::Dash) => true,
        _ => false,
    }
}

fn is_bracket(what: What) -> bool
    ensures { result ≡ is_bracket what }
{
    match what {
        What::Token(TokenKind::OpenBracket) => true,
        _ => false,
    }
}

fn is_time(what: What) -> bool
    ensures { result ≡ is_time what }
{
    match what {
        What::Token(TokenKind::Time { .. }) => true,
        _ => false,
    }
}

// Whether it is a number, or begins with one.
fn is_number(what: What) -> bool
    ensures { result ≡ is_number what }
{
    match what {
        What::Token(TokenKind::Number { .. }) => true,
        What::Every { .. } => true,
        _ => false,
    }
}

// A number of one digit.
fn is_digit(what: What) -> bool
    ensures { result ≡ is_digit what }
{
    match what {
        What::Token(TokenKind::Number { digits, .. }) => digits == 1,
        _ => false,
    }
}

// What a number stands for.
fn value_of(what: What) -> u16
    ensures { result ≡ value_of what }
{
    match what {
        What::Token(TokenKind::Number { value, .. }) => value,
        _ => 0,
    }
}

// A number of four digits, or what begins with one.
fn is_year(what: What) -> bool
    ensures { result ≡ is_year what }
{
    match what {
        What::Token(TokenKind::Number { digits, .. }) => digits == 4,
        What::Every { .. } => true,
        _ => false,
    }
}

/// Whether the first of the items is a weekday.
pub fn begins_weekday(items: &[Item]) -> bool
    ensures answer { result ≡ begins is_weekday items.now }
{
    match items.first() {
        None => false,
        Some(item) => is_weekday(item.what),
    }
}

/// Whether it is the bracket before places of a weekday in the month.
pub fn begins_bracket(items: &[Item]) -> bool
    ensures answer { result ≡ begins is_bracket items.now }
{
    match items.first() {
        None => false,
        Some(item) => is_bracket(item.what),
    }
}

/// Whether it is a holiday.
pub fn begins_holiday(items: &[Item]) -> bool
    ensures answer { result ≡ begins is_holiday items.now }
{
    match items.first() {
        None => false,
        Some(item) => is_holiday(item.what),
    }
}

/// Whether it is a range of days that moves, or Easter.
pub fn begins_dates(items: &[Item]) -> bool
    ensures answer { result ≡ begins is_dates items.now }
{
    match items.first() {
        None => false,
        Some(item) => is_dates(item.what),
    }
}

/// Whether it is a month.
pub fn begins_month(items: &[Item]) -> bool
    ensures answer { result ≡ begins is_month items.now }
{
    match items.first() {
        None => false,
        Some(item) => is_month(item.what),
    }
}

/// Whether it is a month or a number of four digits.
pub fn begins_date(items: &[Item]) -> bool
    ensures answer { result ≡ begins_date items.now }
{
    begins_month(items) || begins_year(items)
}

/// Whether it is a number of four digits, or begins with one.
pub fn begins_year(items: &[Item]) -> bool
    ensures answer { result ≡ begins is_year items.now }
{
    match items.first() {
        None => false,
        Some(item) => is_year(item.what),
    }
}

/// Whether it is a number.
pub fn begins_number(items: &[Item]) -> bool
    ensures answer { result ≡ begins is_number items.now }
{
    match items.first() {
        None => false,
        Some(item) => is_number(item.what),
    }
}

/// Whether it is a time.
pub fn begins_time(items: &[Item]) -> bool
    ensures answer { result ≡ begins is_time items.now }
{
    match items.first() {
        None => false,
        Some(item) => is_time(item.what),
    }
}

fn begins_slash(items: &[Item]) -> bool
    ensures { result ≡ begins is_slash items.now }
{
    match items.first() {
        None => false,
        Some(item) => is_slash(item.what),
    }
}

/// Whether months or dates go on with the items: with a month, a number of four digits, or a number that no slash follows.
pub fn begins_month_days(items: &[Item]) -> bool
    ensures answer { result ≡ begins_month_days items.now }
{
    match items.split_first() {
        None => false,
        Some((item, later)) => {
            is_month(item.what)
                || is_year(item.what)
                || (is_number(item.what) && !begins_slash(later))
        }
    }
}

/// Whether a holiday leads that these items follow: a weekday comes directly, or after other holidays with commas before them.
pub fn leads(items: &[Item]) -> bool
    ensures answer { result ≡ leads false items.now }
{
    let mut rest = items;
    let mut by_comma = false;
    while let Some((item, later)) = rest.split_first() {
        if by_comma {
            if !is_holiday(item.what) {
                return false;
            }
            by_comma = false;
        } else {
            if is_weekday(item.what) {
                return true;
            }
            if !is_comma(item.what) {
                return false;
            }
            by_comma = true;
        }
        rest = later;
    }
    false
}

// How many places a range of them has, or that any other place is one.
fn places_in(first: What, sign: What, last: What) -> usize
    ensures { result ≡ places_in first sign last }
{
    if is_digit(first) && is_dash(sign) && is_digit(last) {
        (usize::from(value_of(last)) + 1).saturating_sub(usize::from(value_of(first)))
    } else {
        1
    }
}

/// How many places of a weekday in the month stand there, up to a comma or the end of the brackets.
pub fn places(items: &[Item]) -> usize
    ensures count { result ≡ places items.now }
{
    match items {
        [first, sign, last, ..] => places_in(first.what, sign.what, last.what),
        _ => 1,
    }
}
