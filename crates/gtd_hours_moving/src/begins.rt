//! Whether tokens begin a range that moves, or Easter of a year, by their kinds.

ghost use Rattle.std.specs.Prelude.{◌≡◌};
ghost use Rattle.gtd_hours_moving.specs.Begins.{at_number, begins_brackets, begins_easter_of_year, begins_from_easter};
ghost use Rattle.gtd_hours_moving.specs.Begins.{begins_from_place, begins_moved_end, begins_moving, begins_offset};
ghost use Rattle.gtd_hours_moving.specs.Begins.{begins_to_moved, begins_weekday_in, behind_brackets, behind_end, behind_month};
ghost use Rattle.gtd_hours_moving.specs.Begins.{behind_offset, behind_year, goes_on_by_dash};

use crate::kinds::{
    begins_bracket, begins_closing, begins_dash, begins_day, begins_month, begins_number,
    begins_sign, begins_weekday, begins_year, later,
};
use crate::words::begins_easter;
use gtd_hours_tokens::Token;

// What is behind a year, if the tokens begin with one.
fn behind_year(tokens: &[Token]) -> &[Token]
    ensures { result.now ≡ behind_year tokens.now }
{
    if begins_year(tokens) {
        later(tokens)
    } else {
        tokens
    }
}

/// Brackets, from their number on.
pub fn at_number(tokens: &[Token]) -> &[Token]
    ensures { result.now ≡ at_number tokens.now }
{
    if begins_dash(later(tokens)) {
        later(later(tokens))
    } else {
        later(tokens)
    }
}

fn begins_brackets(tokens: &[Token]) -> bool
    ensures { result ≡ begins_brackets tokens.now }
{
    begins_bracket(tokens)
        && begins_number(at_number(tokens))
        && begins_closing(later(at_number(tokens)))
}

/// What is behind the brackets of a place.
pub fn behind_brackets(tokens: &[Token]) -> &[Token]
    ensures { result.now ≡ behind_brackets tokens.now }
{
    later(later(at_number(tokens)))
}

/// Whether the tokens begin with a sign, a number and `day`.
pub fn begins_offset(tokens: &[Token]) -> bool
    ensures { result ≡ begins_offset tokens.now }
{
    begins_sign(tokens) && begins_number(later(tokens)) && begins_day(later(later(tokens)))
}

fn behind_offset(tokens: &[Token]) -> &[Token]
    ensures { result.now ≡ behind_offset tokens.now }
{
    if begins_offset(tokens) {
        later(later(later(tokens)))
    } else {
        tokens
    }
}

// What is behind the end of a range, behind its month.
fn behind_month(tokens: &[Token]) -> &[Token]
    ensures { result.now ≡ behind_month tokens.now }
{
    if begins_weekday(tokens) {
        behind_offset(behind_brackets(later(tokens)))
    } else {
        later(tokens)
    }
}

fn begins_from_place(tokens: &[Token]) -> bool
    ensures { result ≡ begins_from_place tokens.now }
{
    begins_month(tokens)
        && begins_weekday(later(tokens))
        && begins_brackets(later(later(tokens)))
        && begins_dash(behind_month(later(tokens)))
}

fn begins_weekday_in(tokens: &[Token]) -> bool
    ensures { result ≡ begins_weekday_in tokens.now }
{
    begins_month(tokens) && begins_weekday(later(tokens))
}

fn begins_moved_end(text: &[u8], tokens: &[Token]) -> bool
    ensures { result ≡ begins_moved_end text.now tokens.now }
{
    begins_easter(text, tokens) || begins_weekday_in(tokens)
}

fn begins_to_moved(dated: bool, text: &[u8], tokens: &[Token]) -> bool
    ensures { result ≡ begins_to_moved dated text.now tokens.now }
{
    if !(begins_month(tokens)
        && begins_number(later(tokens))
        && begins_dash(later(later(tokens))))
    {
        return false;
    }
    let behind = later(later(later(tokens)));
    if dated {
        begins_moved_end(text, behind_year(behind))
    } else {
        begins_moved_end(text, behind)
    }
}

fn goes_on_by_dash(tokens: &[Token]) -> bool
    ensures { result ≡ goes_on_by_dash tokens.now }
{
    if begins_offset(tokens) {
        begins_dash(behind_offset(tokens))
    } else {
        begins_dash(tokens) && !begins_weekday(later(tokens))
    }
}

fn begins_from_easter(text: &[u8], tokens: &[Token]) -> bool
    ensures { result ≡ begins_from_easter text.now tokens.now }
{
    begins_easter(text, tokens) && goes_on_by_dash(later(tokens))
}

fn begins_easter_of_year(text: &[u8], tokens: &[Token]) -> bool
    ensures { result ≡ begins_easter_of_year text.now tokens.now }
{
    begins_year(tokens) && begins_easter(text, later(tokens))
}

/// Whether the tokens begin a range of days that moves, or Easter of a year.
pub fn begins_moving(text: &[u8], tokens: &[Token]) -> bool
    ensures { result ≡ begins_moving text.now tokens.now }
{
    begins_from_place(behind_year(tokens))
        || begins_to_moved(begins_year(tokens), text, behind_year(tokens))
        || begins_from_easter(text, behind_year(tokens))
        || begins_easter_of_year(text, tokens)
}

/// What is behind the end of a range.
pub fn behind_end<'a>(text: &[u8], tokens: &'a [Token]) -> &'a [Token]
    ensures { result.now ≡ behind_end text.now tokens.now }
{
    if begins_easter(text, tokens) {
        behind_offset(later(tokens))
    } else {
        behind_month(later(tokens))
    }
}
