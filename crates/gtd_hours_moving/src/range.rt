//! Ranges, as they are read.

ghost use Rattle.std.specs.Prelude.{◌≡◌, ◌+◌, ◌≤◌, if◌then◌else◌};
ghost use Rattle.gtd_hours_moving.specs.Reading.{end_tokens, last_year_front, one_day, range_from, range_front, range_to};
ghost use Rattle.gtd_hours_moving.specs.Reading.{range_tokens, year_tokens};

use crate::begins::behind_end;
use crate::easter::end_front;
use crate::kinds::{begins_dash, later};
use crate::read::{ReadEnd, ReadRange};
use crate::reading::{behind_read, year_front};
use gtd_hours_grammar::HoursFault;
use gtd_hours_ranges::{WrittenEnd, WrittenRange};
use gtd_hours_tokens::Token;

// The year before the last end. Only where the first end has a year may there be one.
fn last_year_front(year: Option<u16>, tokens: &[Token]) -> Result<Option<u16>, HoursFault>
    ensures { result ≡ last_year_front year tokens.now }
{
    match year {
        None => Ok(None),
        Some(_) => year_front(tokens),
    }
}

// What is behind the dash, behind the year and the first end of a range.
fn range_to(
    year: Option<u16>,
    first: WrittenEnd,
    text: &[u8],
    tokens: &[Token],
) -> Result<ReadRange, HoursFault>
    ensures { result ≡ range_to year first text.now tokens.now }
{
    let last_year = last_year_front(year, tokens)?;
    let last = end_front(false, last_year, text, behind_read(last_year, tokens))?;
    Ok(ReadRange {
        range: WrittenRange {
            year,
            first,
            last_year,
            last: last.end,
        },
        is_one: false,
        last: last.last,
    })
}

// One day of a year.
fn one_day(year: Option<u16>, day: ReadEnd) -> ReadRange
    ensures { result ≡ one_day year day }
{
    ReadRange {
        range: WrittenRange {
            year,
            first: day.end,
            last_year: year,
            last: day.end,
        },
        is_one: true,
        last: day.last,
    }
}

// What is behind the year and the first end.
fn range_from(
    year: Option<u16>,
    first: ReadEnd,
    text: &[u8],
    tokens: &[Token],
) -> Result<ReadRange, HoursFault>
    ensures { result ≡ range_from year first text.now tokens.now }
{
    if begins_dash(tokens) {
        range_to(year, first.end, text, later(tokens))
    } else {
        Ok(one_day(year, first))
    }
}

/// The range, or Easter of a year, that tokens begin.
pub fn range_front(text: &[u8], tokens: &[Token]) -> Result<ReadRange, HoursFault>
    ensures { result ≡ range_front text.now tokens.now }
{
    let year = year_front(tokens)?;
    let dated = behind_read(year, tokens);
    let first = end_front(true, year, text, dated)?;
    range_from(year, first, text, behind_end(text, dated))
}

fn year_tokens(year: Option<u16>) -> usize
    ensures value { result ≡ year_tokens year }
    ensures few { result ≤ 1 }
{
    match year {
        None => 0,
        Some(_) => 1,
    }
}

fn end_tokens(end: WrittenEnd) -> usize
    ensures value { result ≡ end_tokens end }
    ensures few { result ≤ 9 }
{
    match end {
        WrittenEnd::Day { .. } => 2,
        WrittenEnd::Place { place, days, .. } => {
            let brackets = if place.is_back { 6 } else { 5 };
            if days == 0 { brackets } else { brackets + 3 }
        }
        WrittenEnd::Easter { days, .. } => { if days == 0 { 1 } else { 4 } }
    }
}

fn range_end_tokens(read: ReadRange) -> usize
    ensures value { result ≡ (if read.is_one then 0 else 1 + year_tokens read.range.last_year + end_tokens read.range.last) }
    ensures few { result ≤ 11 }
{
    if read.is_one {
        0
    } else {
        1 + year_tokens(read.range.last_year) + end_tokens(read.range.last)
    }
}

/// How many tokens a range is.
pub fn range_tokens(read: ReadRange) -> usize
    ensures { result ≡ range_tokens read }
{
    year_tokens(read.range.year) + end_tokens(read.range.first) + range_end_tokens(read)
}
