//! The ends of a range, as they are read.

ghost use Rattle.std.specs.Prelude.{◌≡◌, pos};
ghost use Rattle.gtd_calendar.specs.Calendar.{month_length};
ghost use Rattle.gtd_hours_moving.specs.Reading.{dated_end, day_end, is_moved, length_in, month_end, moved_end, offset_by};
ghost use Rattle.gtd_hours_moving.specs.Reading.{offset_end, place_end, place_with, suits, written_place};

use crate::begins::{at_number, begins_offset, behind_brackets};
use crate::kinds::{begins_dash, begins_sign, is_dash, is_weekday, later};
use crate::read::ReadEnd;
use crate::reading::{
    bracket_front, closing_front, day_front, fault_at, misfit, month_front, number_at,
    place_days_front, place_front, weekday_of,
};
use gtd_hours_grammar::{FaultKind, HoursFault};
use gtd_hours_ranges::{WrittenEnd, WrittenPlace};
use gtd_hours_tokens::Token;

// How many days a month has.
fn month_length(year: u16, month: u8) -> u8
    ensures { result ≡ month_length (pos year) month }
{
    match month {
        2 => {
            if year % 4 == 0 && (year % 100 != 0 || year % 400 == 0) {
                29
            } else {
                28
            }
        }
        4 | 6 | 9 | 11 => 30,
        _ => 31,
    }
}

// The same in that year, or in leap years.
fn length_in(year: Option<u16>, month: u8) -> u8
    ensures { result ≡ length_in year month }
{
    match year {
        None => month_length(2000, month),
        Some(year) => month_length(year, month),
    }
}

// `15`
fn day_end(year: Option<u16>, month: u8, token: Token) -> Result<ReadEnd, HoursFault>
    ensures { result ≡ day_end year month token }
{
    let day = number_at(2, length_in(year, month), token.from, token.kind)?;
    Ok(ReadEnd {
        end: WrittenEnd::Day { month, day },
        last: token,
    })
}

// Whether so many days may be before a place, or after it.
fn suits(place: WrittenPlace, days: u8, is_before: bool) -> bool
    ensures { result ≡ suits place days is_before }
{
    !(place.is_back && is_before) || 7 * u16::from(place.number) + u16::from(days) <= 28
}

/// `day` behind the number of an offset.
pub fn moved_end(moved: WrittenEnd, tokens: &[Token], end: usize) -> Result<ReadEnd, HoursFault>
    ensures { result ≡ moved_end moved tokens.now end }
{
    let day = day_front(tokens, end)?;
    Ok(ReadEnd {
        end: moved,
        last: day,
    })
}

// `day` behind a place, the sign of an offset and its number, which must suit the place.
fn offset_by(
    place: WrittenPlace,
    days: u8,
    sign: Token,
    tokens: &[Token],
    end: usize,
) -> Result<ReadEnd, HoursFault>
    ensures { result ≡ offset_by place days sign tokens.now end }
{
    let is_before = is_dash(sign.kind);
    if suits(place, days, is_before) {
        let moved = WrittenEnd::Place {
            place,
            days,
            is_before,
        };
        moved_end(moved, tokens, end)
    } else {
        Err(fault_at(FaultKind::Range, sign.from))
    }
}

// `+1 day` behind a place.
fn offset_end(place: WrittenPlace, tokens: &[Token], end: usize) -> Result<ReadEnd, HoursFault>
    ensures { result ≡ offset_end place tokens.now end }
{
    match tokens {
        [] => Err(misfit(tokens, end)),
        [sign, rest @ ..] => {
            let days = place_days_front(rest, end)?;
            offset_by(place, days, *sign, later(rest), end)
        }
    }
}

// Whether an offset comes behind the place of a first end, or of a last one.
fn is_moved(is_first: bool, tokens: &[Token]) -> bool
    ensures { result ≡ is_moved is_first tokens.now }
{
    if is_first {
        begins_offset(tokens)
    } else {
        begins_sign(tokens)
    }
}

// `[-1` behind a month and a weekday.
fn written_place(
    month: u8,
    weekday: u8,
    tokens: &[Token],
    end: usize,
) -> Result<WrittenPlace, HoursFault>
    ensures { result ≡ written_place month weekday tokens.now end }
{
    bracket_front(tokens, end)?;
    let number = place_front(at_number(tokens), end)?;
    Ok(WrittenPlace {
        month,
        weekday,
        number,
        is_back: begins_dash(later(tokens)),
    })
}

// Behind the closing bracket of a place, which an offset follows or not.
fn place_with(
    is_moved: bool,
    place: WrittenPlace,
    closing: Token,
    tokens: &[Token],
    end: usize,
) -> Result<ReadEnd, HoursFault>
    ensures { result ≡ place_with is_moved place closing tokens.now end }
{
    if is_moved {
        return offset_end(place, tokens, end);
    }
    Ok(ReadEnd {
        end: WrittenEnd::Place {
            place,
            days: 0,
            is_before: false,
        },
        last: closing,
    })
}

// `[-1] +1 day`
fn place_end(
    is_first: bool,
    month: u8,
    weekday: u8,
    tokens: &[Token],
    end: usize,
) -> Result<ReadEnd, HoursFault>
    ensures { result ≡ place_end is_first month weekday tokens.now end }
{
    let place = written_place(month, weekday, tokens, end)?;
    let closing = closing_front(later(at_number(tokens)), end)?;
    let behind = behind_brackets(tokens);
    place_with(is_moved(is_first, behind), place, closing, behind, end)
}

// What is behind the month of an end.
fn month_end(
    is_first: bool,
    year: Option<u16>,
    month: u8,
    tokens: &[Token],
    end: usize,
) -> Result<ReadEnd, HoursFault>
    ensures { result ≡ month_end is_first year month tokens.now end }
{
    match tokens {
        [] => Err(misfit(tokens, end)),
        [token, rest @ ..] => {
            if is_weekday(token.kind) {
                place_end(is_first, month, weekday_of(token.kind), rest, end)
            } else {
                day_end(year, month, *token)
            }
        }
    }
}

/// The first end of a range, or the last one, which is a date or a place. A year, if there is one, has been read before it.
pub fn dated_end(
    is_first: bool,
    year: Option<u16>,
    tokens: &[Token],
    end: usize,
) -> Result<ReadEnd, HoursFault>
    ensures { result ≡ dated_end is_first year tokens.now end }
{
    let month = month_front(tokens, end)?;
    month_end(is_first, year, month, later(tokens), end)
}
