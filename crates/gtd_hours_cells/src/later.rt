//! The days after those of a cell.

use crate::calendar::{longest, next_date};
use crate::cell::{
    Cell, Date, DateRange, Days, EACH_DAY, EACH_WEEK, EACH_YEAR, Once, Place, Yearly, whole,
};
use crate::meeting::{days_of_years, put_meeting};
use std::alloc::{AllocError, Global};

const SUNDAY: u8 = 1;

const SATURDAY: u8 = 64;

// The weekdays after some. Each has a bit, from Sunday on.
fn next_weekdays(weekdays: u8) -> u8 {
    let first = if weekdays >= SATURDAY { SUNDAY } else { 0 };
    weekdays.wrapping_mul(2) % 128 + first
}

fn next_dates(days: Days) -> Option<DateRange> {
    if days.years != EACH_YEAR {
        let years = days_of_years(days.years)?;
        return Some(DateRange::Once(next_once(years)));
    }
    match days.dates {
        DateRange::Each => Some(DateRange::Each),
        DateRange::Once(once) => Some(DateRange::Once(next_once(once))),
        DateRange::Yearly(yearly) => Some(DateRange::Yearly(Yearly {
            first: next_date(yearly.first)?,
            last: next_date(yearly.last)?,
        })),
    }
}

fn next_once(once: Once) -> Once {
    Once {
        first: once.first.wrapping_add(1),
        last: once.last.wrapping_add(1),
    }
}

// The days after some, if they can be said so. Their place in the month cannot.
fn next_days(days: Days) -> Option<Days> {
    let is_in_week = days.weeks == EACH_WEEK || days.weekdays % 2 == 0;
    let is_in_years = days.years == EACH_YEAR || days.dates == DateRange::Each;
    if !is_in_week || !is_in_years {
        return None;
    }
    Some(Days {
        years: EACH_YEAR,
        dates: next_dates(days)?,
        weekdays: next_weekdays(days.weekdays),
        place: Place::Any,
        ..days
    })
}

fn put_next(cells: &mut Vec<Cell>, cell: &Cell) -> Result<(), AllocError> {
    match next_days(cell.days) {
        Some(days) => {
            cells.push(Cell { days, ..*cell })?;
            Ok(())
        }
        None => Ok(()),
    }
}

// The dates of a place of a weekday in a month.
fn dates_of_place(month: u8, place: Place) -> Option<Yearly> {
    let longest = longest(month);
    let (first, last) = match place {
        Place::Any => (1, longest),
        Place::Nth(number) => (
            number.wrapping_mul(7).wrapping_sub(6),
            number.wrapping_mul(7),
        ),
        Place::NthBack(number) => (
            longest.wrapping_sub(number.wrapping_mul(7)).wrapping_add(1),
            longest.wrapping_sub(number.wrapping_mul(7)).wrapping_add(7),
        ),
    };
    if first < 1 || first > longest {
        return None;
    }
    Some(Yearly {
        first: Date { month, day: first },
        last: Date {
            month,
            day: last.min(longest),
        },
    })
}

// Puts a cell with dates in a month in place of its place there.
fn put_month(cells: &mut Vec<Cell>, cell: &Cell, month: u8) -> Result<(), AllocError> {
    let Some(yearly) = dates_of_place(month, cell.days.place) else {
        return Ok(());
    };
    let dates = whole(Days {
        dates: DateRange::Yearly(yearly),
        ..EACH_DAY
    });
    let days = Days {
        place: Place::Any,
        ..cell.days
    };
    put_meeting(cells, &Cell { days, ..*cell }, &dates)
}

// The cells with dates in place of places in the month.
fn without_places(alloc: Global, cells: &[Cell]) -> Result<Vec<Cell>, AllocError> {
    let mut dated = Vec::new(alloc);
    for cell in cells {
        put_without_place(&mut dated, cell)?;
    }
    Ok(dated)
}

fn put_without_place(cells: &mut Vec<Cell>, cell: &Cell) -> Result<(), AllocError> {
    if cell.days.place == Place::Any {
        cells.push(*cell)?;
        return Ok(());
    }
    for month in 1..13 {
        put_month(cells, cell, month)?;
    }
    Ok(())
}

/// The cells a day later.
pub fn later(alloc: Global, cells: &[Cell]) -> Result<Vec<Cell>, AllocError> {
    let dated = without_places(alloc, cells)?;
    let mut next = Vec::new(alloc);
    for cell in dated.as_slice() {
        put_next(&mut next, cell)?;
    }
    Ok(next)
}
