//! What cells share.

use crate::calendar::{day_in, fields_of};
use crate::cell::{
    Cell, Date, DateRange, Days, EACH_WEEKDAY, EACH_YEAR, Numbers, Once, Place, Yearly, is_whole,
};
use crate::yearly::shared_from;
use std::alloc::AllocError;

// Days are looked at in so many years at most.
const MOST_YEARS: i64 = 12;

const NEW_YEAR: Date = Date { month: 1, day: 1 };

const NEW_YEARS_EVE: Date = Date { month: 12, day: 31 };

fn shared_numbers(numbers: Numbers, other: Numbers) -> Option<Numbers> {
    let first = numbers.first.max(other.first);
    let last = numbers.last.min(other.last);
    if first > last {
        return None;
    }
    Some(Numbers { first, last })
}

fn shared_place(place: Place, other: Place) -> Option<Place> {
    if place == Place::Any || place == other {
        return Some(other);
    }
    if other == Place::Any {
        return Some(place);
    }
    None
}

// The minutes of a cell that the other has, too.
fn shared_minutes(cell: &Cell, other: &Cell) -> Option<Numbers> {
    let minutes = Numbers {
        first: cell.begin,
        last: cell.end,
    };
    let others = Numbers {
        first: other.begin,
        last: other.end,
    };
    if is_whole(cell) {
        return Some(others);
    }
    if is_whole(other) {
        return Some(minutes);
    }
    let shared = shared_numbers(minutes, others)?;
    if shared.first == shared.last {
        return None;
    }
    Some(shared)
}

// What two cells share, if their dates are those of the second one.
fn shared_but_dates(cell: &Cell, other: &Cell) -> Option<Cell> {
    let minutes = shared_minutes(cell, other)?;
    let weekdays = cell.days.weekdays & other.days.weekdays;
    if weekdays == 0 {
        return None;
    }
    let days = Days {
        years: shared_numbers(cell.days.years, other.days.years)?,
        dates: other.days.dates,
        weeks: shared_numbers(cell.days.weeks, other.days.weeks)?,
        weekdays,
        place: shared_place(cell.days.place, other.days.place)?,
    };
    Some(Cell {
        adds: cell.adds,
        days,
        begin: minutes.first,
        end: minutes.last,
    })
}

// Puts a cell with other dates.
fn put_dates(cells: &mut Vec<Cell>, cell: &Cell, dates: DateRange) -> Result<(), AllocError> {
    let days = Days { dates, ..cell.days };
    cells.push(Cell { days, ..*cell })?;
    Ok(())
}

fn put_once(cells: &mut Vec<Cell>, cell: &Cell, once: Once, other: Once) -> Result<(), AllocError> {
    let first = once.first.max(other.first);
    let last = once.last.min(other.last);
    if first > last {
        return Ok(());
    }
    put_dates(cells, cell, DateRange::Once(Once { first, last }))
}

fn put_yearly(
    cells: &mut Vec<Cell>,
    cell: &Cell,
    yearly: Yearly,
    other: Yearly,
) -> Result<(), AllocError> {
    if let Some(shared) = shared_from(yearly, other) {
        put_dates(cells, cell, DateRange::Yearly(shared))?;
    }
    if yearly.first == other.first {
        return Ok(());
    }
    if let Some(shared) = shared_from(other, yearly) {
        put_dates(cells, cell, DateRange::Yearly(shared))?;
    }
    Ok(())
}

fn year_of(day: i64) -> i64 {
    match fields_of(day) {
        Some(fields) => fields.year,
        None => 0,
    }
}

// The days of a range of dates that begins in a year.
fn days_of_year(year: i64, yearly: Yearly) -> Option<Once> {
    let first = day_in(year, yearly.first)?;
    let last = day_in(year, yearly.last)?;
    if first <= last {
        return Some(Once { first, last });
    }
    let last = day_in(year.wrapping_add(1), yearly.last)?;
    Some(Once { first, last })
}

fn put_in_years(
    cells: &mut Vec<Cell>,
    cell: &Cell,
    once: Once,
    yearly: Yearly,
) -> Result<(), AllocError> {
    let before = year_of(once.first).wrapping_sub(1);
    for later in 0..MOST_YEARS {
        if let Some(days) = days_of_year(before.wrapping_add(later), yearly) {
            put_once(cells, cell, once, days)?;
        }
    }
    Ok(())
}

/// The days of years, from the first of January on.
pub fn days_of_years(years: Numbers) -> Option<Once> {
    let first = day_in(i64::from(years.first), NEW_YEAR)?;
    let last = day_in(i64::from(years.last), NEW_YEARS_EVE)?;
    Some(Once { first, last })
}

// Puts the days from one to another, of the years that the cell has.
fn put_years(cells: &mut Vec<Cell>, cell: &Cell, once: Once) -> Result<(), AllocError> {
    if cell.days.years == EACH_YEAR {
        return put_dates(cells, cell, DateRange::Once(once));
    }
    let days = Days {
        years: EACH_YEAR,
        ..cell.days
    };
    match days_of_years(cell.days.years) {
        Some(years) => put_once(cells, &Cell { days, ..*cell }, once, years),
        None => Ok(()),
    }
}

fn put_shared(cells: &mut Vec<Cell>, cell: &Cell, dates: DateRange) -> Result<(), AllocError> {
    match dates {
        DateRange::Each => match cell.days.dates {
            DateRange::Once(once) => put_years(cells, cell, once),
            own => put_dates(cells, cell, own),
        },
        DateRange::Yearly(yearly) => match cell.days.dates {
            DateRange::Each => put_dates(cells, cell, dates),
            DateRange::Yearly(other) => put_yearly(cells, cell, yearly, other),
            DateRange::Once(once) => put_in_years(cells, cell, once, yearly),
        },
        DateRange::Once(once) => match cell.days.dates {
            DateRange::Each => put_years(cells, cell, once),
            DateRange::Yearly(yearly) => put_in_years(cells, cell, once, yearly),
            DateRange::Once(other) => put_once(cells, cell, once, other),
        },
    }
}

/// Puts what two cells share. It is added or taken away as the first one.
pub fn put_meeting(cells: &mut Vec<Cell>, cell: &Cell, other: &Cell) -> Result<(), AllocError> {
    match shared_but_dates(cell, other) {
        Some(shared) => put_shared(cells, &shared, cell.days.dates),
        None => Ok(()),
    }
}
