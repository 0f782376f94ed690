//! The cells of basic domains.

ghost use Rattle.std.specs.Prelude.{◌≡◌, ◌≤◌, ◌<◌, ◌^◌, ◌-◌, ◌⊎◌};

use crate::calendar::{day_in, days_once, longest};
use crate::cell::{
    Cell, Date, DateRange, Days, EACH_DAY, EACH_WEEKDAY, MONDAY, Numbers, Place, Yearly, whole,
};
use crate::stretch::put_stretch;
use gtd_core::{Basic, StartParts};
use std::alloc::{AllocError, Global};

/// The bit of a weekday, of which Sunday is 1 and Saturday 7; no bit for another number.
pub fn weekday_bit(weekday: u8) -> u8
    ensures bit { 1 ≤ weekday → weekday ≤ 7 → result ≡ 2 ^ (weekday - 1) }
    ensures none { (weekday ≡ 0) ⊎ (7 < weekday) → result ≡ 0 }
{
    match weekday {
        1 => 1,
        2 => 2,
        3 => 4,
        4 => 8,
        5 => 16,
        6 => 32,
        7 => 64,
        _ => 0,
    }
}

fn gives_weekday(parts: &StartParts) -> bool {
    parts.weekdays != 0 || parts.nth.is_some() || parts.nth_back.is_some()
}

fn gives_clock(parts: &StartParts) -> bool {
    parts.hour.is_some() || parts.minute.is_some()
}

// Whether the level of days or a finer one is given, so that coarser ones may have any number.
fn is_fine(parts: &StartParts) -> bool {
    parts.day.is_some() || gives_weekday(parts) || gives_clock(parts)
}

// The days of the weekdays and of the place in the month that are given.
fn on_weekdays(parts: &StartParts) -> Days {
    let weekdays = if parts.weekdays == 0 {
        EACH_WEEKDAY
    } else {
        parts.weekdays
    };
    if let Some((number, weekday)) = parts.nth {
        return Days {
            weekdays: weekdays & weekday_bit(weekday),
            place: Place::Nth(number),
            ..EACH_DAY
        };
    }
    if let Some((number, weekday)) = parts.nth_back {
        return Days {
            weekdays: weekdays & weekday_bit(weekday),
            place: Place::NthBack(number),
            ..EACH_DAY
        };
    }
    Days {
        weekdays,
        ..EACH_DAY
    }
}

// The dates in a month that a start matches.
fn dates_in(parts: &StartParts, month: u8) -> Option<Yearly> {
    let longest = longest(month);
    let (first, last) = match parts.day {
        Some(day) => (day, day),
        None => { if is_fine(parts) { (1, longest) } else { (1, 1) } }
    };
    if last > longest {
        return None;
    }
    Some(Yearly {
        first: Date { month, day: first },
        last: Date { month, day: last },
    })
}

// The dates of a range in the year that is given, or in each year.
fn in_year(parts: &StartParts, yearly: Yearly) -> Option<Days> {
    match parts.year {
        None => Some(Days {
            dates: DateRange::Yearly(yearly),
            ..EACH_DAY
        }),
        Some(year) => {
            let first = day_in(i64::from(year), yearly.first)?;
            let last = day_in(i64::from(year), yearly.last)?;
            days_once(first, last)
        }
    }
}

// Puts the days of a month that a start matches.
fn put_month(cells: &mut Vec<Cell>, parts: &StartParts, month: u8) -> Result<(), AllocError> {
    let Some(yearly) = dates_in(parts, month) else {
        return Ok(());
    };
    let Some(dates) = in_year(parts, yearly) else {
        return Ok(());
    };
    let weekdays = on_weekdays(parts);
    cells.push(whole(Days {
        weekdays: weekdays.weekdays,
        place: weekdays.place,
        ..dates
    }))?;
    Ok(())
}

// Puts the days of a week that a start matches, or of a year, or of each year.
fn put_any(cells: &mut Vec<Cell>, parts: &StartParts) -> Result<(), AllocError> {
    let mut days = on_weekdays(parts);
    if let Some(year) = parts.year {
        days = Days {
            years: Numbers {
                first: year,
                last: year,
            },
            ..days
        };
    }
    if let Some(week) = parts.week {
        let week = u16::from(week);
        days = Days {
            weeks: Numbers {
                first: week,
                last: week,
            },
            ..days
        };
    }
    if !is_fine(parts) {
        days = Days {
            weekdays: MONDAY,
            ..days
        };
    }
    cells.push(whole(days))?;
    Ok(())
}

fn put_months(cells: &mut Vec<Cell>, parts: &StartParts) -> Result<(), AllocError> {
    for month in 1..13 {
        put_month(cells, parts, month)?;
    }
    Ok(())
}

// The days that a start matches.
fn days_of(alloc: Global, parts: &StartParts) -> Result<Vec<Cell>, AllocError> {
    let mut cells = Vec::new(alloc);
    if let Some(month) = parts.month {
        put_month(&mut cells, parts, month)?;
        return Ok(cells);
    }
    if parts.day.is_some() {
        put_months(&mut cells, parts)?;
        return Ok(cells);
    }
    if parts.week.is_none() && !is_fine(parts) {
        put_month(&mut cells, parts, 1)?;
        return Ok(cells);
    }
    put_any(&mut cells, parts)?;
    Ok(cells)
}

// The first and the last hour at which a start matches.
fn hours_of_start(parts: &StartParts) -> Numbers {
    match parts.hour {
        Some(hour) => Numbers {
            first: u16::from(hour),
            last: u16::from(hour),
        },
        None => Numbers {
            first: 0,
            last: if parts.minute.is_some() { 23 } else { 0 },
        },
    }
}

// Puts the stretches of a basic domain that begin in an hour.
fn put_hour(
    alloc: Global,
    cells: &mut Vec<Cell>,
    days: &[Cell],
    basic: &Basic,
    hour: u16,
) -> Result<(), AllocError> {
    let minute = match basic.start.parts().minute {
        Some(minute) => u16::from(minute),
        None => 0,
    };
    for cell in days {
        put_stretch(
            alloc,
            cells,
            cell.days,
            hour.wrapping_mul(60).wrapping_add(minute),
            &basic.duration,
        )?;
    }
    Ok(())
}

/// The cells of a basic domain, if they can have its seconds.
pub fn cells_of_basic(alloc: Global, basic: &Basic) -> Result<Vec<Cell>, AllocError> {
    let parts = basic.start.parts();
    let mut cells = Vec::new(alloc);
    if let Some(second) = parts.second {
        if second != 0 || parts.minute.is_none() {
            return Ok(cells);
        }
    }
    let days = days_of(alloc, &parts)?;
    let hours = hours_of_start(&parts);
    for hour in hours.first..hours.last.saturating_add(1) {
        put_hour(alloc, &mut cells, days.as_slice(), basic, hour)?;
    }
    Ok(cells)
}
