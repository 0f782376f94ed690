//! The cells of stretches.

use crate::calendar::{days_once, days_yearly, sample_day};
use crate::cell::{
    Cell, DAY_MINUTES, DateRange, Days, EACH_DAY, EACH_WEEK, EACH_WEEKDAY, MONDAY, Numbers, Once,
    Yearly, whole,
};
use crate::later::later;
use gtd_calendar::{end_of, is_calendar_day, second_of_day};
use gtd_core::{Duration, Sec};
use std::alloc::{AllocError, Global};

// The longest stretch that is cut into days, in minutes.
const MOST_MINUTES: u32 = 20_160;

const DAY_SECONDS: i64 = 86_400;

const WEEK_MINUTES: u32 = 10_080;

// One day of all time or of each year.
#[derive(Clone, Copy)]
struct Single {
    is_yearly: bool,
    day: i64,
}

// Where a stretch begins and ends: a day and a minute of it.
#[derive(Clone, Copy)]
struct Ends {
    begin: u16,
    last_day: i64,
    end: u16,
}

// The day that some days are, if it is one.
fn single_day(days: Days) -> Option<Single> {
    match days.dates {
        DateRange::Each => None,
        DateRange::Yearly(yearly) => single_yearly(days, yearly),
        DateRange::Once(once) => single_once(days, once),
    }
}

fn single_yearly(days: Days, yearly: Yearly) -> Option<Single> {
    let dates = Days {
        dates: days.dates,
        ..EACH_DAY
    };
    if yearly.first != yearly.last || days != dates {
        return None;
    }
    let day = sample_day(yearly.first)?;
    Some(Single {
        is_yearly: true,
        day,
    })
}

fn single_once(days: Days, once: Once) -> Option<Single> {
    let dates = Days {
        dates: days.dates,
        ..EACH_DAY
    };
    if once.first != once.last || days != dates {
        return None;
    }
    Some(Single {
        is_yearly: false,
        day: once.first,
    })
}

// The end of a stretch that begins on a day of the calendar.
fn end_from(start: Sec, duration: &Duration) -> Option<Sec> {
    if is_calendar_day(start.day()) {
        Some(end_of(start, duration))
    } else {
        None
    }
}

// Where a stretch from a minute of a day on ends, if it does so at a full minute.
fn ends_of(day: i64, begin: u16, duration: &Duration) -> Option<Ends> {
    if !is_calendar_day(day) {
        return None;
    }
    let end = end_from(Sec(day * DAY_SECONDS + i64::from(begin) * 60), duration)?;
    let second = second_of_day(end);
    if second % 60 != 0 {
        return None;
    }
    Some(Ends {
        begin,
        last_day: end.day(),
        end: (second / 60) as u16,
    })
}

// Puts the minutes of the days from one to another.
fn put_days(
    cells: &mut Vec<Cell>,
    single: Single,
    last: i64,
    begin: u16,
    end: u16,
) -> Result<(), AllocError> {
    if last < single.day || end <= begin {
        return Ok(());
    }
    let days = if single.is_yearly {
        days_yearly(single.day, last)
    } else {
        days_once(single.day, last)
    };
    let Some(days) = days else {
        return Ok(());
    };
    cells.push(Cell {
        begin,
        end,
        ..whole(days)
    })?;
    Ok(())
}

// Puts a stretch from one day on: the rest of this day, the days between, and the beginning of the last one.
fn put_from_day(cells: &mut Vec<Cell>, single: Single, ends: Ends) -> Result<(), AllocError> {
    let day = single.day;
    let last = Single {
        day: ends.last_day,
        ..single
    };
    if ends.last_day == day {
        return put_days(cells, single, day, ends.begin, ends.end);
    }
    if ends.last_day == day.wrapping_add(1) && ends.end <= ends.begin {
        return put_days(
            cells,
            single,
            day,
            ends.begin,
            ends.end.wrapping_add(DAY_MINUTES),
        );
    }
    let before = ends.last_day.wrapping_sub(1);
    if ends.begin == 0 {
        put_days(cells, single, before, 0, DAY_MINUTES)?;
    } else {
        let next = Single {
            day: day.wrapping_add(1),
            ..single
        };
        put_days(cells, single, day, ends.begin, DAY_MINUTES)?;
        put_days(cells, next, before, 0, DAY_MINUTES)?;
    }
    put_days(cells, last, ends.last_day, 0, ends.end)
}

// Puts some minutes of the days of cells.
fn put_minutes(
    cells: &mut Vec<Cell>,
    days: &[Cell],
    begin: u16,
    end: u32,
) -> Result<(), AllocError> {
    let end = end.min(u32::from(DAY_MINUTES)) as u16;
    for cell in days {
        cells.push(Cell {
            begin,
            end,
            ..*cell
        })?;
    }
    Ok(())
}

// Puts so many minutes more, from the beginning of the days after some on.
fn put_later(
    alloc: Global,
    cells: &mut Vec<Cell>,
    days: Vec<Cell>,
    minutes: u32,
) -> Result<(), AllocError> {
    let mut today = days;
    let mut rest = minutes;
    for _ in 0..15 {
        if rest == 0 {
            return Ok(());
        }
        today = later(alloc, today.as_slice())?;
        put_minutes(cells, today.as_slice(), 0, rest)?;
        rest = rest.saturating_sub(u32::from(DAY_MINUTES));
    }
    Ok(())
}

/// Puts so many minutes from one of some days on.
pub fn put_run(
    alloc: Global,
    cells: &mut Vec<Cell>,
    days: Days,
    begin: u16,
    minutes: u32,
) -> Result<(), AllocError> {
    if minutes == 0 || minutes > MOST_MINUTES {
        return Ok(());
    }
    let end = u32::from(begin) + minutes;
    if minutes <= u32::from(DAY_MINUTES) {
        cells.push(Cell {
            begin,
            end: begin.saturating_add(minutes as u16),
            ..whole(days)
        })?;
        return Ok(());
    }
    let mut today = Vec::new(alloc);
    today.push(whole(days))?;
    put_minutes(cells, today.as_slice(), begin, end)?;
    put_later(alloc, cells, today, end - u32::from(DAY_MINUTES))
}

// The days of full weeks from the Monday of one on.
fn weeks_from(days: Days, begin: u16, minutes: u32) -> Option<Days> {
    if days.weeks == EACH_WEEK || days.weekdays != MONDAY || begin != 0 {
        return None;
    }
    if minutes == 0 || minutes > 53 * WEEK_MINUTES || minutes % WEEK_MINUTES != 0 {
        return None;
    }
    let more = (minutes / WEEK_MINUTES) as u16 - 1;
    let weeks = Numbers {
        first: days.weeks.first,
        last: days.weeks.last.saturating_add(more),
    };
    Some(Days {
        weeks,
        weekdays: EACH_WEEKDAY,
        ..days
    })
}

// The minutes that a duration without months lasts, if it lasts full minutes.
fn minutes_of(duration: &Duration) -> Option<u32> {
    if duration.whole_months() != 0 || duration.clock() % 60 != 0 {
        return None;
    }
    Some(duration.whole_days() * u32::from(DAY_MINUTES) + duration.clock() / 60)
}

/// Puts the stretches that begin at a minute of some days, if cells can have them.
pub fn put_stretch(
    alloc: Global,
    cells: &mut Vec<Cell>,
    days: Days,
    begin: u16,
    duration: &Duration,
) -> Result<(), AllocError> {
    if let Some(single) = single_day(days) {
        return match ends_of(single.day, begin, duration) {
            Some(ends) => put_from_day(cells, single, ends),
            None => Ok(()),
        };
    }
    let Some(minutes) = minutes_of(duration) else {
        return Ok(());
    };
    if days == EACH_DAY && minutes >= u32::from(DAY_MINUTES) {
        cells.push(whole(days))?;
        return Ok(());
    }
    match weeks_from(days, begin, minutes) {
        Some(weeks) => {
            cells.push(whole(weeks))?;
            Ok(())
        }
        None => put_run(alloc, cells, days, begin, minutes),
    }
}
