//! The cells of domains that repeat each week.

use crate::cell::{Cell, Days, EACH_DAY, whole};
use crate::starts::weekday_bit;
use crate::stretch::put_run;
use gtd_calendar::{is_calendar_day, second_of_day, weekday};
use gtd_core::{Domain, Horizon, Span};
use gtd_eval::{is_weekly, spans};
use std::alloc::{AllocError, Global};

// The days that are looked at: three weeks from 2024-01-07, a Sunday. The spans that begin in the second one are those of a week.
const FIRST_DAY: i64 = 19_729;

const SECOND_WEEK: i64 = 19_736;

const THIRD_WEEK: i64 = 19_743;

const END_DAY: i64 = 19_750;

fn is_in_second_week(day: i64) -> bool {
    SECOND_WEEK <= day && day < THIRD_WEEK
}

fn weekday_of(day: i64) -> u8 {
    if is_calendar_day(day) {
        weekday_bit(weekday(day))
    } else {
        0
    }
}

// Puts a span, or nothing if it begins within a minute.
fn put_span(alloc: Global, cells: &mut Vec<Cell>, span: Span) -> Result<(), AllocError> {
    let day = span.from().day();
    if day == FIRST_DAY && span.until().day() >= END_DAY {
        cells.push(whole(EACH_DAY))?;
        return Ok(());
    }
    let seconds = span.until().0.wrapping_sub(span.from().0);
    let second = second_of_day(span.from());
    if !is_in_second_week(day)
        || second % 60 != 0
        || seconds % 60 != 0
        || seconds < 0
        || seconds > 2_000_000
    {
        return Ok(());
    }
    let days = Days {
        weekdays: weekday_of(day),
        ..EACH_DAY
    };
    put_run(
        alloc,
        cells,
        days,
        (second / 60) as u16,
        (seconds / 60) as u32,
    )
}

/// The cells of a domain, if it repeats each week.
pub fn cells_of_week(alloc: Global, domain: &Domain) -> Result<Vec<Cell>, AllocError> {
    let mut cells = Vec::new(alloc);
    if !is_weekly(domain) {
        return Ok(cells);
    }
    let Ok(horizon) = Horizon::new(FIRST_DAY, END_DAY) else {
        return Ok(cells);
    };
    let list = spans(alloc, domain, horizon)?;
    for span in list.spans() {
        put_span(alloc, &mut cells, *span)?;
    }
    Ok(cells)
}
