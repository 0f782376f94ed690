//! Selectors of days.

use gtd_hours::{
    Dated, Dates, Kind, MonthDay, Months, Selector, WeekdayPlace, Weekdays, Weeks, YearDate, Years,
};
use gtd_hours_cells::{
    Date, DateRange, Days, EACH_WEEK, EACH_WEEKDAY, EACH_YEAR, Once, Place, Yearly, fields_of,
    longest, next_date, short_year, weekday_bit,
};
use std::alloc::{AllocError, Global};

fn month_day(date: Date) -> Option<MonthDay> {
    MonthDay::new(date.month, date.day)
}

fn yearly_selector(yearly: Yearly) -> Option<Selector> {
    if yearly.first.day == 1 && yearly.last.day == longest(yearly.last.month) {
        let months = Months::new(yearly.first.month, yearly.last.month)?;
        return Some(Selector::Months(months));
    }
    let dates = Dates {
        first: month_day(yearly.first)?,
        last: month_day(yearly.last)?,
    };
    Some(Selector::Dates(dates))
}

fn year_date(day: i64) -> Option<YearDate> {
    let fields = fields_of(day)?;
    YearDate::new(short_year(fields.year)?, fields.month, fields.day)
}

fn once_selector(once: Once) -> Option<Selector> {
    let dated = Dated::new(year_date(once.first)?, year_date(once.last)?)?;
    Some(Selector::Dated(dated))
}

fn dates_selector(dates: DateRange) -> Option<Selector> {
    match dates {
        DateRange::Each => None,
        DateRange::Yearly(yearly) => yearly_selector(yearly),
        DateRange::Once(once) => once_selector(once),
    }
}

// The dates of two ranges, if the second one begins where the first one ends.
fn one_range(dates: DateRange, next: DateRange) -> Option<DateRange> {
    match dates {
        DateRange::Each => None,
        DateRange::Yearly(yearly) => match next {
            DateRange::Yearly(other) => one_yearly(yearly, other),
            _ => None,
        },
        DateRange::Once(once) => match next {
            DateRange::Once(other) => one_once(once, other),
            _ => None,
        },
    }
}

fn one_yearly(yearly: Yearly, next: Yearly) -> Option<DateRange> {
    if next_date(yearly.last)? != next.first {
        return None;
    }
    Some(DateRange::Yearly(Yearly {
        first: yearly.first,
        last: next.last,
    }))
}

fn one_once(once: Once, next: Once) -> Option<DateRange> {
    if once.last.wrapping_add(1) != next.first {
        return None;
    }
    Some(DateRange::Once(Once {
        first: once.first,
        last: next.last,
    }))
}

// Puts a selector, if there is one.
fn put(selectors: &mut Vec<Selector>, selector: Option<Selector>) -> Result<(), AllocError> {
    match selector {
        Some(selector) => {
            selectors.push(selector)?;
            Ok(())
        }
        None => Ok(()),
    }
}

fn put_kind(kinds: &mut Vec<Kind>, selectors: Vec<Selector>) -> Result<(), AllocError> {
    if selectors.is_empty() {
        return Ok(());
    }
    kinds.push(Kind { selectors })?;
    Ok(())
}

/// Puts the kind of years of some days, if they are of some only.
pub fn put_years(alloc: Global, kinds: &mut Vec<Kind>, days: Days) -> Result<(), AllocError> {
    let mut selectors = Vec::new(alloc);
    if days.years != EACH_YEAR {
        if let Some(years) = Years::new(days.years.first, days.years.last, 1) {
            put(&mut selectors, Some(Selector::Years(years)))?;
        }
    }
    put_kind(kinds, selectors)
}

/// Puts the kind of dates of some days.
pub fn put_dates(
    alloc: Global,
    kinds: &mut Vec<Kind>,
    dates: &[DateRange],
) -> Result<(), AllocError> {
    let mut selectors = Vec::new(alloc);
    let mut range = DateRange::Each;
    for next in dates {
        match one_range(range, *next) {
            Some(more) => {
                range = more;
            }
            None => {
                put(&mut selectors, dates_selector(range))?;
                range = *next;
            }
        }
    }
    put(&mut selectors, dates_selector(range))?;
    put_kind(kinds, selectors)
}

/// Puts the kind of weeks of some days, if they are of some only.
pub fn put_weeks(alloc: Global, kinds: &mut Vec<Kind>, days: Days) -> Result<(), AllocError> {
    let mut selectors = Vec::new(alloc);
    if days.weeks != EACH_WEEK {
        if let Some(weeks) = Weeks::new(days.weeks.first, days.weeks.last, 1) {
            put(&mut selectors, Some(Selector::Weeks(weeks)))?;
        }
    }
    put_kind(kinds, selectors)
}

fn has(weekdays: u8, weekday: u8) -> bool {
    weekdays & weekday_bit(weekday) != 0
}

fn after(weekday: u8) -> u8 {
    if weekday >= 7 { 1 } else { weekday + 1 }
}

fn before(weekday: u8) -> u8 {
    if weekday <= 1 { 7 } else { weekday - 1 }
}

// The last weekday of those that follow one after another from one on.
fn last_from(weekdays: u8, first: u8) -> u8 {
    let mut last = first;
    for _ in 0..7 {
        if !has(weekdays, after(last)) {
            return last;
        }
        last = after(last);
    }
    last
}

// Puts the range of weekdays that begins with one, if it does.
fn put_range(selectors: &mut Vec<Selector>, weekdays: u8, first: u8) -> Result<(), AllocError> {
    if !has(weekdays, first) || has(weekdays, before(first)) {
        return Ok(());
    }
    match Weekdays::new(first, last_from(weekdays, first)) {
        Some(range) => put(selectors, Some(Selector::Weekdays(range))),
        None => Ok(()),
    }
}

/// Puts the ranges of some weekdays, from Monday on, if they are not all.
pub fn put_ranges(selectors: &mut Vec<Selector>, weekdays: u8) -> Result<(), AllocError> {
    if weekdays == EACH_WEEKDAY {
        return Ok(());
    }
    for later in 1..8 {
        put_range(selectors, weekdays, after(later))?;
    }
    Ok(())
}

fn place_selector(place: Place, weekday: u8) -> Option<Selector> {
    match place {
        Place::Any => None,
        Place::Nth(number) => {
            let place = WeekdayPlace::new(weekday, number)?;
            Some(Selector::Nth(place))
        }
        Place::NthBack(number) => {
            let place = WeekdayPlace::new(weekday, number)?;
            Some(Selector::NthBack(place))
        }
    }
}

/// Puts the places of some weekdays in their months.
pub fn put_places(
    selectors: &mut Vec<Selector>,
    place: Place,
    weekdays: u8,
) -> Result<(), AllocError> {
    for weekday in 1..8 {
        if has(weekdays, weekday) {
            put(selectors, place_selector(place, weekday))?;
        }
    }
    Ok(())
}

/// Puts the kind of weekdays, if there are any.
pub fn put_weekdays(kinds: &mut Vec<Kind>, selectors: Vec<Selector>) -> Result<(), AllocError> {
    put_kind(kinds, selectors)
}
