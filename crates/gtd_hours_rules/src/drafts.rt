//! Rules of cells, with as many ranges of times, dates and weekdays in one as it can have.

use crate::selectors::{put_dates, put_places, put_ranges, put_weekdays, put_weeks, put_years};
use gtd_hours::{Kind, Link, Modifier, Rule, TimeRange};
use gtd_hours_cells::{Cell, DAY_MINUTES, DateRange, Days, EACH_WEEKDAY, Place, is_whole};
use std::alloc::{AllocError, Global};

// More cells are not made rules.
const MOST_CELLS: usize = 512;

// The same times of days that differ in dates alone.
#[derive(Drop)]
struct Draft {
    days: Days,
    dates: Vec<DateRange>,
    times: Vec<TimeRange>,
}

// Whether two cells of a list can be one draft, since they differ in times alone.
fn are_of_days(cell: &Cell, other: &Cell) -> bool {
    cell.days == other.days && is_whole(cell) == is_whole(other)
}

fn is_begun(cells: &[Cell], cell: &Cell) -> bool {
    for other in cells {
        if are_of_days(cell, other) {
            return true;
        }
    }
    false
}

fn put_time(times: &mut Vec<TimeRange>, cell: &Cell) -> Result<(), AllocError> {
    let last = if cell.end > DAY_MINUTES {
        cell.end - DAY_MINUTES
    } else {
        cell.end
    };
    if is_whole(cell) {
        return Ok(());
    }
    match TimeRange::new(cell.begin, last) {
        Some(time) => {
            times.push(time)?;
            Ok(())
        }
        None => Ok(()),
    }
}

// The times of the days of a cell.
fn times_of_days(alloc: Global, cells: &[Cell], cell: &Cell) -> Result<Vec<TimeRange>, AllocError> {
    let mut times = Vec::new(alloc);
    for other in cells {
        if are_of_days(cell, other) {
            put_time(&mut times, other)?;
        }
    }
    times.sort_unstable_by_key(|time| time.begin);
    Ok(times)
}

fn draft_of(alloc: Global, cells: &[Cell], cell: &Cell) -> Result<Draft, AllocError> {
    let times = times_of_days(alloc, cells, cell)?;
    let mut dates = Vec::new(alloc);
    dates.push(cell.days.dates)?;
    Ok(Draft {
        days: cell.days,
        dates,
        times,
    })
}

// A draft for each of the days of some cells.
fn drafts_of(alloc: Global, cells: &[Cell]) -> Result<Vec<Draft>, AllocError> {
    let mut drafts = Vec::new(alloc);
    for place in 0..cells.len() {
        if !is_begun(&cells[..place], &cells[place]) {
            drafts.push(draft_of(alloc, cells, &cells[place])?)?;
        }
    }
    Ok(drafts)
}

fn are_same_times(times: &[TimeRange], others: &[TimeRange]) -> bool {
    if times.len() != others.len() {
        return false;
    }
    for place in 0..times.len() {
        if times[place] != others[place] {
            return false;
        }
    }
    true
}

fn are_same_dates(dates: &[DateRange], others: &[DateRange]) -> bool {
    if dates.len() != others.len() {
        return false;
    }
    for place in 0..dates.len() {
        if dates[place] != others[place] {
            return false;
        }
    }
    true
}

// Whether two drafts differ in the dates of each year, or of some days, alone.
fn differ_in_dates(draft: &Draft, other: &Draft) -> bool {
    let days = Days {
        dates: draft.days.dates,
        ..other.days
    };
    draft.days == days
        && (draft.days.dates == DateRange::Each) == (other.days.dates == DateRange::Each)
        && are_same_times(draft.times.as_slice(), other.times.as_slice())
}

// Whether some weekdays are named.
fn names_weekdays(days: Days) -> bool {
    days.weekdays != EACH_WEEKDAY || days.place != Place::Any
}

// Whether two drafts differ in the weekdays that they name alone.
fn differ_in_weekdays(draft: &Draft, other: &Draft) -> bool {
    let days = Days {
        weekdays: draft.days.weekdays,
        place: draft.days.place,
        ..other.days
    };
    draft.days == days
        && names_weekdays(draft.days) == names_weekdays(other.days)
        && are_same_dates(draft.dates.as_slice(), other.dates.as_slice())
        && are_same_times(draft.times.as_slice(), other.times.as_slice())
}

fn has_dates_before(drafts: &[Draft], draft: &Draft) -> bool {
    for other in drafts {
        if differ_in_dates(draft, other) {
            return true;
        }
    }
    false
}

fn has_weekdays_before(drafts: &[Draft], draft: &Draft) -> bool {
    for other in drafts {
        if differ_in_weekdays(draft, other) {
            return true;
        }
    }
    false
}

fn copied(alloc: Global, times: &[TimeRange]) -> Result<Vec<TimeRange>, AllocError> {
    let mut copy = Vec::new(alloc);
    for time in times {
        copy.push(*time)?;
    }
    Ok(copy)
}

// A draft with the dates of all that differ from it in dates alone.
fn with_dates(alloc: Global, drafts: &[Draft], draft: &Draft) -> Result<Draft, AllocError> {
    let mut dates = Vec::new(alloc);
    for other in drafts {
        if differ_in_dates(draft, other) {
            dates.push(other.days.dates)?;
        }
    }
    Ok(Draft {
        days: draft.days,
        dates,
        times: copied(alloc, draft.times.as_slice())?,
    })
}

// The drafts, with those in one that differ in dates alone.
fn united(alloc: Global, drafts: &[Draft]) -> Result<Vec<Draft>, AllocError> {
    let mut fewer = Vec::new(alloc);
    for place in 0..drafts.len() {
        if !has_dates_before(&drafts[..place], &drafts[place]) {
            fewer.push(with_dates(alloc, drafts, &drafts[place])?)?;
        }
    }
    Ok(fewer)
}

// The weekdays without a place of all that differ from a draft in weekdays alone.
fn weekdays_of(drafts: &[Draft], draft: &Draft) -> u8 {
    let mut weekdays = 0;
    for other in drafts {
        if differ_in_weekdays(draft, other) && other.days.place == Place::Any {
            weekdays = weekdays | other.days.weekdays;
        }
    }
    weekdays
}

// Puts the kind of weekdays of all that differ from a draft in weekdays alone.
fn put_kind_of_weekdays(
    alloc: Global,
    kinds: &mut Vec<Kind>,
    drafts: &[Draft],
    draft: &Draft,
) -> Result<(), AllocError> {
    let mut selectors = Vec::new(alloc);
    put_ranges(&mut selectors, weekdays_of(drafts, draft))?;
    for other in drafts {
        if differ_in_weekdays(draft, other) {
            put_places(&mut selectors, other.days.place, other.days.weekdays)?;
        }
    }
    put_weekdays(kinds, selectors)
}

// A rule with the weekdays of all that differ from a draft in weekdays alone. The first of all rules adds to nothing.
fn rule_of(
    alloc: Global,
    drafts: &[Draft],
    draft: &Draft,
    link: Link,
    adds: bool,
) -> Result<Rule, AllocError> {
    let mut kinds = Vec::new(alloc);
    put_years(alloc, &mut kinds, draft.days)?;
    put_dates(alloc, &mut kinds, draft.dates.as_slice())?;
    put_weeks(alloc, &mut kinds, draft.days)?;
    put_kind_of_weekdays(alloc, &mut kinds, drafts, draft)?;
    let times = copied(alloc, draft.times.as_slice())?;
    Ok(Rule {
        link: if adds { link } else { Link::Instead },
        kinds,
        times,
        modifier: if adds {
            Modifier::Open
        } else {
            Modifier::Closed
        },
    })
}

// Puts the rules of cells that are all added, or all taken away.
fn put_rules(
    alloc: Global,
    rules: &mut Vec<Rule>,
    cells: &[Cell],
    adds: bool,
) -> Result<(), AllocError> {
    let single = drafts_of(alloc, cells)?;
    let drafts = united(alloc, single.as_slice())?;
    for place in 0..drafts.len() {
        let draft = &drafts[place];
        if !has_weekdays_before(&drafts.as_slice()[..place], draft) {
            let link = if rules.is_empty() {
                Link::Instead
            } else {
                Link::Also
            };
            rules.push(rule_of(alloc, drafts.as_slice(), draft, link, adds)?)?;
        }
    }
    Ok(())
}

// The first cells that are added, or taken away, as this.
fn leading(alloc: Global, cells: &[Cell], adds: bool) -> Result<Vec<Cell>, AllocError> {
    let mut alike = Vec::new(alloc);
    for cell in cells {
        if cell.adds != adds {
            return Ok(alike);
        }
        alike.push(*cell)?;
    }
    Ok(alike)
}

// Whether a cell follows one that is not added, or taken away, as it is, or none.
fn begins_anew(before: &[Cell], cell: &Cell) -> bool {
    match before.last() {
        None => true,
        Some(last) => last.adds != cell.adds,
    }
}

// A rule after which nothing is open.
fn never(alloc: Global) -> Rule {
    Rule {
        link: Link::Instead,
        kinds: Vec::new(alloc),
        times: Vec::new(alloc),
        modifier: Modifier::Closed,
    }
}

/// Rules of cells. None are made of too many.
pub fn rules_of_cells(alloc: Global, cells: &[Cell]) -> Result<Vec<Rule>, AllocError> {
    let mut rules = Vec::new(alloc);
    if cells.is_empty() {
        rules.push(never(alloc))?;
    }
    if cells.len() > MOST_CELLS {
        return Ok(rules);
    }
    for place in 0..cells.len() {
        let cell = &cells[place];
        if begins_anew(&cells[..place], cell) {
            let alike = leading(alloc, &cells[place..], cell.adds)?;
            put_rules(alloc, &mut rules, alike.as_slice(), cell.adds)?;
        }
    }
    Ok(rules)
}
