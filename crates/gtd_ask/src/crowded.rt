//! Which elements have so many rows that questions about them share work.

use gtd_core::{Basic, Expr, StartParts};
use gtd_records::{Record, Records};
use std::alloc::{AllocError, Global};

/// Questions about an element with no more rows than this are answered one by one: to look at so few rows again takes little.
const FEW_ROWS: u32 = 64;

/// At how many places rows are counted.
const PLACES: u64 = 4096;

/// About how many starts a basic domain has in a year, if it begins each hour or minute.
const MANY_STARTS: u32 = 1_000_000;

/// To open the cursors of rows takes about as long as to walk past two starts of each: those of so many days, if each has one in a
/// year.
const DAYS_OF_TWO: u32 = 731;

/// The most days of a walk without a question.
const MOST_DAYS: u32 = 36_500;

/// The rows that are counted at a place, and about how many starts they have in a year.
#[derive(Clone, Copy)]
struct Crowd {
    rows: u32,
    starts: u32,
}

/// The rows of elements, counted at places: elements that differ by a multiple of 4,096 have the same.
#[derive(Drop)]
pub(crate) struct Crowded {
    places: Vec<Crowd>,
}

// The place of an element.
fn place_of(element: u64) -> usize {
    (element % PLACES) as usize
}

// On about how many days of a month a start begins.
fn days_in_month(parts: &StartParts) -> u32 {
    if parts.day.is_some() || parts.nth.is_some() || parts.nth_back.is_some() {
        return 1;
    }
    if parts.weekdays != 0 {
        return 5;
    }
    if parts.hour.is_some() { 31 } else { 1 }
}

// About how often a basic domain begins in a year.
fn basic_starts(basic: &Basic) -> u32 {
    let parts = basic.start.parts();
    if parts.hour.is_none() && (parts.minute.is_some() || parts.second.is_some()) {
        return MANY_STARTS;
    }
    if parts.year.is_some() {
        return 1;
    }
    let days = days_in_month(&parts);
    if parts.month.is_some() {
        return days;
    }
    days.saturating_mul(12)
}

// The same of the basic domains of an expression together.
fn expr_starts(expr: &Expr) -> u32 {
    match expr {
        Expr::Leaf(basic) => basic_starts(basic),
        Expr::Join(_, left, right) => expr_starts(left).saturating_add(expr_starts(right)),
    }
}

// The same of a record.
fn record_starts(record: &Record) -> u32 {
    match record.domain() {
        Some(domain) => expr_starts(domain.expr()),
        None => 0,
    }
}

// Places at which nothing is counted.
fn empty_places(alloc: Global) -> Result<Vec<Crowd>, AllocError> {
    let mut places = Vec::new(alloc);
    for _ in 0..PLACES {
        places.push(Crowd { rows: 0, starts: 0 })?;
    }
    Ok(places)
}

impl Crowded {
    /// Counts the rows, if some element may have many.
    pub(crate) fn new(alloc: Global, found: &Records) -> Result<Crowded, AllocError> {
        let more = found.rows().len().saturating_sub(found.elements().len());
        if more < FEW_ROWS as usize {
            let places = Vec::new(alloc);
            return Ok(Crowded { places });
        }
        let places = empty_places(alloc)?;
        let mut crowded = Crowded { places };
        crowded.count_rows(found);
        crowded.count_starts(found);
        Ok(crowded)
    }

    // Counts each row at its element's place.
    fn count_rows(&mut self, found: &Records) {
        for record in found.rows() {
            if let Some(crowd) = self.places.get_mut(place_of(record.element)) {
                crowd.rows = crowd.rows.saturating_add(1);
            }
        }
    }

    // Adds the starts of each row where many are counted. No row is counted any more where one begins each hour or minute: a walk
    // over its spans could take longer than the questions.
    fn count_starts(&mut self, found: &Records) {
        for record in found.rows() {
            if let Some(crowd) = self.places.get_mut(place_of(record.element)) {
                if crowd.rows > FEW_ROWS {
                    let starts = record_starts(record);
                    crowd.starts = crowd.starts.saturating_add(starts);
                    if starts >= MANY_STARTS {
                        crowd.rows = 0;
                    }
                }
            }
        }
    }

    /// Whether questions about an element share work.
    pub(crate) fn has(&self, element: u64) -> bool {
        match self.places.get(place_of(element)) {
            Some(crowd) => crowd.rows > FEW_ROWS,
            None => false,
        }
    }

    /// Over how many days a walk along the spans of an element takes as long as to open its cursors anew.
    pub(crate) fn near_days(&self, element: u64) -> i64 {
        let Some(crowd) = self.places.get(place_of(element)) else {
            return 0;
        };
        match crowd
            .rows
            .saturating_mul(DAYS_OF_TWO)
            .checked_div(crowd.starts)
        {
            Some(days) => i64::from(days.min(MOST_DAYS)),
            None => i64::from(MOST_DAYS),
        }
    }
}
