//! A table of holidays, and what it says of days.

ghost use Rattle.std.specs.Prelude.{◌≡◌, ◌↔◌, ◌⊎◌, ℤ, [], true, IfOk, IsTrue, MatchOption, OnOk};
ghost use Rattle.std.proofs.Props.{props};
ghost use Rattle.gtd_core.specs.Limits.{first_calendar_day};
ghost use Rattle.gtd_calendar.specs.Calendar.{IsCalendarDay};
ghost use Rattle.gtd_hours_holidays.specs.Covering.{IsAfterRow, IsCoveredUntil};
ghost use Rattle.gtd_hours_holidays.specs.Days.{AreAll, IsFirstWithout, IsIn};
ghost use Rattle.gtd_hours_holidays.specs.Merging.{AreSameHolidays, IsInRuns};
ghost use Rattle.gtd_hours_holidays.specs.Table.{IsCovered, IsHoliday, IsOfRow, IsOfRows};
ghost use Rattle.gtd_hours_holidays.specs.declared.row.HolidayKind.{HolidayKind};

use crate::days::{Days, FIRST_DAY};
use crate::fault::HolidaysFault;
use crate::row::{HolidayKind, HolidayRow};
use crate::run::Run;
use crate::runs::{day_after, runs_of};
use std::alloc::{AllocError, Global};

/// Where a row begins.
#[derive(Clone, Copy)]
struct Start {
    day: i64,
    /// The number of rows before it.
    row: usize,
}

/// A table of holidays: what its rows say, in their order.
#[derive(Drop)]
pub struct Holidays {
    /// The rows, the first of which is row 1.
    pub rows: Vec<HolidayRow>,
    // The rows by their first days. Nothing rests on this order: by it, rows that cover days are gone through in few turns.
    starts: Vec<Start>,
    // The holidays once more, as rows of which no two of a kind have a day in common: however many rows of the table have a day,
    // who marks the holidays marks it once.
    merged: Vec<HolidayRow>,
    ghost same: { AreSameHolidays rows.items merged.items } by { Prim.hlevel props },
}

/// Why a table of holidays is not read.
#[derive(Drop)]
pub enum Unread {
    /// All its faults, at least one, and the first of them first.
    Faults(Vec<HolidaysFault>),
    /// Memory was refused.
    NoMemory,
}

impl From<AllocError> for Unread {
    ghost use Rattle.std.specs.Prelude.{◌≡◌};
    ghost use Rattle.gtd_hours_holidays.specs.declared.holidays.Unread.TheVariants.{NoMemory};

    ghost from_gives = { λ _ why. why ≡ NoMemory };

    fn from(_: AllocError) -> Unread {
        Unread::NoMemory
    }
}

// Whether a kind is another one's.
fn is_kind(one: HolidayKind, other: HolidayKind) -> bool
    ensures { IsTrue result ↔ (one ≡ other) }
{
    match one {
        HolidayKind::Public => match other {
            HolidayKind::Public => true,
            HolidayKind::School => false,
        },
        HolidayKind::School => match other {
            HolidayKind::Public => false,
            HolidayKind::School => true,
        },
    }
}

// Whether a row is of this kind, and covers days or not.
fn says(row: &HolidayRow, kind: HolidayKind, covers: bool) -> bool
    ensures { IsTrue result ↔ ((row.now.kind ≡ kind) × (row.now.covers ≡ covers)) }
{
    is_kind(row.kind, kind) && row.covers == covers
}

// Whether a row is of this kind, covers days or not, and has this day.
fn has(row: &HolidayRow, kind: HolidayKind, covers: bool, day: i64) -> bool
    ensures { IsTrue result ↔ IsOfRow kind covers day row.now }
{
    says(row, kind, covers) && row.first <= day && day <= row.last
}

// Adds the days of a row, if it is of this kind, and covers days or not.
fn add_row(
    days: &mut Days,
    row: &HolidayRow,
    kind: HolidayKind,
    covers: bool,
) -> Result<(), AllocError>
    requires { days.old.first ≡ first_calendar_day }
    ensures begins { days.new.first ≡ days.old.first }
    ensures added { OnOk result ((n : ℤ) → IsIn days.new n ↔ (IsIn days.old n ⊎ IsOfRow kind covers n row.now)) }
{
    if says(row, kind, covers) {
        days.add(row.first, row.last)?;
    }
    Ok(())
}

/// The days of the rows of a kind, of those that cover days or of the others.
pub(crate) fn days_of(
    alloc: Global,
    rows: &[HolidayRow],
    kind: HolidayKind,
    covers: bool,
) -> Result<Days, AllocError>
    ensures { IfOk result (λ days. (n : ℤ) → IsIn days n ↔ IsOfRows kind covers n rows.now) }
{
    let mut days = Days::new(alloc, FIRST_DAY);
    for row in rows {
        add_row(&mut days, row, kind, covers)?;
    }
    Ok(days)
}

// The rows by their first days.
fn starts_of(alloc: Global, rows: &[HolidayRow]) -> Result<Vec<Start>, AllocError> {
    let mut starts = Vec::with_capacity(alloc, rows.len())?;
    for (row, each) in rows.iter().enumerate() {
        starts.push(Start {
            day: each.first,
            row,
        })?;
    }
    starts.sort_unstable_by_key(|start| start.day);
    Ok(starts)
}

// Puts runs of days as holidays of a kind after other rows.
fn put_runs(
    merged: &mut Vec<HolidayRow>,
    kind: HolidayKind,
    runs: Vec<Run>,
) -> Result<(), AllocError>
    ensures { OnOk result ((other : HolidayKind) (n : ℤ) → IsHoliday merged.new.items other n
        ↔ (IsHoliday merged.old.items other n ⊎ ((kind ≡ other) × IsInRuns runs.items n))) }
{
    for run in runs {
        merged.push(HolidayRow {
            first: run.first,
            last: run.last,
            kind,
            covers: false,
        })?;
    }
    Ok(())
}

// Puts the holidays of a kind after other rows.
fn put_kind(
    alloc: Global,
    merged: &mut Vec<HolidayRow>,
    rows: &[HolidayRow],
    kind: HolidayKind,
) -> Result<(), AllocError>
    ensures { OnOk result ((other : HolidayKind) (n : ℤ) → IsHoliday merged.new.items other n
        ↔ (IsHoliday merged.old.items other n ⊎ ((kind ≡ other) × IsHoliday rows.now kind n))) }
{
    let days = days_of(alloc, rows, kind, false)?;
    let runs = runs_of(alloc, &days)?;
    put_runs(merged, kind, runs)?;
    Ok(())
}

// The holidays of rows, as rows of which no two of a kind have a day in common.
fn merged_of(alloc: Global, rows: &[HolidayRow]) -> Result<Vec<HolidayRow>, AllocError>
    ensures { IfOk result (λ merged. (kind : HolidayKind) (n : ℤ) → IsHoliday merged.items kind n ↔ IsHoliday rows.now kind n) }
{
    let mut merged = Vec::new(alloc);
    put_kind(alloc, &mut merged, rows, HolidayKind::Public)?;
    put_kind(alloc, &mut merged, rows, HolidayKind::School)?;
    Ok(merged)
}

// The day after the last one of a row, if it covers the day reached; otherwise that day.
fn after_row(row: &HolidayRow, kind: HolidayKind, until: i64) -> i64
    ensures { IsAfterRow kind row.now until result }
{
    if !has(row, kind, true, until) {
        return until;
    }
    day_after(row.last)
}

// Where the row at a place leads on from a day reached.
fn after_place(rows: &[HolidayRow], place: usize, kind: HolidayKind, until: i64) -> i64
    ensures { (day : ℤ) → IsCoveredUntil rows.now kind day until → IsCoveredUntil rows.now kind day result }
{
    if place >= rows.len() {
        return until;
    }
    after_row(&rows[place], kind, until)
}

// A day up to which rows of a kind cover all days from one on, by rows in the order of their first days.
fn covered_in_order(rows: &[HolidayRow], starts: &[Start], kind: HolidayKind, day: i64) -> i64
    requires { IsCalendarDay day }
    ensures { IsCoveredUntil rows.now kind day result }
{
    let mut until = day;
    for start in starts {
        until = after_place(rows, start.row, kind, until);
    }
    until
}

// A day up to which rows of a kind cover all days from one on, the day itself only if they do not cover it.
fn covered_until(rows: &[HolidayRow], kind: HolidayKind, day: i64) -> i64
    requires { IsCalendarDay day }
    ensures until { IsCoveredUntil rows.now kind day result }
    ensures stays { result ≡ day → IsCovered rows.now kind day → ⊥ }
{
    let mut until = day;
    for row in rows {
        until = after_row(row, kind, until);
    }
    until
}

impl Holidays {
    /// A table without rows. Takes no memory.
    pub fn none(alloc: Global) -> Holidays
        ensures none { result.rows.items ≡ [] }
    {
        Holidays {
            rows: Vec::new(alloc),
            starts: Vec::new(alloc),
            merged: Vec::new(alloc),
        }
    }

    // The table of these rows. `AllocError` is answered only if memory was refused.
    pub(crate) fn new(alloc: Global, rows: Vec<HolidayRow>) -> Result<Holidays, AllocError>
        ensures rows { IfOk result (λ holidays. holidays.rows.items ≡ rows.items) }
    {
        let starts = starts_of(alloc, rows.as_slice())?;
        let merged = merged_of(alloc, rows.as_slice())?;
        Ok(Holidays {
            rows,
            starts,
            merged,
        })
    }

    /// The holidays of the table, as rows of which no two of a kind have a day in common: at most as many as the table has days.
    /// Takes no memory.
    pub fn merged(&self) -> &[HolidayRow]
        ensures same { (kind : HolidayKind) (n : ℤ) → IsHoliday result.now kind n ↔ IsHoliday self.now.rows.items kind n }
    {
        self.merged.as_slice()
    }

    /// Whether a day is a holiday of this kind. Takes no memory.
    pub fn is_holiday(&self, kind: HolidayKind, day: i64) -> bool
        ensures is { IsTrue result ↔ IsHoliday self.now.rows.items kind day }
    {
        for row in self.rows.as_slice() {
            if has(row, kind, false, day) {
                return true;
            }
        }
        false
    }

    /// The holidays of this kind, as a set of days. `AllocError` is answered only if memory was refused.
    pub fn days(&self, alloc: Global, kind: HolidayKind) -> Result<Days, AllocError>
        ensures days { IfOk result (λ days. (n : ℤ) → IsIn days n ↔ IsHoliday self.now.rows.items kind n) }
    {
        days_of(alloc, self.rows.as_slice(), kind, false)
    }

    /// The first day from one to another, both included, on which the table does not say all holidays of this kind, or `None` if
    /// there is none. Both must be of the years 1800 to 2799. Takes no memory.
    pub fn first_uncovered(&self, kind: HolidayKind, from: i64, to: i64) -> Option<i64>
        requires from_in { IsCalendarDay from }
        requires to_in { IsCalendarDay to }
        ensures first { MatchOption result
            (AreAll (IsCovered self.now.rows.items kind) from to)
            (IsFirstWithout (IsCovered self.now.rows.items kind) from to) }
    {
        let rows = self.rows.as_slice();
        let mut day = from;
        while day <= to {
            let near = covered_in_order(rows, self.starts.as_slice(), kind, day);
            if near > to {
                return None;
            }
            let until = covered_until(rows, kind, near);
            if until == near {
                return Some(near);
            }
            day = until;
        }
        None
    }
}
