//! The days of selectors, added to a set.

ghost use Rattle.std.specs.Prelude.{◌≡◌, ◌↔◌, ◌⊎◌, ◌≤◌, ◌+ℤ◌, ◌-ℤ◌, ◌≤ℤ◌, ◌<ℤ◌, ℤ, false, IsTrue, OnOk};
ghost use Rattle.gtd_calendar.specs.Calendar.{IsCalendarDay};
ghost use Rattle.gtd_hours_holidays.specs.Days.{IsIn};
ghost use Rattle.gtd_hours_holidays.specs.KnownYears.{IsOfYears};
ghost use Rattle.gtd_hours_holidays.specs.Table.{IsOfRow};
ghost use Rattle.gtd_hours_days.specs.Beginning.{IsBegun};
ghost use Rattle.gtd_hours_days.specs.Listed.{IsKnownHoliday, IsListed};

use crate::easter_days::add_easter_days;
use crate::listed::Listed;
use crate::offset::Offset;
use crate::yearly::{earlier, later};
use gtd_hours_holidays::{Days, HolidayKind, HolidayRow, KnownYears};
use std::alloc::AllocError;

/// The day that comes so many days after another one.
pub(crate) fn plus(day: i64, offset: Offset) -> i64
    requires { IsCalendarDay day }
    ensures { result ≡ day +ℤ offset.days }
{
    day + offset.days
}

// Adds the days so many after those from one to another, both of the years.
fn add_between(
    days: &mut Days,
    years: KnownYears,
    offset: Offset,
    from: i64,
    to: i64,
) -> Result<(), AllocError>
    requires from_in { IsOfYears years.first years.last from }
    requires to_in { IsOfYears years.first years.last to }
    requires begun { IsBegun days.old.first years }
    ensures begins { days.new.first ≡ days.old.first }
    ensures added { OnOk result ((n : ℤ) → IsIn days.new n
        ↔ (IsIn days.old n ⊎ ((from ≤ℤ (n -ℤ offset.days)) × ((n -ℤ offset.days) ≤ℤ to)))) }
{
    let first = plus(from, offset);
    let last = plus(to, offset);
    days.add(first, last)?;
    Ok(())
}

// Whether there is no day from one to another.
fn is_empty(from: i64, to: i64) -> bool
    ensures { IsTrue result ↔ (to <ℤ from) }
{
    to < from
}

/// Adds the days so many after those from one to another, as far as these are days of the years.
pub(crate) fn add_part(
    days: &mut Days,
    years: KnownYears,
    offset: Offset,
    first: i64,
    last: i64,
) -> Result<(), AllocError>
    requires { IsBegun days.old.first years }
    ensures begins { days.new.first ≡ days.old.first }
    ensures added { OnOk result ((n : ℤ) → IsIn days.new n ↔ (IsIn days.old n
        ⊎ (IsOfYears years.first years.last (n -ℤ offset.days) × (first ≤ℤ (n -ℤ offset.days))
        × ((n -ℤ offset.days) ≤ℤ last)))) }
{
    let from = later(first, years.first_day());
    let to = earlier(last, years.last_day());
    if is_empty(from, to) {
        return Ok(());
    }
    add_between(days, years, offset, from, to)?;
    Ok(())
}

// Whether a row says that its days are holidays of a kind.
fn is_of(row: HolidayRow, kind: HolidayKind) -> bool
    ensures { IsTrue result ↔ ((row.kind ≡ kind) × (row.covers ≡ false)) }
{
    match row.kind {
        HolidayKind::Public => match kind {
            HolidayKind::Public => !row.covers,
            HolidayKind::School => false,
        },
        HolidayKind::School => match kind {
            HolidayKind::Public => false,
            HolidayKind::School => !row.covers,
        },
    }
}

// Adds the days so many after the holidays of a row, as far as these are days of the years.
fn add_row(
    days: &mut Days,
    years: KnownYears,
    kind: HolidayKind,
    offset: Offset,
    row: HolidayRow,
) -> Result<(), AllocError>
    requires { IsBegun days.old.first years }
    ensures begins { days.new.first ≡ days.old.first }
    ensures added { OnOk result ((n : ℤ) → IsIn days.new n ↔ (IsIn days.old n
        ⊎ (IsOfYears years.first years.last (n -ℤ offset.days) × IsOfRow kind false (n -ℤ offset.days) row))) }
{
    if !is_of(row, kind) {
        return Ok(());
    }
    add_part(days, years, offset, row.first, row.last)?;
    Ok(())
}

// Adds the days so many after the holidays of the years.
fn add_holidays(
    days: &mut Days,
    rows: &[HolidayRow],
    years: KnownYears,
    kind: HolidayKind,
    offset: Offset,
) -> Result<(), AllocError>
    requires { IsBegun days.old.first years }
    ensures begins { days.new.first ≡ days.old.first }
    ensures added { OnOk result ((n : ℤ) → IsIn days.new n
        ↔ (IsIn days.old n ⊎ IsKnownHoliday rows.now years kind (n -ℤ offset.days))) }
{
    for row in rows {
        add_row(days, years, kind, offset, *row)?;
    }
    Ok(())
}

// Whether a day lies between two days, or on one of them.
fn is_between(day: i64, first: i64, last: i64) -> bool
    ensures { IsTrue result ↔ ((first ≤ℤ day) × (day ≤ℤ last)) }
{
    first <= day && day <= last
}

// Whether a day is one of the years.
fn is_of_years(years: KnownYears, day: i64) -> bool
    ensures { IsTrue result ↔ IsOfYears years.first years.last day }
{
    is_between(day, years.first_day(), years.last_day())
}

/// Adds a day, if it is one of the years.
pub(crate) fn add_day(days: &mut Days, years: KnownYears, day: i64) -> Result<(), AllocError>
    requires { IsBegun days.old.first years }
    ensures begins { days.new.first ≡ days.old.first }
    ensures added { OnOk result ((n : ℤ) → IsIn days.new n
        ↔ (IsIn days.old n ⊎ (IsOfYears years.first years.last n × (n ≡ day)))) }
{
    if !is_of_years(years, day) {
        return Ok(());
    }
    days.add(day, day)?;
    Ok(())
}

// Adds the school holidays of the years.
fn add_school(days: &mut Days, rows: &[HolidayRow], years: KnownYears) -> Result<(), AllocError>
    requires { IsBegun days.old.first years }
    ensures begins { days.new.first ≡ days.old.first }
    ensures added { OnOk result ((n : ℤ) → IsIn days.new n
        ↔ (IsIn days.old n ⊎ IsKnownHoliday rows.now years HolidayKind.School n)) }
{
    add_holidays(days, rows, years, HolidayKind::School, Offset { days: 0 })?;
    Ok(())
}

/// Adds the days of a selector.
pub(crate) fn add_listed(
    days: &mut Days,
    rows: &[HolidayRow],
    years: KnownYears,
    listed: Listed,
) -> Result<(), AllocError>
    requires { IsBegun days.old.first years }
    ensures begins { days.new.first ≡ days.old.first }
    ensures added { OnOk result ((n : ℤ) → IsIn days.new n ↔ (IsIn days.old n ⊎ IsListed rows.now years listed n)) }
{
    match listed {
        Listed::Public { offset } => add_holidays(days, rows, years, HolidayKind::Public, offset),
        Listed::School => add_school(days, rows, years),
        Listed::Easter(easter) => add_easter_days(days, years, easter),
    }
}
