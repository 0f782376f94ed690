//! How a table of holidays is read.

ghost use Rattle.std.specs.Prelude.{◌↔◌, ◌≤◌, ℤ, List, length, true, IfOk, IsTrue, OnOk};
ghost use Rattle.gtd_hours_holidays.specs.Days.{AreAll, IsIn};
ghost use Rattle.gtd_hours_holidays.specs.Reading.{IsAdded, IsRead};
ghost use Rattle.gtd_hours_holidays.specs.Table.{AreOutside, IsInside, IsOfRows};
ghost use Rattle.gtd_hours_holidays.specs.declared.row.HolidayRow.{HolidayRow};

use crate::days::Days;
use crate::fault::HolidaysFault;
use crate::holidays::{Holidays, Unread, days_of};
use crate::row::{HolidayKind, HolidayRow};
use crate::table::read_rows;
use std::alloc::{AllocError, Global};

// Whether all days of a row are in a set.
fn has_days(days: &Days, row: &HolidayRow) -> bool
    ensures { IsTrue result ↔ AreAll (IsIn days.now) row.now.first row.now.last }
{
    match days.first_missing(row.first, row.last) {
        Some(_) => false,
        None => true,
    }
}

// Whether a row's days, if they are holidays, are all covered.
fn is_inside(public: &Days, school: &Days, row: &HolidayRow) -> bool
    ensures { (all : List HolidayRow)
        → ((n : ℤ) → IsIn public.now n ↔ IsOfRows HolidayKind.Public true n all)
        → ((n : ℤ) → IsIn school.now n ↔ IsOfRows HolidayKind.School true n all)
        → IsTrue result ↔ IsInside all row.now }
{
    if row.covers {
        return true;
    }
    match row.kind {
        HolidayKind::Public => has_days(public, row),
        HolidayKind::School => has_days(school, row),
    }
}

// Adds the fault of the row with this number, if a holiday of it is not covered.
fn add_outside(
    faults: &mut Vec<HolidaysFault>,
    public: &Days,
    school: &Days,
    row: &HolidayRow,
    number: u32,
) -> Result<(), AllocError>
    ensures { (all : List HolidayRow)
        → ((n : ℤ) → IsIn public.now n ↔ IsOfRows HolidayKind.Public true n all)
        → ((n : ℤ) → IsIn school.now n ↔ IsOfRows HolidayKind.School true n all)
        → OnOk result (IsAdded all row.now number faults.old.items faults.new.items) }
{
    if !is_inside(public, school, row) {
        faults.push(HolidaysFault::Outside { row: number })?;
    }
    Ok(())
}

// The faults of rows with holidays that no row covers.
fn outside_of(alloc: Global, rows: &[HolidayRow]) -> Result<Vec<HolidaysFault>, AllocError>
    requires { length rows.now ≤ 4096 }
    ensures { IfOk result (λ faults. AreOutside rows.now 1 rows.now faults.items) }
{
    let public = days_of(alloc, rows, HolidayKind::Public, true)?;
    let school = days_of(alloc, rows, HolidayKind::School, true)?;
    let mut faults = Vec::new(alloc);
    for place in 0..rows.len() {
        let number = place as u32 + 1;
        add_outside(&mut faults, &public, &school, &rows[place], number)?;
    }
    Ok(faults)
}

/// The table of holidays that a file's bytes are, or all its faults.
///
/// `TooLarge` and `Header` come alone. Otherwise each row that is at fault has its first one from the left, `FieldCount`,
/// `First`, `Last` or `Kind`, in the order of the rows, and `TooManyRows` comes after those of the first 4,096 rows. If there
/// are none of these, each row with a holiday that no row covers has `Outside`. `NoMemory` is answered only if memory was
/// refused.
pub fn read_holidays(alloc: Global, bytes: &[u8]) -> Result<Holidays, Unread>
    ensures table { IsRead bytes.now result }
{
    let found = read_rows(alloc, bytes)?;
    if !found.faults.is_empty() {
        return Err(Unread::Faults(found.faults));
    }
    let outside = outside_of(alloc, found.rows.as_slice())?;
    if !outside.is_empty() {
        return Err(Unread::Faults(outside));
    }
    Ok(Holidays::new(alloc, found.rows)?)
}
