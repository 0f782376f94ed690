//! The fields of a row.

ghost use Rattle.std.specs.Prelude.{◌≡◌, ◌↔◌, ◌≤ℤ◌, ◌+ℤ◌, ℤ, pos, IfSome, IsTrue, MatchOption};
ghost use Rattle.csv.specs.Records.{fields_of};
ghost use Rattle.gtd_calendar.specs.Calendar.{IsCalendarDay};
ghost use Rattle.gtd_hours_holidays.specs.Rows.{IsLastDay, IsRow, word_of};

use crate::date::read_day;
use crate::fault::HolidaysFault;
use crate::row::{HolidayKind, HolidayRow};
use csv::ByteRecord;
use gtd_rows::four_columns;

// Whether a row may have these days as its first and its last.
fn is_near(first: i64, last: i64) -> bool
    requires { IsCalendarDay first }
    ensures { IsTrue result ↔ ((first ≤ℤ last) × (last ≤ℤ (first +ℤ pos 36_599))) }
{
    first <= last && last <= first + 36_599
}

// The last day that the second field of a row stands for, whose first day is this one.
fn read_last(first: i64, text: &[u8]) -> Option<i64>
    requires first_in { IsCalendarDay first }
    ensures last { MatchOption result ((n : ℤ) → IsLastDay first text.now n → ⊥) (IsLastDay first text.now) }
    ensures near { IfSome result IsCalendarDay }
{
    if text.is_empty() {
        return Some(first);
    }
    let Some(last) = read_day(text) else {
        return None;
    };
    if !is_near(first, last) {
        return None;
    }
    Some(last)
}

// The kind that the third field of a row names, and whether the row covers its days.
fn read_kind(text: &[u8]) -> Option<(HolidayKind, bool)>
    ensures { result ≡ word_of text.now }
{
    if text == b"PH".as_slice() {
        Some((HolidayKind::Public, false))
    } else if text == b"SH".as_slice() {
        Some((HolidayKind::School, false))
    } else if text == b"PH-covered".as_slice() {
        Some((HolidayKind::Public, true))
    } else if text == b"SH-covered".as_slice() {
        Some((HolidayKind::School, true))
    } else {
        None
    }
}

/// What the row with this number says, or its first fault from the left. Takes no memory.
pub(crate) fn read_row(number: u32, row: &ByteRecord) -> Result<HolidayRow, HolidaysFault>
    ensures { IsRow number (fields_of row.now) result }
{
    let Some(columns) = four_columns(row) else {
        return Err(HolidaysFault::FieldCount { row: number });
    };
    let Some(first) = read_day(columns.element) else {
        return Err(HolidaysFault::First { row: number });
    };
    let Some(last) = read_last(first, columns.closed) else {
        return Err(HolidaysFault::Last { row: number });
    };
    let Some((kind, covers)) = read_kind(columns.vehicles) else {
        return Err(HolidaysFault::Kind { row: number });
    };
    Ok(HolidayRow {
        first,
        last,
        kind,
        covers,
    })
}
