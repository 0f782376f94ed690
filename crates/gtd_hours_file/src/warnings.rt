//! Warnings of rows: of the texts of their hours, and of rows that never close.

ghost use Rattle.std.specs.Prelude.{◌≡◌, ◌↔◌, ◌≤◌, IfOk, IsTrue, length, string_bytes};
ghost use Rattle.gtd_core.specs.Limits.{most_rows};
ghost use Rattle.gtd_hours_file.specs.Warnings as spec;
ghost use Rattle.gtd_hours_file.specs.Warnings.{AreHoursWarnings, AreRowLines, AreWarnings, ClosesNever, before_warning};
ghost use Rattle.gtd_hours_file.specs.Warnings.{never_line};

use crate::row::{HoursRow, RowHours};
use gtd_faults::{Printable, Rows};
use gtd_hours::{Hours, Modifier, Rule};
use gtd_hours_warnings::{Warning, push_lines, warnings_with};
use std::alloc::{AllocError, Global};

// Whether a rule opens.
fn opens(rule: &Rule) -> bool
    ensures { result ≡ spec.opens rule.now.modifier }
{
    match rule.modifier {
        Modifier::Open => true,
        Modifier::Closed => false,
    }
}

// Whether some rule of the hours opens.
fn some_opens(hours: &Hours) -> bool
    ensures { result ≡ spec.some_opens hours.now }
{
    hours.rules.iter().any(|rule| opens(rule))
}

// Whether a row never closes.
fn closes_never(row: &HoursRow) -> bool
    ensures { IsTrue result ↔ ClosesNever row.now.hours }
{
    match &row.hours {
        Some(given) => !some_opens(&given.read.hours),
        None => false,
    }
}

// The line of a row that never closes; nothing of another one.
fn never_line(
    alloc: Global,
    never: bool,
    path: &str,
    line: u64,
    row: u32,
) -> Result<String, AllocError>
    ensures { IfOk result (λ text. string_bytes text ≡ never_line never path.now line row) }
{
    let mut text = String::new(alloc);
    if never {
        let path = Printable(path.as_bytes());
        write!(
            text,
            "{path}:{line}: row {row}: warning: never-holds: the hours are open at no second\n"
        )?;
    }
    Ok(text)
}

// What stands before a warning of the hours of a row.
fn before_warning(alloc: Global, path: &str, line: u64, row: u32) -> Result<String, AllocError>
    ensures { IfOk result (λ text. string_bytes text ≡ before_warning path.now line row) }
{
    let mut text = String::new(alloc);
    let path = Printable(path.as_bytes());
    write!(text, "{path}:{line}: row {row}: warning Hours ")?;
    Ok(text)
}

// The warnings of a row's hours.
fn hours_warnings(alloc: Global, hours: &Option<RowHours>) -> Result<Vec<Warning>, AllocError>
    ensures { IfOk result (λ found. AreHoursWarnings hours.now found.items) }
{
    match hours {
        Some(given) => warnings_with(alloc, given.text.as_slice(), &given.read, given.years),
        None => Ok(Vec::new(alloc)),
    }
}

// The lines of a row with this number that begins on this line of the file.
fn row_lines(
    alloc: Global,
    path: &str,
    line: u64,
    number: u32,
    row: &HoursRow,
) -> Result<Vec<u8>, AllocError>
    ensures { IfOk result (λ lines. AreRowLines path.now line number row.now lines.items) }
{
    let found = hours_warnings(alloc, &row.hours)?;
    let before = before_warning(alloc, path, line, number)?;
    let last = never_line(alloc, closes_never(row), path, line, number)?;
    let mut lines = Vec::new(alloc);
    push_lines(&mut lines, before.as_bytes(), found.as_slice())?;
    lines.extend_from_slice(last.as_bytes())?;
    Ok(lines)
}

/// The lines of the warnings of these rows, in order, for the file with this path and these bytes.
pub(crate) fn warnings_of(
    alloc: Global,
    path: &str,
    bytes: &[u8],
    rows: &[HoursRow],
) -> Result<Vec<u8>, AllocError>
    requires few { length rows.now ≤ most_rows }
    ensures { IfOk result (λ text. AreWarnings path.now bytes.now 1 rows.now text.items) }
{
    let mut text = Vec::new(alloc);
    let mut places = Rows::new(alloc, bytes)?;
    let mut number = 0u32;
    for row in rows {
        number += 1;
        let line = places.line_at(Some(number))?;
        let lines = row_lines(alloc, path, line, number, row)?;
        text.extend_from_slice(lines.as_slice())?;
    }
    Ok(text)
}
