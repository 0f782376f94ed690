//! Vehicle codes, and which rows name them.

ghost use Rattle.std.specs.Prelude.{◌≡◌, ◌+◌, ◌++◌, [], ◌∷◌, ℕ, List, IfOk, OnOk, MatchOption, length, string_bytes};
ghost use Rattle.gtd_faults.specs.Snippet.{snippet_text};
ghost use Rattle.gtd_faults.specs.Doubts.{AreLoneLines, lone_line};
ghost use Rattle.gtd_faults.specs.Naming.{AreKept, AreLoneBefore, IsKept, kept_lines};
ghost use Rattle.gtd_faults.specs.Standing.{IsRowOf};

use crate::printable::Printable;
use crate::row::Row;
use crate::snippet::Snippet;
use gtd_warnings::{LoneCode, LoneText};
use std::alloc::{AllocError, Global};

/// Which of the rows so far name a code.
#[derive(Drop)]
pub(crate) enum Naming {
    /// None.
    Never,
    /// One alone, with this number: the lines that say so.
    Once { row: u32, text: String },
    /// More than one.
    Often,
}

// Appends the lines of a code that one row alone names.
fn push_lone(
    text: &mut String,
    path: &str,
    line: u64,
    lone: LoneCode,
    snippet: Snippet<'_>,
) -> Result<(), AllocError>
    ensures { OnOk result (string_bytes text.new
        ≡ string_bytes text.old ++ (lone_line path.now line lone ++ snippet_text snippet.entry)) }
{
    let path = Printable(path.as_bytes());
    let words = LoneText(lone);
    write!(text, "{path}:{line}: {words}\n{snippet}")
}

// The lines of a code, if this row alone names it.
fn lone_text(alloc: Global, path: &str, row: &Row<'_>, code: u8) -> Result<String, AllocError>
    ensures { (bytes : List ℕ) → IsRowOf bytes row.now → IfOk result (λ text.
        AreLoneLines path.now bytes (record { row = row.now.number; code = code } ∷ []) (string_bytes text)) }
{
    let mut text = String::new(alloc);
    let lone = LoneCode {
        row: row.number,
        code,
    };
    push_lone(&mut text, path, row.place.line, lone, row.field(2, 0))?;
    Ok(text)
}

// Which rows name a code, once this row does. `None` if that is as before.
fn with_row(
    alloc: Global,
    path: &str,
    naming: &Naming,
    row: &Row<'_>,
    code: u8,
) -> Result<Option<Naming>, AllocError>
    ensures { (bytes : List ℕ) (named : List (List ℕ)) (codes : List ℕ) → IsRowOf bytes row.now
        → row.now.number ≡ length named + 1 → IsKept path.now bytes (named ++ codes ∷ []) code naming.now
        → IfOk result (λ next. MatchOption next
        (IsKept path.now bytes (named ++ (codes ++ code ∷ []) ∷ []) code naming.now)
        (IsKept path.now bytes (named ++ (codes ++ code ∷ []) ∷ []) code)) }
{
    match naming {
        Naming::Never => Ok(Some(Naming::Once {
            row: row.number,
            text: lone_text(alloc, path, row, code)?,
        })),
        Naming::Once { row: first, .. } => {
            if *first == row.number {
                return Ok(None);
            }
            Ok(Some(Naming::Often))
        }
        Naming::Often => Ok(None),
    }
}

// Takes a code that this row names.
fn take_code(
    alloc: Global,
    path: &str,
    by_code: &mut Vec<Naming>,
    row: &Row<'_>,
    code: u8,
) -> Result<(), AllocError>
    ensures { (bytes : List ℕ) (named : List (List ℕ)) (codes : List ℕ) → IsRowOf bytes row.now
        → row.now.number ≡ length named + 1 → AreKept path.now bytes (named ++ codes ∷ []) by_code.old.items
        → OnOk result (AreKept path.now bytes (named ++ (codes ++ code ∷ []) ∷ []) by_code.new.items) }
{
    let at = code as usize;
    if at >= by_code.len() {
        return Ok(());
    }
    match with_row(alloc, path, &by_code[at], row, code)? {
        Some(next) => by_code[at] = next,
        None => {}
    }
    Ok(())
}

/// Takes the codes that a row names, the next after those so far.
pub(crate) fn take_codes(
    alloc: Global,
    path: &str,
    by_code: &mut Vec<Naming>,
    row: &Row<'_>,
    codes: &[u8],
) -> Result<(), AllocError>
    ensures { (bytes : List ℕ) (named : List (List ℕ)) → IsRowOf bytes row.now → row.now.number ≡ length named + 1
        → AreKept path.now bytes named by_code.old.items
        → OnOk result (AreKept path.now bytes (named ++ codes.now ∷ []) by_code.new.items) }
{
    for code in codes {
        take_code(alloc, path, by_code, row, *code)?;
    }
    Ok(())
}

/// No row names a code so far. `AllocError` is answered only if memory was refused.
pub(crate) fn none_named(alloc: Global) -> Result<Vec<Naming>, AllocError>
    ensures { (path bytes : List ℕ) → IfOk result (λ by_code. AreKept path bytes [] by_code.items) }
{
    let mut by_code = Vec::new(alloc);
    for _code in 0..100u8 {
        by_code.push(Naming::Never)?;
    }
    Ok(by_code)
}

// Appends the lines that are kept of a code, if one row alone names it.
fn push_lines(text: &mut String, naming: &Naming) -> Result<(), AllocError>
    ensures { OnOk result (string_bytes text.new ≡ string_bytes text.old ++ kept_lines naming.now) }
{
    match naming {
        Naming::Never => Ok(()),
        Naming::Once { text: lines, .. } => text.push_str(lines.as_str()),
        Naming::Often => Ok(()),
    }
}

/// Appends the lines of the codes that one row alone names, in ascending order.
pub(crate) fn push_all_lone(text: &mut String, by_code: &[Naming]) -> Result<(), AllocError>
    ensures { (path bytes : List ℕ) (named : List (List ℕ)) → AreKept path bytes named by_code.now
        → OnOk result (AreLoneBefore path bytes named 100 (string_bytes text.old) (string_bytes text.new)) }
{
    for naming in by_code {
        push_lines(text, naming)?;
    }
    Ok(())
}
