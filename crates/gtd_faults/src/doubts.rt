//! The lines of warnings.

ghost use Rattle.std.specs.Prelude.{◌≡◌, ◌+◌, ◌++◌, ◌∷◌, [], ℕ, List, Option, OnOk, IfOk, cond, length, map, min, nat_lt};
ghost use Rattle.std.specs.Prelude.{string_bytes};
ghost use Rattle.std.specs.List.{All};
ghost use Rattle.csv.specs.Records.{fields_of};
ghost use Rattle.gtd_mistakes.specs.declared.told.Told.{Told};
ghost use Rattle.gtd_rows.specs.Columns.{Fields};
ghost use Rattle.gtd_records.specs.ComputedRow.{IsRow};
ghost use Rattle.gtd_rows.specs.declared.vehicles.Version.{Version};
ghost use Rattle.gtd_warnings.specs.Codes.{rows_needed};
ghost use Rattle.gtd_warnings.specs.declared.file.Asked.{Asked};
ghost use Rattle.gtd_faults.specs.Doubts.{AreDoubtLines, doubt_snippet, doubt_line};
ghost use Rattle.gtd_faults.specs.ListedRows.{AreDoubted, AreDoubtsOfRows};
ghost use Rattle.gtd_faults.specs.Standing.{IsRowOf};

use crate::codes::{Naming, none_named, push_all_lone, take_codes};
use crate::printable::Printable;
use crate::row::Row;
use crate::snippet::Snippet;
use gtd_mistakes::{Rule, Told};
use gtd_records::{Record, RecordFault};
use gtd_rows::Version;
use gtd_warnings::{
    Asked, DoubtText, KnownDomains, PerhapsLine, codes_listed, is_off, told_of_read, types_of_row,
};
use std::alloc::{AllocError, Global};

// How many rows of a file must name a vehicle code, so that its codes are looked at.
const ROWS_NEEDED: usize = 20;

// Appends the line of what is told.
fn push_line(text: &mut String, path: &str, line: u64, told: &Told) -> Result<(), AllocError>
    ensures { OnOk result (string_bytes text.new ≡ string_bytes text.old ++ doubt_line path.now line told.now) }
{
    let path = Printable(path.as_bytes());
    let words = DoubtText(*told);
    write!(text, "{path}:{line}: {words}\n")
}

// Appends the lines below it.
fn push_snippet(text: &mut String, told: &Told, snippet: Snippet<'_>) -> Result<(), AllocError>
    ensures { OnOk result (string_bytes text.new ≡ string_bytes text.old ++ doubt_snippet told.now snippet.entry) }
{
    let perhaps = PerhapsLine(*told);
    write!(text, "{snippet}{perhaps}")
}

// Appends the lines of what is told of this row, in order.
fn push_told(text: &mut String, path: &str, row: &Row<'_>, told: &[Told]) -> Result<(), AllocError>
    ensures { (bytes : List ℕ) (before : List Told) → IsRowOf bytes row.now → All (λ one. one.row ≡ row.now.number) told.now
        → AreDoubtLines path.now bytes before (string_bytes text.old)
        → OnOk result (AreDoubtLines path.now bytes (before ++ told.now) (string_bytes text.new)) }
{
    for one in told {
        push_line(text, path, row.place.line, one)?;
        push_snippet(text, one, row.part(one.part.before))?;
    }
    Ok(())
}

// How many rows name a code, once one with these codes is among them; no more than are needed are counted.
fn counted_on(naming: usize, codes: &[u8]) -> usize
    ensures { (before : ℕ) → naming ≡ min before rows_needed
        → result ≡ min (before + cond (nat_lt 0 (length codes.now)) 1 0) rows_needed }
{
    if codes.is_empty() {
        return naming;
    }
    if naming >= ROWS_NEEDED {
        return naming;
    }
    naming + 1
}

/// The lines of the warnings of a file's rows so far.
#[derive(Drop)]
pub(crate) struct DoubtLines<'a> {
    alloc: Global,
    path: &'a str,
    asked: &'a Asked,
    known: KnownDomains,
    // How many rows name a vehicle code, of no more than must.
    naming: usize,
    by_code: Vec<Naming>,
    pub(crate) text: String,
}

impl<'a> DoubtLines<'a> {
    /// No lines, for a file with this path. `AllocError` is answered only if memory was refused.
    pub(crate) fn new(
        alloc: Global,
        path: &'a str,
        asked: &'a Asked,
    ) -> Result<DoubtLines<'a>, AllocError>
        ensures { (bytes : List ℕ) (version : Version) → IfOk result (AreDoubted path.now asked.now bytes version []) }
    {
        Ok(DoubtLines {
            alloc,
            path,
            asked,
            known: KnownDomains::new(alloc),
            naming: 0,
            by_code: none_named(alloc)?,
            text: String::new(alloc),
        })
    }

    /// Appends the lines of what is told of this row, which comes after those so far and was read as a record or its fault, and
    /// keeps which codes it names.
    pub(crate) fn take(
        &mut self,
        version: Version,
        row: &Row<'_>,
        read: &Result<Record, RecordFault>,
    ) -> Result<(), AllocError>
        ensures { (path bytes : List ℕ) (asked : Asked) (rows : List Fields) → IsRowOf bytes row.now
            → row.now.number ≡ length rows + 1 → IsRow version row.now.number (fields_of row.now.fields.now) read.now
            → AreDoubted path asked bytes version rows self.old
            → OnOk result (AreDoubted path asked bytes version (rows ++ fields_of row.now.fields.now ∷ []) self.new) }
    {
        let told = told_of_read(&mut self.known, self.asked, row.number, row.fields, read)?;
        push_told(&mut self.text, self.path, row, told.as_slice())?;
        let types = types_of_row(self.alloc, version, row.fields)?;
        let codes = codes_listed(&types);
        self.naming = counted_on(self.naming, codes);
        take_codes(self.alloc, self.path, &mut self.by_code, row, codes)?;
        Ok(())
    }

    /// Appends the lines of the vehicle codes that one row alone names, if enough rows name one.
    pub(crate) fn end(&mut self) -> Result<(), AllocError>
        ensures { (path bytes : List ℕ) (asked : Asked) (version : Version) (rows : List Fields)
            → AreDoubted path asked bytes version rows self.old
            → OnOk result (AreDoubtsOfRows path asked bytes version rows (string_bytes self.new.text)) }
    {
        if is_off(self.asked.off.as_slice(), Rule::LoneCode) {
            return Ok(());
        }
        if self.naming < ROWS_NEEDED {
            return Ok(());
        }
        push_all_lone(&mut self.text, self.by_code.as_slice())?;
        Ok(())
    }
}
