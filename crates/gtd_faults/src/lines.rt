//! The lines of faults.

ghost use Rattle.std.specs.Prelude.{◌≡◌, ◌++◌, ◌∷◌, [], ℕ, List, IfOk, IfSome, OnOk, string_bytes};
ghost use Rattle.gtd_faults.specs.Snippet.{IsSnippet};
ghost use Rattle.gtd_faults.specs.Hints as spec;
ghost use Rattle.gtd_faults.specs.ListedRows.{HasOneMore};
ghost use Rattle.gtd_faults.specs.Listing as list;
ghost use Rattle.gtd_faults.specs.Listing.{AreLines, fault_line, snippet_lines};
ghost use Rattle.gtd_faults.specs.Places.{IsLineAt};
ghost use Rattle.gtd_faults.specs.Standing.{IsRowOf};

use crate::hint::hint_of;
use crate::printable::Printable;
use crate::row::Row;
use crate::snippet::{Snippet, byte_at};
use crate::stretch::Stretch;
use crate::words::{Expected, FaultText, accepted_at};
use gtd_records::RecordFault;
use std::alloc::{AllocError, Global};

// Appends the line of a fault, and those below it, to the text.
fn push_fault(
    text: &mut String,
    path: &str,
    line: u64,
    fault: RecordFault,
    snippet: Snippet<'_>,
) -> Result<(), AllocError>
    ensures { OnOk result (string_bytes text.new
        ≡ string_bytes text.old ++ (fault_line path.now line fault ++ snippet_lines fault snippet.entry)) }
{
    let path = Printable(path.as_bytes());
    let words = FaultText(fault);
    let expected = Expected(accepted_at(fault, byte_at(snippet)));
    write!(text, "{path}:{line}: {words}\n{snippet}{expected}")
}

/// The bytes before the first line end, an LF or a CR: all of them if there is none.
pub fn first_line(bytes: &[u8]) -> &[u8]
    ensures value { result.now ≡ spec.first_line bytes.now }
{
    for (end, byte) in bytes.iter().enumerate() {
        if *byte == 10 || *byte == 13 {
            return &bytes[..end];
        }
    }
    bytes
}

// What is shown below the line of a file without a header: its first line.
fn header_snippet(bytes: &[u8]) -> Snippet<'_>
    ensures snippet { IsSnippet bytes.now RecordFault.Header result }
{
    let line = first_line(bytes);
    Snippet::Header {
        found: Stretch::around(line, 0),
        expected: "element,direction,vehicle,domain (or vehicles)",
        hint: hint_of(line),
    }
}

// What is shown below the line of a row's fault: a field of it, or the row.
fn row_snippet<'a>(row: &Row<'a>, fault: RecordFault) -> Snippet<'a>
    ensures snippet { (bytes : List ℕ) → IsRowOf bytes row.now → IfSome (list.row_of fault) (λ number. row.now.number ≡ number)
        → IsSnippet bytes fault result }
{
    match fault {
        RecordFault::Header => header_snippet(row.bytes),
        RecordFault::FieldCount { .. } => row.whole(),
        RecordFault::Element { .. } => row.field(0, 0),
        RecordFault::Direction { .. } => row.field(1, 0),
        RecordFault::Vehicle { .. } => row.field(2, 0),
        RecordFault::Domain { fault, .. } => row.field(3, fault.place),
        _ => Snippet::Nothing,
    }
}

/// Faults of a file, and their lines.
#[derive(Drop)]
pub(crate) struct FaultLines<'a> {
    path: &'a str,
    pub(crate) faults: Vec<RecordFault>,
    pub(crate) text: String,
}

impl<'a> FaultLines<'a> {
    /// No fault, of a file with this path. Takes no memory.
    pub(crate) fn new(alloc: Global, path: &'a str) -> FaultLines<'a>
        ensures path { result.path.now ≡ path.now }
        ensures faults { result.faults.items ≡ [] }
        ensures lines { (bytes : List ℕ) → AreLines path.now bytes [] (string_bytes result.text) }
    {
        FaultLines {
            path,
            faults: Vec::new(alloc),
            text: String::new(alloc),
        }
    }

    /// The only fault of a file with this path and too many bytes, of which none is known. `AllocError` is answered only if
    /// memory was refused.
    pub(crate) fn too_large(alloc: Global, path: &'a str) -> Result<FaultLines<'a>, AllocError>
        ensures { IfOk result (λ list. AreLines path.now [] (RecordFault.TooLarge ∷ []) (string_bytes list.text)) }
    {
        let mut list = FaultLines::new(alloc, path);
        list.add(1, RecordFault::TooLarge, Snippet::Nothing)?;
        Ok(list)
    }

    // Adds a fault on this line, with what is shown below it.
    fn add(&mut self, line: u64, fault: RecordFault, snippet: Snippet<'_>) -> Result<(), AllocError>
        ensures { (bytes : List ℕ) → IsLineAt bytes (list.row_of fault) line → IsSnippet bytes fault snippet.entry
            → OnOk result (HasOneMore bytes fault self.old self.new) }
    {
        push_fault(&mut self.text, self.path, line, fault, snippet)?;
        self.faults.push(fault)?;
        Ok(())
    }

    /// Adds a fault of this row.
    pub(crate) fn add_of_row(&mut self, row: &Row<'_>, fault: RecordFault) -> Result<(), AllocError>
        ensures { (bytes : List ℕ) → IsRowOf bytes row.now → list.row_of fault ≡ Some row.now.number
            → OnOk result (HasOneMore bytes fault self.old self.new) }
    {
        self.add(row.place.line, fault, row_snippet(row, fault))
    }

    /// Adds that the first record of these bytes is no header.
    pub(crate) fn add_header(&mut self, bytes: &[u8]) -> Result<(), AllocError>
        ensures { OnOk result (HasOneMore bytes.now RecordFault.Header self.old self.new) }
    {
        self.add(1, RecordFault::Header, header_snippet(bytes))
    }

    /// Adds that there is a row too many, which begins on this line.
    pub(crate) fn add_too_many(&mut self, line: u64) -> Result<(), AllocError>
        ensures { (bytes : List ℕ) → IsLineAt bytes (list.row_of RecordFault.TooManyRows) line
            → OnOk result (HasOneMore bytes RecordFault.TooManyRows self.old self.new) }
    {
        self.add(line, RecordFault::TooManyRows, Snippet::Nothing)
    }
}
