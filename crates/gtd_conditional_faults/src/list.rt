//! The list of all faults of a file.

ghost use Rattle.std.specs.Prelude.{◌≡◌, ◌++◌, ℕ, IfOk, IfSome, OnOk, string_bytes};
ghost use Rattle.gtd_faults.specs.Listing.{line_text};
ghost use Rattle.gtd_faults.specs.Standing.{StandsAt};
ghost use Rattle.gtd_conditional_faults.specs.Listing as spec;
ghost use Rattle.gtd_conditional_faults.specs.Listing.{AreLines, IsSnippet, snippet_lines};
ghost use Rattle.gtd_conditional_faults.specs.Places as places;
ghost use Rattle.gtd_conditional_faults.specs.Words.{fault_text};

use crate::accepted::accepted;
use crate::fault::FileFault;
use crate::place::{place_of, row_of};
use crate::words::FaultText;
use gtd_conditional_elements::ConditionsFault;
use gtd_conditional_means::MeansFault;
use gtd_conditional_tags::TagsFault;
use gtd_faults::{Expected, Printable, Rows, Snippet, Stretch, first_line};
use std::alloc::{AllocError, Global};

// What is shown of a first line that is not this header.
fn header_snippet<'a>(bytes: &'a [u8], expected: &'a str) -> Snippet<'a>
    ensures { spec.IsNoHeader bytes.now expected.now result }
{
    Snippet::Header {
        found: Stretch::around(first_line(bytes), 0),
        expected,
        hint: None,
    }
}

// What is shown below the line of a fault of a table of means, if the rows stand at its row.
fn means_snippet<'a>(bytes: &'a [u8], rows: &'a Rows<'_>, fault: MeansFault) -> Snippet<'a>
    ensures snippet { (number : ℕ) → StandsAt bytes.now number rows.now
        → IfSome (places.means_row fault) (λ row. number ≡ row) → spec.IsMeansSnippet bytes.now fault result }
{
    match fault {
        MeansFault::Header => header_snippet(bytes, "kind,name,means"),
        MeansFault::FieldCount { .. } => rows.row(),
        MeansFault::Kind { .. } => rows.field(0, 0),
        MeansFault::Name { .. } => rows.field(1, 0),
        MeansFault::Repeated { .. } => rows.field(1, 0),
        MeansFault::Vehicle { .. } => rows.field(2, 0),
        MeansFault::Value { .. } => rows.field(2, 0),
        MeansFault::TooManyRows => Snippet::Nothing,
        MeansFault::TooLarge => Snippet::Nothing,
    }
}

// The same of a file of tags, whatever its values say.
fn row_snippet<'a>(bytes: &'a [u8], rows: &'a Rows<'_>, fault: TagsFault) -> Snippet<'a>
    ensures snippet { (number : ℕ) → StandsAt bytes.now number rows.now
        → IfSome (places.row_in fault) (λ row. number ≡ row) → spec.IsRowSnippet bytes.now fault result }
{
    match fault {
        TagsFault::Header => header_snippet(bytes, "element,key,value"),
        TagsFault::FieldCount { .. } => rows.row(),
        TagsFault::Element { .. } => rows.field(0, 0),
        TagsFault::Key { .. } => rows.field(1, 0),
        TagsFault::Repeated { .. } => rows.field(1, 0),
        TagsFault::TooManyRows => Snippet::Nothing,
        TagsFault::TooLarge => Snippet::Nothing,
    }
}

// The same of a file of tags or of its values.
fn tags_snippet<'a>(bytes: &'a [u8], rows: &'a Rows<'_>, fault: ConditionsFault) -> Snippet<'a>
    ensures snippet { (number : ℕ) → StandsAt bytes.now number rows.now
        → IfSome (places.tags_row fault) (λ row. number ≡ row) → spec.IsTagsSnippet bytes.now fault result }
{
    match fault {
        ConditionsFault::Row(why) => row_snippet(bytes, rows, why),
        ConditionsFault::Value { fault, .. } => rows.field(2, place_of(fault)),
        ConditionsFault::TooMany { .. } => rows.field(2, 0),
    }
}

// The same of either file.
fn fault_snippet<'a>(bytes: &'a [u8], rows: &'a Rows<'_>, fault: FileFault) -> Snippet<'a>
    ensures snippet { (number : ℕ) → StandsAt bytes.now number rows.now
        → IfSome (places.row_of fault) (λ row. number ≡ row) → IsSnippet bytes.now fault result }
{
    match fault {
        FileFault::Means(why) => means_snippet(bytes, rows, why),
        FileFault::Tags(why) => tags_snippet(bytes, rows, why),
    }
}

// Appends the line of a fault, and those below it, to the text.
fn push_fault(
    text: &mut String,
    path: &str,
    line: u64,
    fault: FileFault,
    snippet: Snippet<'_>,
) -> Result<(), AllocError>
    ensures { OnOk result (string_bytes text.new
        ≡ string_bytes text.old ++ (line_text path.now line (fault_text fault) ++ snippet_lines fault snippet.entry)) }
{
    let path = Printable(path.as_bytes());
    let words = FaultText(fault);
    let expected = Expected(accepted(fault));
    write!(text, "{path}:{line}: {words}\n{snippet}{expected}")
}

/// The lines of these faults, in order, for the file with this path and these bytes: each with the line on which its row begins,
/// and below it what stands there and what is accepted. `AllocError` is answered only if memory was refused.
pub fn lines_of(
    alloc: Global,
    path: &str,
    bytes: &[u8],
    faults: &[FileFault],
) -> Result<String, AllocError>
    ensures lines { IfOk result (λ text. AreLines path.now bytes.now faults.now (string_bytes text)) }
{
    let mut text = String::new(alloc);
    let mut rows = Rows::new(alloc, bytes)?;
    for fault in faults {
        let line = rows.line_at(row_of(*fault))?;
        let snippet = fault_snippet(bytes, &rows, *fault);
        push_fault(&mut text, path, line, *fault, snippet)?;
    }
    Ok(text)
}
