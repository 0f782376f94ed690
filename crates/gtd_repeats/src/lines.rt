//! The lines of what is said of rows.

ghost use Rattle.std.specs.Prelude.{◌≡◌, ◌++◌, IfOk, OnOk, string_bytes};
ghost use Rattle.gtd_repeats.specs.Listing as spec;
ghost use Rattle.gtd_repeats.specs.Listing.{AreFindingLines, AreOfRows, finding_line, row_count};

use crate::findings::Finding;
use gtd_faults::Printable;
use gtd_lines::lines_of;
use std::alloc::{AllocError, Global};

// The row of which something is said.
fn row_of(finding: Finding) -> u32
    ensures value { result ≡ spec.row_of finding }
{
    match finding {
        Finding::SameRow { row, .. } => row,
        Finding::WithinRow { row, .. } => row,
        Finding::SameMeaning { row, .. } => row,
    }
}

// Appends a line to the text.
fn push_line(text: &mut String, path: &str, line: u64, finding: Finding) -> Result<(), AllocError>
    ensures line { OnOk result (string_bytes text.new ≡ string_bytes text.old ++ finding_line path.now line finding) }
{
    let path = Printable(path.as_bytes());
    match finding {
        Finding::SameRow { row, of } => {
            write!(text, "{path}:{line}: row {row}: same as row {of}\n")
        }
        Finding::WithinRow { row, of } => {
            write!(text, "{path}:{line}: row {row}: within row {of}\n")
        }
        Finding::SameMeaning { row, of } => {
            write!(text, "{path}:{line}: row {row}: same domain as row {of}\n")
        }
    }
}

/// The lines of these findings, in order, for the file with this path and these bytes, of whose rows they are.
pub(crate) fn text_of(
    alloc: Global,
    path: &str,
    bytes: &[u8],
    findings: &[Finding],
) -> Result<String, AllocError>
    requires rows { AreOfRows (row_count bytes.now) findings.now }
    ensures lines { IfOk result (λ text. AreFindingLines path.now bytes.now findings.now (string_bytes text)) }
{
    let lines = lines_of(alloc, bytes)?;
    let mut text = String::new(alloc);
    for finding in findings {
        let row = row_of(*finding);
        push_line(&mut text, path, lines[row as usize - 1], *finding)?;
    }
    Ok(text)
}
