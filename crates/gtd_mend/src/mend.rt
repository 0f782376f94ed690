//! The mended file of a file's bytes.

ghost use Rattle.std.specs.Prelude.{◌≡◌, ◌++◌, [], ◌∷◌, ℕ, List, IfOk, MatchBool, OnOk};
ghost use Rattle.gtd_faults.specs.Hints as hints;
ghost use Rattle.gtd_mend.specs.Answer.{Gives, marks_of};
ghost use Rattle.gtd_mend.specs.Decoding.{changes_by_mark, text_of_file, text_of_units, units_of};
ghost use Rattle.gtd_mend.specs.Mended as spec;
ghost use Rattle.gtd_mend.specs.Mended.{IsAccepted, IsMended, IsOfFile, IsOfText, IsRewritten};

use crate::additions::add_file_changes;
use crate::change::FileChange;
use crate::decode::from_utf16;
use crate::header::separator_of;
use crate::listing::Listing;
use crate::separator::Separator;
use crate::table::mend_rows;
use gtd_records::faults_of;
use gtd_records::laws::{listed_faults, one_answer};
use std::alloc::{AllocError, Global};

// What is put of a file.
#[derive(Drop)]
pub(crate) enum Answer {
    // Its bytes as they are.
    Same,
    // Other bytes, and lines of changes, so many.
    Mended {
        bytes: Vec<u8>,
        lines: String,
        count: u64,
    },
}

// Whether the file is accepted.
fn is_accepted(alloc: Global, bytes: &[u8]) -> Result<bool, AllocError>
    ensures value { IfOk result (λ yes. MatchBool yes (IsAccepted bytes.now) (IsAccepted bytes.now → ⊥)) }
{
    listed_faults();
    one_answer();
    let faults = faults_of(alloc, bytes)?;
    Ok(faults.as_slice().is_empty())
}

// Adds the change of separators, if they are not commas.
fn add_separators(changes: &mut Vec<FileChange>, separator: Separator) -> Result<(), AllocError>
    ensures added { OnOk result (changes.new.items ≡ changes.old.items ++ spec.separators_changed separator) }
{
    if separator == Separator::Comma {
        return Ok(());
    }
    changes.push(FileChange::Separators)?;
    Ok(())
}

// Adds the change of the layout, if the text is not that of its rows.
fn add_layout(changes: &mut Vec<FileChange>, text: &[u8], written: &[u8]) -> Result<(), AllocError>
    ensures added { OnOk result (changes.new.items ≡ changes.old.items ++ spec.layout_changed text.now written.now) }
{
    if text == written {
        return Ok(());
    }
    changes.push(FileChange::Layout)?;
    Ok(())
}

// The changes of a file as a whole: how it was read, its separators, and its layout.
fn file_changes(
    alloc: Global,
    mark: Option<FileChange>,
    separator: Separator,
    text: &[u8],
    written: &[u8],
) -> Result<Vec<FileChange>, AllocError>
    ensures value { IfOk result (λ changes. changes.items
        ≡ marks_of mark ++ (spec.separators_changed separator ++ spec.layout_changed text.now written.now)) }
{
    let mut changes = Vec::new(alloc);
    if let Some(mark) = mark {
        changes.push(mark)?;
    }
    add_separators(&mut changes, separator)?;
    add_layout(&mut changes, text, written)?;
    Ok(changes)
}

// The text with this separator, written anew.
fn rewrite(
    alloc: Global,
    path: &str,
    text: &[u8],
    mark: Option<FileChange>,
    separator: Separator,
) -> Result<Answer, AllocError>
    ensures rewritten { (bytes : List ℕ) → IfOk result (Gives bytes (IsRewritten path.now separator (marks_of mark) text.now)) }
{
    let table = mend_rows(alloc, path, text, separator)?;
    let changes = file_changes(alloc, mark, separator, text, table.written.as_slice())?;
    let mut listing = Listing::new(alloc, path);
    add_file_changes(&mut listing, changes.as_slice())?;
    listing.join(&table.listing)?;
    Ok(Answer::Mended {
        bytes: table.mended,
        lines: listing.text,
        count: listing.count,
    })
}

// What is put of a file with this text.
fn mend_text(
    alloc: Global,
    path: &str,
    text: &[u8],
    mark: Option<FileChange>,
) -> Result<Answer, AllocError>
    ensures mended { (bytes : List ℕ) → IfOk result (Gives bytes (IsOfText path.now bytes (marks_of mark) text.now)) }
{
    let Some(separator) = separator_of(alloc, text)? else {
        return Ok(Answer::Same);
    };
    rewrite(alloc, path, text, mark, separator)
}

// What is put of a file in UTF-16 that has these bytes after its byte order mark.
fn mend_utf16(alloc: Global, path: &str, first: bool, rest: &[u8]) -> Result<Answer, AllocError>
    ensures mended { (bytes : List ℕ) → IfOk result
        (Gives bytes (IsOfFile path.now bytes (FileChange.Utf16 ∷ []) (text_of_units (units_of first rest.now)))) }
{
    let Some(text) = from_utf16(alloc, first, rest)? else {
        return Ok(Answer::Same);
    };
    mend_text(alloc, path, text.as_bytes(), Some(FileChange::Utf16))
}

// Whether a file begins with these bytes.
fn begins_with(mark: &[u8], bytes: &[u8]) -> bool
    ensures value { result ≡ hints.begins_with mark.now bytes.now }
{
    bytes.starts_with(mark)
}

// What is put of a file that is not accepted.
fn mend_refused(alloc: Global, path: &str, bytes: &[u8]) -> Result<Answer, AllocError>
    ensures mended { IfOk result
        (Gives bytes.now (IsOfFile path.now bytes.now (changes_by_mark bytes.now) (text_of_file bytes.now))) }
{
    if begins_with(&[255, 254], bytes) {
        return mend_utf16(alloc, path, false, &bytes[2..]);
    }
    if begins_with(&[254, 255], bytes) {
        return mend_utf16(alloc, path, true, &bytes[2..]);
    }
    if begins_with(&[239, 187, 191], bytes) {
        return mend_text(alloc, path, &bytes[3..], Some(FileChange::ByteOrderMark));
    }
    mend_text(alloc, path, bytes, None)
}

/// What is put of the file with this path and these bytes.
pub(crate) fn mend(alloc: Global, path: &str, bytes: &[u8]) -> Result<Answer, AllocError>
    ensures mended { IfOk result (Gives bytes.now (IsMended path.now bytes.now)) }
{
    if is_accepted(alloc, bytes)? {
        return Ok(Answer::Same);
    }
    mend_refused(alloc, path, bytes)
}
