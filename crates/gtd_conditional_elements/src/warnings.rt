//! Warnings of the hours in the values of a file.

ghost use Rattle.std.specs.Prelude.{◌≡◌, ◌++◌, [], ℕ, List, IfOk, IsTrue, OnOk, string_bytes};
ghost use Rattle.gtd_conditional_elements.specs.Warnings as spec;
ghost use Rattle.gtd_conditional_elements.specs.Warnings.{AreWarnings};

use crate::tag::ReadTag;
use gtd_conditional_parts::Part;
use gtd_conditional_tags::ElementItem;
use gtd_conditional_values::Term;
use gtd_faults::{Printable, Rows};
use gtd_hours_warnings::push_lines;
use std::alloc::{AllocError, Global};

// What stands before a warning of the hours of a row that begins on this line.
fn before_warning(alloc: Global, path: &str, line: u64, row: u32) -> Result<String, AllocError>
    ensures { IfOk result (λ text. string_bytes text ≡ spec.before_warning path.now line row) }
{
    let mut text = String::new(alloc);
    let path = Printable(path.as_bytes());
    write!(text, "{path}:{line}: row {row}: warning Hours ")?;
    Ok(text)
}

// Whether the hours of a term have no warning.
fn is_silent(term: &Term) -> bool
    ensures { IsTrue result → (before : List ℕ) → spec.term_lines before term.now ≡ [] }
{
    match term {
        Term::Named(_) => true,
        Term::Hours(given) => given.warnings.is_empty(),
    }
}

// Appends the warnings of a term, each in a line behind these bytes.
fn push_term(out: &mut Vec<u8>, before: &[u8], term: &Term) -> Result<(), AllocError>
    ensures { OnOk result (out.new.items ≡ out.old.items ++ spec.term_lines before.now term.now) }
{
    match term {
        Term::Named(_) => Ok(()),
        Term::Hours(given) => push_lines(out, before, given.warnings.as_slice()),
    }
}

fn push_terms(out: &mut Vec<u8>, before: &[u8], terms: &[Term]) -> Result<(), AllocError>
    ensures { OnOk result (out.new.items ≡ out.old.items ++ spec.terms_lines before.now terms.now) }
{
    let mut rest = terms;
    while let Some((term, later)) = rest.split_first() {
        push_term(out, before, term)?;
        rest = later;
    }
    Ok(())
}

// Appends those of parts.
fn push_parts(out: &mut Vec<u8>, before: &[u8], parts: &[Part]) -> Result<(), AllocError>
    ensures { OnOk result (out.new.items ≡ out.old.items ++ spec.parts_lines before.now parts.now) }
{
    let mut rest = parts;
    while let Some((part, later)) = rest.split_first() {
        push_terms(out, before, part.terms.as_slice())?;
        rest = later;
    }
    Ok(())
}

// Whether no hours of terms have a warning.
fn are_silent(terms: &[Term]) -> bool
    ensures { IsTrue result → (before : List ℕ) → spec.terms_lines before terms.now ≡ [] }
{
    let mut rest = terms;
    while let Some((term, later)) = rest.split_first() {
        if !is_silent(term) {
            return false;
        }
        rest = later;
    }
    true
}

// Whether no hours of parts have one. Then nothing is written.
fn say_nothing(parts: &[Part]) -> bool
    ensures { IsTrue result → (before : List ℕ) → spec.parts_lines before parts.now ≡ [] }
{
    let mut rest = parts;
    while let Some((part, later)) = rest.split_first() {
        if !are_silent(part.terms.as_slice()) {
            return false;
        }
        rest = later;
    }
    true
}

// The warnings of a tag whose row begins on this line of the file.
fn tag_lines(alloc: Global, path: &str, line: u64, tag: &ReadTag) -> Result<Vec<u8>, AllocError>
    ensures { IfOk result (λ lines. lines.items ≡ spec.tag_lines path.now line tag.now) }
{
    let mut lines = Vec::new(alloc);
    let parts = tag.tag.value.parts.as_slice();
    if say_nothing(parts) {
        return Ok(lines);
    }
    let before = before_warning(alloc, path, line, tag.row)?;
    push_parts(&mut lines, before.as_bytes(), parts)?;
    Ok(lines)
}

/// The warnings of tags, in their order, for the file with this path and these bytes.
pub(crate) fn warnings_of(
    alloc: Global,
    path: &str,
    bytes: &[u8],
    tags: &[ElementItem<ReadTag>],
) -> Result<Vec<u8>, AllocError>
    ensures { IfOk result (λ text. AreWarnings path.now bytes.now tags.now text.items) }
{
    let mut text = Vec::new(alloc);
    let mut places = Rows::new(alloc, bytes)?;
    for tag in tags {
        let line = places.line_at(Some(tag.item.row))?;
        let lines = tag_lines(alloc, path, line, &tag.item)?;
        text.extend_from_slice(lines.as_slice())?;
    }
    Ok(text)
}
