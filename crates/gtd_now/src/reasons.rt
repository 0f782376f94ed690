//! What is told of the rows that close an element.

ghost use Rattle.std.specs.Prelude.{◌≡◌, ◌++◌, IfOk, OnOk, option_map, string_bytes};
ghost use Rattle.gtd_core.specs.Parts.{domain_tree};
ghost use Rattle.gtd_now.specs.Reasons.{below, domain_text, domain_words, reason, place_start, reason_start, reasons};

use crate::rows::FileRows;
use gtd_core::Domain;
use gtd_text::print_domain;
use gtd_words::write_words;
use itoa::Buffer;
use std::alloc::{AllocError, Global};

/// The canonical text of a domain: nothing, if there is none.
pub(crate) fn text_of(alloc: Global, domain: Option<&Domain>) -> Result<String, AllocError>
    ensures { IfOk result (λ text. string_bytes text
        ≡ domain_text (option_map (λ domain. domain_tree domain.now) domain.entry)) }
{
    match domain {
        Some(domain) => print_domain(alloc, domain),
        None => Ok(String::new(alloc)),
    }
}

/// The words of a domain. A row without one closes its element always.
pub(crate) fn words_of(alloc: Global, domain: Option<&Domain>) -> Result<String, AllocError>
    ensures { IfOk result (λ text. string_bytes text
        ≡ domain_words (option_map (λ domain. domain_tree domain.now) domain.entry)) }
{
    match domain {
        Some(domain) => write_words(alloc, domain),
        None => String::from_str(alloc, "always\n"),
    }
}

// Appends lines, of which those after the first are indented.
fn push_below(line: &mut Vec<u8>, lines: &[u8]) -> Result<(), AllocError>
    ensures { OnOk result (line.new.items ≡ line.old.items ++ below lines.now) }
{
    let mut left = lines;
    while let Some((byte, rest)) = left.split_first() {
        line.push(*byte)?;
        if *byte == b'\n' && !rest.is_empty() {
            line.extend_from_slice(b"        ")?;
        }
        left = rest;
    }
    Ok(())
}

// Appends the line of the file on which a row begins, and its number.
fn push_place(line: &mut Vec<u8>, begins: u64, row: usize) -> Result<(), AllocError>
    ensures { OnOk result (line.new.items ≡ line.old.items ++ place_start begins row) }
{
    line.extend_from_slice(b"    line ")?;
    line.extend_from_slice(Buffer::new().format(begins).as_bytes())?;
    line.extend_from_slice(b", row ")?;
    line.extend_from_slice(Buffer::new().format(row).as_bytes())?;
    line.extend_from_slice(b": ")
}

// Appends the line and the number of a row, and the text of its domain if it has one.
fn push_start(
    alloc: Global,
    line: &mut Vec<u8>,
    begins: u64,
    row: usize,
    domain: Option<&Domain>,
) -> Result<(), AllocError>
    ensures { OnOk result (line.new.items
        ≡ line.old.items ++ reason_start begins row (option_map (λ domain. domain_tree domain.now) domain.entry)) }
{
    push_place(line, begins, row)?;
    let Some(domain) = domain else {
        return Ok(());
    };
    line.extend_from_slice(print_domain(alloc, domain)?.as_bytes())?;
    line.extend_from_slice(b": ")
}

// Appends what is told of a row.
fn push_reason(
    alloc: Global,
    line: &mut Vec<u8>,
    begins: u64,
    row: usize,
    domain: Option<&Domain>,
) -> Result<(), AllocError>
    ensures { OnOk result (line.new.items
        ≡ line.old.items ++ reason begins row (option_map (λ domain. domain_tree domain.now) domain.entry)) }
{
    push_start(alloc, line, begins, row, domain)?;
    let words = words_of(alloc, domain)?;
    push_below(line, words.as_bytes())
}

/// Appends what is told of the rows of a file with these numbers, in their order.
pub(crate) fn push_reasons(
    alloc: Global,
    line: &mut Vec<u8>,
    rows: &FileRows<'_>,
    closing: &[usize],
) -> Result<(), AllocError>
    ensures reasons { OnOk result (line.new.items
        ≡ line.old.items ++ reasons rows.now.lines.now rows.now.records.now closing.now) }
{
    for row in closing {
        push_reason(alloc, line, rows.line(*row), *row, rows.domain(*row))?;
    }
    Ok(())
}
