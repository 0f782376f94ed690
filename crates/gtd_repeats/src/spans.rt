//! First spans of rows, by which most rows that are not within another are told at once.

ghost use Rattle.std.specs.Prelude.{◌≡◌, ◌<◌, IfOk, IfSome, length, option_map};
ghost use Rattle.gtd_core.specs.Parts.{domain_tree};
ghost use Rattle.gtd_difference.specs.Difference.{IsHeldSpan};
ghost use Rattle.gtd_records.specs.Closing.{HoldsAt};
ghost use Rattle.gtd_repeats.specs.Sameness.{row_at};
ghost use Rattle.gtd_repeats.specs.Spans.{AreSpans};

use gtd_core::{Domain, Span};
use gtd_difference::first_span;
use gtd_records::Record;
use std::alloc::{AllocError, Global};

// The first span of a domain that is given, if it is asked for.
fn span_of(
    alloc: Global,
    domain: Option<&Domain>,
    is_asked: bool,
) -> Result<Option<Span>, AllocError>
    ensures held { IfOk result (λ found. IfSome found (IsHeldSpan (HoldsAt (option_map (λ d. domain_tree d.now) domain.entry)))) }
{
    if !is_asked {
        return Ok(None);
    }
    match domain {
        Some(domain) => first_span(alloc, domain),
        None => Ok(None),
    }
}

// The same of a row, which is asked for if it is the first with its seconds.
fn span_of_row(
    alloc: Global,
    rows: &[Record],
    first: usize,
    row: usize,
) -> Result<Option<Span>, AllocError>
    requires inside { row < length rows.now }
    ensures held { IfOk result (λ found. IfSome found (IsHeldSpan (HoldsAt (row_at rows.now row).domain))) }
{
    let record = &rows[row];
    span_of(alloc, record.domain(), first == row)
}

/// For each row that is the first with its seconds its first span from 2016 to 2043, if there is one.
pub(crate) fn spans_of(
    alloc: Global,
    rows: &[Record],
    meanings: &[usize],
) -> Result<Vec<Option<Span>>, AllocError>
    requires many { length meanings.now ≡ length rows.now }
    ensures spans { IfOk result (λ spans. AreSpans rows.now spans.items) }
{
    let mut spans = Vec::new(alloc);
    for row in 0..rows.len() {
        let span = span_of_row(alloc, rows, meanings[row], row)?;
        spans.push(span)?;
    }
    Ok(spans)
}
