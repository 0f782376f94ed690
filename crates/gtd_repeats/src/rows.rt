//! Whether two rows say the same, and whether one may say nothing that the other does not say.

ghost use Rattle.std.specs.Prelude.{◌↔◌, IfOk, IsTrue};
ghost use Rattle.gtd_repeats.specs.Sameness.{IsSameRow, MayBeWithin};

use crate::seconds::hold_same;
use crate::vehicles::{close_same, closes_within, serve_same, serves_within};
use gtd_records::Record;
use std::alloc::{AllocError, Global};

/// Whether two rows say the same.
pub(crate) fn is_same_row(
    alloc: Global,
    first: &Record,
    second: &Record,
) -> Result<bool, AllocError>
    ensures same { IfOk result (λ same. IsTrue same ↔ IsSameRow first.now second.now) }
{
    if first.element != second.element {
        return Ok(false);
    }
    if !close_same(first.closed, second.closed) {
        return Ok(false);
    }
    if !serve_same(&first.vehicles, &second.vehicles) {
        return Ok(false);
    }
    hold_same(alloc, first.domain(), second.domain())
}

/// Whether a row is within another, if it closes at no second at which the other does not.
pub(crate) fn may_be_within(row: &Record, other: &Record) -> bool
    ensures may { IsTrue result ↔ MayBeWithin row.now other.now }
{
    row.element == other.element
        && closes_within(row.closed, other.closed)
        && serves_within(&row.vehicles, &other.vehicles)
}
