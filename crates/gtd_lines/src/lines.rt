//! The lines on which the rows of a file begin.

ghost use Rattle.std.specs.Prelude.{IfOk};
ghost use Rattle.gtd_lines.specs.Lines.{AreLinesOfRows};

use crate::cut::Place;
use std::alloc::{AllocError, Global};

/// The line of each row of a file with these bytes, in order: the lines on which the records after the header begin, counted
/// from 1. That of row 1 comes first. `AllocError` is answered only if memory was refused.
///
/// The bytes are walked over once.
pub fn lines_of(alloc: Global, bytes: &[u8]) -> Result<Vec<u64>, AllocError>
    ensures lines { IfOk result (λ lines. AreLinesOfRows bytes.now lines.items) }
{
    let mut lines = Vec::new(alloc);
    let mut place = Place::first(bytes).next(bytes);
    while place.at < bytes.len() {
        lines.push(place.line)?;
        place = place.next(bytes);
    }
    Ok(lines)
}
