//! Texts by elements: a header, and the lines of each element, positive before negative.

ghost use Rattle.std.specs.Prelude.{◌≡◌, ◌+◌, ◌*◌, ◌<◌, ◌≤◌, ◌^◌, ℕ, List, length, IsTrue, OnOk};
ghost use Rattle.gtd_core.specs.Limits.{most_rows};
ghost use Rattle.gtd_records.specs.Closing.{AreElements, Restriction};
ghost use Rattle.gtd_rows.specs.declared.direction.Direction.{Direction};
ghost use Rattle.gtd_report.specs.Putting.{AreElementLines, AreLinesOf, IsByElement, IsOneEach, PutsText, failures_after_stop};
ghost use Rattle.gtd_report.specs.Putting.{most_direction_bytes, most_direction_lines, nothing_put};

use crate::output::{Printer, Stop, finish, put_line};
use gtd_devices::Output;
use gtd_records::Records;
use gtd_rows::{DirectedElement, Direction};

/// The lines of an element in a direction.
pub trait DirectionLines {
    /// Which lines an element has in a direction.
    ghost are_lines: { Self → List Restriction → ℕ → Direction → List (List ℕ) → Type 0 };

    /// Puts the lines of an element in a direction. Both counts must stay within a `u64`. Before the call, the output's
    /// failures must be below `u64::MAX`.
    fn put_direction<O: Output>(
        &self,
        output: &mut O,
        printer: &mut Printer,
        found: &Records,
        at: DirectedElement,
    ) -> Result<(), Stop>
        requires countable { O.failure_count output.old < u64.MAX }
        requires few { length found.now ≤ most_rows }
        requires written { printer.old.progress.written + most_direction_bytes < 2 ^ 64 }
        requires lines { printer.old.progress.lines + most_direction_lines < 2 ^ 64 }
        ensures puts { PutsText (are_lines self.now found.now at.element at.direction) result
            (O.taken output.old) (O.taken output.new) printer.old.progress printer.new.progress }
        ensures near { OnOk result ((printer.new.progress.written ≤ printer.old.progress.written + most_direction_bytes)
            × (printer.new.progress.lines ≤ printer.old.progress.lines + most_direction_lines)) }
        ensures failures { O.failure_count output.new
            ≡ failures_after_stop result (O.failure_count output.old) };
}

/// The lines that a text by elements has for an element.
pub trait ElementLines {
    /// Which lines an element has in a direction.
    ghost are_lines: { Self → List Restriction → ℕ → Direction → List (List ℕ) → Type 0 };

    /// Puts the lines of an element, positive before negative, as [`put_both`] does by a call for each direction. The element
    /// must have at most one list of lines in a direction. Both counts must stay within a `u64`. Before the call, the output's
    /// failures must be below `u64::MAX`.
    fn put_element<O: Output>(
        &self,
        output: &mut O,
        printer: &mut Printer,
        found: &Records,
        element: u64,
    ) -> Result<(), Stop>
        requires countable { O.failure_count output.old < u64.MAX }
        requires few { length found.now ≤ most_rows }
        requires written { printer.old.progress.written + 2 * most_direction_bytes < 2 ^ 64 }
        requires lines { printer.old.progress.lines + 2 * most_direction_lines < 2 ^ 64 }
        requires one { IsOneEach (are_lines self.now found.now) }
        ensures puts { PutsText (AreElementLines (are_lines self.now found.now element)) result
            (O.taken output.old) (O.taken output.new) printer.old.progress printer.new.progress }
        ensures near { OnOk result ((printer.new.progress.written ≤ printer.old.progress.written + 2 * most_direction_bytes)
            × (printer.new.progress.lines ≤ printer.old.progress.lines + 2 * most_direction_lines)) }
        ensures failures { O.failure_count output.new
            ≡ failures_after_stop result (O.failure_count output.old) };
}

/// Puts the lines of an element, positive before negative, by a call for each direction. The same must hold before the call as
/// before [`ElementLines::put_element`].
pub fn put_both<O: Output, L: DirectionLines>(
    output: &mut O,
    printer: &mut Printer,
    found: &Records,
    element: u64,
    text: &L,
) -> Result<(), Stop>
    requires countable { O.failure_count output.old < u64.MAX }
    requires few { length found.now ≤ most_rows }
    requires written { printer.old.progress.written + 2 * most_direction_bytes < 2 ^ 64 }
    requires lines { printer.old.progress.lines + 2 * most_direction_lines < 2 ^ 64 }
    requires one { IsOneEach (L.are_lines text.now found.now) }
    ensures puts { PutsText (AreElementLines (L.are_lines text.now found.now element)) result
        (O.taken output.old) (O.taken output.new) printer.old.progress printer.new.progress }
    ensures near { OnOk result ((printer.new.progress.written ≤ printer.old.progress.written + 2 * most_direction_bytes)
        × (printer.new.progress.lines ≤ printer.old.progress.lines + 2 * most_direction_lines)) }
    ensures failures { O.failure_count output.new
        ≡ failures_after_stop result (O.failure_count output.old) }
{
    let positive = DirectedElement {
        element,
        direction: Direction::Positive,
    };
    text.put_direction(output, printer, found, positive)?;
    let negative = DirectedElement {
        element,
        direction: Direction::Negative,
    };
    text.put_direction(output, printer, found, negative)
}

// Puts the lines of elements, in their order.
fn put_elements<O: Output, L: ElementLines>(
    output: &mut O,
    printer: &mut Printer,
    found: &Records,
    elements: &[u64],
    text: &L,
) -> Result<(), Stop>
    requires countable { O.failure_count output.old < u64.MAX }
    requires known { length found.now ≤ most_rows }
    requires few { length elements.now ≤ 2 * most_rows }
    requires written { printer.old.progress.written ≤ 1000 }
    requires lines { printer.old.progress.lines ≤ 1 }
    requires one { IsOneEach (L.are_lines text.now found.now) }
    ensures puts { PutsText (AreLinesOf (L.are_lines text.now found.now) elements.now) result
        (O.taken output.old) (O.taken output.new) printer.old.progress printer.new.progress }
    ensures failures { O.failure_count output.new
        ≡ failures_after_stop result (O.failure_count output.old) }
{
    for element in elements {
        text.put_element(output, printer, found, *element)?;
    }
    Ok(())
}

/// Puts a header of at most 1,000 bytes, and the lines of listed elements, in their order and positive before negative; then
/// ends the output. If the list is that of the elements that some restrictions name, this is a text by their elements. There may
/// be twice as many as a file has rows. Before the call, the output's failures must be below `u64::MAX`. An element must have at
/// most one list of lines in a direction.
pub fn put_listed<O: Output, L: ElementLines>(
    output: &mut O,
    printer: &mut Printer,
    found: &Records,
    elements: &[u64],
    header: &[u8],
    text: &L,
) -> Result<(), Stop>
    requires countable { O.failure_count output.old < u64.MAX }
    requires begins { printer.old.progress ≡ nothing_put }
    requires known { length found.now ≤ most_rows }
    requires few { length elements.now ≤ 2 * most_rows }
    requires short { length header.now ≤ 1000 }
    requires one { IsOneEach (L.are_lines text.now found.now) }
    ensures puts { (all : List Restriction) → AreElements all elements.now
        → PutsText (IsByElement all header.now (L.are_lines text.now found.now)) result
        (O.taken output.old) (O.taken output.new) printer.old.progress printer.new.progress }
    ensures ended { OnOk result (IsTrue (O.is_ended output.new)) }
    ensures failures { O.failure_count output.new
        ≡ failures_after_stop result (O.failure_count output.old) }
{
    put_line(output, &mut printer.progress, header)?;
    put_elements(output, printer, found, elements, text)?;
    finish(output)
}

/// Puts a text by elements: a header of at most 1,000 bytes, and the lines of each element of the records, in ascending
/// order and positive before negative; then ends the output. Before the call, the output's failures must be below
/// `u64::MAX`. An element must have at most one list of lines in a direction.
pub fn put_by_element<O: Output, L: ElementLines>(
    output: &mut O,
    printer: &mut Printer,
    found: &Records,
    header: &[u8],
    text: &L,
) -> Result<(), Stop>
    requires countable { O.failure_count output.old < u64.MAX }
    requires begins { printer.old.progress ≡ nothing_put }
    requires few { length found.now ≤ most_rows }
    requires short { length header.now ≤ 1000 }
    requires one { IsOneEach (L.are_lines text.now found.now) }
    ensures puts { PutsText (IsByElement found.now header.now (L.are_lines text.now found.now)) result
        (O.taken output.old) (O.taken output.new) printer.old.progress printer.new.progress }
    ensures ended { OnOk result (IsTrue (O.is_ended output.new)) }
    ensures failures { O.failure_count output.new
        ≡ failures_after_stop result (O.failure_count output.old) }
{
    put_listed(output, printer, found, found.elements(), header, text)
}
