//! The lines of changes.

ghost use Rattle.std.specs.Prelude.{[], ◌∷◌, ◌≡◌, ◌++◌, OnOk};
ghost use Rattle.gtd_calendar.specs.Calendar.{IsCalendarDay};
ghost use Rattle.gtd_calendar.specs.Stamp.{stamp_text};
ghost use Rattle.gtd_core.specs.Seconds.{day_of_second};
ghost use Rattle.gtd_schedule.specs.Lines.{line_head};
ghost use Rattle.gtd_changes.specs.Changes.{change_line, change_word, span_of};
ghost use Rattle.gtd_changes.specs.Rows.{change_start, numbers_text, rows_line};

use crate::change::Change;
use gtd_calendar::write_stamp;
use gtd_core::Sec;
use gtd_report::DirectedElement;
use gtd_rows::Direction;
use itoa::Buffer;
use std::alloc::AllocError;

/// Writes what the lines of an element in a direction begin with, in place of what the buffer held.
pub(crate) fn write_head(
    line: &mut Vec<u8>,
    element: u64,
    direction: Direction,
    vehicle: u8,
) -> Result<(), AllocError>
    ensures head { OnOk result (line.new.items ≡ line_head element direction vehicle) }
{
    line.clear();
    line.extend_from_slice(Buffer::new().format(element).as_bytes())?;
    line.extend_from_slice(match direction {
        Direction::Positive => b",positive,".as_slice(),
        Direction::Negative => b",negative,".as_slice(),
    })?;
    line.extend_from_slice(Buffer::new().format(vehicle).as_bytes())?;
    line.extend_from_slice(b",")
}

// Appends the word for a change and a comma to the buffer.
fn push_word(line: &mut Vec<u8>, change: &Change) -> Result<(), AllocError>
    ensures word { OnOk result (line.new.items ≡ line.old.items ++ (change_word change.now ++ (44 ∷ []))) }
{
    line.extend_from_slice(change.word().as_bytes())?;
    line.extend_from_slice(b",")
}

// Appends a moment and what stands behind it to the buffer.
fn push_moment(line: &mut Vec<u8>, second: Sec, end: &[u8]) -> Result<(), AllocError>
    requires day { IsCalendarDay (day_of_second second.0) }
    ensures moment { OnOk result (line.new.items ≡ line.old.items ++ (stamp_text second.0 ++ end.now)) }
{
    line.extend_from_slice(&write_stamp(second))?;
    line.extend_from_slice(end)
}

// Writes the line of a change up to its last moment, and what stands behind it, in place of what the buffer held.
fn write_start(
    line: &mut Vec<u8>,
    at: DirectedElement,
    vehicle: u8,
    change: &Change,
    end: &[u8],
) -> Result<(), AllocError>
    requires from { IsCalendarDay (day_of_second (span_of change.now).from) }
    requires until { IsCalendarDay (day_of_second (span_of change.now).until) }
    ensures start { OnOk result (line.new.items ≡ change_start at.element at.direction vehicle change.now ++ end.now) }
{
    let span = change.span();
    write_head(line, at.element, at.direction, vehicle)?;
    push_word(line, change)?;
    push_moment(line, span.from(), b",")?;
    push_moment(line, span.until(), end)
}

/// Writes the line of a change, in place of what the buffer held.
pub(crate) fn write_change(
    line: &mut Vec<u8>,
    at: DirectedElement,
    vehicle: u8,
    change: &Change,
) -> Result<(), AllocError>
    requires from { IsCalendarDay (day_of_second (span_of change.now).from) }
    requires until { IsCalendarDay (day_of_second (span_of change.now).until) }
    ensures line { OnOk result (line.new.items ≡ change_line at.element at.direction vehicle change.now) }
{
    write_start(line, at, vehicle, change, b"\n")
}

// Appends numbers to the buffer, in their order, with spaces between them.
fn push_numbers(line: &mut Vec<u8>, numbers: &[usize]) -> Result<(), AllocError>
    ensures text { OnOk result (line.new.items ≡ line.old.items ++ numbers_text numbers.now) }
{
    let Some((first, rest)) = numbers.split_first() else {
        return Ok(());
    };
    line.extend_from_slice(Buffer::new().format(*first).as_bytes())?;
    for number in rest {
        line.extend_from_slice(b" ")?;
        line.extend_from_slice(Buffer::new().format(*number).as_bytes())?;
    }
    Ok(())
}

/// Writes the line of a change with rows of either file, in place of what the buffer held.
pub(crate) fn write_rows(
    line: &mut Vec<u8>,
    at: DirectedElement,
    vehicle: u8,
    change: &Change,
    old_rows: &[usize],
    new_rows: &[usize],
) -> Result<(), AllocError>
    requires from { IsCalendarDay (day_of_second (span_of change.now).from) }
    requires until { IsCalendarDay (day_of_second (span_of change.now).until) }
    ensures line { OnOk result (line.new.items ≡ rows_line at.element at.direction vehicle change.now old_rows.now new_rows.now) }
{
    write_start(line, at, vehicle, change, b",")?;
    push_numbers(line, old_rows)?;
    line.extend_from_slice(b",")?;
    push_numbers(line, new_rows)?;
    line.extend_from_slice(b"\n")
}
