//! The lines of states, in columns for a screen.

ghost use Rattle.std.specs.Prelude.{◌≡◌, ◌++◌, OnOk, codes};
ghost use Rattle.gtd_now.specs.Table.{change_shown, left, right, rows_shown, spaces, table_row};
ghost use Rattle.gtd_states.specs.States.{second_of, state_of};

use crate::entry::Entry;
use crate::line::{direction_word, push_rows, state_word};
use gtd_calendar::write_stamp;
use gtd_states::ElementState;
use itoa::Buffer;
use std::alloc::AllocError;

// Appends so many spaces.
fn push_spaces(line: &mut Vec<u8>, count: usize) -> Result<(), AllocError>
    ensures { OnOk result (line.new.items ≡ line.old.items ++ spaces count) }
{
    if count == 0 {
        return Ok(());
    }
    line.push(b' ')?;
    push_spaces(line, count - 1)
}

// Appends a text at the right edge of a column, and the space after that.
fn push_right(line: &mut Vec<u8>, width: usize, text: &[u8]) -> Result<(), AllocError>
    ensures { OnOk result (line.new.items ≡ line.old.items ++ (right width text.now ++ codes "  ")) }
{
    push_spaces(line, width.saturating_sub(text.len()))?;
    line.extend_from_slice(text)?;
    line.extend_from_slice(b"  ")
}

// Appends a text at the left edge of a column, and the space after that.
fn push_left(line: &mut Vec<u8>, width: usize, text: &[u8]) -> Result<(), AllocError>
    ensures { OnOk result (line.new.items ≡ line.old.items ++ (left width text.now ++ codes "  ")) }
{
    line.extend_from_slice(text)?;
    push_spaces(line, width.saturating_sub(text.len()))?;
    line.extend_from_slice(b"  ")
}

// Appends the column of a change.
fn push_until(line: &mut Vec<u8>, state: &ElementState) -> Result<(), AllocError>
    ensures { OnOk result (line.new.items ≡ line.old.items
        ++ (left 19 (change_shown (state_of state.now).change) ++ codes "  ")) }
{
    match state.change {
        Some(second) => push_left(line, 19, &write_stamp(second)),
        None => push_left(line, 19, b"-"),
    }
}

// Appends the rows.
fn push_closing(line: &mut Vec<u8>, rows: &[usize]) -> Result<(), AllocError>
    ensures { OnOk result (line.new.items ≡ line.old.items ++ rows_shown rows.now) }
{
    if rows.is_empty() {
        line.extend_from_slice(b"-")
    } else {
        push_rows(line, rows)
    }
}

/// Appends a line.
pub(crate) fn push_table_row(line: &mut Vec<u8>, entry: &Entry<'_>) -> Result<(), AllocError>
    ensures row { OnOk result (line.new.items ≡ line.old.items
        ++ table_row entry.now.at.element entry.now.at.direction (state_of entry.now.state.now)) }
{
    push_right(line, 10, Buffer::new().format(entry.at.element).as_bytes())?;
    push_left(line, 9, direction_word(entry.at.direction).as_bytes())?;
    push_left(line, 6, state_word(entry.state).as_bytes())?;
    push_until(line, entry.state)?;
    push_closing(line, entry.state.rows.as_slice())?;
    line.extend_from_slice(b"\n")
}
