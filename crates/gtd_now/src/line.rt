//! The lines of states, as fields with commas between them.

ghost use Rattle.std.specs.Prelude.{[], ◌∷◌, ◌≡◌, ◌++◌, OnOk};
ghost use Rattle.gtd_now.specs.Lines.{state_line};
ghost use Rattle.gtd_report.specs.Putting.{direction_word};
ghost use Rattle.gtd_states.specs.Lines.{change_text, rows_text, state_head, state_word};
ghost use Rattle.gtd_states.specs.States.{state_of};

use crate::entry::Entry;
use gtd_calendar::write_stamp;
use gtd_rows::Direction;
use gtd_states::ElementState;
use itoa::Buffer;
use std::alloc::AllocError;

/// The word for a direction.
pub(crate) fn direction_word(direction: Direction) -> &'static str
    ensures { result.now ≡ direction_word direction }
{
    match direction {
        Direction::Positive => "positive",
        Direction::Negative => "negative",
    }
}

/// The word for a state: open if no row closes the element.
pub(crate) fn state_word(state: &ElementState) -> &'static str
    ensures { result.now ≡ state_word (state_of state.now).is_open }
{
    if state.rows.is_empty() {
        "open"
    } else {
        "closed"
    }
}

/// Appends numbers, in their order, with semicolons between them.
pub(crate) fn push_rows(line: &mut Vec<u8>, rows: &[usize]) -> Result<(), AllocError>
    ensures text { OnOk result (line.new.items ≡ line.old.items ++ rows_text rows.now) }
{
    let Some((first, rest)) = rows.split_first() else {
        return Ok(());
    };
    line.extend_from_slice(Buffer::new().format(*first).as_bytes())?;
    for row in rest {
        line.extend_from_slice(b";")?;
        line.extend_from_slice(Buffer::new().format(*row).as_bytes())?;
    }
    Ok(())
}

// Appends what a line begins with.
fn push_head(line: &mut Vec<u8>, entry: &Entry<'_>) -> Result<(), AllocError>
    ensures head { OnOk result (line.new.items ≡ line.old.items
        ++ state_head entry.now.at.element entry.now.at.direction entry.now.vehicle) }
{
    line.extend_from_slice(Buffer::new().format(entry.at.element).as_bytes())?;
    line.extend_from_slice(b",")?;
    line.extend_from_slice(direction_word(entry.at.direction).as_bytes())?;
    line.extend_from_slice(b",")?;
    line.extend_from_slice(Buffer::new().format(entry.vehicle).as_bytes())?;
    line.extend_from_slice(b",")
}

// Appends the state and a comma.
fn push_state(line: &mut Vec<u8>, state: &ElementState) -> Result<(), AllocError>
    ensures state { OnOk result (line.new.items ≡ line.old.items ++ (state_word (state_of state.now).is_open ++ (44 ∷ []))) }
{
    line.extend_from_slice(state_word(state).as_bytes())?;
    line.extend_from_slice(b",")
}

// Appends the moment of a change, if there is one, and a comma.
fn push_change(line: &mut Vec<u8>, state: &ElementState) -> Result<(), AllocError>
    ensures change { OnOk result (line.new.items ≡ line.old.items ++ (change_text (state_of state.now).change ++ (44 ∷ []))) }
{
    if let Some(second) = state.change {
        line.extend_from_slice(&write_stamp(second))?;
    }
    line.extend_from_slice(b",")
}

/// Appends a line.
pub(crate) fn push_line(line: &mut Vec<u8>, entry: &Entry<'_>) -> Result<(), AllocError>
    ensures line { OnOk result (line.new.items ≡ line.old.items
        ++ state_line entry.now.at.element entry.now.at.direction entry.now.vehicle (state_of entry.now.state.now)) }
{
    push_head(line, entry)?;
    push_state(line, entry.state)?;
    push_change(line, entry.state)?;
    push_rows(line, entry.state.rows.as_slice())?;
    line.extend_from_slice(b"\n")
}
