//! The lines of answers.

ghost use Rattle.std.specs.Prelude.{[], ◌∷◌, ◌≡◌, ◌++◌, ◌≤◌, ⊤, length, IfOk, MatchOption, OnOk};
ghost use Rattle.gtd_calendar.specs.Calendar.{IsCalendarDay};
ghost use Rattle.gtd_calendar.specs.Stamp.{stamp_text};
ghost use Rattle.gtd_core.specs.Seconds.{day_of_second, IsHorizonSecond, IsMomentSecond};
ghost use Rattle.gtd_states.specs.Lines.{change_text, state_head, state_word};
ghost use Rattle.gtd_states.specs.States.{second_of};
ghost use Rattle.std.specs.List.{All};
ghost use Rattle.gtd_ask.specs.Answers.{IsAnswer, answer_line};
ghost use Rattle.gtd_ask.specs.Known.{IsHeld, IsKnown};

use crate::asked::{Group, group_of};
use crate::held::{Held, Known};
use crate::question::Question;
use crate::shared::known_among;
use gtd_calendar::write_stamp;
use gtd_core::Sec;
use gtd_records::Records;
use gtd_rows::Direction;
use gtd_states::change_after;
use itoa::Buffer;
use std::alloc::{AllocError, Global};

// Writes the element, the direction and the vehicle type of a question, in place of what the buffer held.
fn write_head(line: &mut Vec<u8>, question: &Question) -> Result<(), AllocError>
    ensures head { OnOk result (line.new.items
        ≡ state_head question.now.element question.now.direction question.now.vehicle) }
    ensures short { OnOk result (length line.new.items ≤ 34) }
{
    line.clear();
    line.extend_from_slice(Buffer::new().format(question.element).as_bytes())?;
    line.extend_from_slice(match question.direction {
        Direction::Positive => b",positive,".as_slice(),
        Direction::Negative => b",negative,".as_slice(),
    })?;
    line.extend_from_slice(Buffer::new().format(question.vehicle).as_bytes())?;
    line.extend_from_slice(b",")
}

// Appends a moment and a comma to the buffer.
fn push_moment(line: &mut Vec<u8>, second: Sec) -> Result<(), AllocError>
    requires day { IsCalendarDay (day_of_second second.0) }
    ensures moment { OnOk result (line.new.items ≡ line.old.items ++ (stamp_text second.0 ++ (44 ∷ []))) }
{
    line.extend_from_slice(&write_stamp(second))?;
    line.extend_from_slice(b",")
}

// Appends the state and a comma to the buffer.
fn push_state(line: &mut Vec<u8>, is_open: bool) -> Result<(), AllocError>
    ensures state { OnOk result (line.new.items ≡ line.old.items ++ (state_word is_open ++ (44 ∷ []))) }
{
    if is_open {
        line.extend_from_slice(b"open,")
    } else {
        line.extend_from_slice(b"closed,")
    }
}

// Appends the moment of a change, if there is one, and the line's end to the buffer.
fn push_change(line: &mut Vec<u8>, change: Option<Sec>) -> Result<(), AllocError>
    requires day { MatchOption change ⊤ (λ c. IsCalendarDay (day_of_second c.0)) }
    ensures change { OnOk result (line.new.items ≡ line.old.items ++ (change_text (second_of change) ++ (10 ∷ []))) }
{
    if let Some(second) = change {
        line.extend_from_slice(&write_stamp(second))?;
    }
    line.extend_from_slice(b"\n")
}

// Writes the line of a question, in place of what the buffer held.
fn write_line(
    line: &mut Vec<u8>,
    question: &Question,
    is_open: bool,
    change: Option<Sec>,
) -> Result<(), AllocError>
    requires moment { IsCalendarDay (day_of_second question.now.second.0) }
    requires day { MatchOption change ⊤ (λ c. IsCalendarDay (day_of_second c.0)) }
    ensures line { OnOk result (line.new.items ≡ answer_line question.now is_open (second_of change)) }
    ensures short { OnOk result (length line.new.items ≤ 100) }
{
    write_head(line, question)?;
    push_moment(line, question.second)?;
    push_state(line, is_open)?;
    push_change(line, change)
}

// What a question asks for, found for it alone.
fn known_alone(
    alloc: Global,
    found: &Records,
    group: Group,
    second: Sec,
) -> Result<Known, AllocError>
    requires in_range { IsHorizonSecond second.0 }
    ensures known { IfOk result (IsKnown found.now group second.0) }
{
    let Group {
        element,
        direction,
        vehicle,
    } = group;
    let closed = found.closed_at(element, direction, vehicle, second);
    let change = change_after(alloc, found, element, direction, vehicle, second)?;
    Ok(Known {
        is_open: !closed,
        change,
    })
}

// What a question asks for: from the states that are held, or else found for it alone.
fn known_of(
    alloc: Global,
    found: &Records,
    held: &[Held],
    group: Group,
    second: Sec,
) -> Result<Known, AllocError>
    requires in_range { IsHorizonSecond second.0 }
    requires held { All (IsHeld found.now) held.now }
    ensures known { IfOk result (IsKnown found.now group second.0) }
{
    if let Some(known) = known_among(held, group, second) {
        return Ok(known);
    }
    known_alone(alloc, found, group, second)
}

/// Writes the line of a question and its answer, in place of what the buffer held.
pub(crate) fn write_answer(
    alloc: Global,
    line: &mut Vec<u8>,
    found: &Records,
    held: &[Held],
    question: &Question,
) -> Result<(), AllocError>
    requires in_range { IsMomentSecond question.now.second.0 }
    requires held { All (IsHeld found.now) held.now }
    ensures line { OnOk result (IsAnswer found.now question.now line.new.items) }
    ensures short { OnOk result (length line.new.items ≤ 100) }
{
    let known = known_of(alloc, found, held, group_of(question), question.second)?;
    write_line(line, question, known.is_open, known.change)
}
