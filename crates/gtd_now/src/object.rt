//! States as JSON.

ghost use Rattle.std.specs.Prelude.{◌≡◌, ◌++◌, [], ◌∷◌, OnOk, codes, decimal, flat_map, option_map};
ghost use Rattle.gtd_calendar.specs.Calendar.{IsCalendarDay};
ghost use Rattle.gtd_calendar.specs.Stamp.{stamp_text};
ghost use Rattle.gtd_core.specs.Parts.{domain_tree};
ghost use Rattle.gtd_core.specs.Seconds.{day_of_second};
ghost use Rattle.gtd_now.specs.Objects.{change_value, json_line, reason_items, reason_value, row_items, state_value, why_members};
ghost use Rattle.gtd_now.specs.Reasons.{row_domain, row_line};
ghost use Rattle.gtd_states.specs.States.{state_of};
ghost use Rattle.json.specs.Json.{array};
ghost use Rattle.json.specs.Token.{key, string};
ghost use Rattle.json.specs.Token.{number as number_of};
ghost use Rattle.gtd_now.specs.ObjectTokens.{state_tokens, subject_tokens};
ghost use Rattle.json.specs.Tree.{items_tokens, json_tokens, members_tokens};

use crate::entry::Entry;
use crate::line::{direction_word, state_word};
use crate::reasons::{text_of, words_of};
use crate::rows::FileRows;
use gtd_calendar::write_stamp;
use gtd_core::{Domain, Sec};
use gtd_states::ElementState;
use json::Writer;
use std::alloc::{AllocError, Global};
use std::{mem, str};

// Writes a member whose value is a number.
fn write_number(out: &mut Writer, name: &str, number: u64) -> Result<(), AllocError>
    ensures before { out.new.before ≡ out.old.before }
    ensures tokens { OnOk result (out.new.tokens ≡ out.old.tokens ++ (key name.now ∷ number_of (decimal number) ∷ [])) }
{
    out.key(name)?;
    out.u64(number)
}

// Writes a member whose value is a text.
fn write_text(out: &mut Writer, name: &str, text: &str) -> Result<(), AllocError>
    ensures before { out.new.before ≡ out.old.before }
    ensures tokens { OnOk result (out.new.tokens ≡ out.old.tokens ++ (key name.now ∷ string text.now ∷ [])) }
{
    out.key(name)?;
    out.string(text)
}

// Writes the element, the direction and the vehicle type.
fn write_subject(out: &mut Writer, entry: &Entry<'_>) -> Result<(), AllocError>
    ensures before { out.new.before ≡ out.old.before }
    ensures tokens { OnOk result (out.new.tokens ≡ out.old.tokens ++ subject_tokens
        entry.now.at.element entry.now.at.direction entry.now.vehicle) }
{
    write_number(out, "element", entry.at.element)?;
    write_text(out, "direction", direction_word(entry.at.direction))?;
    write_number(out, "vehicle", u64::from(entry.vehicle))
}

// Writes a moment.
fn write_moment(out: &mut Writer, second: Sec) -> Result<(), AllocError>
    requires day { IsCalendarDay (day_of_second second.0) }
    ensures before { out.new.before ≡ out.old.before }
    ensures tokens { OnOk result (out.new.tokens ≡ out.old.tokens ++ (string (stamp_text second.0) ∷ [])) }
{
    match str::from_utf8(&write_stamp(second)) {
        Ok(text) => out.string(text),
        Err(_) => unreachable!(),
    }
}

// Writes the moment of a change, or null if there is none.
fn write_change(out: &mut Writer, state: &ElementState) -> Result<(), AllocError>
    ensures before { out.new.before ≡ out.old.before }
    ensures tokens { OnOk result (out.new.tokens ≡ out.old.tokens ++ json_tokens (change_value (state_of state.now).change)) }
{
    match state.change {
        Some(second) => write_moment(out, second),
        None => out.null(),
    }
}

// Writes the member of a change.
fn write_until(out: &mut Writer, state: &ElementState) -> Result<(), AllocError>
    ensures before { out.new.before ≡ out.old.before }
    ensures tokens { OnOk result (out.new.tokens ≡ out.old.tokens
        ++ (key (codes "until") ∷ json_tokens (change_value (state_of state.now).change))) }
{
    out.key("until")?;
    write_change(out, state)
}

// Writes numbers, in their order.
fn write_numbers(out: &mut Writer, rows: &[usize]) -> Result<(), AllocError>
    ensures before { out.new.before ≡ out.old.before }
    ensures tokens { OnOk result (out.new.tokens
        ≡ out.old.tokens ++ flat_map (λ row. number_of (decimal row) ∷ []) rows.now) }
{
    for row in rows {
        out.u64(*row as u64)?;
    }
    Ok(())
}

// Writes numbers, in their order, and the end of their list.
fn write_list(out: &mut Writer, rows: &[usize]) -> Result<(), AllocError>
    ensures before { out.new.before ≡ out.old.before }
    ensures tokens { OnOk result (out.new.tokens ≡ out.old.tokens ++ items_tokens (row_items rows.now)) }
{
    write_numbers(out, rows)?;
    out.end_array()
}

// Writes the member of the rows that close an element.
fn write_rows(out: &mut Writer, rows: &[usize]) -> Result<(), AllocError>
    ensures before { out.new.before ≡ out.old.before }
    ensures tokens { OnOk result (out.new.tokens ≡ out.old.tokens
        ++ (key (codes "rows") ∷ json_tokens (array (row_items rows.now)))) }
{
    out.key("rows")?;
    out.begin_array()?;
    write_list(out, rows)
}

// Writes whether an element is open, until when, and which rows close it.
fn write_state(out: &mut Writer, state: &ElementState) -> Result<(), AllocError>
    ensures before { out.new.before ≡ out.old.before }
    ensures tokens { OnOk result (out.new.tokens ≡ out.old.tokens ++ state_tokens (state_of state.now)) }
{
    write_text(out, "state", state_word(state))?;
    write_until(out, state)?;
    write_rows(out, state.rows.as_slice())
}

// Writes what is told of a row that begins on this line.
fn write_reason(
    alloc: Global,
    out: &mut Writer,
    line: u64,
    row: usize,
    domain: Option<&Domain>,
) -> Result<(), AllocError>
    ensures before { out.new.before ≡ out.old.before }
    ensures tokens { OnOk result (out.new.tokens
        ≡ out.old.tokens ++ json_tokens (reason_value line row (option_map (λ domain. domain_tree domain.now) domain.entry))) }
{
    let text = text_of(alloc, domain)?;
    let words = words_of(alloc, domain)?;
    out.begin_object()?;
    write_number(out, "line", line)?;
    write_number(out, "row", row as u64)?;
    write_text(out, "domain", text.as_str())?;
    write_text(out, "words", words.as_str())?;
    out.end_object()
}

// Writes what is told of the rows with these numbers, in their order.
fn write_reasons(
    alloc: Global,
    out: &mut Writer,
    rows: &FileRows<'_>,
    closing: &[usize],
) -> Result<(), AllocError>
    ensures before { out.new.before ≡ out.old.before }
    ensures tokens { OnOk result (out.new.tokens ≡ out.old.tokens
        ++ flat_map (λ row. json_tokens (reason_value (row_line rows.now.lines.now row) row
        (row_domain rows.now.records.now row)))
        closing.now) }
{
    for row in closing {
        write_reason(alloc, out, rows.line(*row), *row, rows.domain(*row))?;
    }
    Ok(())
}

// Writes the same, and the end of the list.
fn write_reason_list(
    alloc: Global,
    out: &mut Writer,
    rows: &FileRows<'_>,
    closing: &[usize],
) -> Result<(), AllocError>
    ensures before { out.new.before ≡ out.old.before }
    ensures tokens { OnOk result (out.new.tokens
        ≡ out.old.tokens ++ items_tokens (reason_items rows.now.lines.now rows.now.records.now closing.now)) }
{
    write_reasons(alloc, out, rows, closing)?;
    out.end_array()
}

// Writes the last member, if the rows are told, and the end of the object.
fn write_why(
    alloc: Global,
    out: &mut Writer,
    rows: &FileRows<'_>,
    closing: &[usize],
    why: bool,
) -> Result<(), AllocError>
    ensures before { out.new.before ≡ out.old.before }
    ensures tokens { OnOk result (out.new.tokens
        ≡ out.old.tokens ++ members_tokens (why_members why rows.now.lines.now rows.now.records.now closing.now)) }
{
    if why {
        out.key("why")?;
        out.begin_array()?;
        write_reason_list(alloc, out, rows, closing)?;
    }
    out.end_object()
}

// Writes the object of an entry.
fn write_object(
    alloc: Global,
    out: &mut Writer,
    rows: &FileRows<'_>,
    entry: &Entry<'_>,
    why: bool,
) -> Result<(), AllocError>
    ensures before { out.new.before ≡ out.old.before }
    ensures tokens { OnOk result (out.new.tokens ≡ out.old.tokens ++ json_tokens (state_value why rows.now.lines.now
        rows.now.records.now entry.now.at.element entry.now.at.direction entry.now.vehicle (state_of entry.now.state.now))) }
{
    out.begin_object()?;
    write_subject(out, entry)?;
    write_state(out, entry.state)?;
    write_why(alloc, out, rows, entry.state.rows.as_slice(), why)
}

/// Appends the line of an entry. After a failure, the buffer may be empty.
pub(crate) fn push_object(
    alloc: Global,
    line: &mut Vec<u8>,
    rows: &FileRows<'_>,
    entry: &Entry<'_>,
    why: bool,
) -> Result<(), AllocError>
    ensures object { OnOk result (line.new.items ≡ line.old.items ++ json_line (state_value why rows.now.lines.now
        rows.now.records.now entry.now.at.element entry.now.at.direction entry.now.vehicle (state_of entry.now.state.now))) }
{
    let mut out = Writer::new(mem::replace(line, Vec::new(alloc)));
    write_object(alloc, &mut out, rows, entry, why)?;
    *line = out.into_inner();
    line.extend_from_slice(b"\n")
}
