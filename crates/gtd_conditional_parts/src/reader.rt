//! What a value says.

ghost use Rattle.std.specs.Prelude.{◌≡◌, ◌≤◌, ◌∷◌, [], length, IfOk, IfErr};
ghost use Rattle.std.specs.List.{suffix_len};
ghost use Rattle.gtd_conditional_values.specs.Pieces.{is_space};
ghost use Rattle.gtd_hours_options.specs.Readings.{how_read};
ghost use Rattle.gtd_conditional_parts.specs.Cuts.{body, ends_with_semicolon, filled};
ghost use Rattle.gtd_conditional_parts.specs.Parts.{AreParts};
ghost use Rattle.gtd_conditional_parts.specs.Values.{IsBodyStop, IsPlain, IsPlainStop, IsValue, IsValueStop};

use crate::part::{first_without_at, read_parts};
use crate::said::{Said, Subject, said_of};
use crate::value::{Part, UnreadValue, Value, ValueFault};
use gtd_conditional_means::Means;
use gtd_conditional_values::first_unnested;
use gtd_hours_options::HoursReading;
use std::alloc::{AllocError, Global};

fn end_spaces(text: &[u8]) -> usize
    ensures count { result ≡ suffix_len is_space text.now }
    ensures within { result ≤ length text.now }
{
    text.iter().rev().take_while(|byte| **byte == b' ').count()
}

// How many bytes a text has without the spaces at its end.
fn filled(text: &[u8]) -> usize
    ensures bytes { result ≡ filled text.now }
    ensures within { result ≤ length text.now }
{
    text.len() - end_spaces(text)
}

// Whether its last byte, but for these, is `;`.
fn ends_with_semicolon(text: &[u8]) -> bool
    ensures { result ≡ ends_with_semicolon text.now }
{
    let bytes = filled(text);
    0 < bytes && text[bytes - 1] == b';'
}

// A value without one `;` at its end.
fn body(value: &[u8]) -> &[u8]
    ensures { result.now ≡ body value.now }
{
    if ends_with_semicolon(value) {
        &value[..filled(value) - 1]
    } else {
        value
    }
}

// What the parts of a text say, in which parentheses and comments fit.
fn read_body(
    alloc: Global,
    means: &Means,
    reading: HoursReading<'_>,
    subject: Subject,
    text: &[u8],
) -> Result<Value, UnreadValue>
    ensures value { IfOk result (λ read.
        AreParts subject (how_read reading.entry) means.now.rows.items 0 text.now read.parts.items) }
    ensures fault { IfErr result (λ why. IsBodyStop subject (how_read reading.entry) means.now.rows.items text.now why) }
{
    match first_without_at(text) {
        Some(place) => Err(UnreadValue::Fault(ValueFault::Part { place })),
        None => match read_parts(alloc, means, reading, subject, text) {
            Ok(parts) => Ok(Value { parts }),
            Err(why) => Err(why),
        },
    }
}

/// What a value with conditions says, if hours are read so, or why it is not read.
///
/// The first fault is of all that is cut: `Part`, of parentheses and comments, and then of the first part without `@`. Otherwise
/// it is that of the first part that has one: `Value` of its name, and then that of its first term that is at fault. One `;` at
/// the end is none. `NoMemory` is answered only if memory was refused.
pub fn read_value(
    alloc: Global,
    means: &Means,
    reading: HoursReading<'_>,
    subject: Subject,
    value: &[u8],
) -> Result<Value, UnreadValue>
    ensures value { IfOk result (λ read. IsValue subject (how_read reading.entry) means.now.rows.items value.now read) }
    ensures fault { IfErr result (λ why. IsValueStop subject (how_read reading.entry) means.now.rows.items value.now why) }
{
    match first_unnested(value) {
        Some(place) => Err(UnreadValue::Fault(ValueFault::Part { place })),
        None => read_body(alloc, means, reading, subject, body(value)),
    }
}

// A part that always holds, alone.
fn plain(alloc: Global, said: Said) -> Result<Value, AllocError>
    ensures { IfOk result (λ value. (part : Part) × (part.said ≡ said) × (part.terms.items ≡ [])
        × (value.parts.items ≡ part ∷ [])) }
{
    let mut parts = Vec::new(alloc);
    parts.push(Part {
        said,
        terms: Vec::new(alloc),
    })?;
    Ok(Value { parts })
}

/// What a value without conditions says, which is a name alone: one part that always holds. Errors: `Value` at 0, if the name
/// says nothing; and `NoMemory` only if memory was refused.
pub fn read_plain(
    alloc: Global,
    means: &Means,
    subject: Subject,
    value: &[u8],
) -> Result<Value, UnreadValue>
    ensures value { IfOk result (λ read. IsPlain subject means.now.rows.items value.now read) }
    ensures fault { IfErr result (λ why. IsPlainStop subject means.now.rows.items value.now why) }
{
    match said_of(means, subject, value) {
        Some(said) => match plain(alloc, said) {
            Ok(read) => Ok(read),
            Err(_) => Err(UnreadValue::NoMemory),
        },
        None => Err(UnreadValue::Fault(ValueFault::Value { place: 0 })),
    }
}
