//! The strict form of a text: what is written for each of its tokens, and in place of what.

ghost use Rattle.std.specs.Prelude.{◌≡◌, ◌+◌, ◌≤◌, ◌<◌, ◌++◌, ◌∷◌, [], List, OnOk, IfOk, drop, length, map};
ghost use Rattle.std.specs.Char.{to_ascii_lowercase};
ghost use Rattle.gtd_hours.specs.Written.{month_name, two_digits, weekday_name};
ghost use Rattle.gtd_hours_loose.specs.Mending.{Holds, Mended, form_of, plain_end, stretch};

use gtd_hours_loose_tokens::{LooseKind, end_length};
use std::alloc::{AllocError, Global};

/// A part of a text, and its strict form.
#[derive(Clone, Copy, Debug)]
pub struct Part {
    /// Where it begins in the text.
    pub from: usize,
    /// Where it ends.
    pub to: usize,
    /// Where its strict form begins in the strict text.
    pub start: usize,
    /// Where that ends.
    pub end: usize,
}

/// The strict form of a text.
#[derive(Drop)]
pub struct StrictForm {
    /// A text that is written strictly.
    pub text: Vec<u8>,
    /// What stands where: tokens, tokens that are left out or put in, and spaces that are not of ASCII.
    pub parts: Vec<Part>,
}

/// Nothing.
pub fn nothing(alloc: Global) -> StrictForm
    ensures { Holds result [] }
{
    StrictForm {
        text: Vec::new(alloc),
        parts: Vec::new(alloc),
    }
}

/// From one place of a text up to but not including another.
pub fn stretch(text: &[u8], from: usize, to: usize) -> &[u8]
    ensures bytes { result.now ≡ stretch text.now from to }
    ensures within { 0 < length result.now → from + length result.now ≤ length text.now }
{
    let end = if to < text.len() { to } else { text.len() };
    if from < end {
        &text[from..end]
    } else {
        &text[..0]
    }
}

fn month_name(month: u8) -> &'static str
    ensures { result.now ≡ month_name month }
{
    match month {
        1 => "Jan",
        2 => "Feb",
        3 => "Mar",
        4 => "Apr",
        5 => "May",
        6 => "Jun",
        7 => "Jul",
        8 => "Aug",
        9 => "Sep",
        10 => "Oct",
        11 => "Nov",
        _ => "Dec",
    }
}

fn weekday_name(weekday: u8) -> &'static str
    ensures { result.now ≡ weekday_name weekday }
{
    match weekday {
        1 => "Su",
        2 => "Mo",
        3 => "Tu",
        4 => "We",
        5 => "Th",
        6 => "Fr",
        _ => "Sa",
    }
}

fn push_two_digits(out: &mut Vec<u8>, number: u8) -> Result<(), AllocError>
    ensures { OnOk result (out.new.items ≡ out.old.items ++ two_digits number) }
{
    let digits = [b'0' + number / 10, b'0' + number % 10];
    out.extend_from_slice(&digits)
}

fn push_time(out: &mut Vec<u8>, hour: u8, minute: u8) -> Result<(), AllocError>
    ensures { OnOk result (out.new.items ≡ out.old.items ++ (two_digits hour ++ 58 ∷ two_digits minute)) }
{
    push_two_digits(out, hour)?;
    out.push(b':')?;
    push_two_digits(out, minute)
}

fn push_lower(out: &mut Vec<u8>, written: &[u8]) -> Result<(), AllocError>
    ensures { OnOk result (out.new.items ≡ out.old.items ++ map to_ascii_lowercase written.now) }
{
    for byte in written {
        out.push(byte.to_ascii_lowercase())?;
    }
    Ok(())
}

// Appends what stands behind the first quote of a comment of a text processor, with a plain quote at its end.
fn push_plain_end(out: &mut Vec<u8>, bytes: &[u8]) -> Result<(), AllocError>
    ensures { OnOk result (out.new.items ≡ out.old.items ++ plain_end bytes.now) }
{
    let mut rest = bytes;
    while let Some((byte, later)) = rest.split_first() {
        if end_length(*byte, later) > 0 {
            out.push(b'"')?;
            return Ok(());
        }
        out.push(*byte)?;
        rest = later;
    }
    Ok(())
}

// What stands behind the three bytes of a quote.
fn after_quote(written: &[u8]) -> &[u8]
    ensures { result.now ≡ drop 3 written.now }
{
    match written {
        [_, _, _, rest @ ..] => rest,
        _ => b"",
    }
}

// Appends a comment of a text processor in plain quotes.
fn push_quoted(out: &mut Vec<u8>, written: &[u8]) -> Result<(), AllocError>
    ensures { OnOk result (out.new.items ≡ out.old.items ++ (34 ∷ plain_end (drop 3 written.now))) }
{
    out.push(b'"')?;
    push_plain_end(out, after_quote(written))
}

fn push_form(out: &mut Vec<u8>, kind: LooseKind, written: &[u8]) -> Result<(), AllocError>
    ensures { OnOk result (out.new.items ≡ out.old.items ++ form_of kind written.now) }
{
    match kind {
        LooseKind::Month(month) => out.extend_from_slice(month_name(month).as_bytes()),
        LooseKind::Weekday(weekday) => out.extend_from_slice(weekday_name(weekday).as_bytes()),
        LooseKind::Time { hour, minute } => push_time(out, hour, minute),
        LooseKind::PublicHoliday => out.extend_from_slice(b"PH"),
        LooseKind::SchoolHoliday => out.extend_from_slice(b"SH"),
        LooseKind::Dash => out.extend_from_slice(b"-"),
        LooseKind::Comment => out.extend_from_slice(written),
        LooseKind::Quoted => push_quoted(out, written),
        _ => push_lower(out, written),
    }
}

// Ends a part whose strict form begins at a place of the strict text.
fn end_part(strict: &mut StrictForm, from: usize, to: usize, start: usize) -> Result<(), AllocError>
    ensures text { OnOk result (strict.new.text.items ≡ strict.old.text.items ++ 32 ∷ []) }
    ensures parts { OnOk result (strict.new.parts.items ≡ strict.old.parts.items
        ++ record { from = from; to = to; start = start; end = length strict.old.text.items } ∷ []) }
{
    let end = strict.text.len();
    strict.text.push(b' ')?;
    strict.parts.push(Part {
        from,
        to,
        start,
        end,
    })?;
    Ok(())
}

/// Appends a strict form that stands for what is written from one place to another.
pub fn push_part(
    strict: &mut StrictForm,
    from: usize,
    to: usize,
    form: &[u8],
) -> Result<(), AllocError>
    ensures { OnOk result ((ms : List Mended) → Holds strict.old ms
        → Holds strict.new (ms ++ record { from = from; to = to; form = form.now } ∷ [])) }
{
    let start = strict.text.len();
    strict.text.extend_from_slice(form)?;
    end_part(strict, from, to, start)?;
    Ok(())
}

/// Appends the strict form of a token with this text, which is written from one place to another.
pub fn push_strict(
    strict: &mut StrictForm,
    kind: LooseKind,
    from: usize,
    to: usize,
    written: &[u8],
) -> Result<(), AllocError>
    ensures { OnOk result ((ms : List Mended) → Holds strict.old ms
        → Holds strict.new (ms ++ record { from = from; to = to; form = form_of kind written.now } ∷ [])) }
{
    let start = strict.text.len();
    push_form(&mut strict.text, kind, written)?;
    end_part(strict, from, to, start)?;
    Ok(())
}
