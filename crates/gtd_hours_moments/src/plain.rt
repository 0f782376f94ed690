//! The plain text that means what a text means.

ghost use Rattle.std.specs.Prelude.{◌≡◌, ◌<◌, ◌++◌, ◌∷◌, List, IfErr, IfOk, OnOk, true};
ghost use Rattle.gtd_hours.specs.Written.{two_digits};
ghost use Rattle.gtd_hours_times.specs.Tokens.{IsNoMomentText};
ghost use Rattle.gtd_hours_moments.specs.Places.{Holds, Put};
ghost use Rattle.gtd_hours_moments.specs.Plain.{clock, joined, kept_at, plain_at, plain_puts, range_text, unless_first};
ghost use Rattle.gtd_hours_moments.specs.Ranges.{ranges};
ghost use Rattle.gtd_hours_moments.specs.Reading.{IsPlainText};

use crate::clocks::Clocks;
use crate::parts::{Part, parts_in};
use crate::placed::{PlacedText, nothing, push_placed};
use crate::ranges::{MinuteRange, ranges_of};
use gtd_hours_times::{NoMomentText, TimeForm, Written, stretch};
use std::alloc::{AllocError, Global};

fn push_two_digits(out: &mut Vec<u8>, number: u64) -> Result<(), AllocError>
    requires { number < 100 }
    ensures { OnOk result (out.new.items ≡ out.old.items ++ two_digits number) }
{
    let number = number as u8;
    let digits = [b'0' + number / 10, b'0' + number % 10];
    out.extend_from_slice(&digits)
}

fn push_clock(out: &mut Vec<u8>, minute: u64) -> Result<(), AllocError>
    ensures { OnOk result (out.new.items ≡ out.old.items ++ clock minute) }
{
    push_two_digits(out, minute / 60 % 100)?;
    out.push(b':')?;
    push_two_digits(out, minute % 60)
}

fn push_range_text(out: &mut Vec<u8>, range: MinuteRange) -> Result<(), AllocError>
    ensures { OnOk result (out.new.items ≡ out.old.items ++ range_text range) }
{
    push_clock(out, range.begin)?;
    out.push(b'-')?;
    push_clock(out, range.end)
}

fn push_unless_first(out: &mut Vec<u8>, is_first: bool) -> Result<(), AllocError>
    ensures { OnOk result (out.new.items ≡ out.old.items ++ unless_first is_first) }
{
    if !is_first {
        out.push(b',')?;
    }
    Ok(())
}

fn push_joined(out: &mut Vec<u8>, ranges: &[MinuteRange]) -> Result<(), AllocError>
    ensures { OnOk result (out.new.items ≡ out.old.items ++ joined true ranges.now) }
{
    let mut is_first = true;
    let mut rest = ranges;
    while let Some((range, later)) = rest.split_first() {
        push_unless_first(out, is_first)?;
        push_range_text(out, *range)?;
        is_first = false;
        rest = later;
    }
    Ok(())
}

// The ranges of a form, with commas between.
fn ranges_text(alloc: Global, form: TimeForm, clocks: &Clocks) -> Result<Vec<u8>, AllocError>
    ensures { IfOk result (λ text. text.items ≡ joined true (ranges form clocks.now)) }
{
    let ranges = ranges_of(alloc, form, clocks)?;
    let mut text = Vec::new(alloc);
    push_joined(&mut text, ranges.as_slice())?;
    Ok(text)
}

// Appends a token that is no part of a form.
fn push_kept(
    plain: &mut PlacedText,
    written: Written,
    from: usize,
    bytes: &[u8],
) -> Result<(), AllocError>
    ensures { OnOk result ((ps : List Put) → Holds plain.old ps → Holds plain.new (ps ++ kept_at written from bytes.now)) }
{
    match written {
        Written::Kept => push_placed(plain, from, bytes),
        _ => Ok(()),
    }
}

// Appends what stands for a token in the plain text.
fn push_plain(
    plain: &mut PlacedText,
    alloc: Global,
    text: &[u8],
    clocks: &Clocks,
    part: Part,
) -> Result<(), AllocError>
    ensures { OnOk result ((ps : List Put) → Holds plain.old ps
        → Holds plain.new (ps ++ plain_at clocks.now text.now part)) }
{
    match part.whole {
        None => push_kept(
            plain,
            part.written,
            part.from,
            stretch(text, part.from, part.to),
        ),
        Some(form) => {
            let bytes = ranges_text(alloc, form, clocks)?;
            push_placed(plain, form.from, bytes.as_slice())
        }
    }
}

// The plain text of a text with these parts.
fn with_parts(
    alloc: Global,
    text: &[u8],
    clocks: &Clocks,
    parts: &[Part],
) -> Result<PlacedText, AllocError>
    ensures { IfOk result (λ plain. Holds plain (plain_puts clocks.now text.now parts.now)) }
{
    let mut plain = nothing(alloc);
    let mut rest = parts;
    while let Some((part, later)) = rest.split_first() {
        push_plain(&mut plain, alloc, text, clocks, *part)?;
        rest = later;
    }
    Ok(plain)
}

/// The plain text of a text whose checked text is plain hours: the ranges of each of its forms with these options, in place of
/// the form. Errors: the first byte with which no token begins; or that there is no memory.
pub fn plain_text(alloc: Global, text: &[u8], clocks: &Clocks) -> Result<PlacedText, NoMomentText>
    ensures plain { IfOk result (IsPlainText clocks.now text.now) }
    ensures fault { IfErr result (IsNoMomentText text.now) }
{
    let parts = parts_in(alloc, text)?;
    let plain = with_parts(alloc, text, clocks, parts.as_slice())?;
    Ok(plain)
}
