//! The years of a rule, as they are written.

ghost use Rattle.std.specs.Prelude.{◌≡◌, ◌++◌, [], IfOk, OnOk};
ghost use Rattle.gtd_hours.specs.Written.{kind_text};
ghost use Rattle.gtd_hours_writing.specs.Years.{every_text, marked_text, some_mark, with_list, year_text, years_text};

use crate::joining::push_joined;
use crate::selectors::{text_before, text_of};
use gtd_hours::{Selector, Years};
use gtd_hours_known::split_mark;
use itoa::Buffer;
use std::alloc::{AllocError, Global};

// Whether one of these has no last year.
fn some_mark(marks: &[bool]) -> bool
    ensures { result ≡ some_mark marks.now }
{
    let mut rest = marks;
    while let Some((mark, more)) = rest.split_first() {
        if *mark {
            return true;
        }
        rest = more;
    }
    false
}

fn push_every(out: &mut Vec<u8>, years: Years) -> Result<(), AllocError>
    ensures { OnOk result (out.new.items ≡ out.old.items ++ every_text years) }
{
    out.extend_from_slice(Buffer::new().format(years.first).as_bytes())?;
    out.extend_from_slice(b"/")?;
    out.extend_from_slice(Buffer::new().format(years.step).as_bytes())
}

fn every_text(alloc: Global, years: Years) -> Result<Vec<u8>, AllocError>
    ensures { IfOk result (λ text. text.items ≡ every_text years) }
{
    let mut text = Vec::new(alloc);
    push_every(&mut text, years)?;
    Ok(text)
}

fn marked_text(alloc: Global, selector: Selector) -> Result<Vec<u8>, AllocError>
    ensures { IfOk result (λ text. text.items ≡ marked_text selector) }
{
    match selector {
        Selector::Years(years) => every_text(alloc, years),
        _ => text_of(alloc, &[selector]),
    }
}

// A selector, without a last year if it has a mark.
fn year_text(alloc: Global, mark: bool, selector: Selector) -> Result<Vec<u8>, AllocError>
    ensures { IfOk result (λ text. text.items ≡ year_text mark selector) }
{
    if mark {
        return marked_text(alloc, selector);
    }
    text_of(alloc, &[selector])
}

// Puts years behind a list.
fn push_list(
    alloc: Global,
    out: &mut Vec<u8>,
    marks: &[bool],
    years: &[Selector],
) -> Result<(), AllocError>
    ensures { OnOk result (out.new.items ≡ with_list out.old.items marks.now years.now) }
{
    let mut left = marks;
    let mut rest = years;
    while let Some((selector, more)) = rest.split_first() {
        let (mark, later) = split_mark(left);
        let text = year_text(alloc, mark, *selector)?;
        push_joined(out, b',', text.as_slice())?;
        left = later;
        rest = more;
    }
    Ok(())
}

fn list_text(alloc: Global, marks: &[bool], years: &[Selector]) -> Result<Vec<u8>, AllocError>
    ensures { IfOk result (λ text. text.items ≡ with_list [] marks.now years.now) }
{
    let mut text = Vec::new(alloc);
    push_list(alloc, &mut text, marks, years)?;
    Ok(text)
}

// Years of which each has a last one.
fn plain_text(alloc: Global, follows: bool, years: &[Selector]) -> Result<Vec<u8>, AllocError>
    ensures { IfOk result (λ text. text.items ≡ kind_text follows years.now) }
{
    if follows {
        text_before(alloc, years)
    } else {
        text_of(alloc, years)
    }
}

/// Years, with these marks of those that have no last one, before other selectors or by themselves.
pub(crate) fn years_text(
    alloc: Global,
    follows: bool,
    marks: &[bool],
    years: &[Selector],
) -> Result<Vec<u8>, AllocError>
    ensures { IfOk result (λ text. text.items ≡ years_text follows marks.now years.now) }
{
    if some_mark(marks) {
        return list_text(alloc, marks, years);
    }
    plain_text(alloc, follows, years)
}
