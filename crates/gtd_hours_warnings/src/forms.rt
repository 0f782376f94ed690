//! The hours of a text with a comma in place of the semicolon before a rule, as they are strictly written.

ghost use Rattle.std.specs.Prelude.{◌≡◌, ◌≤◌, IfOk, length};
ghost use Rattle.gtd_hours.specs.Written.{hours_text};
ghost use Rattle.gtd_hours_warnings.specs.Forms.{IsJoinedForm, IsReadIf};
ghost use Rattle.gtd_hours_warnings.specs.Commas.{with_comma};

use crate::commas::with_comma;
use gtd_hours::{Hours, print_hours};
use gtd_hours_text::{HoursTextFault, read_hours};
use std::alloc::{AllocError, Global};

// The hours that a text stands for, if it is hours.
fn read_if(alloc: Global, text: &[u8]) -> Result<Option<Hours>, AllocError>
    ensures { IfOk result (IsReadIf text.now) }
{
    match read_hours(alloc, text) {
        Ok(hours) => Ok(Some(hours)),
        Err(HoursTextFault::Fault(_)) => Ok(None),
        Err(HoursTextFault::NoMemory) => Err(AllocError),
    }
}

// The hours as they are strictly written.
fn written(alloc: Global, hours: &Hours) -> Result<Vec<u8>, AllocError>
    ensures { IfOk result (λ form. form.items ≡ hours_text hours.now) }
{
    let mut form = Vec::new(alloc);
    form.extend_from_slice(print_hours(alloc, hours)?.as_bytes())?;
    Ok(form)
}

// The hours that a text stands for with a word and a comma at a place, if it is hours.
fn read_joined(
    alloc: Global,
    text: &[u8],
    place: usize,
    word: &[u8],
) -> Result<Option<Hours>, AllocError>
    requires { place ≤ length text.now }
    ensures { IfOk result (IsReadIf (with_comma text.now place word.now)) }
{
    let joined = with_comma(alloc, text, place, word)?;
    read_if(alloc, joined.as_slice())
}

/// The hours of a text with a comma at a place, as they are strictly written: with the word before the comma or, if it does
/// not go there, without it; if neither is plain hours, the text with the word and the comma.
pub(crate) fn joined_form(
    alloc: Global,
    text: &[u8],
    place: usize,
    word: &[u8],
) -> Result<Vec<u8>, AllocError>
    requires { place ≤ length text.now }
    ensures { IfOk result (λ form. IsJoinedForm text.now place word.now form.items) }
{
    if let Some(hours) = read_joined(alloc, text, place, word)? {
        return written(alloc, &hours);
    }
    match read_joined(alloc, text, place, b"")? {
        Some(hours) => written(alloc, &hours),
        None => with_comma(alloc, text, place, word),
    }
}
