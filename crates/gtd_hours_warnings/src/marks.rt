//! The warnings of a text that may have holidays, comments and fallback rules that are unknown.

ghost use Rattle.std.specs.Prelude.{◌≡◌, ◌≤◌, IfOk, OnOk, drop, length};
ghost use Rattle.std.specs.List.{prefix_len};
ghost use Rattle.gtd_hours_warnings.specs.Marks.{AddsRemarks, AddsYears, AddsYearsIf, AreWarningsWith};
ghost use Rattle.gtd_hours_warnings.specs.Marks.{IsKnownYearsWarning, IsRemarkWarning, comment_at};
ghost use Rattle.gtd_hours_warnings.specs.Marks.{is_unquoted, remark_at};

use crate::unknowns::add_not_known;
use crate::warnings::{Warning, WarningKind, add_hides, form_warnings, put_in};
use crate::whole_days::add_whole_days;
use gtd_hours_holidays::KnownYears;
use gtd_hours_known::KnownHours;
use gtd_hours_loose::{StrictForm, strict_place};
use itoa::Buffer;
use std::alloc::{AllocError, Global};

// How many bytes stand before the first quote.
fn before_quote(bytes: &[u8]) -> usize
    ensures count { result ≡ prefix_len is_unquoted bytes.now }
    ensures within { result ≤ length bytes.now }
{
    let mut count = 0;
    let mut rest = bytes;
    while let Some((byte, later)) = rest.split_first() {
        if *byte == b'"' {
            return count;
        }
        count += 1;
        rest = later;
    }
    count
}

// The bytes from a place on; none if it is behind the text.
fn from_place(text: &[u8], place: usize) -> &[u8]
    ensures { result.now ≡ drop place text.now }
{
    if place < text.len() {
        &text[place..]
    } else {
        &text[text.len()..]
    }
}

// The comment whose first quote is here, with its quotes.
fn comment_at(text: &[u8], place: usize) -> &[u8]
    ensures { result.now ≡ comment_at text.now place }
{
    let comment = from_place(text, place);
    match comment.split_first() {
        None => comment,
        Some((_, inner)) => {
            let inside = before_quote(inner);
            if inside < inner.len() {
                &comment[..inside + 2]
            } else {
                comment
            }
        }
    }
}

// The comment that is written at a place of the text, as it is strictly written.
fn remark_at<'a>(text: &'a [u8], form: &'a Option<StrictForm>, place: usize) -> &'a [u8]
    ensures { result.now ≡ remark_at text.now form.now place }
{
    match form {
        None => comment_at(text, place),
        Some(form) => {
            let strict = form.text.as_slice();
            let parts = form.parts.as_slice();
            comment_at(strict, strict_place(place, strict.len(), parts))
        }
    }
}

// The warning of a comment on an open rule.
fn remark_warning(
    alloc: Global,
    text: &[u8],
    form: &Option<StrictForm>,
    place: usize,
) -> Result<Warning, AllocError>
    ensures { IfOk result (IsRemarkWarning text.now form.now place) }
{
    let comment = remark_at(text, form, place);
    let mut form = Vec::new(alloc);
    form.extend_from_slice(b"open ")?;
    form.extend_from_slice(comment)?;
    Ok(Warning {
        kind: WarningKind::Remark,
        place,
        form,
    })
}

// Adds the warnings of the comments at these places.
fn add_remarks(
    alloc: Global,
    warnings: &mut Vec<Warning>,
    text: &[u8],
    form: &Option<StrictForm>,
    places: &[usize],
) -> Result<(), AllocError>
    ensures { OnOk result (AddsRemarks text.now form.now places.now warnings.old.items warnings.new.items) }
{
    let mut rest = places;
    while let Some((place, later)) = rest.split_first() {
        let warning = remark_warning(alloc, text, form, *place)?;
        put_in(warnings, warning)?;
        rest = later;
    }
    Ok(())
}

// The warning that what needs years at this place, and all else that needs them, is known in these years alone.
fn known_years_warning(
    alloc: Global,
    place: usize,
    years: KnownYears,
) -> Result<Warning, AllocError>
    ensures { IfOk result (IsKnownYearsWarning place years) }
{
    let mut form = Vec::new(alloc);
    form.extend_from_slice(Buffer::new().format(years.first).as_bytes())?;
    form.extend_from_slice(b"-")?;
    form.extend_from_slice(Buffer::new().format(years.last).as_bytes())?;
    Ok(Warning {
        kind: WarningKind::KnownYears,
        place,
        form,
    })
}

// Adds this warning, if years are given.
fn add_years(
    alloc: Global,
    warnings: &mut Vec<Warning>,
    place: usize,
    years: Option<KnownYears>,
) -> Result<(), AllocError>
    ensures { OnOk result (AddsYears place years warnings.old.items warnings.new.items) }
{
    match years {
        None => Ok(()),
        Some(years) => {
            let warning = known_years_warning(alloc, place, years)?;
            put_in(warnings, warning)
        }
    }
}

// Adds the warning of what needs years first, if something does.
fn add_years_if(
    alloc: Global,
    warnings: &mut Vec<Warning>,
    first_holiday: Option<usize>,
    years: Option<KnownYears>,
) -> Result<(), AllocError>
    ensures { OnOk result (AddsYearsIf first_holiday years warnings.old.items warnings.new.items) }
{
    match first_holiday {
        None => Ok(()),
        Some(place) => add_years(alloc, warnings, place, years),
    }
}

/// The warnings of a text from which these hours are read, in the order of their places: where it is written loosely; its
/// comments on open rules without a word that says so, each with that word; its fallback rules that are unknown; the rules that
/// say days alone, and behind which a comma begins another rule; the rules that hide hours of an earlier one, each with the
/// hours that stay if a comma stands before it; and at the first holiday, Easter or slash of years without a last one the years
/// in which these are known, if they are given. `AllocError` is answered only if memory was refused.
pub fn warnings_with(
    alloc: Global,
    text: &[u8],
    read: &KnownHours,
    years: Option<KnownYears>,
) -> Result<Vec<Warning>, AllocError>
    ensures { IfOk result (λ found. AreWarningsWith text.now read.now years found.items) }
{
    let mut warnings = form_warnings(alloc, text, &read.form)?;
    let remarks = read.remarks.as_slice();
    add_remarks(alloc, &mut warnings, text, &read.form, remarks)?;
    let mut marked = add_not_known(alloc, warnings, read.unknowns.as_slice())?;
    add_whole_days(alloc, &mut marked, text, &read.form)?;
    add_hides(alloc, &mut marked, text, &read.hours, &read.form)?;
    add_years_if(alloc, &mut marked, read.first_holiday, years)?;
    Ok(marked)
}
