//! The rules that say days alone, and behind which a comma begins another rule: where they begin, and their warnings.

ghost use Rattle.std.specs.Prelude.{◌≡◌, IfOk, OnOk};
ghost use Rattle.gtd_hours_warnings.specs.Marks.{AddsWholeDays, AddsWholeDaysAt, IsWholeDayWarning};
ghost use Rattle.gtd_hours_warnings.specs.Warnings.{place_in};
ghost use Rattle.gtd_hours_warnings.specs.WholeDays.{ArePlainDays, AreWholeDays};

use crate::warnings::{Warning, WarningKind, place_in, put_in, strict_text};
use gtd_hours_holiday_rules::{NoHolidayText, holiday_text};
use gtd_hours_loose::StrictForm;
use gtd_hours_moments::{NoMomentText, moment_text, written_places};
use std::alloc::{AllocError, Global};

// Where such rules begin in a text whose times are all ranges of clock times.
fn plain_days(alloc: Global, text: &[u8]) -> Result<Vec<usize>, AllocError>
    ensures { IfOk result (λ places. ArePlainDays text.now places.items) }
{
    match holiday_text(alloc, text) {
        Ok(read) => Ok(read.whole_days),
        Err(NoHolidayText::BadToken { place: _ }) => Ok(Vec::new(alloc)),
        Err(NoHolidayText::NoMemory) => Err(AllocError),
    }
}

// Where such rules begin in a text that may have other forms of times.
fn whole_days(alloc: Global, text: &[u8]) -> Result<Vec<usize>, AllocError>
    ensures { IfOk result (λ places. AreWholeDays text.now places.items) }
{
    match moment_text(alloc, text) {
        Ok(moments) => {
            let plain = plain_days(alloc, moments.checked.text.as_slice())?;
            let forms = moments.checked.places.as_slice();
            written_places(alloc, plain.as_slice(), text.len(), forms)
        }
        Err(NoMomentText::BadToken { place: _ }) => Ok(Vec::new(alloc)),
        Err(NoMomentText::NoMemory) => Err(AllocError),
    }
}

// The warning of a rule at a place.
fn whole_day_warning(alloc: Global, place: usize) -> Result<Warning, AllocError>
    ensures { IfOk result (IsWholeDayWarning place) }
{
    let mut form = Vec::new(alloc);
    form.extend_from_slice(b"open")?;
    Ok(Warning {
        kind: WarningKind::WholeDay,
        place,
        form,
    })
}

// Adds the warnings of the rules at these places of the strict form.
fn add_whole_days_at(
    alloc: Global,
    warnings: &mut Vec<Warning>,
    text: &[u8],
    form: &Option<StrictForm>,
    places: &[usize],
) -> Result<(), AllocError>
    ensures { OnOk result (AddsWholeDaysAt text.now form.now places.now warnings.old.items warnings.new.items) }
{
    let mut rest = places;
    while let Some((place, later)) = rest.split_first() {
        let warning = whole_day_warning(alloc, place_in(text, form, *place))?;
        put_in(warnings, warning)?;
        rest = later;
    }
    Ok(())
}

/// Adds the warnings of the rules of a text that say days alone.
pub(crate) fn add_whole_days(
    alloc: Global,
    warnings: &mut Vec<Warning>,
    text: &[u8],
    form: &Option<StrictForm>,
) -> Result<(), AllocError>
    ensures { OnOk result (AddsWholeDays text.now form.now warnings.old.items warnings.new.items) }
{
    let places = whole_days(alloc, strict_text(text, form))?;
    add_whole_days_at(alloc, warnings, text, form, places.as_slice())
}
