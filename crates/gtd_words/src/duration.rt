//! The pieces of a duration's words.

ghost use Rattle.std.specs.Prelude.{◌≡◌, ◌+◌, ◌++◌, vec_items, OnOk};
ghost use Rattle.gtd_core.specs.Ranges.{HasSixDigits};
ghost use Rattle.gtd_words.specs.Durations.{date_pieces, date_sum, duration_pieces, number_pieces, time_pieces};

use crate::start::count;
use gtd_core::DurationParts;
use gtd_phrases::{Phrase, Piece, Unit};
use std::alloc::AllocError;

/// Adds the pieces of a duration.
#[tactic(auto, unfolding(crate::specs::Durations::duration_pieces))]
pub(crate) fn push_duration(
    out: &mut Vec<Piece>,
    duration: &DurationParts,
) -> Result<(), AllocError>
    requires { HasSixDigits duration.now }
    ensures { OnOk result (vec_items out.new ≡ vec_items out.old ++ duration_pieces duration.now) }
{
    let dates = duration.years + duration.months + duration.weeks + duration.days;
    if dates + duration.hours + duration.minutes + duration.seconds == 0 {
        return count(out, Phrase::Lasting(Unit::Seconds), 0);
    }
    push_dates(out, duration)?;
    push_times(out, dates, duration)
}

#[tactic(auto, unfolding(crate::specs::Durations::date_pieces))]
fn push_dates(out: &mut Vec<Piece>, duration: &DurationParts) -> Result<(), AllocError>
    requires { HasSixDigits duration.now }
    ensures { OnOk result (vec_items out.new ≡ vec_items out.old ++ date_pieces duration.now) }
{
    let before_weeks = duration.years + duration.months;
    push_number(out, 0, duration.years, Unit::Years)?;
    push_number(out, duration.years, duration.months, Unit::Months)?;
    push_number(out, before_weeks, duration.weeks, Unit::Weeks)?;
    push_number(
        out,
        before_weeks + duration.weeks,
        duration.days,
        Unit::Days,
    )
}

#[tactic(auto, unfolding(crate::specs::Durations::time_pieces))]
fn push_times(out: &mut Vec<Piece>, dates: u32, duration: &DurationParts) -> Result<(), AllocError>
    requires digits { HasSixDigits duration.now }
    requires sum { dates ≡ date_sum duration.now }
    ensures { OnOk result (vec_items out.new ≡ vec_items out.old ++ time_pieces duration.now) }
{
    let before_minutes = dates + duration.hours;
    push_number(out, dates, duration.hours, Unit::Hours)?;
    push_number(out, before_minutes, duration.minutes, Unit::Minutes)?;
    push_number(
        out,
        before_minutes + duration.minutes,
        duration.seconds,
        Unit::Seconds,
    )
}

// Adds a number with its unit, unless it is 0.
fn push_number(out: &mut Vec<Piece>, before: u32, n: u32, unit: Unit) -> Result<(), AllocError>
    ensures { OnOk result (vec_items out.new ≡ vec_items out.old ++ number_pieces before n unit) }
{
    if n == 0 {
        return Ok(());
    }
    if before == 0 {
        count(out, Phrase::Lasting(unit), n)
    } else {
        count(out, Phrase::Also(unit), n)
    }
}
