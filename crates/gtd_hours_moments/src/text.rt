//! A text with times of all forms as a checked text and its forms.

ghost use Rattle.std.specs.Prelude.{◌≡◌, IfErr, IfOk};
ghost use Rattle.gtd_hours_times.specs.Tokens.{IsNoMomentText};
ghost use Rattle.gtd_hours_moments.specs.Reading.{HasParts, IsMomentText};

use crate::checked::checked_text;
use crate::parts::{Part, breaks_off, forms_of, parts_in, told_of};
use crate::placed::PlacedText;
use crate::told::Told;
use gtd_hours_times::{NoMomentText, TimeForm};
use std::alloc::{AllocError, Global};

/// A text with times of all forms.
#[derive(Drop)]
pub struct MomentText {
    /// A text of plain hours, which has a fault exactly where the text has one.
    pub checked: PlacedText,
    /// How faults of the checked text are told: the tokens that cannot stand where they do.
    pub told: Vec<Told>,
    /// Its forms of times, from left to right.
    pub forms: Vec<TimeForm>,
    /// Whether another form breaks off at its end.
    pub breaks_off: bool,
}

// A text with these parts.
fn with_parts(alloc: Global, text: &[u8], parts: &[Part]) -> Result<MomentText, AllocError>
    ensures { IfOk result (HasParts text.now parts.now) }
{
    let checked = checked_text(alloc, text, parts)?;
    let told = told_of(alloc, parts)?;
    let forms = forms_of(alloc, parts)?;
    Ok(MomentText {
        checked,
        told,
        forms,
        breaks_off: breaks_off(parts),
    })
}

/// The checked text of a text, and its forms of times. Errors: the first byte with which no token begins; or that there is no
/// memory.
pub fn moment_text(alloc: Global, text: &[u8]) -> Result<MomentText, NoMomentText>
    ensures text { IfOk result (IsMomentText text.now) }
    ensures fault { IfErr result (IsNoMomentText text.now) }
{
    let parts = parts_in(alloc, text)?;
    let read = with_parts(alloc, text, parts.as_slice())?;
    Ok(read)
}
