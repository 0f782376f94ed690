//! The checked text: plain hours, whose first fault is the text's.

ghost use Rattle.std.specs.Prelude.{◌++◌, ◌∷◌, [], List, IfOk, OnOk};
ghost use Rattle.gtd_hours_moments.specs.Checked.{checked_at, checked_puts};
ghost use Rattle.gtd_hours_moments.specs.Places.{Holds, Put};

use crate::parts::Part;
use crate::placed::{PlacedText, end_placed, nothing};
use crate::written::push_written;
use gtd_hours_times::stretch;
use std::alloc::{AllocError, Global};

fn push_checked(checked: &mut PlacedText, text: &[u8], part: Part) -> Result<(), AllocError>
    ensures { OnOk result ((ps : List Put) → Holds checked.old ps
        → Holds checked.new (ps ++ checked_at text.now part ∷ [])) }
{
    let start = checked.text.len();
    push_written(
        &mut checked.text,
        part.written,
        stretch(text, part.from, part.to),
    )?;
    end_placed(checked, part.from, start)?;
    Ok(())
}

/// The checked text of a text with these parts.
pub fn checked_text(alloc: Global, text: &[u8], parts: &[Part]) -> Result<PlacedText, AllocError>
    ensures { IfOk result (λ checked. Holds checked (checked_puts text.now parts.now)) }
{
    let mut checked = nothing(alloc);
    let mut rest = parts;
    while let Some((part, later)) = rest.split_first() {
        push_checked(&mut checked, text, *part)?;
        rest = later;
    }
    Ok(checked)
}
