//! Whether a text is opening hours.

ghost use Rattle.std.specs.Prelude.{IfErr, IfOk, List};
ghost use Rattle.gtd_hours_parts.specs.declared.piece.Piece.{Piece};
ghost use Rattle.gtd_hours_grammar.specs.Faults.{IsFirstFault, IsHoursText};
ghost use Rattle.gtd_hours_grammar.specs.Steps.{IsReading};

use crate::fault::HoursFault;
use crate::reading::{Reading, begin, next_part};

/// Whether a text is opening hours, or its first fault. Takes no memory.
pub fn check_hours(text: &[u8]) -> Result<(), HoursFault>
    ensures hours { IfOk result (λ done. (p : List Piece) × IsHoursText text.now p) }
    ensures fault { IfErr result (λ bad. IsFirstFault text.now bad) }
{
    check_behind(text, begin())
}

/// Whether a text of which the beginning has been read is opening hours, or its first fault. Takes no memory.
pub fn check_behind(text: &[u8], begun: Reading) -> Result<(), HoursFault>
    requires stands { (given : List Piece) × IsReading text.now begun given }
    ensures hours { IfOk result (λ done. (p : List Piece) × IsHoursText text.now p) }
    ensures fault { IfErr result (λ bad. IsFirstFault text.now bad) }
{
    let mut reading = begun;
    while let Some((_, next)) = next_part(text, reading)? {
        reading = next;
    }
    Ok(())
}
