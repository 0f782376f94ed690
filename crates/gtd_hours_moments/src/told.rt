//! How faults of the checked text are told.

ghost use Rattle.std.specs.Prelude.{◌≡◌};
ghost use Rattle.gtd_hours_moments.specs.Told.{is_incomplete, told_fault, told_kind};

use crate::placed::written_place;
use crate::text::MomentText;
use gtd_hours_grammar::{FaultKind, HoursFault};

/// A token that cannot stand where it does.
#[derive(Clone, Copy, Debug)]
pub struct Told {
    /// Its place in the text.
    pub place: usize,
    /// What is wrong with it.
    pub kind: FaultKind,
}

fn is_incomplete(kind: FaultKind) -> bool
    ensures { result ≡ is_incomplete kind }
{
    match kind {
        FaultKind::Incomplete => true,
        _ => false,
    }
}

// What is wrong at a place of the text.
fn told_kind(kind: FaultKind, place: usize, told: &[Told]) -> FaultKind
    ensures { result ≡ told_kind kind place told.now }
{
    let mut rest = told;
    while let Some((first, later)) = rest.split_first() {
        if first.place == place {
            return first.kind;
        }
        rest = later;
    }
    kind
}

/// The fault of a text of so many bytes that the first fault of its checked text is.
pub fn told_fault(bad: HoursFault, end: usize, text: &MomentText) -> HoursFault
    ensures told { result ≡ told_fault bad end text.now }
{
    if is_incomplete(bad.kind) {
        return HoursFault {
            kind: bad.kind,
            place: end,
        };
    }
    let place = written_place(bad.place, end, text.checked.places.as_slice());
    HoursFault {
        kind: told_kind(bad.kind, place, text.told.as_slice()),
        place,
    }
}
