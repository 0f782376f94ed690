//! What is told of the checked text and of the plain text, at places of the text.

ghost use Rattle.std.specs.Prelude.{◌≡◌, IfOk, None};
ghost use Rattle.gtd_hours_options.specs.Told.{IsPlacedReading, placed_fault, placed_holiday, told};

use gtd_hours_grammar::HoursFault;
use gtd_hours_known::{KnownFault, KnownHours};
use gtd_hours_moments::{MomentText, Placed, told_fault, written_place, written_places};
use std::alloc::{AllocError, Global};

/// A fault of a text of these forms, at its place in the text with so many bytes for which they stand.
pub(crate) fn placed_fault(end: usize, places: &[Placed], bad: KnownFault) -> KnownFault
    ensures { result ≡ placed_fault end places.now bad }
{
    match bad {
        KnownFault::Hours(bad) => KnownFault::Hours(HoursFault {
            kind: bad.kind,
            place: written_place(bad.place, end, places),
        }),
        KnownFault::Ambiguous { place } => KnownFault::Ambiguous {
            place: written_place(place, end, places),
        },
        KnownFault::Holidays { place } => KnownFault::Holidays {
            place: written_place(place, end, places),
        },
        KnownFault::Years { place } => KnownFault::Years {
            place: written_place(place, end, places),
        },
        KnownFault::Uncovered { place, day } => KnownFault::Uncovered {
            place: written_place(place, end, places),
            day,
        },
        KnownFault::Unknown { place } => KnownFault::Unknown {
            place: written_place(place, end, places),
        },
    }
}

/// A fault of the checked text, as it is told of the text with so many bytes.
pub(crate) fn told(end: usize, moments: &MomentText, bad: KnownFault) -> KnownFault
    ensures { result ≡ told end moments.now bad }
{
    match bad {
        KnownFault::Hours(bad) => KnownFault::Hours(told_fault(bad, end, moments)),
        _ => placed_fault(end, moments.checked.places.as_slice(), bad),
    }
}

// The first holiday of a text of these forms, at its place in the text with so many bytes for which they stand.
fn placed_holiday(end: usize, places: &[Placed], first: Option<usize>) -> Option<usize>
    ensures { result ≡ placed_holiday end places.now first }
{
    match first {
        None => None,
        Some(place) => Some(written_place(place, end, places)),
    }
}

/// The hours of a text with so many bytes by those of a text of these forms.
pub(crate) fn placed_read(
    alloc: Global,
    end: usize,
    places: &[Placed],
    read: KnownHours,
) -> Result<KnownHours, AllocError>
    ensures hours { IfOk result (IsPlacedReading end places.now read) }
    ensures form { IfOk result (λ made. made.form ≡ None) }
{
    let first_holiday = placed_holiday(end, places, read.first_holiday);
    let remarks = written_places(alloc, read.remarks.as_slice(), end, places)?;
    let unknowns = written_places(alloc, read.unknowns.as_slice(), end, places)?;
    Ok(KnownHours {
        hours: read.hours,
        form: None,
        first_holiday,
        remarks,
        unknowns,
    })
}
