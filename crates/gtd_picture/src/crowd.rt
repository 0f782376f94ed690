//! Whether a picture would have more stretches than can be seen.

ghost use Rattle.std.specs.Prelude.{◌↔◌, ◌<◌, IfOk, IsTrue, length};
ghost use Rattle.gtd_eval.specs.Membership.{InDomain};
ghost use Rattle.gtd_picture.specs.Crowded.{IsCrowded, most_stretches};
ghost use Rattle.gtd_records.specs.Closing.{IsOpen};
ghost use Rattle.gtd_report.specs.Run.{IsTableYear};

use crate::run::YearPicture;
use gtd_calendar::days_of_year;
use gtd_core::Domain;
use gtd_eval::KeptCursor;
use gtd_records::{Records, open_seconds};
use gtd_spans::SpanSource;
use std::alloc::{AllocError, Global};

// How many stretches of seconds a picture shows at most.
const MOST_STRETCHES: u32 = 20_000;

// Whether a source has more spans than a picture shows. No more of them are taken than that needs.
fn has_too_many<S: SpanSource + Drop>(seconds: S) -> bool
    ensures many { IsTrue result ↔ (most_stretches < length (S.rest seconds)) }
{
    let mut rest = seconds;
    let mut taken = 0u32;
    while let Some(_) = rest.next() {
        if taken == MOST_STRETCHES {
            return true;
        }
        taken += 1;
    }
    false
}

/// Whether the domain has more stretches of seconds in the year than a picture shows.
pub(crate) fn is_domain_crowded(
    alloc: Global,
    domain: &Domain,
    year: u16,
) -> Result<bool, AllocError>
    requires year { IsTableYear year }
    ensures crowded { IfOk result (λ crowded. IsTrue crowded ↔ IsCrowded (InDomain domain.now) year) }
{
    let seconds = KeptCursor::open(alloc, domain, days_of_year(year))?;
    Ok(has_too_many(seconds))
}

/// Whether the element is open in more stretches of seconds in the year than a picture shows.
pub(crate) fn is_open_crowded(
    alloc: Global,
    found: &Records,
    picture: &YearPicture<'_>,
) -> Result<bool, AllocError>
    requires year { IsTableYear picture.now.year }
    ensures crowded { IfOk result (λ crowded. IsTrue crowded ↔ IsCrowded
        (IsOpen found.now picture.now.element picture.now.direction picture.now.vehicle) picture.now.year) }
{
    let seconds = open_seconds(
        alloc,
        found,
        picture.element,
        picture.direction,
        picture.vehicle,
        days_of_year(picture.year),
    )?;
    Ok(has_too_many(seconds))
}
