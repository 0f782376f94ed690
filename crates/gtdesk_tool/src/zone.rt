//! The moment that the clock of a time zone shows.

ghost use Rattle.std.specs.Prelude.{◌≡◌, IfErr, IfOk};
ghost use Rattle.gtd_zones.specs.Zones.{ShowsAt};
ghost use Rattle.gtdesk_tool.specs.Zones as spec;
ghost use Rattle.gtdesk_tool.specs.Zones.{IsZoneRefusal};

use crate::refusal::RunRefusal;
use gtd_calendar::StampFault;
use gtd_zones::{ZoneFault, second_in_zone};
use gtdesk_words::{Moment, Reason, WordFault, WordName};
use std::alloc::Global;

/// The refusal of a name for which there is no time zone.
pub fn no_zone() -> RunRefusal
    ensures value { result ≡ spec.no_zone }
{
    RunRefusal::Word(WordFault {
        word: WordName::Zone,
        why: Reason::Zone,
    })
}

// The refusal for a fault of a zone.
fn zone_refusal(fault: ZoneFault) -> RunRefusal
    ensures value { result ≡ spec.zone_refusal fault }
{
    match fault {
        ZoneFault::File => no_zone(),
        ZoneFault::Range => RunRefusal::Word(WordFault {
            word: WordName::Zone,
            why: Reason::Moment(StampFault::Range),
        }),
        ZoneFault::Memory => RunRefusal::Memory,
    }
}

/// The moment that the clock of a time zone shows at an instant, which is given by its seconds from 1970-01-01T00:00:00Z on.
/// `file` holds the bytes of the zone's file. Errors: that these are no such file, or that the clock shows no moment.
pub fn moment_in_zone(alloc: Global, file: &[u8], instant: i64) -> Result<Moment, RunRefusal>
    ensures moment { IfOk result (λ moment. ShowsAt file.now instant moment.second.0) }
    ensures refused { IfErr result (IsZoneRefusal file.now instant) }
{
    match second_in_zone(alloc, file, instant) {
        Ok(second) => Ok(Moment { second }),
        Err(fault) => Err(zone_refusal(fault)),
    }
}
