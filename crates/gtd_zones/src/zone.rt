//! What the clock of a zone shows.

ghost use Rattle.std.specs.Prelude.{◌≡◌, ◌+ℤ◌, IfOk, IfErr, IsErr, IsErrOf};
ghost use Rattle.jiff_core.specs.Timestamp.{IsTimestampNanos, nanos_of_seconds};
ghost use Rattle.jiff_tz.specs.TzifReader.{read_tzif};
ghost use Rattle.gtd_core.specs.Seconds.{IsMomentSecond};
ghost use Rattle.gtd_zones.specs.Zones.{IsNoZone, IsOutOfRange, IsTableOf, ShowsAt, ShowsNone, shown_at};

use gtd_core::Sec;
use gtd_core::limits::{FIRST_MOMENT, LAST_MOMENT};
use jiff_core::{Error, Offset, Timestamp};
use jiff_tz::Tzif;
use std::alloc::Global;

/// Why the clock of a zone shows no moment.
#[derive(Clone, Copy, Debug, PartialEq, Eq)]
pub enum ZoneFault {
    /// The bytes are no file of a zone.
    File,
    /// The clock shows a second before 1901-01-01T00:00:00 or after 2199-12-31T23:59:59.
    Range,
    /// Memory was refused.
    Memory,
}

// The table of a zone's file.
fn table_of(alloc: Global, file: &[u8]) -> Result<Tzif, ZoneFault>
    ensures table { IfOk result (IsTableOf file.now) }
    ensures no_zone { IsErrOf result ZoneFault.File → IsNoZone file.now }
    ensures refused { IsErr (read_tzif file.now) → IsErrOf result ZoneFault.File }
    ensures no_range { IsErrOf result ZoneFault.Range → ⊥ }
{
    match Tzif::parse(alloc, None, file) {
        Ok(table) => Ok(table),
        Err(Error::OutOfMemory) => Err(ZoneFault::Memory),
        Err(_) => Err(ZoneFault::File),
    }
}

// An instant's second, moved by an offset.
fn moved(instant: i64, offset: Offset) -> i64
    requires { IsTimestampNanos (nanos_of_seconds instant) }
    ensures { result ≡ instant +ℤ offset.seconds }
{
    instant + i64::from(offset.seconds)
}

// What the clock of a zone with this table shows.
fn shown_by(table: &Tzif, instant: i64) -> Result<Sec, ZoneFault>
    ensures second { IfOk result (λ second. second.0 ≡ shown_at table.now instant) }
    ensures range { IfOk result (λ second. IsMomentSecond second.0) }
    ensures out_of_range { IfErr result (λ fault. (fault ≡ ZoneFault.Range) × ShowsNone table.now instant) }
{
    let Ok(stamp) = Timestamp::from_nanosecond(i128::from(instant) * 1_000_000_000) else {
        return Err(ZoneFault::Range);
    };
    let second = moved(instant, table.to_offset(stamp));
    if second < FIRST_MOMENT {
        return Err(ZoneFault::Range);
    }
    if second > LAST_MOMENT {
        return Err(ZoneFault::Range);
    }
    Ok(Sec(second))
}

/// The second that the clock of a zone shows at an instant, which is given by its seconds from 1970-01-01T00:00:00Z on. `file`
/// holds the bytes of the zone's file, in the format TZif (RFC 9636), as `jiff` reads it.
///
/// The faults, in their order: `File`; `Range`.
pub fn second_in_zone(alloc: Global, file: &[u8], instant: i64) -> Result<Sec, ZoneFault>
    ensures second { IfOk result (λ second. ShowsAt file.now instant second.0) }
    ensures range { IfOk result (λ second. IsMomentSecond second.0) }
    // Bytes that are no file of a zone are refused as such, and no others are.
    ensures refused { IsErr (read_tzif file.now) → IsErrOf result ZoneFault.File }
    ensures no_zone { IsErrOf result ZoneFault.File → IsNoZone file.now }
    ensures out_of_range { IsErrOf result ZoneFault.Range → IsOutOfRange file.now instant }
{
    let table = table_of(alloc, file)?;
    shown_by(&table, instant)
}
