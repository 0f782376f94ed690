//! The rows of a file of hours.

ghost use Rattle.std.specs.Prelude.{◌≡◌, IfErr, IfOk};
ghost use Rattle.csv.specs.Records.{fields_of};
ghost use Rattle.gtd_hours_options.specs.Readings.{how_read};
ghost use Rattle.gtd_hours_file.specs.HoursFile.{IsHoursOf};
ghost use Rattle.gtd_hours_file.specs.Reading as spec;
ghost use Rattle.gtd_hours_file.specs.Reading.{IsColumnRead, IsRowRead, IsTextStop};

use crate::fault::HoursFileFault;
use csv::ByteRecord;
use gtd_core::limits::MOST_BASIC_DOMAINS;
use gtd_hours_domain::cost_of;
use gtd_hours_holidays::KnownYears;
use gtd_hours_known::KnownHours;
use gtd_hours_options::{HoursReading, OptionsReadFault, read_hours_with_in};
use gtd_rows::{Closed, Vehicles, Version, four_columns, read_closed, read_number, read_vehicles};
use std::alloc::{AllocError, Global};

/// The hours of a row.
#[derive(Drop)]
pub struct RowHours {
    /// Their text.
    pub text: Vec<u8>,
    /// What is read of it.
    pub read: KnownHours,
    /// The years in which holidays are known, if they are given.
    pub years: Option<KnownYears>,
}

/// A row of a file of hours: what it closes, and when.
#[derive(Drop)]
pub struct HoursRow {
    /// The road element's number.
    pub element: u64,
    /// The directions that it closes.
    pub closed: Closed,
    /// The vehicle types for which it closes them.
    pub vehicles: Vehicles,
    /// When it closes them: while the hours are open, or always.
    pub hours: Option<RowHours>,
}

/// Why a row is not read.
#[derive(Clone, Copy)]
pub(crate) enum RowStop {
    /// Its first fault.
    Fault(HoursFileFault),
    /// Memory was refused.
    NoMemory,
}

impl From<AllocError> for RowStop {
    ghost use Rattle.std.specs.Prelude.{◌≡◌};
    ghost use Rattle.gtd_hours_file.specs.declared.row.RowStop.TheVariants.{NoMemory};

    ghost from_gives = { λ _ stop. stop ≡ NoMemory };

    fn from(_: AllocError) -> RowStop {
        RowStop::NoMemory
    }
}

// Why a text of hours is not read, in the row with this number.
fn unread(number: u32, why: OptionsReadFault) -> RowStop
    ensures { result ≡ spec.unread number why }
{
    match why {
        OptionsReadFault::Fault(fault) => {
            RowStop::Fault(HoursFileFault::Hours { row: number, fault })
        },
        OptionsReadFault::NoMemory => RowStop::NoMemory,
    }
}

// What is kept of a text of which this is read.
fn kept(
    alloc: Global,
    text: &[u8],
    read: KnownHours,
    years: Option<KnownYears>,
) -> Result<RowHours, AllocError>
    ensures text { IfOk result (λ given. given.text.items ≡ text.now) }
    ensures read { IfOk result (λ given. given.read ≡ read) }
    ensures years { IfOk result (λ given. given.years ≡ years) }
{
    let mut text_of = Vec::new(alloc);
    text_of.extend_from_slice(text)?;
    Ok(RowHours {
        text: text_of,
        read,
        years,
    })
}

// The hours that a text stands for, or its fault in the row with this number.
fn read_text(
    alloc: Global,
    number: u32,
    text: &[u8],
    reading: HoursReading<'_>,
) -> Result<RowHours, RowStop>
    ensures hours { IfOk result (IsHoursOf (how_read reading.entry) text.now) }
    ensures stop { IfErr result (IsTextStop (how_read reading.entry) number text.now) }
{
    let read = match read_hours_with_in(alloc, text, reading.manner, reading.options) {
        Ok(read) => read,
        Err(why) => return Err(unread(number, why)),
    };
    let needed = cost_of(&read.hours);
    if needed > u32::from(MOST_BASIC_DOMAINS) {
        return Err(RowStop::Fault(HoursFileFault::TooMany {
            row: number,
            needed,
        }));
    }
    match kept(alloc, text, read, reading.options.known.years) {
        Ok(given) => Ok(given),
        Err(_) => Err(RowStop::NoMemory),
    }
}

// The hours of a row's last column, which may be empty, or its fault in the row with this number.
fn read_last(
    alloc: Global,
    number: u32,
    text: &[u8],
    reading: HoursReading<'_>,
) -> Result<Option<RowHours>, RowStop>
    ensures { IsColumnRead (how_read reading.entry) number text.now result }
{
    if text.is_empty() {
        return Ok(None);
    }
    match read_text(alloc, number, text, reading) {
        Ok(hours) => Ok(Some(hours)),
        Err(stop) => Err(stop),
    }
}

/// What the row with this number says, whose hours are read so, or its first fault from the left.
pub(crate) fn read_row(
    alloc: Global,
    number: u32,
    row: &ByteRecord,
    reading: HoursReading<'_>,
) -> Result<HoursRow, RowStop>
    ensures { IsRowRead (how_read reading.entry) number (fields_of row.now) result }
{
    let Some(columns) = four_columns(row) else {
        return Err(RowStop::Fault(HoursFileFault::FieldCount { row: number }));
    };
    let Some(element) = read_number(columns.element) else {
        return Err(RowStop::Fault(HoursFileFault::Element { row: number }));
    };
    let Some(closed) = read_closed(columns.closed) else {
        return Err(RowStop::Fault(HoursFileFault::Direction { row: number }));
    };
    let Some(vehicles) = read_vehicles(alloc, Version::Two, columns.vehicles)? else {
        return Err(RowStop::Fault(HoursFileFault::Vehicle { row: number }));
    };
    let hours = match read_last(alloc, number, columns.last, reading) {
        Ok(hours) => hours,
        Err(stop) => return Err(stop),
    };
    Ok(HoursRow {
        element,
        closed,
        vehicles,
        hours,
    })
}
