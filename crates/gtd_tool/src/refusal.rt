//! Why a command line is not carried out.

ghost use Rattle.std.specs.Prelude.{◌≡◌, ◌++◌, codes, decimal, OnErr, OnOk};
ghost use Rattle.std.specs.Io.KnownBytes.{Appends};
ghost use Rattle.gtd_tool.specs.Refusals.{records_status, refusal_line, status_of};
ghost use Rattle.gtd_tool.specs.Writing.{AppendsPart};

use crate::writer::put_texts;
use gtd_calendar::StampFault;
use gtd_core::{HorizonFault, TextFault};
use gtd_roads::RecordFault;
use itoa::Buffer;
use std::fmt::{Display, Formatter};
use std::io::Write;
use std::{fmt, io};
use thiserror::Error;

// The fault of a record file, as the line for standard error shows it.
#[derive(Drop)]
struct RecordsText(RecordFault);

impl Display for RecordsText {
    fn fmt<W: fmt::Write>(&self, f: &mut Formatter<W>) -> fmt::Result {
        let fault = self.0;
        match fault {
            RecordFault::FieldCount { row }
            | RecordFault::Element { row }
            | RecordFault::Direction { row }
            | RecordFault::Vehicle { row } => write!(f, "row {row} {fault}"),
            RecordFault::Domain { row, fault: why } => write!(f, "row {row} {fault} {why}"),
            RecordFault::TooManyRows => write!(f, "row 65537 {fault}"),
            _ => write!(f, "{fault}"),
        }
    }
}

/// Why a command line is not carried out. Its text is the line for standard error.
#[derive(Clone, Copy, Debug, PartialEq, Eq, Error)]
pub enum Refusal {
    /// The words name no command, or are not the words that it takes.
    #[error("usage: gtd COMMAND ARGUMENTS")]
    Usage,
    /// The word for a domain does not stand for one. This is its first fault, which is never `NoMemory`.
    #[error("fault {0}")]
    Text(TextFault),
    /// The word for a moment does not stand for one. This is its first fault.
    #[error("fault moment {0}")]
    Moment(StampFault),
    /// A word for a date does not stand for one. This is its first fault.
    #[error("fault date {0}")]
    Date(StampFault),
    /// The days are not a horizon. This is their first fault.
    #[error("fault horizon {0}")]
    Horizon(HorizonFault),
    /// Some start of the domain gives a year, so that its changes for ever are not known.
    #[error("fault HasYear")]
    HasYear,
    /// The vehicle type is not from 1 to 99.
    #[error("fault VehicleRange")]
    VehicleRange,
    /// The year is not from 1901 to 2199.
    #[error("fault YearRange")]
    YearRange,
    /// No record of the file names the element.
    #[error("fault NoElement")]
    NoElement,
    /// The record file is not read. This is its first fault, or why the input failed, and never `NoMemory`.
    #[error("fault {}", RecordsText(*.0))]
    Records(RecordFault),
    /// The record file is not opened.
    #[error("fault Open")]
    Open,
    /// A write to standard output failed.
    #[error("fault WriteFault")]
    Write,
    /// Memory was refused.
    #[error("fault NoMemory")]
    Memory,
}

impl Refusal {
    /// The exit status: 1 if the input is refused, 2 for usage, 3 if opening, reading, writing or memory failed.
    pub fn status(&self) -> u8
        ensures value { result ≡ status_of self.now }
    {
        match self {
            Refusal::Text(_)
            | Refusal::Moment(_)
            | Refusal::Date(_)
            | Refusal::Horizon(_)
            | Refusal::HasYear
            | Refusal::VehicleRange
            | Refusal::YearRange
            | Refusal::NoElement => 1,
            Refusal::Records(fault) => records_status(*fault),
            Refusal::Usage => 2,
            Refusal::Open | Refusal::Write | Refusal::Memory => 3,
        }
    }

    /// Writes the line for standard error, with its line end. If the writer fails, it has taken a first part of the
    /// line.
    pub fn put_line<W: Write>(&self, err: &mut W) -> io::Result<()>
        ensures line { OnOk result
            (Appends (W.contents err.old) (W.contents err.new) (refusal_line self.now)) }
        ensures part { OnErr result
            (AppendsPart (W.contents err.old) (W.contents err.new) (refusal_line self.now)) }
    {
        match self {
            Refusal::Usage => put_texts(&["usage: gtd COMMAND ARGUMENTS\n"], err),
            Refusal::Text(fault) => put_fault(fault, err),
            Refusal::Moment(fault) => put_texts(&["fault moment ", fault.name(), "\n"], err),
            Refusal::Date(fault) => put_texts(&["fault date ", fault.name(), "\n"], err),
            Refusal::Horizon(fault) => put_texts(&["fault horizon ", fault.name(), "\n"], err),
            Refusal::HasYear => put_texts(&["fault HasYear\n"], err),
            Refusal::VehicleRange => put_texts(&["fault VehicleRange\n"], err),
            Refusal::YearRange => put_texts(&["fault YearRange\n"], err),
            Refusal::NoElement => put_texts(&["fault NoElement\n"], err),
            Refusal::Records(fault) => put_records_fault(*fault, err),
            Refusal::Open => put_texts(&["fault Open\n"], err),
            Refusal::Write => put_texts(&["fault WriteFault\n"], err),
            Refusal::Memory => put_texts(&["fault NoMemory\n"], err),
        }
    }
}

// The line of a text's fault.
fn put_fault<W: Write>(fault: &TextFault, err: &mut W) -> io::Result<()>
    ensures line { OnOk result (Appends (W.contents err.old) (W.contents err.new)
        (refusal_line (Refusal.Text fault.now))) }
    ensures part { OnErr result (AppendsPart (W.contents err.old) (W.contents err.new)
        (refusal_line (Refusal.Text fault.now))) }
{
    let mut place = Buffer::new();
    let place = place.format(fault.place);
    put_texts(&["fault ", fault.kind.name(), " at ", place, "\n"], err)
}

// The status for a record file that is not read.
fn records_status(fault: RecordFault) -> u8
    ensures value { result ≡ records_status fault }
{
    match fault {
        RecordFault::ReadFault | RecordFault::Endless | RecordFault::NoMemory => 3,
        _ => 1,
    }
}

// The line of a record file's fault.
fn put_records_fault<W: Write>(fault: RecordFault, err: &mut W) -> io::Result<()>
    ensures line { OnOk result (Appends (W.contents err.old) (W.contents err.new)
        (refusal_line (Refusal.Records fault))) }
    ensures part { OnErr result (AppendsPart (W.contents err.old) (W.contents err.new)
        (refusal_line (Refusal.Records fault))) }
{
    match fault {
        RecordFault::FieldCount { row } => put_row_fault(row, " FieldCount", err),
        RecordFault::Element { row } => put_row_fault(row, " Element", err),
        RecordFault::Direction { row } => put_row_fault(row, " Direction", err),
        RecordFault::Vehicle { row } => put_row_fault(row, " Vehicle", err),
        RecordFault::Domain { row, fault } => put_domain_fault(row, &fault, err),
        RecordFault::TooManyRows => put_texts(&["fault row 65537 TooManyRows\n"], err),
        _ => put_texts(&["fault ", fault.name(), "\n"], err),
    }
}

// The line of a row's fault, given what follows the row's number.
fn put_row_fault<W: Write>(row: u32, fault: &str, err: &mut W) -> io::Result<()>
    ensures line { OnOk result (Appends (W.contents err.old) (W.contents err.new)
        (codes "fault " ++ (codes "row " ++ decimal row ++ fault.now) ++ codes "\n")) }
    ensures part { OnErr result (AppendsPart (W.contents err.old) (W.contents err.new)
        (codes "fault " ++ (codes "row " ++ decimal row ++ fault.now) ++ codes "\n")) }
{
    let mut number = Buffer::new();
    let number = number.format(row);
    put_texts(&["fault row ", number, fault, "\n"], err)
}

// The line of a fault in a row's domain.
fn put_domain_fault<W: Write>(row: u32, fault: &TextFault, err: &mut W) -> io::Result<()>
    ensures line { OnOk result (Appends (W.contents err.old) (W.contents err.new)
        (refusal_line (Refusal.Records (RecordFault.Domain row fault.now)))) }
    ensures part { OnErr result (AppendsPart (W.contents err.old) (W.contents err.new)
        (refusal_line (Refusal.Records (RecordFault.Domain row fault.now)))) }
{
    let mut number = Buffer::new();
    let number = number.format(row);
    let mut place = Buffer::new();
    let place = place.format(fault.place);
    let kind = fault.kind.name();
    put_texts(
        &["fault row ", number, " Domain ", kind, " at ", place, "\n"],
        err,
    )
}
