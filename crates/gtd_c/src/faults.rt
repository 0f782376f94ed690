//! Faults as numbers.

ghost use Rattle.std.specs.Prelude.{◌≡◌};
ghost use Rattle.gtd_c.specs.Faults.{fault_number, record_fault_numbers, text_fault_numbers};

use gtd_core::{Fault, TextFault};
use gtd_records::RecordFault;

/// The first fault of a text, as numbers.
#[repr(C)]
#[derive(Clone, Copy, Debug, PartialEq, Eq)]
pub struct FaultNumbers {
    /// The number of its kind.
    pub kind: u32,
    /// The number of bytes before its place.
    pub place: usize,
}

/// The first fault of a record file, as numbers.
#[repr(C)]
#[derive(Clone, Copy, Debug, PartialEq, Eq)]
pub struct RecordFaultNumbers {
    /// The number of its kind.
    pub kind: u32,
    /// The number of the row at fault, from 1, or 0.
    pub row: u32,
    /// The fault of the row's domain, or zeros.
    pub text: FaultNumbers,
}

/// The number of a kind of fault, from 1 in the order of the kinds.
pub(crate) fn number_of(fault: Fault) -> u32
    ensures number { result ≡ fault_number fault }
{
    match fault {
        Fault::BadToken => 1,
        Fault::Fuzzy => 2,
        Fault::TooDeep => 3,
        Fault::TooMany => 4,
        Fault::Repeated => 5,
        Fault::FieldRange => 6,
        Fault::Negative => 7,
        Fault::Unexpected => 8,
        Fault::Incomplete => 9,
        Fault::TooLongDuration => 10,
        Fault::NoMemory => 11,
    }
}

/// The numbers of the fault of a text.
pub(crate) fn numbers_of(fault: TextFault) -> FaultNumbers
    ensures numbers { result ≡ text_fault_numbers fault }
{
    FaultNumbers {
        kind: number_of(fault.kind),
        place: fault.place,
    }
}

// The numbers of a fault that is not of a row's domain.
fn plain(kind: u32, row: u32) -> RecordFaultNumbers
    ensures numbers { result ≡ record { kind = kind; row = row; text = record { kind = 0; place = 0 } } }
{
    RecordFaultNumbers {
        kind,
        row,
        text: FaultNumbers { kind: 0, place: 0 },
    }
}

/// The numbers of the fault of a record file.
pub(crate) fn numbers_of_record_fault(fault: RecordFault) -> RecordFaultNumbers
    ensures numbers { result ≡ record_fault_numbers fault }
{
    match fault {
        RecordFault::ReadFault => plain(1, 0),
        RecordFault::TooLarge => plain(2, 0),
        RecordFault::Header => plain(3, 0),
        RecordFault::FieldCount { row } => plain(4, row),
        RecordFault::Element { row } => plain(5, row),
        RecordFault::Direction { row } => plain(6, row),
        RecordFault::Vehicle { row } => plain(7, row),
        RecordFault::Domain { row, fault } => RecordFaultNumbers {
            kind: 8,
            row,
            text: numbers_of(fault),
        },
        RecordFault::TooManyRows => plain(9, 0),
        RecordFault::NoMemory => plain(10, 0),
        RecordFault::Endless => plain(11, 0),
    }
}
