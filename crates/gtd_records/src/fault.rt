//! Why a record file is not read.

ghost use Rattle.std.specs.Prelude.{◌≡◌, codes};
ghost use Rattle.gtd_records.specs.RecordFaultNames.{record_fault_name};

use gtd_core::TextFault;
use gtd_devices::InputFault;
use std::alloc::{AllocError, AllocFailed};
use thiserror::Error;

/// Why a record file is not read. The variants are in the order of their numbers, which begin at 1. Rows are numbered
/// from 1, after the header.
#[derive(Clone, Copy, Debug, PartialEq, Eq, Error)]
pub enum RecordFault {
    /// The input failed.
    #[error("ReadFault")]
    ReadFault,
    /// The file has more than 16,777,216 bytes.
    #[error("TooLarge")]
    TooLarge,
    /// The first record is not the header of version 1 or of version 2, or there is none.
    #[error("Header")]
    Header,
    /// A row does not have four fields.
    #[error("FieldCount")]
    FieldCount { row: u32 },
    /// A row's first field is not a number of 1 to 10 digits.
    #[error("Element")]
    Element { row: u32 },
    /// A row's second field is not `positive`, `negative` or `both`.
    #[error("Direction")]
    Direction { row: u32 },
    /// A row's third field names no vehicle types.
    #[error("Vehicle")]
    Vehicle { row: u32 },
    /// A row's fourth field is neither empty nor a time domain.
    #[error("Domain")]
    Domain { row: u32, fault: TextFault },
    /// There are more than 65,536 rows.
    #[error("TooManyRows")]
    TooManyRows,
    /// Memory was refused.
    #[error("NoMemory")]
    NoMemory,
    /// The input gave no byte for 1,000 pulls in a row.
    #[error("Endless")]
    Endless,
}

impl RecordFault {
    /// The fault's name, as fault lines show it.
    pub fn name(&self) -> &'static str
        ensures text { result.now ≡ record_fault_name self.now }
    {
        match self {
            RecordFault::ReadFault => "ReadFault",
            RecordFault::TooLarge => "TooLarge",
            RecordFault::Header => "Header",
            RecordFault::FieldCount { .. } => "FieldCount",
            RecordFault::Element { .. } => "Element",
            RecordFault::Direction { .. } => "Direction",
            RecordFault::Vehicle { .. } => "Vehicle",
            RecordFault::Domain { .. } => "Domain",
            RecordFault::TooManyRows => "TooManyRows",
            RecordFault::NoMemory => "NoMemory",
            RecordFault::Endless => "Endless",
        }
    }
}

impl From<AllocError> for RecordFault {
    ghost use Rattle.std.specs.Prelude.{◌≡◌};
    ghost use Rattle.gtd_records.specs.declared.fault.RecordFault.TheVariants.{NoMemory};

    ghost from_gives = { λ _ fault. fault ≡ NoMemory };

    fn from(_: AllocError) -> RecordFault {
        RecordFault::NoMemory
    }
}

impl<T: Drop> From<AllocFailed<T>> for RecordFault {
    ghost use Rattle.std.specs.Prelude.{◌≡◌};
    ghost use Rattle.gtd_records.specs.declared.fault.RecordFault.TheVariants.{NoMemory};

    ghost from_gives = { λ _ fault. fault ≡ NoMemory };

    fn from(_: AllocFailed<T>) -> RecordFault {
        RecordFault::NoMemory
    }
}

impl From<InputFault> for RecordFault {
    ghost use Rattle.std.specs.Prelude.{◌≡◌};
    ghost use Rattle.gtd_records.specs.Reading.{as_record_fault};

    ghost from_gives = { λ input fault. fault ≡ as_record_fault input };

    fn from(fault: InputFault) -> RecordFault {
        match fault {
            InputFault::ReadFault => RecordFault::ReadFault,
            InputFault::TooLarge => RecordFault::TooLarge,
            InputFault::Endless => RecordFault::Endless,
            InputFault::NoMemory => RecordFault::NoMemory,
        }
    }
}
