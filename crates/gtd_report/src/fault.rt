//! Why a run does not put its whole text.

ghost use Rattle.std.specs.Prelude.{◌≡◌};
ghost use Rattle.gtd_report.specs.RunFaultNames.{run_fault_name};

use gtd_records::RecordFault;
use thiserror::Error;

/// Why a run does not put its whole text. The variants are in the order of their numbers, which begin at 1; of the last
/// two, the one that happens first is answered.
#[derive(Clone, Copy, Debug, PartialEq, Eq, Error)]
pub enum RunFault {
    /// The vehicle type is not from 1 to 99.
    #[error("VehicleRange")]
    VehicleRange,
    /// The year is not from 1901 to 2199.
    #[error("YearRange")]
    YearRange,
    /// The record file is not read, for this reason.
    #[error("{0}")]
    Records(RecordFault),
    /// No record of the file names the element.
    #[error("NoElement")]
    NoElement,
    /// The output failed, when it had taken this many bytes of the text.
    #[error("WriteFault")]
    WriteFault { written: u64 },
    /// Memory was refused after the file was accepted, when the output had taken this many bytes of the text.
    #[error("NoMemory")]
    NoMemory { written: u64 },
}

impl RunFault {
    /// The fault's name: that of its variant.
    pub fn name(&self) -> &'static str
        ensures text { result.now ≡ run_fault_name self.now }
    {
        match self {
            RunFault::VehicleRange => "VehicleRange",
            RunFault::YearRange => "YearRange",
            RunFault::Records(_) => "Records",
            RunFault::NoElement => "NoElement",
            RunFault::WriteFault { .. } => "WriteFault",
            RunFault::NoMemory { .. } => "NoMemory",
        }
    }
}
