//! Why a file is not mended to the end.

ghost use Rattle.std.specs.Prelude.{◌≡◌};
ghost use Rattle.gtd_mend.specs.Run.{mend_fault_of};

use gtd_devices::InputFault;

/// Why a file is not mended to the end.
#[derive(Clone, Copy, Debug, PartialEq, Eq)]
pub enum MendFault {
    /// The input failed. Nothing was put.
    ReadFault,
    /// The input has more than 16,777,216 bytes. Nothing was put.
    TooLarge,
    /// The input gave no byte for 1,000 pulls in a row. Nothing was put.
    Endless,
    /// Memory was refused. Nothing was put.
    NoMemory,
    /// The output of the mended file failed. No change was listed.
    WriteFault,
    /// The output of the listing failed, after the mended file was put.
    ListingFault,
}

// Why a file is not mended, for a fault of the input.
pub(crate) fn fault_of_input(fault: InputFault) -> MendFault
    ensures value { result ≡ mend_fault_of fault }
{
    match fault {
        InputFault::ReadFault => MendFault::ReadFault,
        InputFault::TooLarge => MendFault::TooLarge,
        InputFault::Endless => MendFault::Endless,
        InputFault::NoMemory => MendFault::NoMemory,
    }
}
