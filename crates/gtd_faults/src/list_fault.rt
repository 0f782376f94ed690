//! Why the faults of a file are not listed to the end.

ghost use Rattle.std.specs.Prelude.{◌≡◌};
ghost use Rattle.gtd_faults.specs.Run.{list_fault_of};

use gtd_devices::InputFault;

/// Why the faults of a file are not listed to the end.
#[derive(Clone, Copy, Debug, PartialEq, Eq)]
pub enum ListFault {
    /// The input failed. Nothing was put.
    ReadFault,
    /// The input gave no byte for 1,000 pulls in a row. Nothing was put.
    Endless,
    /// The output failed.
    WriteFault,
    /// Memory was refused. Nothing was put.
    NoMemory,
}

// Why a list is not put, for a fault of the input. An input that is too large is not one: it is listed.
pub(crate) fn fault_of_input(fault: InputFault) -> ListFault
    ensures value { result ≡ list_fault_of fault }
{
    match fault {
        InputFault::ReadFault => ListFault::ReadFault,
        InputFault::TooLarge => ListFault::ReadFault,
        InputFault::Endless => ListFault::Endless,
        InputFault::NoMemory => ListFault::NoMemory,
    }
}
