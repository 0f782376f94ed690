//! The answers of commands that run over a record file.

ghost use Rattle.std.specs.Prelude.{◌≡◌};
ghost use Rattle.gtd_tool.specs.Running.{outcome_of, refusal_for};

use crate::refusal::Refusal;
use gtd_roads::{RecordFault, RunFault};

// The refusal for a fault of a run.
fn run_refusal(fault: RunFault) -> Refusal
    ensures value { result ≡ refusal_for fault }
{
    match fault {
        RunFault::VehicleRange => Refusal::VehicleRange,
        RunFault::YearRange => Refusal::YearRange,
        RunFault::Records(why) => match why {
            RecordFault::NoMemory => Refusal::Memory,
            _ => Refusal::Records(why),
        },
        RunFault::NoElement => Refusal::NoElement,
        RunFault::WriteFault { .. } => Refusal::Write,
        RunFault::NoMemory { .. } => Refusal::Memory,
    }
}

/// The answer of a command, from that of its run.
pub fn outcome(answer: Result<u64, RunFault>) -> Result<(), Refusal>
    ensures value { result ≡ outcome_of answer }
{
    match answer {
        Ok(_) => Ok(()),
        Err(fault) => Err(run_refusal(fault)),
    }
}
