//! An input read whole.

ghost use Rattle.std.specs.Prelude.{◌≡◌, ◌<◌, ◌≤◌, length, IfOk, IfSome, IsErrOf, IsTrue, codes};
ghost use Rattle.gtd_devices.specs.InputFaultNames.{input_fault_name};
ghost use Rattle.gtd_devices.specs.WholeInput.{failures_after_whole};

use crate::device::{Input, Pull};
use std::alloc::{AllocError, Global};
use thiserror::Error;

/// How many bytes are asked for at once.
const PIECE: usize = 4096;

/// After so many pulls in a row that give no byte, reading ends.
const SILENT_PULLS: u32 = 1000;

/// Why an input is not read whole.
#[derive(Clone, Copy, Debug, PartialEq, Eq, Error)]
pub enum InputFault {
    /// The input failed.
    #[error("ReadFault")]
    ReadFault,
    /// More bytes came than the limit.
    #[error("TooLarge")]
    TooLarge,
    /// No byte came for 1,000 pulls in a row.
    #[error("Endless")]
    Endless,
    /// Memory was refused.
    #[error("NoMemory")]
    NoMemory,
}

impl InputFault {
    /// The fault's name: that of its variant.
    pub fn name(&self) -> &'static str
        ensures text { result.now ≡ input_fault_name self.now }
    {
        match self {
            InputFault::ReadFault => "ReadFault",
            InputFault::TooLarge => "TooLarge",
            InputFault::Endless => "Endless",
            InputFault::NoMemory => "NoMemory",
        }
    }
}

impl From<AllocError> for InputFault {
    ghost use Rattle.gtd_devices.specs.declared.whole.InputFault.TheVariants.{NoMemory};

    ghost from_gives = { λ _ fault. fault ≡ NoMemory };

    fn from(_: AllocError) -> InputFault {
        InputFault::NoMemory
    }
}

/// All bytes that an input still has to give, at most `most` of them.
///
/// The input is pulled 4,096 bytes at a time, until it ends or a fault occurs, whichever happens first. `NoMemory` is
/// answered only if memory was refused. Before the call, the input's failures must be below `u64::MAX`.
pub fn read_whole<I: Input>(
    alloc: Global,
    input: &mut I,
    most: usize,
) -> Result<Vec<u8>, InputFault>
    requires countable { I.failure_count input.old < u64.MAX }
    ensures few { IfOk result (λ bytes. length bytes.items ≤ most) }
    // If the input tells its bytes, the answer is exactly these, or they are too many.
    ensures whole { IfOk result (λ bytes. IfSome (I.to_come input.old) (λ all. bytes.items ≡ all)) }
    ensures large { IsErrOf result InputFault.TooLarge
        → IfSome (I.to_come input.old) (λ all. most < length all) }
    ensures endless { IsErrOf result InputFault.Endless → IsTrue (I.may_fall_silent input.old) }
    // `ReadFault` exactly if the input failed in this call.
    ensures failures { I.failure_count input.new
        ≡ failures_after_whole result (I.failure_count input.old) }
{
    let mut bytes = Vec::new(alloc);
    let mut piece = [0u8; PIECE];
    let mut silent = 0u32;
    while silent < SILENT_PULLS {
        match input.pull(&mut piece) {
            Pull::Got(0) => silent += 1,
            Pull::Got(n) => {
                if n > most - bytes.len() {
                    return Err(InputFault::TooLarge);
                }
                bytes.extend_from_slice(&piece[..n])?;
                silent = 0;
            }
            Pull::Done => return Ok(bytes),
            Pull::Failed => return Err(InputFault::ReadFault),
        }
    }
    Err(InputFault::Endless)
}
