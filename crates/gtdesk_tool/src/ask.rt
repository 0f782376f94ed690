//! The command `ask`: answers to questions about a record file.

ghost use Rattle.std.specs.Prelude.{◌≡◌, ◌<◌};
ghost use Rattle.gtdesk_tool.specs.Ask.{RanAsk, ask_outcome, failures_after_questions};
ghost use Rattle.gtdesk_tool.specs.Running.{failures_after_read, failures_after_write};

use crate::ending::Ending;
use crate::performer::run_refusal;
use crate::refusal::RunRefusal;
use gtd_ask::{AskFault, QuestionFault, run_ask};
use gtd_devices::{Input, Output};
use std::alloc::Global;

// The answer of the command, from that of its run.
fn ask_outcome(answer: Result<u64, AskFault>) -> Result<Ending, RunRefusal>
    ensures value { result ≡ ask_outcome answer }
{
    match answer {
        Ok(_) => Ok(Ending::Done),
        Err(AskFault::Questions(why)) => match why {
            QuestionFault::NoMemory => Err(RunRefusal::Memory),
            _ => Err(RunRefusal::Questions(why)),
        },
        Err(AskFault::Run(why)) => Err(run_refusal(why)),
    }
}

/// Carries the plan of `ask` out: answers the questions that one input brings about the record file that another brings, and ends
/// the output.
///
/// The record file is read if the questions have no fault. `Questions` is the first fault of the questions, or why their input
/// failed; `Records` is the same of the record file. `Write` is answered exactly if the output failed, which has then taken a
/// first part of what was to be put; `Memory` if memory was refused. Before the call, the failures of each device must be below
/// `u64::MAX`.
pub fn perform_ask<I: Input, J: Input, O: Output>(
    alloc: Global,
    questions: &mut I,
    records: &mut J,
    output: &mut O,
) -> Result<Ending, RunRefusal>
    requires questions_readable { I.failure_count questions.old < u64.MAX }
    requires records_readable { J.failure_count records.old < u64.MAX }
    requires writable { O.failure_count output.old < u64.MAX }
    // What the output took, by the answer.
    ensures ran { RanAsk (I.to_come questions.old) (J.to_come records.old) (O.taken output.old) (O.taken output.new)
        (I.may_fall_silent questions.old) (J.may_fall_silent records.old) (O.is_ended output.new) result }
    // Each failure of a device is told, and nothing else is told as one.
    ensures questions_faults { I.failure_count questions.new
        ≡ failures_after_questions result (I.failure_count questions.old) }
    ensures records_faults { J.failure_count records.new ≡ failures_after_read result (J.failure_count records.old) }
    ensures write_faults { O.failure_count output.new ≡ failures_after_write result (O.failure_count output.old) }
{
    ask_outcome(run_ask(alloc, questions, records, output))
}
