//! The command `diff`: what two record files say differently.

ghost use Rattle.std.specs.Prelude.{◌≡◌, ◌<◌};
ghost use Rattle.gtdesk_tool.specs.Diff.{RanDiff, diff_outcome, failures_after_new, failures_after_old, form_of};
ghost use Rattle.gtdesk_tool.specs.Running.{failures_after_write};

use crate::ending::Ending;
use crate::performer::run_refusal;
use crate::refusal::RunRefusal;
use gtd_changes::{Asked, ChangesFault, Form, run_changes_in};
use gtd_devices::{Input, Output};
use gtd_records::RecordFault;
use gtdesk_plans::DiffPlan;
use std::alloc::Global;

// The answer of the command, from that of its run. A run whose only line is the header found no difference.
fn diff_outcome(answer: Result<u64, ChangesFault>) -> Result<Ending, RunRefusal>
    ensures value { result ≡ diff_outcome answer }
{
    match answer {
        Ok(lines) => {
            if lines <= 1 {
                Ok(Ending::Done)
            } else {
                Ok(Ending::Differ)
            }
        }
        Err(ChangesFault::Old(why)) => match why {
            RecordFault::NoMemory => Err(RunRefusal::Memory),
            _ => Err(RunRefusal::Old(why)),
        },
        Err(ChangesFault::Run(why)) => Err(run_refusal(why)),
    }
}

// The form that is asked for. A summary has no intervals, and so no rows either.
fn form_of(rows: bool, summary: bool) -> Form
    ensures value { result ≡ form_of rows summary }
{
    if summary {
        Form::Summary
    } else if rows {
        Form::Rows
    } else {
        Form::Intervals
    }
}

/// Carries the plan of `diff` out: puts what the record files that two inputs bring say differently, and ends the output.
///
/// The new file is read if the old one has no fault. `Old` is the old file's first fault, or why its input failed; `Records` is
/// the same of the new one. `Write` is answered exactly if the output failed, which has then taken a first part of what was to be
/// put; `Memory` if memory was refused. Before the call, the failures of each device must be below `u64::MAX`.
pub fn perform_diff<I: Input, J: Input, O: Output>(
    alloc: Global,
    plan: &DiffPlan,
    old: &mut I,
    new: &mut J,
    output: &mut O,
) -> Result<Ending, RunRefusal>
    requires old_readable { I.failure_count old.old < u64.MAX }
    requires new_readable { J.failure_count new.old < u64.MAX }
    requires writable { O.failure_count output.old < u64.MAX }
    // What the output took, by the answer.
    ensures ran { RanDiff plan.now (I.to_come old.old) (J.to_come new.old) (O.taken output.old) (O.taken output.new)
        (I.may_fall_silent old.old) (J.may_fall_silent new.old) (O.is_ended output.new) result }
    // Each failure of a device is told, and nothing else is told as one.
    ensures old_faults { I.failure_count old.new ≡ failures_after_old result (I.failure_count old.old) }
    ensures new_faults { J.failure_count new.new ≡ failures_after_new result (J.failure_count new.old) }
    ensures write_faults { O.failure_count output.new ≡ failures_after_write result (O.failure_count output.old) }
{
    let asked = Asked {
        horizon: plan.horizon,
        vehicle: plan.vehicle,
        form: form_of(plan.rows, plan.summary),
    };
    diff_outcome(run_changes_in(alloc, old, new, output, asked))
}
