//! The command `conditions`: the record file of a file of tags of ways.

ghost use Rattle.std.specs.Prelude.{◌≡◌, ◌<◌};
ghost use Rattle.std.proofs.Props.{props};
ghost use Rattle.gtd_conditional_file.specs.Run.{lines_of};
ghost use Rattle.gtdesk_tool.specs.Conditions.{IsAnswerTold, RanConditions, conditions_outcome, failures_after_means};
ghost use Rattle.gtdesk_tool.specs.GivenOptions.{AreOptionsOf, options_of};
ghost use Rattle.gtdesk_tool.specs.Running.{failures_after_read, failures_after_write};
ghost use Rattle.gtdesk_tool.specs.Telling.{telling};

use crate::ending::Ending;
use crate::hours_records::{tell, tell_if_some};
use crate::loose_hours::manner_of;
use crate::plan_options::PlanOptions;
use crate::refusal::RunRefusal;
use gtd_conditional_file::{ConditionsReading, Converted, Paths, Unconverted, run_conditions};
use gtd_devices::{Input, Output};
use gtd_hours_options::HoursReading;
use gtd_records::RecordFault;
use gtdesk_plans::ConditionsPlan;
use std::alloc::Global;

// The answer of the command, from that of its run.
fn conditions_outcome(answer: &Result<Converted, Unconverted>) -> Result<Ending, RunRefusal>
    ensures value { result ≡ conditions_outcome (lines_of answer.now) }
{
    match answer {
        Ok(_) => Ok(Ending::Done),
        Err(Unconverted::Faults(_)) => Ok(Ending::FaultsListed),
        Err(Unconverted::TooManyRows { rows }) => Err(RunRefusal::TooManyRows { rows: *rows }),
        Err(Unconverted::MeansReadFault) => Err(RunRefusal::Means(RecordFault::ReadFault)),
        Err(Unconverted::MeansEndless) => Err(RunRefusal::Means(RecordFault::Endless)),
        Err(Unconverted::TagsReadFault) => Err(RunRefusal::Records(RecordFault::ReadFault)),
        Err(Unconverted::TagsEndless) => Err(RunRefusal::Records(RecordFault::Endless)),
        Err(Unconverted::WriteFault { .. }) => Err(RunRefusal::Write),
        Err(Unconverted::NoMemory { .. }) => Err(RunRefusal::Memory),
    }
}

// Tells what the answer of a run says besides its record file: warnings of hours, or the list of faults.
fn tell_answer<E: Output>(errors: &mut E, answer: &Result<Converted, Unconverted>)
    requires tellable { E.failure_count errors.old < u64.MAX }
    ensures told { IsAnswerTold
        (telling (E.taken errors.old) (E.taken errors.new) (E.failure_count errors.old) (E.failure_count errors.new)) answer.now }
{
    match answer {
        Ok(done) => tell_if_some(errors, done.warnings.as_slice()),
        Err(Unconverted::Faults(list)) => tell(errors, list.as_bytes()),
        Err(_) => {}
    }
}

/// A plan of `conditions`, and the options with which opening hours in conditions are read.
#[derive(Clone, Copy)]
pub struct ConditionsTurn<'a> {
    /// The plan.
    pub plan: &'a ConditionsPlan,
    /// The options.
    pub options: &'a PlanOptions<'a>,
    // The plan gives these options. If it names a table of holidays, their table was read from that path; else they have none.
    pub ghost given: { AreOptionsOf plan.now.options options.now } by { Prim.hlevel props },
}

/// Carries the plan of `conditions` out: puts the record file that a file of tags of ways stands for by a table of means, both of
/// which inputs bring, and ends the output. Then it tells the warnings of the hours in values on the output for errors. Or it
/// tells the list of all faults there, and puts nothing: of the table, if it has any, and otherwise of the file of tags and its
/// values. If that output fails, a first part of the warnings or of the list stands, and the answer is the same.
///
/// The file of tags is read if the table has no fault. `Means` says why the input of the table failed, and `Records` why that of
/// the file of tags did. `TooManyRows` is answered if the record file would have more than 65,536 rows; nothing is put then.
/// `Write` is answered exactly if the output failed, which has then taken a first part of what was to be
/// put; `Memory` if memory was refused. Before the call, the failures of each device must be below `u64::MAX`.
pub fn perform_conditions<I: Input, J: Input, O: Output, E: Output>(
    alloc: Global,
    turn: ConditionsTurn<'_>,
    tags: &mut I,
    means: &mut J,
    output: &mut O,
    errors: &mut E,
) -> Result<Ending, RunRefusal>
    requires tags_readable { I.failure_count tags.old < u64.MAX }
    requires means_readable { J.failure_count means.old < u64.MAX }
    requires writable { O.failure_count output.old < u64.MAX }
    requires tellable { E.failure_count errors.old < u64.MAX }
    // What the output took, and what the output for errors took, by the answer.
    ensures ran { RanConditions turn.entry.plan.now (options_of turn.entry.options.now) (I.to_come tags.old) (J.to_come means.old)
        (O.taken output.old) (O.taken output.new) (I.may_fall_silent tags.old) (J.may_fall_silent means.old)
        (O.is_ended output.new)
        (telling (E.taken errors.old) (E.taken errors.new) (E.failure_count errors.old) (E.failure_count errors.new)) result }
    // Each failure of an input or of the output is told, and nothing else is told as one.
    ensures tags_faults { I.failure_count tags.new ≡ failures_after_read result (I.failure_count tags.old) }
    ensures means_faults { J.failure_count means.new ≡ failures_after_means result (J.failure_count means.old) }
    ensures write_faults { O.failure_count output.new ≡ failures_after_write result (O.failure_count output.old) }
{
    let plan = turn.plan;
    let reading = ConditionsReading {
        paths: Paths {
            tags: plan.tags.as_str(),
            means: plan.means.as_str(),
        },
        hours: HoursReading {
            manner: manner_of(plan.options.strict, plan.options.names),
            options: &turn.options.options,
        },
    };
    let answer = run_conditions(alloc, tags, means, output, reading);
    tell_answer(errors, &answer);
    conditions_outcome(&answer)
}
