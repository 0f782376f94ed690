//! The commands, by their names.

ghost use Rattle.std.specs.Prelude.{◌≡◌, ◌<◌, Err, IfErr, OnOk};
ghost use Rattle.gtd_tool.specs.Asked.{texts};
ghost use Rattle.gtd_tool.specs.Commands.{reading_named};
ghost use Rattle.gtd_tool.specs.CutShort.{IsCutShort};
ghost use Rattle.gtd_tool.specs.Plans.{IsReadTo, asked_by};
ghost use Rattle.gtd_tool.specs.Printed.{AppendsLine, AsksPastYears, IsAnswer};
ghost use Rattle.gtd_tool.specs.Running.{IfAlone, IfFile, Ran};

use crate::commands::year::YearTable;
use crate::plans::Plan;
use crate::refusal::Refusal;
use gtd_roads::Input;
use std::alloc::Global;
use std::io::Write;

mod at;
mod canon;
mod check;
mod ever;
mod migrate;
mod next;
mod schedule;
mod year;

/// The plan of the words, by the command with this name. If there is none, they are a fault of usage.
pub fn read_command(alloc: Global, name: &str, words: &[&str]) -> Result<Plan, Refusal>
    ensures read { IsReadTo (reading_named name.now (texts words.now)) result }
{
    match name {
        "check" => check::read(alloc, words),
        "canon" => canon::read(alloc, words),
        "at" => at::read(alloc, words),
        "next" => next::read(alloc, words),
        "ever" => ever::read(alloc, words),
        "schedule" => schedule::read(alloc, words),
        "year" => year::read(alloc, words),
        "migrate" => migrate::read(alloc, words),
        _ => Err(Refusal::Usage),
    }
}

/// Carries the plan out, by its command.
pub fn carry_out<I: Input, W: Write>(
    alloc: Global,
    plan: &Plan,
    input: &mut I,
    out: &mut W,
) -> Result<(), Refusal>
    requires readable { I.failure_count input.old < u64.MAX }
    ensures printed { IfAlone (asked_by plan.now) (OnOk result
        (AppendsLine (IsAnswer (asked_by plan.now)) (W.contents out.old) (W.contents out.new))) }
    ensures stopped { IfAlone (asked_by plan.now) (IfErr result (IsCutShort (asked_by plan.now)
        (W.contents out.old) (W.contents out.new) (out.new ≡ out.old))) }
    ensures year { AsksPastYears (asked_by plan.now) → result ≡ Err Refusal.HasYear }
    ensures untouched { IfAlone (asked_by plan.now) (input.new ≡ input.old) }
    ensures ran { IfFile (asked_by plan.now) (Ran (asked_by plan.now)
        (I.to_come input.old) (W.contents out.old) (W.contents out.new) (I.may_fall_silent input.old)
        (I.failure_count input.old) (I.failure_count input.new) result) }
{
    match plan {
        Plan::Check(_) => check::print(out),
        Plan::Canon(domain) => canon::print(alloc, domain, out),
        Plan::At { domain, moment } => at::print(domain, *moment, out),
        Plan::Next { domain, moment } => next::print(alloc, domain, *moment, out),
        Plan::Ever { domain, moment } => ever::print(alloc, domain, *moment, out),
        Plan::Schedule {
            horizon,
            vehicle,
            ..
        } => schedule::print(alloc, input, out, *horizon, *vehicle),
        Plan::Year {
            element,
            direction,
            vehicle,
            year,
            ..
        } => {
            let table = YearTable {
                element: *element,
                direction: *direction,
                vehicle: *vehicle,
                year: *year,
            };
            year::print(alloc, input, out, table)
        }
        Plan::Migrate { .. } => migrate::print(alloc, input, out),
    }
}
