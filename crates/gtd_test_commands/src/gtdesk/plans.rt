//! Plans of command lines, and how they are carried out over a small record file.

ghost use Rattle.std.specs.Prelude.{◌<◌};

use crate::devices::two_rows;
use crate::words::owned;
use gtd_devices::{MemoryOut, Output};
use gtdesk_tool::{
    Ending, OnePlan, Plan, RunRefusal, Turn, no_options, options_given, perform, plan,
};
use std::alloc::Global;
use std::process::Abort;

/// The plan of the words, which reads one file at a time, or none.
pub(crate) fn planned(rt: &impl Abort, alloc: Global, words: &[&str]) -> OnePlan {
    let owned = owned(alloc, words).expect(rt, "memory");
    match plan(alloc, owned) {
        Ok(Plan::One(plan)) => plan,
        Ok(_) => panic!(rt; "{words:?} reads two files"),
        Err(_) => panic!(rt; "{words:?} is refused"),
    }
}

/// What a plan answers for `R`, put to this output.
pub(crate) fn performed<O: Output>(
    rt: &impl Abort,
    alloc: Global,
    plan: &OnePlan,
    output: &mut O,
) -> Result<Ending, RunRefusal>
    requires writable { O.failure_count output.old < u64.MAX }
{
    let mut input = two_rows(rt, alloc);
    let mut errors = MemoryOut::new(alloc, 100, 100, None).expect(rt, "memory");
    match options_given(plan) {
        None => {
            let turn = Turn {
                plan,
                path: "r.csv",
                options: &no_options(),
            };
            perform(alloc, turn, &mut input, output, &mut errors)
        }
        Some(_) => panic!(rt; "the plan has options of hours"),
    }
}
