//! `migrate FILE`: a record file as one of version 2.

ghost use Rattle.std.specs.Prelude.{◌<◌};
ghost use Rattle.gtd_tool.specs.Asked as asked;
ghost use Rattle.gtd_tool.specs.Asked.{Text, texts};
ghost use Rattle.gtd_tool.specs.Commands.Migrate.{reading};
ghost use Rattle.gtd_tool.specs.Plans.{IsReadTo};
ghost use Rattle.gtd_tool.specs.Running.{Ran};

use crate::loan::Lent;
use crate::plans::Plan;
use crate::refusal::Refusal;
use crate::runner::outcome;
use crate::words::owned;
use gtd_roads::{HostOut, Input, run_migrate};
use std::alloc::Global;
use std::io::Write;

/// The plan of the words.
pub fn read(alloc: Global, words: &[&str]) -> Result<Plan, Refusal>
    ensures read { IsReadTo (reading (texts words.now)) result }
{
    let [file] = words else {
        return Err(Refusal::Usage);
    };
    let file = owned(alloc, file)?;
    Ok(Plan::Migrate { file })
}

/// Prints the record file that the input brings as one of version 2.
pub fn print<I: Input, W: Write>(alloc: Global, input: &mut I, out: &mut W) -> Result<(), Refusal>
    requires readable { I.failure_count input.old < u64.MAX }
    ensures ran { (file : Text) → Ran (asked.Migrate file)
        (I.to_come input.old) (W.contents out.old) (W.contents out.new) (I.may_fall_silent input.old)
        (I.failure_count input.old) (I.failure_count input.new) result }
{
    let mut output = HostOut::new(Lent {
        writer: &mut *out,
        taken: 0,
    });
    outcome(run_migrate(alloc, input, &mut output))
}
