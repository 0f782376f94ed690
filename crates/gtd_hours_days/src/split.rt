//! The runs of a set that come each year, and the others.

ghost use Rattle.std.specs.Prelude.{◌≡◌, ◌++◌, ◌∷◌, [], IfOk, MatchOption, OnOk};
ghost use Rattle.gtd_hours_days.specs.Groups.{AreSplit};

use crate::group::Group;
use crate::yearly::yearly_group;
use gtd_hours_holidays::{Days, KnownYears, Run};
use std::alloc::{AllocError, Global};

/// The groups of the runs that may be written so, one for each run, and the other runs.
#[derive(Drop)]
pub(crate) struct Split {
    pub(crate) found: Vec<Group>,
    pub(crate) others: Vec<Run>,
}

// Adds a run, or the group as which it may be written.
fn put_run(split: &mut Split, run: Run, group: Option<Group>) -> Result<(), AllocError>
    ensures { OnOk result (MatchOption group
        ((split.new.found.items ≡ split.old.found.items) × (split.new.others.items ≡ split.old.others.items ++ run ∷ []))
        (λ found. (split.new.found.items ≡ split.old.found.items ++ found ∷ [])
        × (split.new.others.items ≡ split.old.others.items))) }
{
    match group {
        Some(found) => split.found.push(found)?,
        None => split.others.push(run)?,
    }
    Ok(())
}

/// The runs of a set, split. `AllocError` is answered only if memory was refused.
pub(crate) fn split_runs(
    alloc: Global,
    days: &Days,
    years: KnownYears,
    runs: &[Run],
) -> Result<Split, AllocError>
    ensures { IfOk result (λ split. AreSplit days.now years runs.now split.found.items split.others.items) }
{
    let mut split = Split {
        found: Vec::new(alloc),
        others: Vec::new(alloc),
    };
    for run in runs {
        let group = yearly_group(days, years, *run);
        put_run(&mut split, *run, group)?;
    }
    Ok(split)
}
