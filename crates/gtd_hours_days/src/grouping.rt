//! How a set of days is written within some years.

ghost use Rattle.std.specs.Prelude.{◌≡◌, IfOk};
ghost use Rattle.gtd_hours_days.specs.Groups.{IsGrouping, grouping_cost};

use crate::group::Group;
use crate::order::groups_of;
use crate::split::split_runs;
use gtd_hours_holidays::{Days, KnownYears, Run, runs_of};
use std::alloc::{AllocError, Global};

/// How a set of days is written: days that come each year of some years, and days with their years.
#[derive(Drop)]
pub struct Grouping {
    /// The groups that come each year, by month, day and how many days they are.
    pub yearly: Vec<Group>,
    /// The other runs, in order of time.
    pub dated: Vec<Run>,
}

/// How the days of a set are written within the years: runs that come each year as groups, if that takes fewer basic domains,
/// and the others with their years. `AllocError` is answered only if memory was refused.
pub fn grouping_of(alloc: Global, days: &Days, years: KnownYears) -> Result<Grouping, AllocError>
    ensures grouping { IfOk result (λ found. IsGrouping days.now years found.yearly.items found.dated.items) }
{
    let runs = runs_of(alloc, days)?;
    let split = split_runs(alloc, days, years, runs.as_slice())?;
    let groups = groups_of(alloc, split.found.as_slice())?;
    if split.found.len() > groups.len() + 1 {
        return Ok(Grouping {
            yearly: groups,
            dated: split.others,
        });
    }
    Ok(Grouping {
        yearly: Vec::new(alloc),
        dated: runs,
    })
}

impl Grouping {
    /// How many basic domains its days take: one for each group and one for their years, one for each other run, and one at
    /// least. Takes no memory.
    pub fn cost(&self) -> usize
        ensures cost { result ≡ grouping_cost self.now.yearly.items self.now.dated.items }
    {
        let dated = self.dated.len();
        if self.yearly.is_empty() {
            return if dated == 0 { 1 } else { dated };
        }
        self.yearly.len() + 1 + dated
    }
}
