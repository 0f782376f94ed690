//! The days of holidays, as selectors of dates and of days that come each year.

ghost use Rattle.std.specs.Prelude.{IfErr, IfOk};
ghost use Rattle.gtd_hours_days.specs.Parts.{AreShort, IsShort};
ghost use Rattle.gtd_hours_known.specs.HolidayDays.{AreDaysOf, AreRangesOf, AreWritten, AreYearlyOf, IsDaysFault, IsRange};
ghost use Rattle.gtd_hours_known.specs.HolidayDays.{IsYearlyOf};

use crate::dates::days_between;
use gtd_hours::{Selector, YearlyDays};
use gtd_hours_days::{Group, Grouping, Listed, ListedFault, listed_grouping};
use gtd_hours_holidays::{Holidays, KnownYears, Run};
use std::alloc::{AllocError, Global};

// A run of days, as a selector.
fn run_selector(run: Run) -> Selector
    requires { IsShort run }
    ensures { IsRange run.first run.last result }
{
    days_between(run.first, run.last)
}

// Runs of days, as selectors.
fn run_selectors(alloc: Global, runs: &[Run]) -> Result<Vec<Selector>, AllocError>
    requires { AreShort runs.now }
    ensures { IfOk result (λ days. AreRangesOf runs.now days.items) }
{
    let mut days = Vec::new(alloc);
    let mut rest = runs;
    while let Some((run, more)) = rest.split_first() {
        days.push(run_selector(*run))?;
        rest = more;
    }
    Ok(days)
}

// The days of a group in the years, as a selector.
fn group_selector(years: KnownYears, group: Group) -> Selector
    ensures { IsYearlyOf years group result }
{
    match YearlyDays::new(years.first, years.last, group.month, group.day, group.days) {
        Some(days) => Selector::Yearly(days),
        None => unreachable!(),
    }
}

// The days of groups in the years, as selectors.
fn group_selectors(
    alloc: Global,
    years: KnownYears,
    groups: &[Group],
) -> Result<Vec<Selector>, AllocError>
    ensures { IfOk result (λ days. AreYearlyOf years groups.now days.items) }
{
    let mut days = Vec::new(alloc);
    let mut rest = groups;
    while let Some((group, more)) = rest.split_first() {
        days.push(group_selector(years, *group))?;
        rest = more;
    }
    Ok(days)
}

// Groups in the years and runs of days, as selectors.
fn written_selectors(
    alloc: Global,
    years: KnownYears,
    found: &Grouping,
) -> Result<Vec<Selector>, AllocError>
    requires { AreShort found.now.dated.items }
    ensures { IfOk result (λ days. AreWritten years found.now.yearly.items found.now.dated.items days.items) }
{
    let mut days = group_selectors(alloc, years, found.yearly.as_slice())?;
    let mut runs = run_selectors(alloc, found.dated.as_slice())?;
    days.append(&mut runs)?;
    Ok(days)
}

/// The days on which one of the holidays holds, as selectors: one for each group of days that come in each of the years, if
/// that takes fewer basic domains, and a range of dates for each other run of consecutive days. The answer is `Uncovered`
/// exactly if the table does not say all holidays of the years for some of them, `NoMemory` only if memory was refused.
pub fn listed_selectors(
    alloc: Global,
    holidays: &Holidays,
    years: KnownYears,
    listed: &[Listed],
) -> Result<Vec<Selector>, ListedFault>
    ensures days { IfOk result (λ days. AreDaysOf holidays.now years listed.now days.items) }
    ensures fault { IfErr result (IsDaysFault holidays.now years listed.now) }
{
    let found = listed_grouping(alloc, holidays, years, listed)?;
    let days = written_selectors(alloc, years, &found)?;
    Ok(days)
}
