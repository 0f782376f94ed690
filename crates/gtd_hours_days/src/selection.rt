//! The days of selectors, as a set, and as they are written.

ghost use Rattle.std.specs.Prelude.{◌≡◌, ◌↔◌, ◌+ℤ◌, ℤ, pos, IfOk};
ghost use Rattle.gtd_calendar.specs.Calendar.{IsCalendarDay, first_day};
ghost use Rattle.gtd_hours_holidays.specs.Days.{IsIn};
ghost use Rattle.gtd_hours_days.specs.Listed.{SomeListed};
ghost use Rattle.gtd_hours_days.specs.Selections.{AreGrouped, AreSelected};

use crate::additions::add_listed;
use crate::coverage::{Uncovered, first_uncovered};
use crate::grouping::{Grouping, grouping_of};
use crate::listed::Listed;
use crate::repeats::Latest;
use gtd_hours_holidays::{Days, HolidayRow, Holidays, KnownYears};
use std::alloc::{AllocError, Global};

/// Why selectors have no days.
#[derive(Clone, Copy, Debug, PartialEq, Eq)]
pub enum ListedFault {
    /// The table of holidays does not say all that a selector needs.
    Uncovered(Uncovered),
    /// Memory was refused.
    NoMemory,
}

impl From<AllocError> for ListedFault {
    ghost use Rattle.std.specs.Prelude.{◌≡◌};
    ghost use Rattle.gtd_hours_days.specs.declared.selection.ListedFault.TheVariants.{NoMemory};

    ghost from_gives = { λ _ why. why ≡ NoMemory };

    fn from(_: AllocError) -> ListedFault {
        ListedFault::NoMemory
    }
}

// The first day of a set that holds the days of selectors: 366 days before the years.
fn begin_of(years: KnownYears) -> i64
    ensures before { (result +ℤ pos 366) ≡ first_day (pos years.first) }
    ensures near { IsCalendarDay result }
{
    years.first_day() - 366
}

// The days of selectors, of which the table says all.
fn marked(
    alloc: Global,
    rows: &[HolidayRow],
    years: KnownYears,
    listed: &[Listed],
) -> Result<Days, AllocError>
    ensures { IfOk result (λ days. (n : ℤ) → IsIn days n ↔ SomeListed rows.now years listed.now n) }
{
    let mut days = Days::new(alloc, begin_of(years));
    let mut latest = Latest::new();
    for place in 0..listed.len() {
        if latest.is_repeated(listed, place) {
            continue;
        }
        add_listed(&mut days, rows, years, listed[place])?;
    }
    Ok(days)
}

/// The days on which one of the selectors holds. The answer is `Uncovered` exactly if the table does not say all holidays of the
/// years for some selector, `NoMemory` only if memory was refused.
pub fn listed_days(
    alloc: Global,
    holidays: &Holidays,
    years: KnownYears,
    listed: &[Listed],
) -> Result<Days, ListedFault>
    ensures selected { AreSelected holidays.now years listed.now result }
{
    if let Some(uncovered) = first_uncovered(holidays, years, listed) {
        return Err(ListedFault::Uncovered(uncovered));
    }
    let days = marked(alloc, holidays.merged(), years, listed)?;
    Ok(days)
}

/// The days on which one of the selectors holds, as they are written: groups that come in each of the years, and runs with
/// their years. The answer is `Uncovered` exactly if the table does not say all holidays of the years for some selector,
/// `NoMemory` only if memory was refused.
pub fn listed_grouping(
    alloc: Global,
    holidays: &Holidays,
    years: KnownYears,
    listed: &[Listed],
) -> Result<Grouping, ListedFault>
    ensures grouped { AreGrouped holidays.now years listed.now result }
{
    let days = listed_days(alloc, holidays, years, listed)?;
    let found = grouping_of(alloc, &days, years)?;
    Ok(found)
}
