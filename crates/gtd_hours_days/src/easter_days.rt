//! The days of Easter, added to a set.

ghost use Rattle.std.specs.Prelude.{◌≡◌, ◌↔◌, ◌⊎◌, ◌≤◌, ◌-ℤ◌, ℤ, OnOk};
ghost use Rattle.gtd_hours_holidays.specs.Days.{IsIn};
ghost use Rattle.gtd_hours_holidays.specs.KnownYears.{IsOfYears};
ghost use Rattle.gtd_hours_days.specs.Beginning.{IsBegun};
ghost use Rattle.gtd_hours_days.specs.EasterRanges.{IsInRange, IsInRangeOf, last_year};
ghost use Rattle.gtd_hours_days.specs.Listed.{IsEasterSunday, IsOfEaster};

use crate::additions::{add_day, add_part};
use crate::easter_range::EasterRange;
use crate::listed::EasterDays;
use crate::offset::Offset;
use crate::yearly_days::{after_easter, day_in};
use gtd_hours_holidays::laws::easter_is_a_sunday;
use gtd_hours_holidays::{Days, KnownYears};
use std::alloc::AllocError;

// Adds the days of the years that come so many days after Easter Sunday of some year.
fn add_easter(days: &mut Days, years: KnownYears, offset: Offset) -> Result<(), AllocError>
    requires { IsBegun days.old.first years }
    ensures begins { days.new.first ≡ days.old.first }
    ensures added { OnOk result ((n : ℤ) → IsIn days.new n ↔ (IsIn days.old n
        ⊎ (IsOfYears years.first years.last n × IsEasterSunday (n -ℤ offset.days)))) }
{
    easter_is_a_sunday();
    for year in years.first - 2..years.last + 3 {
        add_day(days, years, after_easter(year, offset))?;
    }
    Ok(())
}

// The year of the last day of a range that begins in a year.
fn last_year(is_over: bool, year: u16) -> u16
    requires { year ≤ 2798 }
    ensures { result ≡ last_year is_over year }
{
    if is_over { year + 1 } else { year }
}

// Adds the days of the years that are in the range that begins in a year.
fn add_range_of(
    days: &mut Days,
    years: KnownYears,
    range: EasterRange,
    year: u16,
) -> Result<(), AllocError>
    requires begun { IsBegun days.old.first years }
    requires near { (1800 ≤ year) × (year ≤ 2798) }
    ensures begins { days.new.first ≡ days.old.first }
    ensures added { OnOk result ((n : ℤ) → IsIn days.new n ↔ (IsIn days.old n
        ⊎ (IsOfYears years.first years.last n × IsInRangeOf range.is_over range.first range.last year n))) }
{
    let first = day_in(range.first, year);
    let last = day_in(range.last, last_year(range.is_over, year));
    add_part(days, years, Offset { days: 0 }, first, last)?;
    Ok(())
}

// Adds the days of the years that are in the range of some year.
fn add_range(days: &mut Days, years: KnownYears, range: EasterRange) -> Result<(), AllocError>
    requires { IsBegun days.old.first years }
    ensures begins { days.new.first ≡ days.old.first }
    ensures added { OnOk result ((n : ℤ) → IsIn days.new n ↔ (IsIn days.old n
        ⊎ (IsOfYears years.first years.last n × IsInRange range.is_over range.first range.last n))) }
{
    easter_is_a_sunday();
    for year in years.first - 2..years.last + 2 {
        add_range_of(days, years, range, year)?;
    }
    Ok(())
}

/// Adds the days of the years that are days of Easter.
pub(crate) fn add_easter_days(
    days: &mut Days,
    years: KnownYears,
    easter: EasterDays,
) -> Result<(), AllocError>
    requires { IsBegun days.old.first years }
    ensures begins { days.new.first ≡ days.old.first }
    ensures added { OnOk result ((n : ℤ) → IsIn days.new n ↔ (IsIn days.old n
        ⊎ (IsOfYears years.first years.last n × IsOfEaster easter n))) }
{
    match easter {
        EasterDays::Day { offset } => add_easter(days, years, offset),
        EasterDays::Range(range) => add_range(days, years, range),
    }
}
