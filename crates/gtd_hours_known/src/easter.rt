//! The hours of a rule's own text with its other month days, ranges that move and Easter, and with years that end.

ghost use Rattle.std.specs.Prelude.{◌≡◌, [], IfErr, IfOk, None, Some};
ghost use Rattle.gtd_hours_dated.specs.Dated.{IsDatedHours, more_of};
ghost use Rattle.gtd_hours_loose.specs.Reading.{IsStrict};
ghost use Rattle.gtd_hours_known.specs.Easter.{AreEasterDays, IsOwnHours, listed_of, month_days};
ghost use Rattle.gtd_hours_known.specs.Given.{rule_lacks};
ghost use Rattle.gtd_hours_known.specs.HolidayDays.{AreDaysIn};
ghost use Rattle.gtd_hours_known.specs.declared.rules.RulesStop.TheVariants as stop;

use crate::known::Known;
use crate::rules::RulesStop;
use crate::selectors::listed_selectors;
use crate::until::hours_until;
use gtd_hours::{Hours, Selector};
use gtd_hours_dated::{MoreDays, read_dated_hours};
use gtd_hours_days::{EasterDays, Listed, ListedFault};
use gtd_hours_holiday_rules::HolidayRule;
use gtd_hours_holidays::{Holidays, KnownYears};
use gtd_hours_text::{HoursTextFault, read_hours};
use std::alloc::{AllocError, Global};

// Days of Easter as selectors that are listed.
fn listed_of(alloc: Global, easter: &[EasterDays]) -> Result<Vec<Listed>, AllocError>
    ensures { IfOk result (λ listed. listed.items ≡ listed_of easter.now) }
{
    let mut listed = Vec::new(alloc);
    let mut rest = easter;
    while let Some((one, more)) = rest.split_first() {
        listed.push(Listed::Easter(*one))?;
        rest = more;
    }
    Ok(listed)
}

// Their days in the years, of which a table says nothing.
fn days_in(
    alloc: Global,
    years: KnownYears,
    easter: &[EasterDays],
) -> Result<Vec<Selector>, RulesStop>
    ensures days { IfOk result (λ days. AreDaysIn [] years (listed_of easter.now) days.items) }
    ensures stop { IfErr result (λ why. why ≡ stop.NoMemory) }
{
    let listed = listed_of(alloc, easter)?;
    let table = Holidays::none(alloc);
    match listed_selectors(alloc, &table, years, listed.as_slice()) {
        Ok(days) => Ok(days),
        Err(why) => match why {
            ListedFault::Uncovered(_) => unreachable!(),
            ListedFault::NoMemory => Err(RulesStop::NoMemory),
        },
    }
}

// The days of Easter of a rule, for which the years are given.
fn easter_days(alloc: Global, from: &HolidayRule, known: &Known) -> Result<Vec<Selector>, RulesStop>
    requires { rule_lacks known.now from.now ≡ None }
    ensures days { IfOk result (λ days. AreEasterDays known.now from.now.easter.items days.items) }
    ensures stop { IfErr result (λ why. why ≡ stop.NoMemory) }
{
    if from.easter.is_empty() {
        return Ok(Vec::new(alloc));
    }
    match known.years {
        None => unreachable!(),
        Some(years) => days_in(alloc, years, from.easter.as_slice()),
    }
}

// The other month days of a rule, of which these are the days of Easter.
fn more_days(
    alloc: Global,
    from: &HolidayRule,
    easter: Vec<Selector>,
) -> Result<MoreDays, AllocError>
    ensures { IfOk result (λ more. more_of more
        ≡ record { order = from.now.month_items.items; dates = from.now.dates.items; easter = easter.items }) }
{
    let order = Vec::from_slice(alloc, from.month_items.as_slice())?;
    let dates = Vec::from_slice(alloc, from.dates.as_slice())?;
    Ok(MoreDays {
        order,
        dates,
        easter,
    })
}

// The hours that a text of plain hours stands for.
fn plain_hours(alloc: Global, text: &[u8]) -> Result<Hours, RulesStop>
    requires { IsStrict text.now }
    ensures hours { IfOk result (λ hours. IsDatedHours text.now None hours) }
    ensures stop { IfErr result (λ why. why ≡ stop.NoMemory) }
{
    match read_hours(alloc, text) {
        Ok(hours) => Ok(hours),
        Err(why) => match why {
            HoursTextFault::NoMemory => Err(RulesStop::NoMemory),
            HoursTextFault::Fault(_) => unreachable!(),
        },
    }
}

// The hours that it stands for with more month days.
fn dated_hours(alloc: Global, text: &[u8], more: &MoreDays) -> Result<Hours, RulesStop>
    requires { IsStrict text.now }
    ensures hours { IfOk result (λ hours. IsDatedHours text.now (Some (more_of more.now)) hours) }
    ensures stop { IfErr result (λ why. why ≡ stop.NoMemory) }
{
    match read_dated_hours(alloc, text, more) {
        Ok(hours) => Ok(hours),
        Err(why) => match why {
            HoursTextFault::NoMemory => Err(RulesStop::NoMemory),
            HoursTextFault::Fault(_) => unreachable!(),
        },
    }
}

// The hours that the own text of a rule stands for, with its other month days, of which these are the days of Easter.
fn hours_with(alloc: Global, from: &HolidayRule, easter: Vec<Selector>) -> Result<Hours, RulesStop>
    requires { IsStrict from.now.text.items }
    ensures hours { IfOk result (λ hours. IsDatedHours from.now.text.items (month_days from.now easter.items) hours) }
    ensures stop { IfErr result (λ why. why ≡ stop.NoMemory) }
{
    if from.dates.is_empty() && from.easter.is_empty() {
        return plain_hours(alloc, from.text.as_slice());
    }
    let more = more_days(alloc, from, easter)?;
    dated_hours(alloc, from.text.as_slice(), &more)
}

/// The hours that the own text of a rule stands for, with its other month days, and where its years end with the known ones.
pub(crate) fn own_hours(
    alloc: Global,
    from: &HolidayRule,
    known: &Known,
) -> Result<Hours, RulesStop>
    requires strict { IsStrict from.now.text.items }
    requires given { rule_lacks known.now from.now ≡ None }
    ensures hours { IfOk result (IsOwnHours known.now from.now) }
    ensures stop { IfErr result (λ why. why ≡ stop.NoMemory) }
{
    let easter = easter_days(alloc, from, known)?;
    let dated = hours_with(alloc, from, easter)?;
    let hours = hours_until(alloc, from, known, dated)?;
    Ok(hours)
}
