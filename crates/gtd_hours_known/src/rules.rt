//! The rules of a text, as rules of hours.

ghost use Rattle.std.specs.Prelude.{◌≡◌, IfErr, IfOk, List, None, get_or, is_some};
ghost use Rattle.gtd_hours_loose.specs.Reading.{IsStrict};
ghost use Rattle.gtd_hours_days.specs.declared.listed.Listed.{Listed};
ghost use Rattle.gtd_hours_holidays.specs.declared.holidays.Holidays.{Holidays};
ghost use Rattle.gtd_hours_holidays.specs.declared.known_years.KnownYears.{KnownYears};
ghost use Rattle.gtd_hours_known.specs.HolidayDays.{AreDaysOf, IsDaysFault};
ghost use Rattle.gtd_hours_known.specs.Given.{AreAllGiven, none_given, rule_lacks};
ghost use Rattle.gtd_hours_known.specs.Rules.{AreAllStrict, AreGivenDays, AreHolidayRules, AreSpoken, AreWithHolidays};
ghost use Rattle.gtd_hours_known.specs.Rules.{HasHolidays, IsDaysStop, IsHolidayRule, IsRuleStop, IsRulesStop, IsStopAt};

use crate::easter::own_hours;
use crate::joining::with_days;
use crate::known::Known;
use crate::selectors::listed_selectors;
use gtd_hours::{Hours, Rule, Selector};
use gtd_hours_days::ListedFault;
use gtd_hours_holiday_rules::HolidayRule;
use gtd_hours_holidays::{Holidays, KnownYears};
use std::alloc::{AllocError, Global};

/// Why rules with holidays have no hours.
#[derive(Clone, Copy)]
pub(crate) enum RulesStop {
    /// The table does not say all holidays of some kind in the years.
    Uncovered {
        /// The number of bytes before the holiday.
        place: usize,
        /// The first day on which it does not.
        day: i64,
    },
    /// Memory was refused.
    NoMemory,
}

impl From<AllocError> for RulesStop {
    ghost use Rattle.std.specs.Prelude.{◌≡◌};
    ghost use Rattle.gtd_hours_known.specs.declared.rules.RulesStop.TheVariants.{NoMemory};

    ghost from_gives = { λ _ why. why ≡ NoMemory };

    fn from(_: AllocError) -> RulesStop {
        RulesStop::NoMemory
    }
}

// A rule with the link and the holidays of a rule of the text.
fn rule_with(
    alloc: Global,
    from: &HolidayRule,
    plain: Rule,
    days: &[Selector],
) -> Result<Rule, AllocError>
    ensures { IfOk result (HasHolidays from.now days.now plain) }
{
    if from.holidays.is_empty() {
        return Ok(Rule {
            link: from.link,
            ..plain
        });
    }
    with_days(alloc, plain, from, days)
}

// Rules with the link and the holidays of a rule of the text.
fn rules_with(
    alloc: Global,
    from: &HolidayRule,
    plain: Vec<Rule>,
    days: &[Selector],
) -> Result<Vec<Rule>, AllocError>
    ensures { IfOk result (λ made. AreWithHolidays from.now days.now plain.items made.items) }
{
    let mut made = Vec::new(alloc);
    for rule in plain {
        let with = rule_with(alloc, from, rule, days)?;
        made.push(with)?;
    }
    Ok(made)
}

// The place of a holiday of a rule.
fn place_at(places: &[usize], at: usize) -> usize
    ensures { result ≡ get_or places.now at 0 }
{
    match places.get(at) {
        Some(place) => *place,
        None => 0,
    }
}

// Why the holidays of a rule, at these places, have no days.
fn stop_at(why: ListedFault, places: &[usize]) -> RulesStop
    requires { (table : Holidays) × (years : KnownYears) × (listed : List Listed) × IsDaysFault table years listed why }
    ensures { IsStopAt why places.now result }
{
    match why {
        ListedFault::Uncovered(found) => RulesStop::Uncovered {
            place: place_at(places, found.place),
            day: found.day,
        },
        ListedFault::NoMemory => RulesStop::NoMemory,
    }
}

// The days of the holidays of a rule, with a table and years.
fn days_with(
    alloc: Global,
    from: &HolidayRule,
    table: &Holidays,
    years: KnownYears,
) -> Result<Vec<Selector>, RulesStop>
    ensures days { IfOk result (λ days. AreDaysOf table.now years from.now.holidays.items days.items) }
    ensures stop { IfErr result (IsDaysStop table.now years from.now) }
{
    match listed_selectors(alloc, table, years, from.holidays.as_slice()) {
        Ok(days) => Ok(days),
        Err(why) => Err(stop_at(why, from.places.as_slice())),
    }
}

// The days of the holidays of a rule, for which all is given.
fn holiday_days(
    alloc: Global,
    from: &HolidayRule,
    known: &Known,
) -> Result<Vec<Selector>, RulesStop>
    requires { none_given known.now from.now.holidays.items from.now.places.items ≡ None }
    ensures days { IfOk result (λ days. AreGivenDays known.now from.now.holidays.items days.items) }
    ensures stop { IfErr result (IsRuleStop known.now from.now) }
{
    if from.holidays.is_empty() {
        return Ok(Vec::new(alloc));
    }
    match &known.holidays {
        None => unreachable!(),
        Some(table) => match known.years {
            None => unreachable!(),
            Some(years) => days_with(alloc, from, table, years),
        },
    }
}

// The rules with the link and the holidays of a rule of the text, if it says something.
fn spoken(
    alloc: Global,
    from: &HolidayRule,
    plain: Vec<Rule>,
    days: &[Selector],
) -> Result<Vec<Rule>, AllocError>
    ensures { IfOk result
        (λ made. AreSpoken (is_some from.now.unknown) from.now days.now plain.items made.items) }
{
    if from.unknown.is_some() {
        return Ok(Vec::new(alloc));
    }
    rules_with(alloc, from, plain, days)
}

// The rules of hours that a rule of the text stands for.
fn rules_of(alloc: Global, from: &HolidayRule, known: &Known) -> Result<Vec<Rule>, RulesStop>
    requires strict { IsStrict from.now.text.items }
    requires given { rule_lacks known.now from.now ≡ None }
    ensures rules { IfOk result (λ made. IsHolidayRule known.now from.now made.items) }
    ensures stop { IfErr result (IsRuleStop known.now from.now) }
{
    let plain = own_hours(alloc, from, known)?;
    let days = holiday_days(alloc, from, known)?;
    let made = spoken(alloc, from, plain.rules, days.as_slice())?;
    Ok(made)
}

/// The hours that the rules of a text stand for, with the holidays that the table has in the years.
pub(crate) fn hours_of_rules(
    alloc: Global,
    rules: &[HolidayRule],
    known: &Known,
) -> Result<Hours, RulesStop>
    requires strict { AreAllStrict rules.now }
    requires given { AreAllGiven known.now rules.now }
    ensures rules { IfOk result (λ hours. AreHolidayRules known.now rules.now hours.rules.items) }
    ensures stop { IfErr result (IsRulesStop known.now rules.now) }
{
    let mut made = Vec::new(alloc);
    let mut rest = rules;
    while let Some((rule, more)) = rest.split_first() {
        let mut own = rules_of(alloc, rule, known)?;
        made.append(&mut own)?;
        rest = more;
    }
    Ok(Hours { rules: made })
}
