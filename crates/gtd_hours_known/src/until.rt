//! Hours whose years without a last one, of which there are more than a domain holds, end with the last of the known years.

ghost use Rattle.std.specs.Prelude.{◌≡◌, ◌++◌, IfErr, IfOk, OnOk, drop};
ghost use Rattle.gtd_hours.specs.Writable.{selectors};
ghost use Rattle.gtd_hours_known.specs.Given.{rule_lacks};
ghost use Rattle.gtd_hours_known.specs.Until.{AreHoursUntil, AreRulesUntil, IsRuleUntil, all_until, first_mark, selector_until};
ghost use Rattle.gtd_hours_known.specs.Until.{kinds_until, until, up_to, years_until};
ghost use Rattle.gtd_hours_known.specs.declared.rules.RulesStop.TheVariants as stop;

use crate::known::Known;
use crate::rules::RulesStop;
use gtd_hours::{Hours, Kind, Rule, Selector, Years};
use gtd_hours_holiday_rules::HolidayRule;
use gtd_hours_holidays::KnownYears;
use std::alloc::{AllocError, Global};

// The same years up to the last of the known ones.
fn up_to(known: KnownYears, years: Years) -> Years
    ensures { result ≡ up_to known years }
{
    Years {
        first: years.first,
        last: years.first.max(known.last),
        step: years.step,
    }
}

// Nothing is put of years that begin after the known ones.
fn push_years(list: &mut Vec<Selector>, known: KnownYears, years: Years) -> Result<(), AllocError>
    ensures { OnOk result (list.new.items ≡ list.old.items ++ years_until known years) }
{
    if years.first <= known.last {
        list.push(Selector::Years(up_to(known, years)))?;
    }
    Ok(())
}

fn push_selector(
    list: &mut Vec<Selector>,
    known: KnownYears,
    selector: Selector,
) -> Result<(), AllocError>
    ensures { OnOk result (list.new.items ≡ list.old.items ++ selector_until known selector) }
{
    match selector {
        Selector::Years(years) => push_years(list, known, years),
        _ => {
            list.push(selector)?;
            Ok(())
        }
    }
}

// A selector with a mark or without.
fn push_until(
    list: &mut Vec<Selector>,
    known: KnownYears,
    mark: bool,
    selector: Selector,
) -> Result<(), AllocError>
    ensures { OnOk result (list.new.items ≡ list.old.items ++ until known mark selector) }
{
    if mark {
        return push_selector(list, known, selector);
    }
    list.push(selector)?;
    Ok(())
}

/// The first of some marks, and those behind it. Where there is none, nothing is marked.
pub fn split_mark(marks: &[bool]) -> (bool, &[bool])
    ensures mark { result.0 ≡ first_mark marks.now }
    ensures later { result.1.now ≡ drop 1 marks.now }
{
    match marks.split_first() {
        None => (false, marks),
        Some((mark, later)) => (*mark, later),
    }
}

// The selectors of a kind, with these marks.
fn all_until(
    alloc: Global,
    known: KnownYears,
    marks: &[bool],
    selectors: &[Selector],
) -> Result<Vec<Selector>, AllocError>
    ensures { IfOk result (λ made. made.items ≡ all_until known marks.now selectors.now) }
{
    let mut made = Vec::new(alloc);
    let mut left = marks;
    let mut rest = selectors;
    while let Some((selector, more)) = rest.split_first() {
        let (mark, later) = split_mark(left);
        push_until(&mut made, known, mark, *selector)?;
        left = later;
        rest = more;
    }
    Ok(made)
}

// The kinds of a rule, of which the first has these marks.
fn kinds_until(
    alloc: Global,
    known: KnownYears,
    marks: &[bool],
    kinds: Vec<Kind>,
) -> Result<Vec<Kind>, AllocError>
    ensures { IfOk result (λ then. selectors then.items ≡ kinds_until known marks.now (selectors kinds.items)) }
{
    let mut list = kinds;
    match list.first() {
        None => Ok(list),
        Some(first) => {
            let selectors = all_until(alloc, known, marks, first.selectors.as_slice())?;
            list[0] = Kind { selectors };
            Ok(list)
        }
    }
}

fn rule_until(
    alloc: Global,
    known: KnownYears,
    marks: &[bool],
    rule: Rule,
) -> Result<Rule, AllocError>
    ensures { IfOk result (IsRuleUntil known marks.now rule) }
{
    let kinds = kinds_until(alloc, known, marks, rule.kinds)?;
    Ok(Rule {
        link: rule.link,
        kinds,
        times: rule.times,
        modifier: rule.modifier,
    })
}

fn rules_until(
    alloc: Global,
    known: KnownYears,
    marks: &[bool],
    rules: Vec<Rule>,
) -> Result<Vec<Rule>, AllocError>
    ensures { IfOk result (λ made. AreRulesUntil known marks.now rules.items made.items) }
{
    let mut made = Vec::new(alloc);
    for rule in rules {
        let until = rule_until(alloc, known, marks, rule)?;
        made.push(until)?;
    }
    Ok(made)
}

/// The hours of a rule for which the years are given, where its years without a last one end with these.
pub(crate) fn hours_until(
    alloc: Global,
    from: &HolidayRule,
    known: &Known,
    plain: Hours,
) -> Result<Hours, RulesStop>
    requires { rule_lacks known.now from.now ≡ None }
    ensures hours { IfOk result (AreHoursUntil known.now.years from.now.every_place from.now.every.items plain) }
    ensures stop { IfErr result (λ why. why ≡ stop.NoMemory) }
{
    match from.every_place {
        None => Ok(plain),
        Some(_) => match known.years {
            None => unreachable!(),
            Some(years) => {
                let rules = rules_until(alloc, years, from.every.as_slice(), plain.rules)?;
                Ok(Hours { rules })
            }
        },
    }
}
