//! Rules as plain hours.

ghost use Rattle.std.specs.Prelude.{◌≡◌, ℕ, ℤ, IfErr, IfOk, OnOk, Option};
ghost use Rattle.gtd_hours2.specs.Opening.{Clocks};
ghost use Rattle.gtd_hours2.specs.Rules.{says};
ghost use Rattle.gtd_hours2.specs.Stored.{rule_of};
ghost use Rattle.gtd_hours_plain2.specs.Clocks.{clocks_of};
ghost use Rattle.gtd_hours_plain2.specs.Lowered.{AreLowered, HasKinds, IsLowered, IsWithRule, given_of, link_of, modifier_of};
ghost use Rattle.gtd_hours2.specs.declared.values.HolidayKind.{HolidayKind};
ghost use Rattle.gtd_hours_plain2.specs.Plain.{AreGiven, IsPlain, IsPlainError};
ghost use Rattle.gtd_hours_plain2.specs.Times.{AreAllOfDay, AreOfDay};

use crate::given::{GivenDays, GivenTimes};
use crate::lasting::{LongPart, first_long};
use crate::need::HoursNeed;
use crate::needs::first_need;
use crate::times::plain_times;
use gtd_hours::{Hours, Kind, Link, Modifier, Rule};
use gtd_hours2::{RuleLink, RuleRef, RuleWord, Rules};
use std::alloc::{AllocError, Global};

/// Why rules have no plain hours.
#[derive(Clone, Copy, Debug, PartialEq, Eq)]
pub enum PlainError {
    /// Memory was refused.
    NoMemory,
    /// What they need first.
    Need(HoursNeed),
    /// They need nothing, and this part is the first that lasts longer than 24 hours.
    TooLong(LongPart),
}

/// What makes plain selectors of the days of rules, with what it knows of holidays and years.
pub trait RuleDays {
    /// The days that it knows to be holidays.
    ghost holiday: { Self → HolidayKind → ℤ → Type 0 };

    /// The years in which it knows holidays and Easter.
    ghost years: { Self → Option (ℕ × ℕ) };

    /// The kinds of selectors that match on the days of a rule. An error only if memory was refused.
    fn kinds(&self, alloc: Global, rule: RuleRef<'_>) -> Result<Vec<Kind>, AllocError>
        ensures kinds { IfOk result (λ kinds. (clocks : Clocks)
            → HasKinds (given_of (holiday self.now) (years self.now) clocks) (rule_of rule.entry) kinds.items) };
}

fn link_of(link: RuleLink) -> Link
    ensures { result ≡ link_of link }
{
    match link {
        RuleLink::Instead => Link::Instead,
        RuleLink::Also => Link::Also,
        RuleLink::Fallback => Link::Fallback,
    }
}

// What a rule says of its spans, if it says something.
fn modifier_of(word: RuleWord) -> Option<Modifier>
    ensures { result ≡ modifier_of word }
{
    match word {
        RuleWord::Open => Some(Modifier::Open),
        RuleWord::Off => Some(Modifier::Closed),
        RuleWord::Unknown => None,
    }
}

fn plain_rule<D: RuleDays>(
    alloc: Global,
    rule: RuleRef<'_>,
    modifier: Modifier,
    days: &D,
    times: &GivenTimes,
) -> Result<Rule, AllocError>
    requires { AreOfDay (clocks_of times.now) rule.parts.now }
    ensures { IfOk result (IsLowered (given_of (D.holiday days.now) (D.years days.now) (clocks_of times.now))
        (rule_of rule.entry) modifier) }
{
    let kinds = days.kinds(alloc, rule)?;
    let ranges = plain_times(alloc, rule.parts, times)?;
    Ok(Rule {
        link: link_of(rule.head.link),
        kinds,
        times: ranges,
        modifier,
    })
}

// Adds what a rule leaves.
fn push_rule<D: RuleDays>(
    made: &mut Vec<Rule>,
    alloc: Global,
    rule: RuleRef<'_>,
    days: &D,
    times: &GivenTimes,
) -> Result<(), AllocError>
    requires { AreOfDay (clocks_of times.now) rule.parts.now }
    ensures { OnOk result (IsWithRule (given_of (D.holiday days.now) (D.years days.now) (clocks_of times.now))
        (modifier_of (says (rule_of rule.entry))) (rule_of rule.entry) made.old.items made.new.items) }
{
    match modifier_of(rule.says()) {
        None => Ok(()),
        Some(modifier) => {
            let plain = plain_rule(alloc, rule, modifier, days, times)?;
            made.push(plain)?;
            Ok(())
        }
    }
}

// The plain rules of rules whose times are of a day.
fn plain_rules<D: RuleDays>(
    alloc: Global,
    rules: &Rules,
    days: &D,
    times: &GivenTimes,
) -> Result<Vec<Rule>, AllocError>
    requires { AreAllOfDay (clocks_of times.now) rules.now }
    ensures { IfOk result (λ made. AreLowered (given_of (D.holiday days.now) (D.years days.now) (clocks_of times.now))
        rules.now made.items) }
{
    let mut made = Vec::new(alloc);
    let mut rest = rules.left();
    while let Some((rule, more)) = rest.split_first() {
        push_rule(&mut made, alloc, rule, days, times)?;
        rest = more;
    }
    Ok(made)
}

// Whether rules need nothing, and nothing lasts too long.
fn check_given(rules: &Rules, flags: GivenDays, times: &GivenTimes) -> Result<(), PlainError>
    ensures given { OnOk result (AreGiven flags times.now rules.now) }
    ensures error { IfErr result (IsPlainError flags times.now rules.now) }
{
    match first_need(rules, flags, times) {
        Err(_) => return Err(PlainError::NoMemory),
        Ok(need) => {
            if let Some(need) = need {
                return Err(PlainError::Need(need));
            }
        }
    }
    match first_long(rules, times) {
        Err(_) => Err(PlainError::NoMemory),
        Ok(long) => match long {
            None => Ok(()),
            Some(long) => Err(PlainError::TooLong(long)),
        },
    }
}

/// The plain hours that are open at the seconds at which the rules are, with what is known of days and given of times.
/// Rules that are unknown leave nothing, each other rule a plain rule.
///
/// Errors: what the rules need first; the first time that lasts too long. `NoMemory` only if memory was refused.
pub fn plain_of<D: RuleDays>(
    alloc: Global,
    rules: &Rules,
    days: &D,
    flags: GivenDays,
    times: &GivenTimes,
) -> Result<Hours, PlainError>
    ensures plain { IfOk result
        (IsPlain (given_of (D.holiday days.now) (D.years days.now) (clocks_of times.now)) rules.now) }
    ensures given { IfOk result (λ hours. AreGiven flags times.now rules.now) }
    ensures error { IfErr result (IsPlainError flags times.now rules.now) }
{
    check_given(rules, flags, times)?;
    match plain_rules(alloc, rules, days, times) {
        Err(_) => Err(PlainError::NoMemory),
        Ok(made) => Ok(Hours { rules: made }),
    }
}
