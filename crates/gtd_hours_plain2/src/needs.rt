//! What rules need and is not given.

ghost use Rattle.std.specs.Prelude.{◌≡◌, ◌+◌, ◌<◌, ◌^◌, IfOk, length};
ghost use Rattle.gtd_hours2.specs.Days.{is_easter};
ghost use Rattle.gtd_hours2.specs.Opening.{are_many};
ghost use Rattle.gtd_hours2.specs.Rules.{says};
ghost use Rattle.gtd_hours2.specs.Stored.{rule_of};
ghost use Rattle.gtd_hours_plain2.specs.Needs.{are_endless, begin_need, end_need, event_need, falls_back, first_need, has_table};
ghost use Rattle.gtd_hours_plain2.specs.Needs.{holidays_need, is_fallback, is_unknown, is_within, part_need, parts_need, point_need};
ghost use Rattle.gtd_hours_plain2.specs.Needs.{rule_need, tail_need, time_need, unknown_need, unless, up_to_fallback};

use crate::clocks::{event_minutes, given_or};
use crate::given::{GivenDays, GivenTimes};
use crate::need::{HoursNeed, PartNeed};
use gtd_hours2::{
    HolidayKind, RuleLink, RulePart, RuleRef, RuleWord, Rules, RulesLeft, TimeOfDay, TimeTail,
    YearlyDay,
};
use std::alloc::AllocError;

fn unless(given: bool, need: PartNeed) -> Option<PartNeed>
    ensures { result ≡ unless given need }
{
    if given { None } else { Some(need) }
}

// ---- times

// Whether so many minutes after an event, or before it, are from 00:00 up to a minute.
fn is_within(most: u32, base: u16, minutes: u16, is_before: bool) -> bool
    ensures { result ≡ is_within most base minutes is_before }
{
    if is_before {
        minutes <= base && u32::from(base - minutes) <= most
    } else {
        u32::from(base) + u32::from(minutes) <= most
    }
}

fn event_need(
    base: Option<u16>,
    within: bool,
    missing: PartNeed,
    outside: PartNeed,
) -> Option<PartNeed>
    ensures { result ≡ event_need base within missing outside }
{
    match base {
        None => Some(missing),
        Some(_) => unless(within, outside),
    }
}

fn begin_need(times: &GivenTimes, first: TimeOfDay) -> Option<PartNeed>
    ensures { result ≡ begin_need times.now first }
{
    match first {
        TimeOfDay::Clock(minute) => unless(minute <= 1439, PartNeed::BeginOutside),
        TimeOfDay::Event {
            event,
            minutes,
            is_before,
        } => {
            let base = event_minutes(times, event);
            let within = is_within(1439, given_or(0, base), minutes, is_before);
            event_need(base, within, PartNeed::BeginEvent, PartNeed::BeginOutside)
        }
    }
}

fn end_need(times: &GivenTimes, last: Option<TimeOfDay>) -> Option<PartNeed>
    ensures { result ≡ end_need times.now last }
{
    match last {
        None => None,
        Some(last) => match last {
            TimeOfDay::Clock(_) => None,
            TimeOfDay::Event {
                event,
                minutes,
                is_before,
            } => {
                let base = event_minutes(times, event);
                let within = is_within(1440, given_or(0, base), minutes, is_before);
                event_need(base, within, PartNeed::EndEvent, PartNeed::EndOutside)
            }
        },
    }
}

// A single time is a point.
fn point_need(times: &GivenTimes, last: Option<TimeOfDay>, tail: TimeTail) -> Option<PartNeed>
    ensures { result ≡ point_need times.now last tail }
{
    match last {
        Some(_) => None,
        None => match tail {
            TimeTail::Plain => unless(times.points.is_some(), PartNeed::PointLength),
            TimeTail::Open => None,
            TimeTail::Every(_) => None,
        },
    }
}

fn tail_need(times: &GivenTimes, tail: TimeTail) -> Option<PartNeed>
    ensures { result ≡ tail_need times.now tail }
{
    match tail {
        TimeTail::Plain => None,
        TimeTail::Open => unless(times.open_end.is_some(), PartNeed::OpenEnd),
        TimeTail::Every(step) => {
            if step == 0 {
                Some(PartNeed::NoStep)
            } else {
                unless(times.points.is_some(), PartNeed::StepLength)
            }
        }
    }
}

fn time_need(
    times: &GivenTimes,
    first: TimeOfDay,
    last: Option<TimeOfDay>,
    tail: TimeTail,
) -> Option<PartNeed>
    ensures { result ≡ time_need times.now first last tail }
{
    if let Some(need) = point_need(times, last, tail) {
        return Some(need);
    }
    if let Some(need) = begin_need(times, first) {
        return Some(need);
    }
    if let Some(need) = end_need(times, last) {
        return Some(need);
    }
    tail_need(times, tail)
}

// ---- days

fn has_table(days: GivenDays, kind: HolidayKind) -> bool
    ensures { result ≡ has_table days kind }
{
    match kind {
        HolidayKind::Public => days.has_public,
        HolidayKind::School => days.has_school,
    }
}

// Whether there are more years up to 2799 than are written out.
fn are_many(first: u16, step: u16) -> bool
    ensures { result ≡ are_many first step }
{
    1 < step && u32::from(first) + 128 * u32::from(step) <= 2799
}

// Whether years go on to the last of the known years.
fn are_endless(first: u16, last: Option<u16>, step: u16) -> bool
    ensures { result ≡ are_endless first last step }
{
    match last {
        None => are_many(first, step),
        Some(_) => false,
    }
}

fn is_easter(day: YearlyDay) -> bool
    ensures { result ≡ is_easter day }
{
    match day {
        YearlyDay::Date { .. } => false,
        YearlyDay::NthWeekday { .. } => false,
        YearlyDay::Easter(_) => true,
    }
}

fn holidays_need(has_table: bool, has_years: bool) -> Option<PartNeed>
    ensures { result ≡ holidays_need has_table has_years }
{
    if has_table {
        unless(has_years, PartNeed::HolidayYears)
    } else {
        Some(PartNeed::Holidays)
    }
}

// ---- parts

fn part_need(days: GivenDays, times: &GivenTimes, part: RulePart) -> Option<PartNeed>
    ensures { result ≡ part_need days times.now part }
{
    match part {
        RulePart::Years { first, last, step } => unless(
            !are_endless(first, last, step) || days.has_years,
            PartNeed::LastYear,
        ),
        RulePart::Months { .. } => None,
        RulePart::Days { first, last } => unless(
            !(is_easter(first) || is_easter(last)) || days.has_years,
            PartNeed::EasterYears,
        ),
        RulePart::Dated { .. } => None,
        RulePart::Weeks { .. } => None,
        RulePart::Holidays { kind, .. } => holidays_need(has_table(days, kind), days.has_years),
        RulePart::Weekdays { .. } => None,
        RulePart::NthWeekday { .. } => None,
        RulePart::Time { first, last, tail } => time_need(times, first, last, tail),
    }
}

// What the first of some parts that needs something needs, after so many other parts.
fn parts_need(
    days: GivenDays,
    times: &GivenTimes,
    before: usize,
    parts: &[RulePart],
) -> Option<HoursNeed>
    requires { before + length parts.now < 2 ^ 64 }
    ensures { result ≡ parts_need days times.now before parts.now }
{
    let mut part = before;
    let mut rest = parts;
    while let Some((first, more)) = rest.split_first() {
        if let Some(need) = part_need(days, times, *first) {
            return Some(HoursNeed::Part { part, need });
        }
        part += 1;
        rest = more;
    }
    None
}

// ---- rules

pub(crate) fn is_unknown(word: RuleWord) -> bool
    ensures { result ≡ is_unknown word }
{
    match word {
        RuleWord::Open => false,
        RuleWord::Off => false,
        RuleWord::Unknown => true,
    }
}

fn is_fallback(link: RuleLink) -> bool
    ensures { result ≡ is_fallback link }
{
    match link {
        RuleLink::Instead => false,
        RuleLink::Also => false,
        RuleLink::Fallback => true,
    }
}

// Whether it is a fallback rule that is not unknown.
fn falls_back(rule: RuleRef<'_>) -> bool
    ensures { result ≡ falls_back (rule_of rule.entry) }
{
    is_fallback(rule.head.link) && !is_unknown(rule.says())
}

// So many more. There always are as many numbers; where there are not, memory counts as refused.
pub(crate) fn more_than(count: usize, more: usize) -> Result<usize, AllocError>
    ensures { IfOk result (λ x. x ≡ count + more) }
{
    if count > usize::MAX - more {
        return Err(AllocError);
    }
    Ok(count + more)
}

// How many rules there are up to the last fallback rule that is not unknown.
fn up_to_fallback(rules: RulesLeft<'_>) -> Result<usize, AllocError>
    ensures { IfOk result (λ x. x ≡ up_to_fallback rules.entry) }
{
    let mut last = 0;
    let mut passed = 0;
    let mut rest = rules;
    while let Some((rule, more)) = rest.split_first() {
        passed = more_than(passed, 1)?;
        if falls_back(rule) {
            last = passed;
        }
        rest = more;
    }
    Ok(last)
}

// What is wrong if the rule after so many others is unknown, whether another fallback rule says something later or not.
fn unknown_need(before: usize, rule: RuleRef<'_>, falls_later: bool) -> Option<HoursNeed>
    ensures { result ≡ unknown_need before (rule_of rule.entry) falls_later }
{
    if !is_unknown(rule.says()) || (is_fallback(rule.head.link) && !falls_later) {
        None
    } else {
        Some(HoursNeed::Unknown { rule: before })
    }
}

// How many rules and parts were passed.
#[derive(Clone, Copy)]
struct Passed {
    rules: usize,
    parts: usize,
}

impl Passed {
    ghost use Rattle.std.specs.Prelude.{◌≡◌, ◌+◌, IfOk, length};

    // With another rule.
    fn with(self, parts: &[RulePart]) -> Result<Passed, AllocError>
        ensures rules { IfOk result (λ x. x.rules ≡ self.rules + 1) }
        ensures parts { IfOk result (λ x. x.parts ≡ self.parts + length parts.now) }
    {
        let rules = more_than(self.rules, 1)?;
        let parts = more_than(self.parts, parts.len())?;
        Ok(Passed { rules, parts })
    }
}

// What a rule needs, whether another fallback rule says something later or not.
fn rule_need(
    days: GivenDays,
    times: &GivenTimes,
    passed: Passed,
    rule: RuleRef<'_>,
    falls_later: bool,
) -> Option<HoursNeed>
    requires { passed.parts + length rule.parts.now < 2 ^ 64 }
    ensures { result ≡ rule_need days times.now passed.rules passed.parts (rule_of rule.entry) falls_later }
{
    if let Some(need) = parts_need(days, times, passed.parts, rule.parts) {
        return Some(need);
    }
    unknown_need(passed.rules, rule, falls_later)
}

/// What the rules need first, from left to right, and in a part in this order: the length of a point, the event at which it
/// begins, that at which it ends, and what comes after these. A rule that is unknown comes after its parts.
///
/// An error only if memory counts as refused, since rules or parts are more than 64 bits count.
pub fn first_need(
    rules: &Rules,
    days: GivenDays,
    times: &GivenTimes,
) -> Result<Option<HoursNeed>, AllocError>
    ensures exact { IfOk result (λ need. need ≡ first_need days times.now rules.now) }
{
    let mut left = up_to_fallback(rules.left())?;
    let mut passed = Passed { rules: 0, parts: 0 };
    let mut rest = rules.left();
    while let Some((rule, more)) = rest.split_first() {
        left = left.saturating_sub(1);
        let next = passed.with(rule.parts)?;
        if let Some(need) = rule_need(days, times, passed, rule, left > 0) {
            return Ok(Some(need));
        }
        passed = next;
        rest = more;
    }
    Ok(None)
}
