//! Rules, as they are written.

ghost use Rattle.std.specs.Prelude.{◌≡◌, ◌++◌, [], IfOk, OnOk, codes, false, not, true};
ghost use Rattle.gtd_hours.specs.Written.{is_also, link_text};
ghost use Rattle.gtd_hours_writing.specs.Joining.{is_nothing, spaced};
ghost use Rattle.gtd_hours_writing.specs.Rules.{behind_years, closes, days_by, days_text, first_closes, first_kinds};
ghost use Rattle.gtd_hours_writing.specs.Rules.{first_times, goes_into, has_days, has_times, is_open, kinds_of, month_days_text};
ghost use Rattle.gtd_hours_writing.specs.Rules.{more_rules_text, needs_word, or_always, rule_text, rules_text, says_open};
ghost use Rattle.gtd_hours_writing.specs.Rules.{selectors_text, spans_text, weeks_text, with_years, word_text};
ghost use Rattle.gtd_hours_writing.specs.Selecting.{selectors_of};
ghost use Rattle.gtd_hours_writing.specs.Times.{with_forms};
ghost use Rattle.gtd_hours_writing.specs.declared.classes.Class.TheVariants as class;

use crate::classes::{Class, selectors_of};
use crate::days::{push_holidays, push_in_order, push_month_days};
use crate::joining::push_joined;
use crate::rule::MendedRule;
use crate::selectors::text_of;
use crate::times::push_forms;
use crate::years::years_text;
use gtd_hours::{Kind, Link, Modifier, Rule, Selector, TimeRange};
use gtd_hours_days::Listed;
use std::alloc::{AllocError, Global};

// ---- the rule of a rule's own text

fn first_kinds(rules: &[Rule]) -> &[Kind]
    ensures { result.now ≡ first_kinds rules.now }
{
    match rules.first() {
        None => &[],
        Some(rule) => rule.kinds.as_slice(),
    }
}

/// The times of the first of these rules.
pub fn first_times(rules: &[Rule]) -> &[TimeRange]
    ensures { result.now ≡ first_times rules.now }
{
    match rules.first() {
        None => &[],
        Some(rule) => rule.times.as_slice(),
    }
}

fn closes(modifier: Modifier) -> bool
    ensures { result ≡ closes modifier }
{
    match modifier {
        Modifier::Closed => true,
        Modifier::Open => false,
    }
}

fn first_closes(rules: &[Rule]) -> bool
    ensures { result ≡ first_closes rules.now }
{
    match rules.first() {
        None => false,
        Some(rule) => closes(rule.modifier),
    }
}

fn kinds_of(rule: &MendedRule) -> &[Kind]
    ensures { result.now ≡ kinds_of rule.now }
{
    first_kinds(rule.own.rules.as_slice())
}

// ---- days

// The month days of a rule.
fn month_days_text(alloc: Global, rule: &MendedRule) -> Result<Vec<u8>, AllocError>
    ensures { IfOk result (λ text. text.items ≡ month_days_text rule.now) }
{
    let own = selectors_of(alloc, Class::MonthDays, kinds_of(rule))?;
    let mut text = Vec::new(alloc);
    push_month_days(alloc, &mut text, own.as_slice(), rule)?;
    Ok(text)
}

fn weeks_text(alloc: Global, rule: &MendedRule) -> Result<Vec<u8>, AllocError>
    ensures { IfOk result (λ text. text.items ≡ weeks_text rule.now) }
{
    let selectors = selectors_of(alloc, Class::Weeks, kinds_of(rule))?;
    text_of(alloc, selectors.as_slice())
}

// The holidays of a rule, and its weekdays, which they lead.
fn led_text(
    alloc: Global,
    holidays: &[Listed],
    weekdays: &[Selector],
) -> Result<Vec<u8>, AllocError>
    ensures { IfOk result (λ text. text.items ≡ days_by true [] weekdays.now holidays.now) }
{
    let mut text = Vec::new(alloc);
    push_holidays(alloc, &mut text, holidays)?;
    let days = text_of(alloc, weekdays)?;
    push_joined(&mut text, b' ', days.as_slice())?;
    Ok(text)
}

// The weekdays of a rule, and its holidays among them.
fn mixed_text(
    alloc: Global,
    order: &[bool],
    weekdays: &[Selector],
    holidays: &[Listed],
) -> Result<Vec<u8>, AllocError>
    ensures { IfOk result (λ text. text.items ≡ days_by false order.now weekdays.now holidays.now) }
{
    let mut text = Vec::new(alloc);
    push_in_order(alloc, &mut text, order, weekdays, holidays)?;
    Ok(text)
}

// The weekdays and holidays of a rule.
fn days_text(alloc: Global, rule: &MendedRule) -> Result<Vec<u8>, AllocError>
    ensures { IfOk result (λ text. text.items ≡ days_text rule.now) }
{
    let weekdays = selectors_of(alloc, Class::Weekdays, kinds_of(rule))?;
    let holidays = rule.holidays.as_slice();
    if rule.is_led {
        return led_text(alloc, holidays, weekdays.as_slice());
    }
    mixed_text(alloc, rule.order.as_slice(), weekdays.as_slice(), holidays)
}

// The selectors of a rule behind those of years.
fn behind_years(alloc: Global, rule: &MendedRule) -> Result<Vec<u8>, AllocError>
    ensures { IfOk result (λ text. text.items ≡ behind_years rule.now) }
{
    let mut text = month_days_text(alloc, rule)?;
    let weeks = weeks_text(alloc, rule)?;
    push_joined(&mut text, b' ', weeks.as_slice())?;
    let days = days_text(alloc, rule)?;
    push_joined(&mut text, b' ', days.as_slice())?;
    Ok(text)
}

// Years, and other selectors behind them.
fn with_years(
    alloc: Global,
    behind: &[u8],
    marks: &[bool],
    years: &[Selector],
) -> Result<Vec<u8>, AllocError>
    ensures { IfOk result (λ text. text.items ≡ with_years behind.now marks.now years.now) }
{
    let mut text = years_text(alloc, !behind.is_empty(), marks, years)?;
    push_joined(&mut text, b' ', behind)?;
    Ok(text)
}

fn selectors_text(alloc: Global, rule: &MendedRule) -> Result<Vec<u8>, AllocError>
    ensures { IfOk result (λ text. text.items ≡ selectors_text rule.now) }
{
    let behind = behind_years(alloc, rule)?;
    let years = selectors_of(alloc, Class::Years, kinds_of(rule))?;
    with_years(
        alloc,
        behind.as_slice(),
        rule.every.as_slice(),
        years.as_slice(),
    )
}

// ---- words

// Whether a rule is neither unknown nor closed.
fn is_open(rule: &MendedRule) -> bool
    ensures { result ≡ is_open rule.now }
{
    !rule.is_unknown && !first_closes(rule.own.rules.as_slice())
}

// Whether a rule has selectors of days.
fn has_days(rule: &MendedRule) -> bool
    ensures { result ≡ has_days rule.now }
{
    !kinds_of(rule).is_empty()
        || !rule.holidays.is_empty()
        || !rule.dates.is_empty()
        || !rule.easter.is_empty()
}

fn has_times(rule: &MendedRule) -> bool
    ensures { result ≡ has_times rule.now }
{
    !rule.forms.is_empty()
}

// Whether the comma of the next rule would go on with a list of this one.
fn goes_into(rule: &MendedRule, next: &MendedRule) -> bool
    ensures { result ≡ goes_into rule.now next.now }
{
    if has_times(rule) {
        has_times(next) && !has_days(next)
    } else {
        has_days(rule)
    }
}

fn is_also(link: Link) -> bool
    ensures { result ≡ is_also link }
{
    matches!(link, Link::Also)
}

// Whether a rule needs a word, where these follow.
fn needs_word(rule: &MendedRule, more: &[MendedRule]) -> bool
    ensures { result ≡ needs_word rule.now more.now }
{
    match more.first() {
        None => false,
        Some(next) => is_also(next.link) && goes_into(rule, next),
    }
}

fn says_open(rule: &MendedRule, more: &[MendedRule]) -> bool
    ensures { result ≡ says_open rule.now more.now }
{
    !rule.comment.is_empty() || needs_word(rule, more)
}

// The word of a rule, where these follow.
fn word_text(rule: &MendedRule, more: &[MendedRule]) -> &'static [u8]
    ensures { result.now ≡ word_text rule.now more.now }
{
    if rule.is_unknown {
        return b"unknown";
    }
    if first_closes(rule.own.rules.as_slice()) {
        return b"off";
    }
    if says_open(rule, more) {
        return b"open";
    }
    b""
}

// ---- rules

// Puts the word of an open rule without days and times.
fn or_always(text: &mut Vec<u8>, is_open: bool) -> Result<(), AllocError>
    ensures { OnOk result (text.new.items ≡ or_always is_open text.old.items) }
{
    if is_open && text.is_empty() {
        return text.extend_from_slice(b"24/7");
    }
    Ok(())
}

// The selectors and times of a rule.
fn spans_text(alloc: Global, rule: &MendedRule) -> Result<Vec<u8>, AllocError>
    ensures { IfOk result (λ text. text.items ≡ spans_text rule.now) }
{
    let mut text = selectors_text(alloc, rule)?;
    let mut times = Vec::new(alloc);
    push_forms(alloc, &mut times, rule.forms.as_slice())?;
    push_joined(&mut text, b' ', times.as_slice())?;
    or_always(&mut text, is_open(rule))?;
    Ok(text)
}

// A rule, where these follow.
fn rule_text(alloc: Global, rule: &MendedRule, more: &[MendedRule]) -> Result<Vec<u8>, AllocError>
    ensures { IfOk result (λ text. text.items ≡ rule_text rule.now more.now) }
{
    let mut text = spans_text(alloc, rule)?;
    push_joined(&mut text, b' ', word_text(rule, more))?;
    push_joined(&mut text, b' ', rule.comment.as_slice())?;
    Ok(text)
}

fn push_rule(
    alloc: Global,
    out: &mut Vec<u8>,
    rule: &MendedRule,
    more: &[MendedRule],
) -> Result<(), AllocError>
    ensures { OnOk result (out.new.items ≡ out.old.items ++ rule_text rule.now more.now) }
{
    let text = rule_text(alloc, rule, more)?;
    out.extend_from_slice(text.as_slice())
}

fn push_link(out: &mut Vec<u8>, link: Link) -> Result<(), AllocError>
    ensures { OnOk result (out.new.items ≡ out.old.items ++ link_text link) }
{
    match link {
        Link::Instead => out.extend_from_slice(b"; "),
        Link::Also => out.extend_from_slice(b", "),
        Link::Fallback => out.extend_from_slice(b" || "),
    }
}

fn push_more_rules(alloc: Global, out: &mut Vec<u8>, rules: &[MendedRule]) -> Result<(), AllocError>
    ensures { OnOk result (out.new.items ≡ out.old.items ++ more_rules_text rules.now) }
{
    let mut rest = rules;
    while let Some((rule, more)) = rest.split_first() {
        push_link(out, rule.link)?;
        push_rule(alloc, out, rule, more)?;
        rest = more;
    }
    Ok(())
}

/// The text of rules.
pub fn rules_text(alloc: Global, rules: &[MendedRule]) -> Result<Vec<u8>, AllocError>
    ensures { IfOk result (λ text. text.items ≡ rules_text rules.now) }
{
    let mut out = Vec::new(alloc);
    match rules.split_first() {
        None => Ok(out),
        Some((first, more)) => {
            push_rule(alloc, &mut out, first, more)?;
            push_more_rules(alloc, &mut out, more)?;
            Ok(out)
        }
    }
}
