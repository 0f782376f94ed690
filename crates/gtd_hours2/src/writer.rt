//! Rules, as they are strictly written.

ghost use Rattle.std.specs.Prelude.{◌≡◌, ◌==◌, ◌-◌, ◌&&◌, ◌||◌, ◌++◌, [], ◌∷◌, not, take, drop, codes, if◌then◌else◌};
ghost use Rattle.std.specs.Prelude.{Option, IfOk, OnOk, is_some};
ghost use Rattle.gtd_hours2.specs.Rules.{code, has_days, has_kind, is_some_part, of_kind, says};
ghost use Rattle.gtd_hours2.specs.Stored.{rule_of};
ghost use Rattle.gtd_hours2.specs.Written.{comment_text, goes_into, goes_on, has_spans, is_also, kind_text, kind_word, kinds_text};
ghost use Rattle.gtd_hours2.specs.Written.{link_text, list_end_text, list_text, listed_text, more_rules_text, needs_word, rule_text, rules_text, space_text};
ghost use Rattle.gtd_hours2.specs.Written.{spans_text, word_text};

use crate::kinds::{has_kind, is_of, same_kind};
use crate::part_writer::{push_closing, push_next, push_part};
use crate::rules::{RuleRef, Rules, RulesLeft};
use crate::values::{CommentRange, PartKind, RuleLink, RulePart, RuleWord};
use std::alloc::{AllocError, Global};

const KINDS: [PartKind; 6] = [
    PartKind::Years,
    PartKind::MonthDays,
    PartKind::Weeks,
    PartKind::LeadingHolidays,
    PartKind::Days,
    PartKind::Times,
];

/// The strict text of the rules, or an error if memory was refused. Comments are taken from the text that the rules were read
/// from.
///
/// Rules have `; `, `, ` or ` || ` before them, as their links say. A rule has its kinds of parts in the order of `PartKind`, with
/// spaces between them and commas within them, then its word and its comment. An open rule has the word `open` only before a
/// comment, where it has nothing else, and where the comma of the next rule would go on with its lists.
///
/// ```
/// let head = RuleHead {
///     link: RuleLink::Instead,
///     leads: false,
///     is_always: false,
///     word: Some(RuleWord::Off),
///     comment: None,
/// };
/// let mut rules = Rules::new(Global);
/// rules.push(head, &[RulePart::Weekdays { first: 2, last: 6 }])?;
/// let text = write_rules(Global, b"", &rules)?; // `Mo-Fr off`
/// ```
pub fn write_rules(alloc: Global, text: &[u8], rules: &Rules) -> Result<Vec<u8>, AllocError>
    ensures exact { IfOk result (λ written. written.items ≡ rules_text text.now rules.now) }
{
    let mut out = Vec::new(alloc);
    push_rules(&mut out, text, rules.left())?;
    Ok(out)
}

fn push_rules(out: &mut Vec<u8>, text: &[u8], rules: RulesLeft<'_>) -> Result<(), AllocError>
    ensures { OnOk result (out.new.items ≡ out.old.items ++ rules_text text.now rules.entry) }
{
    match rules.split_first() {
        None => Ok(()),
        Some((rule, more)) => {
            push_rule(out, text, rule, &more)?;
            push_more_rules(out, text, more)
        }
    }
}

fn push_more_rules(out: &mut Vec<u8>, text: &[u8], rules: RulesLeft<'_>) -> Result<(), AllocError>
    ensures { OnOk result (out.new.items ≡ out.old.items ++ more_rules_text text.now rules.entry) }
{
    let mut rest = rules;
    while let Some((rule, more)) = rest.split_first() {
        push_link(out, rule.head.link)?;
        push_rule(out, text, rule, &more)?;
        rest = more;
    }
    Ok(())
}

fn push_link(out: &mut Vec<u8>, link: RuleLink) -> Result<(), AllocError>
    ensures { OnOk result (out.new.items ≡ out.old.items ++ link_text link) }
{
    match link {
        RuleLink::Instead => out.extend_from_slice(b"; "),
        RuleLink::Also => out.extend_from_slice(b", "),
        RuleLink::Fallback => out.extend_from_slice(b" || "),
    }
}

// A rule, where these follow.
fn push_rule(
    out: &mut Vec<u8>,
    text: &[u8],
    rule: RuleRef<'_>,
    more: &RulesLeft<'_>,
) -> Result<(), AllocError>
    ensures { OnOk result (out.new.items ≡ out.old.items ++ rule_text text.now (rule_of rule.entry) more.now) }
{
    push_spans(out, rule)?;
    push_word(out, has_spans(rule), needs_word(rule, more), rule.says())?;
    push_comment(out, text, rule.head.comment)
}

fn push_spans(out: &mut Vec<u8>, rule: RuleRef<'_>) -> Result<(), AllocError>
    ensures { OnOk result (out.new.items ≡ out.old.items ++ spans_text (rule_of rule.entry)) }
{
    if rule.head.is_always {
        out.extend_from_slice(b"24/7")?;
    }
    push_kinds(out, rule, rule.head.is_always, &KINDS)
}

// The kinds that the rule has, after something or not.
fn push_kinds(
    out: &mut Vec<u8>,
    rule: RuleRef<'_>,
    follows: bool,
    kinds: &[PartKind],
) -> Result<(), AllocError>
    ensures { OnOk result (out.new.items ≡ out.old.items ++ kinds_text (rule_of rule.entry) follows kinds.now) }
{
    let mut rest = kinds;
    let mut follows = follows;
    while let Some((kind, more)) = rest.split_first() {
        if rule.has(*kind) {
            push_space(out, follows)?;
            push_kind(out, rule, *kind)?;
            follows = true;
        }
        rest = more;
    }
    Ok(())
}

fn push_space(out: &mut Vec<u8>, follows: bool) -> Result<(), AllocError>
    ensures { OnOk result (out.new.items ≡ out.old.items ++ space_text follows) }
{
    if follows {
        return out.extend_from_slice(b" ");
    }
    Ok(())
}

fn push_kind(out: &mut Vec<u8>, rule: RuleRef<'_>, kind: PartKind) -> Result<(), AllocError>
    ensures { OnOk result (out.new.items ≡ out.old.items ++ kind_text (rule_of rule.entry) kind) }
{
    push_kind_word(out, kind)?;
    let follows = same_kind(kind, PartKind::Years) && rule.has_days();
    push_list(out, follows, rule.head.leads, kind, rule.parts)
}

fn push_kind_word(out: &mut Vec<u8>, kind: PartKind) -> Result<(), AllocError>
    ensures { OnOk result (out.new.items ≡ out.old.items ++ kind_word kind) }
{
    match kind {
        PartKind::Weeks => out.extend_from_slice(b"week "),
        _ => Ok(()),
    }
}

// Whether there are no more parts of a kind, and other selectors follow.
#[tactic(auto, using(crate::proofs::Listing::has_some))]
fn is_alone(follows: bool, leads: bool, kind: PartKind, more: &[RulePart]) -> bool
    ensures { result ≡ (follows && not (is_some_part (of_kind leads kind more.now))) }
{
    follows && !has_kind(leads, kind, more)
}

// The parts of a kind.
#[tactic(auto, using(crate::proofs::Listing::rest_more))]
fn push_list(
    out: &mut Vec<u8>,
    follows: bool,
    leads: bool,
    kind: PartKind,
    parts: &[RulePart],
) -> Result<(), AllocError>
    ensures { OnOk result (out.new.items ≡ out.old.items ++ list_text follows (of_kind leads kind parts.now)) }
{
    let mut before = None;
    let mut rest = parts;
    while let Some((part, more)) = rest.split_first() {
        if is_of(leads, kind, *part) {
            push_listed(out, before, is_alone(follows, leads, kind, more), *part)?;
            before = Some(*part);
        }
        rest = more;
    }
    push_list_end(out, before)
}

// A part after another one of its list, or the first one.
fn push_listed(
    out: &mut Vec<u8>,
    before: Option<RulePart>,
    follows: bool,
    part: RulePart,
) -> Result<(), AllocError>
    ensures { OnOk result (out.new.items ≡ out.old.items ++ listed_text before follows part) }
{
    match before {
        None => push_part(out, follows, part),
        Some(before) => push_next(out, before, part),
    }
}

fn push_list_end(out: &mut Vec<u8>, last: Option<RulePart>) -> Result<(), AllocError>
    ensures { OnOk result (out.new.items ≡ out.old.items ++ list_end_text last) }
{
    match last {
        None => Ok(()),
        Some(part) => push_closing(out, part),
    }
}

fn has_spans(rule: RuleRef<'_>) -> bool
    ensures { result ≡ has_spans (rule_of rule.entry) }
{
    rule.head.is_always || !rule.parts.is_empty()
}

// Whether an open rule has a word for it.
fn needs_word(rule: RuleRef<'_>, more: &RulesLeft<'_>) -> bool
    ensures { result ≡ needs_word (rule_of rule.entry) more.now }
{
    rule.head.comment.is_some() || !has_spans(rule) || goes_on(rule, more)
}

fn goes_on(rule: RuleRef<'_>, more: &RulesLeft<'_>) -> bool
    ensures { result ≡ goes_on (rule_of rule.entry) more.now }
{
    match more.first() {
        None => false,
        Some(next) => is_also(next.head.link) && goes_into(rule, next),
    }
}

fn is_also(link: RuleLink) -> bool
    ensures { result ≡ is_also link }
{
    match link {
        RuleLink::Instead => false,
        RuleLink::Also => true,
        RuleLink::Fallback => false,
    }
}

// Whether the comma before the next rule would go on with a list of this one.
fn goes_into(rule: RuleRef<'_>, next: RuleRef<'_>) -> bool
    ensures { result ≡ goes_into (rule_of rule.entry) (rule_of next.entry) }
{
    !rule.has_times()
        || (next.has_times()
            && !(next.has(PartKind::Years) || next.has_days() || next.head.is_always))
}

fn push_word(
    out: &mut Vec<u8>,
    follows: bool,
    needed: bool,
    word: RuleWord,
) -> Result<(), AllocError>
    ensures { OnOk result (out.new.items ≡ out.old.items ++ word_text follows needed word) }
{
    match word {
        RuleWord::Open => {
            if needed {
                push_space(out, follows)?;
                return out.extend_from_slice(b"open");
            }
            Ok(())
        }
        RuleWord::Off => {
            push_space(out, follows)?;
            out.extend_from_slice(b"off")
        }
        RuleWord::Unknown => {
            push_space(out, follows)?;
            out.extend_from_slice(b"unknown")
        }
    }
}

fn push_comment(
    out: &mut Vec<u8>,
    text: &[u8],
    comment: Option<CommentRange>,
) -> Result<(), AllocError>
    ensures { OnOk result (out.new.items ≡ out.old.items ++ comment_text text.now comment) }
{
    match comment {
        None => Ok(()),
        Some(range) => {
            out.extend_from_slice(b" \"")?;
            out.extend_from_slice(bytes_of(text, range.from as usize, range.to as usize))?;
            out.extend_from_slice(b"\"")
        }
    }
}

// The bytes of a text from an offset up to another; those that are not in it are left out.
fn bytes_of(text: &[u8], from: usize, to: usize) -> &[u8]
    ensures { result.now ≡ take (to - from) (drop from text.now) }
{
    first_bytes(bytes_after(text, from), to.saturating_sub(from))
}

fn bytes_after(text: &[u8], from: usize) -> &[u8]
    ensures { result.now ≡ drop from text.now }
{
    if from < text.len() {
        &text[from..]
    } else {
        &text[text.len()..]
    }
}

fn first_bytes(text: &[u8], count: usize) -> &[u8]
    ensures { result.now ≡ take count text.now }
{
    if count < text.len() {
        &text[..count]
    } else {
        text
    }
}
