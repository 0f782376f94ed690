//! The rules of a text, each with the hours of its own text, its times and its comment.

ghost use Rattle.std.specs.Prelude.{◌≡◌, ◌++◌, ◌∷◌, [], IfErr, IfOk, OnOk, drop};
ghost use Rattle.gtd_hours_grammar.specs.Faults.{IsFirstFault};
ghost use Rattle.gtd_hours_mended.specs.Making.{AreMade, IsMade, IsMakeStop, IsOwnStop, comment_in, first_comment};
ghost use Rattle.gtd_hours_mended.specs.Making.{times_in};
ghost use Rattle.gtd_hours_text.specs.Standing.{StandsFor};

use crate::comments::{Stretch, no_comment};
use gtd_hours::Hours;
use gtd_hours_grammar::HoursFault;
use gtd_hours_holiday_rules::HolidayRule;
use gtd_hours_moments::TimeForm;
use gtd_hours_moving::stretch;
use gtd_hours_text::{HoursTextFault, read_hours};
use gtd_hours_writing::{MendedRule, behind, copy_of, first_of, first_times};
use std::alloc::{AllocError, Global};

/// Why rules are not made.
#[derive(Clone, Copy)]
pub enum MakeStop {
    /// The own text of a rule has this first fault, and it is the first rule with one. No text is known that has such a rule.
    Own(HoursFault),
    /// Memory was refused.
    NoMemory,
}

impl From<AllocError> for MakeStop {
    ghost use Rattle.std.specs.Prelude.{◌≡◌};
    ghost use Rattle.gtd_hours_mended.specs.declared.making.MakeStop.TheVariants.{NoMemory};

    ghost from_gives = { λ _ why. why ≡ NoMemory };

    fn from(_: AllocError) -> MakeStop {
        MakeStop::NoMemory
    }
}

fn first_comment(comments: &[Stretch]) -> Stretch
    ensures { result ≡ first_comment comments.now }
{
    match comments.first() {
        None => no_comment(),
        Some(first) => *first,
    }
}

// The comments behind the first.
fn more_comments(comments: &[Stretch]) -> &[Stretch]
    ensures { result.now ≡ drop 1 comments.now }
{
    match comments.split_first() {
        None => comments,
        Some((_, more)) => more,
    }
}

// How many times the rule of hours has.
fn times_in(own: &Hours) -> usize
    ensures { result ≡ times_in own.now }
{
    first_times(own.rules.as_slice()).len()
}

// The hours of a rule's own text.
fn own_hours(alloc: Global, from: &HolidayRule) -> Result<Hours, MakeStop>
    ensures own { IfOk result (λ own. StandsFor from.now.text.items own) }
    ensures stop { IfErr result (IsOwnStop from.now) }
{
    match read_hours(alloc, from.text.as_slice()) {
        Ok(own) => Ok(own),
        Err(HoursTextFault::Fault(bad)) => Err(MakeStop::Own(bad)),
        Err(HoursTextFault::NoMemory) => Err(MakeStop::NoMemory),
    }
}

// A rule of a text, with these hours, this comment, and the first of these forms.
fn rule_with(
    alloc: Global,
    from: &HolidayRule,
    own: Hours,
    comment: &[u8],
    forms: &[TimeForm],
) -> Result<MendedRule, AllocError>
    requires { StandsFor from.now.text.items own }
    ensures { IfOk result (λ rule. IsMade comment.now from.now forms.now rule) }
{
    let own_forms = copy_of(alloc, first_of(forms, times_in(&own)))?;
    let every = copy_of(alloc, from.every.as_slice())?;
    let month_items = copy_of(alloc, from.month_items.as_slice())?;
    let dates = copy_of(alloc, from.dates.as_slice())?;
    let easter = copy_of(alloc, from.easter.as_slice())?;
    let holidays = copy_of(alloc, from.holidays.as_slice())?;
    let order = copy_of(alloc, from.order.as_slice())?;
    let comment = copy_of(alloc, comment)?;
    Ok(MendedRule {
        link: from.link,
        own,
        every,
        month_items,
        dates,
        easter,
        holidays,
        order,
        is_led: from.is_led,
        forms: own_forms,
        is_unknown: from.unknown.is_some(),
        comment,
    })
}

// A rule of a text, with its comment there and the first of these forms.
fn made_rule(
    alloc: Global,
    text: &[u8],
    from: &HolidayRule,
    comment: Stretch,
    forms: &[TimeForm],
) -> Result<MendedRule, MakeStop>
    ensures made { IfOk result (λ rule. IsMade (comment_in text.now comment) from.now forms.now rule) }
    ensures stop { IfErr result (IsOwnStop from.now) }
{
    let own = own_hours(alloc, from)?;
    match rule_with(
        alloc,
        from,
        own,
        stretch(text, comment.from, comment.to),
        forms,
    ) {
        Ok(rule) => Ok(rule),
        Err(_) => Err(MakeStop::NoMemory),
    }
}

fn push_rule(made: &mut Vec<MendedRule>, rule: MendedRule) -> Result<(), AllocError>
    ensures { OnOk result (made.new.items ≡ made.old.items ++ rule ∷ []) }
{
    made.push(rule)?;
    Ok(())
}

/// The rules of a text, with their comments there and their forms of times.
pub(crate) fn made_rules(
    alloc: Global,
    text: &[u8],
    found: &[HolidayRule],
    comments: &[Stretch],
    forms: &[TimeForm],
) -> Result<Vec<MendedRule>, MakeStop>
    ensures made { IfOk result (λ made. AreMade text.now found.now comments.now forms.now made.items) }
    ensures stop { IfErr result (IsMakeStop found.now) }
{
    let mut made = Vec::new(alloc);
    let mut comments = comments;
    let mut forms = forms;
    let mut rest = found;
    while let Some((from, more)) = rest.split_first() {
        let rule = made_rule(alloc, text, from, first_comment(comments), forms)?;
        forms = behind(forms, times_in(&rule.own));
        comments = more_comments(comments);
        push_rule(&mut made, rule)?;
        rest = more;
    }
    Ok(made)
}
