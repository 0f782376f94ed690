//! From the tokens that are cut off to the parts of a rule.

ghost use Rattle.std.specs.Prelude.{◌≡◌, ◌++◌, [], ◌∷◌, IfErr, OnOk, Ok, drop};
ghost use Rattle.gtd_hours_text2.specs.Faults.{IsPartFault};
ghost use Rattle.gtd_hours_text2.specs.Parts.{Gives, alone, always, day_item, in_order, last_part, month_days, parts_of, pushed, with_year};

use crate::brackets::{PartError, push_nth_weekdays};
use crate::days::one_day;
use crate::month_days::month_days;
use crate::times::times;
use crate::years::{after, is, number, weeks, years};
use gtd_hours_grammar2::{Class, Cut};
use gtd_hours_tokens2::Token;
use gtd_hours2::RulePart;
use std::alloc::{AllocError, Global};

fn push_alone(out: &mut Vec<RulePart>, part: Result<RulePart, u16>) -> Result<(), PartError>
    ensures read { OnOk result (pushed out.old.items (alone part) ≡ Ok out.new.items) }
    ensures fault { IfErr result (λ why. IsPartFault why (alone part)) }
{
    match part {
        Ok(part) => {
            out.push(part)?;
            Ok(())
        }
        Err(offset) => Err(PartError::Range(offset)),
    }
}

// A part, after the year that is a selector of its own.
fn push_with_year(
    out: &mut Vec<RulePart>,
    year: Option<u16>,
    part: RulePart,
) -> Result<(), AllocError>
    ensures { OnOk result (out.new.items ≡ out.old.items ++ with_year year part) }
{
    if let Some(first) = year {
        out.push(RulePart::Years {
            first,
            last: Some(first),
            step: 1,
        })?;
    }
    out.push(part)?;
    Ok(())
}

fn push_month_days(out: &mut Vec<RulePart>, tokens: &[Token]) -> Result<(), PartError>
    ensures read { OnOk result
        (pushed out.old.items (in_order (month_days (last_part out.old.items) tokens.now)) ≡ Ok out.new.items) }
    ensures fault { IfErr result (λ why. IsPartFault why (in_order (month_days (last_part out.old.items) tokens.now))) }
{
    match month_days(out.as_slice(), tokens) {
        Ok((year, part)) => {
            push_with_year(out, year, part)?;
            Ok(())
        }
        Err(offset) => Err(PartError::Range(offset)),
    }
}

#[tactic(auto, using(crate::proofs::Answering::gives_same))]
fn push_day_item(alloc: Global, out: &mut Vec<RulePart>, tokens: &[Token]) -> Result<(), PartError>
    ensures read { OnOk result (pushed out.old.items (day_item tokens.now) ≡ Ok out.new.items) }
    ensures fault { IfErr result (λ why. IsPartFault why (day_item tokens.now)) }
{
    if is(Class::Weekday, tokens) && is(Class::Open, after(tokens)) {
        return push_nth_weekdays(alloc, out, tokens);
    }
    push_alone(out, one_day(tokens))
}

// `24/7` has no parts, and these numbers.
fn check_always(tokens: &[Token]) -> Result<(), PartError>
    ensures read { OnOk result (always tokens.now ≡ Ok []) }
    ensures fault { IfErr result (λ why. IsPartFault why (always tokens.now)) }
{
    match number(1, 7, 7, after(after(tokens))) {
        Ok(_) => Ok(()),
        Err(offset) => Err(PartError::Range(offset)),
    }
}

/// Adds the parts of tokens that are cut off, after the parts before them.
#[tactic(auto, using(crate::proofs::Answering::gives_same))]
pub fn push_parts(
    alloc: Global,
    out: &mut Vec<RulePart>,
    cut: Cut,
    tokens: &[Token],
) -> Result<(), PartError>
    ensures read { OnOk result (pushed out.old.items (parts_of cut (last_part out.old.items) tokens.now) ≡ Ok out.new.items) }
    ensures fault { IfErr result (λ why. IsPartFault why (parts_of cut (last_part out.old.items) tokens.now)) }
{
    match cut {
        Cut::Years => push_alone(out, years(tokens)),
        Cut::MonthDays => push_month_days(out, tokens),
        Cut::Week => push_alone(out, weeks(tokens)),
        Cut::Day => push_day_item(alloc, out, tokens),
        Cut::Time => push_alone(out, times(tokens)),
        Cut::Always => check_always(tokens),
        _ => Ok(()),
    }
}
