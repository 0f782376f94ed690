//! Of what is warned in a text that is read.

ghost use Rattle.std.specs.Prelude.{◌≡◌, ◌++◌, [], IfOk, None, OnOk};
ghost use Rattle.gtd_hours_known.specs.Marks.{HasMarks, one_or_none, remarks_of, unknowns_of};

use crate::checks::first_holiday;
use crate::known::KnownHours;
use gtd_hours::Hours;
use gtd_hours_holiday_rules::HolidayRule;
use std::alloc::{AllocError, Global};

fn push_some(places: &mut Vec<usize>, place: Option<usize>) -> Result<(), AllocError>
    ensures { OnOk result (places.new.items ≡ places.old.items ++ one_or_none place) }
{
    match place {
        None => Ok(()),
        Some(place) => {
            places.push(place)?;
            Ok(())
        }
    }
}

// Where rules have remarks.
fn remarks_of(alloc: Global, rules: &[HolidayRule]) -> Result<Vec<usize>, AllocError>
    ensures { IfOk result (λ places. places.items ≡ remarks_of rules.now) }
{
    let mut places = Vec::new(alloc);
    let mut rest = rules;
    while let Some((rule, more)) = rest.split_first() {
        push_some(&mut places, rule.remark)?;
        rest = more;
    }
    Ok(places)
}

// Where a word or a comment makes rules unknown.
fn unknowns_of(alloc: Global, rules: &[HolidayRule]) -> Result<Vec<usize>, AllocError>
    ensures { IfOk result (λ places. places.items ≡ unknowns_of rules.now) }
{
    let mut places = Vec::new(alloc);
    let mut rest = rules;
    while let Some((rule, more)) = rest.split_first() {
        push_some(&mut places, rule.unknown)?;
        rest = more;
    }
    Ok(places)
}

/// Hours of plain hours, in which nothing is warned of.
pub(crate) fn without_marks(alloc: Global, hours: Hours) -> KnownHours
    ensures hours { result.hours ≡ hours }
    ensures form { result.form ≡ None }
    ensures marks { HasMarks [] result }
{
    KnownHours {
        hours,
        form: None,
        first_holiday: None,
        remarks: Vec::new(alloc),
        unknowns: Vec::new(alloc),
    }
}

/// Hours of rules, with that of which is warned in them.
pub(crate) fn with_marks(
    alloc: Global,
    hours: Hours,
    rules: &[HolidayRule],
) -> Result<KnownHours, AllocError>
    ensures hours { IfOk result (λ read. read.hours ≡ hours) }
    ensures form { IfOk result (λ read. read.form ≡ None) }
    ensures marks { IfOk result (HasMarks rules.now) }
{
    let remarks = remarks_of(alloc, rules)?;
    let unknowns = unknowns_of(alloc, rules)?;
    Ok(KnownHours {
        hours,
        form: None,
        first_holiday: first_holiday(rules),
        remarks,
        unknowns,
    })
}
