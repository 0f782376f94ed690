//! Rules with more month days.

ghost use Rattle.std.specs.Prelude.{◌≡◌, ◌∷◌, ◌++◌, [], IfOk};
ghost use Rattle.gtd_hours.specs.Writable.{is_years, selectors};
ghost use Rattle.gtd_hours_dated.specs.Dated.{AreDatedRules, IsDatedRule, is_month_days, names_month_days, names_years};
ghost use Rattle.gtd_hours_dated.specs.Dated.{is_placed, kind_with, kinds_left, more_of, with_dates};

use crate::kinds::{with_one, with_two};
use crate::more::{MoreDays, all_days};
use gtd_hours::{Kind, Rule, Selector};
use std::alloc::{AllocError, Global};

// Whether a selector is one of years.
fn is_years(selector: Selector) -> bool
    ensures { result ≡ is_years selector }
{
    match selector {
        Selector::Years(_) => true,
        _ => false,
    }
}

// Whether a selector is one of month days.
fn is_month_days(selector: Selector) -> bool
    ensures { result ≡ is_month_days selector }
{
    match selector {
        Selector::Months(_) => true,
        Selector::Dates(_) => true,
        Selector::Dated(_) => true,
        Selector::Moving(_) => true,
        _ => false,
    }
}

// Whether a kind is that of years.
fn names_years(kind: &[Selector]) -> bool
    ensures { result ≡ names_years kind.now }
{
    match kind.split_first() {
        Some((first, _)) => is_years(*first),
        None => false,
    }
}

// Whether a kind is that of month days.
fn names_month_days(kind: &[Selector]) -> bool
    ensures { result ≡ names_month_days kind.now }
{
    match kind.split_first() {
        Some((first, _)) => is_month_days(*first),
        None => false,
    }
}

// Whether the month days have their place once a kind has been put, and whether they had it before.
fn is_placed(placed: bool, kind: &[Selector]) -> bool
    ensures { result ≡ is_placed placed kind.now }
{
    placed || !names_years(kind)
}

// Kinds, and one more, with which the month days are put if they have their place there.
fn with_next(
    alloc: Global,
    list: Vec<Kind>,
    kind: Kind,
    placed: bool,
    more: &MoreDays,
) -> Result<Vec<Kind>, AllocError>
    ensures { IfOk result (λ then. selectors then.items
        ≡ selectors list.items ++ kind_with placed (more_of more.now) kind.selectors.items) }
{
    if placed || names_years(kind.selectors.as_slice()) {
        return with_one(list, kind);
    }
    if names_month_days(kind.selectors.as_slice()) {
        let both = all_days(alloc, kind.selectors.as_slice(), more)?;
        return with_one(list, both);
    }
    let own = all_days(alloc, &[], more)?;
    with_two(list, own, kind)
}

// Kinds, and the month days if they have had no place.
fn with_last(
    alloc: Global,
    list: Vec<Kind>,
    placed: bool,
    more: &MoreDays,
) -> Result<Vec<Kind>, AllocError>
    ensures { IfOk result (λ then. selectors then.items ≡ selectors list.items ++ kinds_left placed (more_of more.now) []) }
{
    if placed {
        return Ok(list);
    }
    let own = all_days(alloc, &[], more)?;
    with_one(list, own)
}

// Kinds with more month days.
fn kinds_with_dates(
    alloc: Global,
    kinds: Vec<Kind>,
    more: &MoreDays,
) -> Result<Vec<Kind>, AllocError>
    ensures { IfOk result (λ then. selectors then.items ≡ with_dates (more_of more.now) (selectors kinds.items)) }
{
    let mut made = Vec::new(alloc);
    let mut placed = false;
    for kind in kinds {
        let then = is_placed(placed, kind.selectors.as_slice());
        made = with_next(alloc, made, kind, placed, more)?;
        placed = then;
    }
    with_last(alloc, made, placed, more)
}

// A rule with more month days.
fn with_dates(alloc: Global, rule: Rule, more: &MoreDays) -> Result<Rule, AllocError>
    ensures { IfOk result (IsDatedRule (more_of more.now) rule) }
{
    let kinds = kinds_with_dates(alloc, rule.kinds, more)?;
    Ok(Rule {
        link: rule.link,
        kinds,
        times: rule.times,
        modifier: rule.modifier,
    })
}

// Rules with more month days.
pub(crate) fn rules_with_dates(
    alloc: Global,
    rules: Vec<Rule>,
    more: &MoreDays,
) -> Result<Vec<Rule>, AllocError>
    ensures { IfOk result (λ made. AreDatedRules (more_of more.now) rules.items made.items) }
{
    let mut made = Vec::new(alloc);
    for rule in rules {
        let with = with_dates(alloc, rule, more)?;
        made.push(with)?;
    }
    Ok(made)
}
