//! Rules with days of holidays.

ghost use Rattle.std.specs.Prelude.{◌≡◌, ◌∷◌, ◌++◌, [], IfOk, drop, take};
ghost use Rattle.gtd_hours.specs.Writable.{selectors};
ghost use Rattle.gtd_hours_known.specs.Joining.{IsWithDays, among, is_of_week, last_with, names_weekdays};
ghost use Rattle.gtd_hours_known.specs.Joining.{with_days as kinds_with_days};

use gtd_hours::{Kind, Rule, Selector};
use gtd_hours_dated::{joined, kind_of, with_one, with_two};
use gtd_hours_holiday_rules::{HolidayRule, before_holiday};
use std::alloc::{AllocError, Global};

// Whether a selector is one of weekdays.
fn is_of_week(selector: Selector) -> bool
    ensures { result ≡ is_of_week selector }
{
    match selector {
        Selector::Weekdays(_) => true,
        Selector::Nth(_) => true,
        Selector::NthBack(_) => true,
        Selector::Moved(_) => true,
        _ => false,
    }
}

// Whether a kind is that of weekdays.
fn names_weekdays(kind: &[Selector]) -> bool
    ensures { result ≡ names_weekdays kind.now }
{
    match kind.split_first() {
        Some((first, _)) => is_of_week(*first),
        None => false,
    }
}

// So many selectors from the first on.
fn first_of(selectors: &[Selector], count: usize) -> &[Selector]
    ensures { result.now ≡ take count selectors.now }
{
    if count < selectors.len() {
        &selectors[..count]
    } else {
        selectors
    }
}

// The selectors behind so many.
fn behind(selectors: &[Selector], count: usize) -> &[Selector]
    ensures { result.now ≡ drop count selectors.now }
{
    if count < selectors.len() {
        &selectors[count..]
    } else {
        &selectors[selectors.len()..]
    }
}

// Weekdays with days of holidays among them, all where the first holiday stands.
fn among(
    alloc: Global,
    order: &[bool],
    days: &[Selector],
    kind: &[Selector],
) -> Result<Kind, AllocError>
    ensures { IfOk result (λ then. then.selectors.items ≡ among order.now days.now kind.now) }
{
    let place = before_holiday(order);
    let front = kind_of(alloc, first_of(kind, place))?;
    let both = joined(front, days)?;
    joined(both, behind(kind, place))
}

// Kinds, and the last one with days of the holidays of a rule.
fn with_last(
    alloc: Global,
    list: Vec<Kind>,
    last: Kind,
    from: &HolidayRule,
    days: &[Selector],
) -> Result<Vec<Kind>, AllocError>
    ensures { IfOk result (λ then. selectors then.items
        ≡ selectors list.items ++ last_with from.now.is_led from.now.order.items days.now last.selectors.items) }
{
    if !names_weekdays(last.selectors.as_slice()) {
        let more = kind_of(alloc, days)?;
        return with_two(list, last, more);
    }
    if from.is_led {
        let more = kind_of(alloc, days)?;
        return with_two(list, more, last);
    }
    let both = among(
        alloc,
        from.order.as_slice(),
        days,
        last.selectors.as_slice(),
    )?;
    with_one(list, both)
}

// Kinds with a new one of days of holidays alone.
fn with_new(alloc: Global, list: Vec<Kind>, days: &[Selector]) -> Result<Vec<Kind>, AllocError>
    ensures { IfOk result (λ then. selectors then.items ≡ selectors list.items ++ days.now ∷ []) }
{
    let more = kind_of(alloc, days)?;
    with_one(list, more)
}

// Kinds with days of the holidays of a rule.
fn kinds_with_days(
    alloc: Global,
    kinds: Vec<Kind>,
    from: &HolidayRule,
    days: &[Selector],
) -> Result<Vec<Kind>, AllocError>
    ensures { IfOk result (λ then. selectors then.items
        ≡ kinds_with_days from.now.is_led from.now.order.items days.now (selectors kinds.items)) }
{
    let mut list = kinds;
    match list.pop() {
        None => with_new(alloc, list, days),
        Some(last) => with_last(alloc, list, last, from, days),
    }
}

/// A rule with the link of a rule of a text and the days of its holidays. Holidays that lead weekdays, and all holidays of a rule
/// without weekdays, restrict its days; the others are days among its weekdays, where the first holiday stands. `AllocError` is
/// answered only if memory was refused.
pub fn with_days(
    alloc: Global,
    rule: Rule,
    from: &HolidayRule,
    days: &[Selector],
) -> Result<Rule, AllocError>
    ensures days { IfOk result (IsWithDays from.now.link from.now.is_led from.now.order.items days.now rule) }
{
    let kinds = kinds_with_days(alloc, rule.kinds, from, days)?;
    Ok(Rule {
        link: from.link,
        kinds,
        times: rule.times,
        modifier: rule.modifier,
    })
}
