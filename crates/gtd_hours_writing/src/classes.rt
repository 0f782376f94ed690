//! Classes of selectors, in the order in which they are written.

ghost use Rattle.std.specs.Prelude.{◌≡◌, ◌++◌, IfOk, OnOk};
ghost use Rattle.gtd_hours_writing.specs.Selecting.{are_of, class_of, is_same, selectors_if, selectors_of};

use gtd_hours::{Kind, Selector};
use std::alloc::{AllocError, Global};

/// What a selector names.
#[derive(Clone, Copy)]
pub enum Class {
    /// Years.
    Years,
    /// Months, dates, and ranges that move.
    MonthDays,
    /// Weeks.
    Weeks,
    /// Weekdays, also with a place in the month.
    Weekdays,
}

fn class_of(selector: Selector) -> Class
    ensures { result ≡ class_of selector }
{
    match selector {
        Selector::Months(_) => Class::MonthDays,
        Selector::Dates(_) => Class::MonthDays,
        Selector::Dated(_) => Class::MonthDays,
        Selector::Moving(_) => Class::MonthDays,
        Selector::Weeks(_) => Class::Weeks,
        Selector::Weekdays(_) => Class::Weekdays,
        Selector::Nth(_) => Class::Weekdays,
        Selector::NthBack(_) => Class::Weekdays,
        Selector::Moved(_) => Class::Weekdays,
        _ => Class::Years,
    }
}

fn is_same(one: Class, other: Class) -> bool
    ensures { result ≡ is_same one other }
{
    match one {
        Class::Years => matches!(other, Class::Years),
        Class::MonthDays => matches!(other, Class::MonthDays),
        Class::Weeks => matches!(other, Class::Weeks),
        Class::Weekdays => matches!(other, Class::Weekdays),
    }
}

// Whether the selectors, all of one kind, are of a class.
fn are_of(class: Class, selectors: &[Selector]) -> bool
    ensures { result ≡ are_of class selectors.now }
{
    match selectors.first() {
        None => false,
        Some(first) => is_same(class, class_of(*first)),
    }
}

fn push_if(
    found: &mut Vec<Selector>,
    class: Class,
    selectors: &[Selector],
) -> Result<(), AllocError>
    ensures { OnOk result (found.new.items ≡ found.old.items ++ selectors_if class selectors.now) }
{
    if are_of(class, selectors) {
        return found.extend_from_slice(selectors);
    }
    Ok(())
}

/// The selectors of a class among some kinds.
pub(crate) fn selectors_of(
    alloc: Global,
    class: Class,
    kinds: &[Kind],
) -> Result<Vec<Selector>, AllocError>
    ensures { IfOk result (λ found. found.items ≡ selectors_of class kinds.now) }
{
    let mut found = Vec::new(alloc);
    let mut rest = kinds;
    while let Some((kind, more)) = rest.split_first() {
        push_if(&mut found, class, kind.selectors.as_slice())?;
        rest = more;
    }
    Ok(found)
}
