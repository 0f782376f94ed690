//! The days of two rules, compared as they are written.

ghost use Rattle.std.specs.Prelude.{◌≡◌};
ghost use Rattle.gtd_hours_hidden.specs.Hides.{agree_on, same_answer, same_kind, same_kinds, same_weekdays};

use crate::selectors::{are_among, are_plain, some_has_weekday};
use gtd_hours::{Kind, Selector};

fn agree_on(weekday: u8, selectors: &[Selector], others: &[Selector]) -> bool
    ensures { result ≡ agree_on weekday selectors.now others.now }
{
    if some_has_weekday(selectors, weekday) {
        return some_has_weekday(others, weekday);
    }
    !some_has_weekday(others, weekday)
}

fn same_weekdays(selectors: &[Selector], others: &[Selector]) -> bool
    ensures { result ≡ same_weekdays selectors.now others.now }
{
    agree_on(1, selectors, others)
        && agree_on(2, selectors, others)
        && agree_on(3, selectors, others)
        && agree_on(4, selectors, others)
        && agree_on(5, selectors, others)
        && agree_on(6, selectors, others)
        && agree_on(7, selectors, others)
}

fn same_kind(selectors: &[Selector], others: &[Selector]) -> bool
    ensures { result ≡ same_kind selectors.now others.now }
{
    if are_plain(selectors) && are_plain(others) {
        return same_weekdays(selectors, others);
    }
    are_among(selectors, others) && are_among(others, selectors)
}

/// Whether the kinds are the same and have the same selectors, in any order; plain weekdays may be written in another way.
pub fn same_kinds(kinds: &[Kind], others: &[Kind]) -> bool
    ensures { result ≡ same_kinds kinds.now others.now }
{
    let mut rest = kinds;
    let mut other_rest = others;
    while let Some((kind, more)) = rest.split_first() {
        let Some((other, other_more)) = other_rest.split_first() else {
            return false;
        };
        if !same_kind(kind.selectors.as_slice(), other.selectors.as_slice()) {
            return false;
        }
        rest = more;
        other_rest = other_more;
    }
    other_rest.is_empty()
}
