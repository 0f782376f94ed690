//! Whether hours can be written in the syntax of OpenStreetMap.

ghost use Rattle.std.specs.Prelude.{◌≡◌, IsTrue};
ghost use Rattle.gtd_hours.specs.Writable.{AreWritable, BeginAnew, IsWritable, IsWritableRule, is_fallback};
ghost use Rattle.gtd_hours_search.specs.Order.{InOrder, have_place, kind_place, place_of};

use gtd_hours::{Hours, Kind, Link, Rule, Selector};

fn place_of(selector: Selector) -> u8
    ensures { result ≡ place_of selector }
{
    match selector {
        Selector::Years(_) => 1,
        Selector::Months(_) => 2,
        Selector::Dates(_) => 2,
        Selector::Dated(_) => 2,
        Selector::Weeks(_) => 3,
        Selector::Weekdays(_) => 4,
        Selector::Nth(_) => 4,
        Selector::NthBack(_) => 4,
        Selector::Moved(place) => { if 0 < place.days { 4 } else { 0 } }
        Selector::Moving(_) => 0,
        Selector::Yearly(_) => 0,
    }
}

fn have_place(place: u8, selectors: &[Selector]) -> bool
    ensures { result ≡ have_place place selectors.now }
{
    let mut rest = selectors;
    while let Some((selector, more)) = rest.split_first() {
        if place_of(*selector) != place {
            return false;
        }
        rest = more;
    }
    true
}

fn kind_place(selectors: &[Selector]) -> u8
    ensures { result ≡ kind_place selectors.now }
{
    match selectors.split_first() {
        None => 0,
        Some((first, more)) => {
            let place = place_of(*first);
            if have_place(place, more) { place } else { 0 }
        }
    }
}

fn are_in_order(kinds: &[Kind]) -> bool
    ensures { IsTrue result → InOrder 0 kinds.now }
{
    let mut place = 0u8;
    let mut rest = kinds;
    while let Some((kind, more)) = rest.split_first() {
        let next = kind_place(kind.selectors.as_slice());
        if next <= place {
            return false;
        }
        place = next;
        rest = more;
    }
    true
}

fn is_fallback(link: Link) -> bool
    ensures { result ≡ is_fallback link }
{
    match link {
        Link::Instead | Link::Also => false,
        Link::Fallback => true,
    }
}

fn is_writable(rule: &Rule) -> bool
    ensures { IsTrue result → IsWritableRule rule.now }
{
    if is_fallback(rule.link) {
        return false;
    }
    are_in_order(rule.kinds.as_slice())
}

fn are_writable(rules: &[Rule]) -> bool
    ensures { IsTrue result → AreWritable rules.now }
{
    let mut rest = rules;
    while let Some((rule, more)) = rest.split_first() {
        if !is_writable(rule) {
            return false;
        }
        rest = more;
    }
    true
}

fn begin_anew(rules: &[Rule]) -> bool
    ensures { IsTrue result → BeginAnew rules.now }
{
    match rules.first() {
        None => false,
        Some(rule) => match rule.link {
            Link::Instead => true,
            Link::Also | Link::Fallback => false,
        },
    }
}

/// Whether the hours can be written: `true` is answered only if they can.
pub fn can_be_written(hours: &Hours) -> bool
    ensures { IsTrue result → IsWritable hours.now }
{
    begin_anew(hours.rules.as_slice()) && are_writable(hours.rules.as_slice())
}
