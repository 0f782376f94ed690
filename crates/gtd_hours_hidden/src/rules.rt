//! Rules that hide hours of an earlier rule.

ghost use Rattle.std.specs.Prelude.{◌≡◌, ◌↔◌, ◌<◌, ℕ, length, IfOk, IsTrue};
ghost use Rattle.std.specs.List.{Contains};
ghost use Rattle.std.specs.List.Sorted.{IsStrictlyIncreasing};
ghost use Rattle.gtd_hours.specs.Writable.{is_fallback};
ghost use Rattle.gtd_hours_hidden.specs.Hides.{HasOtherHours, Hides, HidesOf, can_be_hidden, has_days, has_hours, is_instead};
ghost use Rattle.gtd_hours_hidden.specs.Hides.{is_open, takes_days};

use crate::days::same_kinds;
use crate::minutes::misses_minute;
use gtd_hours::{Hours, Link, Modifier, Rule};
use std::alloc::{AllocError, Global};

fn is_open(modifier: Modifier) -> bool
    ensures { result ≡ is_open modifier }
{
    match modifier {
        Modifier::Open => true,
        Modifier::Closed => false,
    }
}

fn is_instead(link: Link) -> bool
    ensures { result ≡ is_instead link }
{
    match link {
        Link::Instead => true,
        Link::Also | Link::Fallback => false,
    }
}

fn is_fallback(link: Link) -> bool
    ensures { result ≡ is_fallback link }
{
    match link {
        Link::Instead | Link::Also => false,
        Link::Fallback => true,
    }
}

fn has_hours(rule: &Rule) -> bool
    ensures { result ≡ has_hours rule.now }
{
    is_open(rule.modifier) && !rule.times.is_empty()
}

fn can_be_hidden(rule: &Rule) -> bool
    ensures { result ≡ can_be_hidden rule.now }
{
    has_hours(rule) && !is_fallback(rule.link)
}

fn has_days(later: &Rule, earlier: &Rule) -> bool
    ensures { result ≡ has_days later.now earlier.now }
{
    later.kinds.is_empty() || same_kinds(later.kinds.as_slice(), earlier.kinds.as_slice())
}

fn takes_days(later: &Rule, earlier: &Rule) -> bool
    ensures { result ≡ takes_days later.now earlier.now }
{
    is_instead(later.link) && is_open(later.modifier) && has_days(later, earlier)
}

fn has_other_hours(later: &Rule, earlier: &Rule) -> bool
    ensures { IsTrue result ↔ HasOtherHours later.now earlier.now }
{
    has_hours(later) && misses_minute(later.times.as_slice(), earlier.times.as_slice())
}

// The rule that hides hours of this one: only the first that takes its days can.
fn hider(rules: &[Rule], place: usize) -> Option<usize>
    requires { place < length rules.now }
    ensures { (k : ℕ) → (result ≡ Some k) ↔ HidesOf rules.now place k }
{
    let earlier = &rules[place];
    if !can_be_hidden(earlier) {
        return None;
    }
    for k in place + 1..rules.len() {
        let later = &rules[k];
        if takes_days(later, earlier) {
            if has_other_hours(later, earlier) {
                return Some(k);
            }
            return None;
        }
    }
    None
}

// The rules that hide hours of some rule, once for each of these.
fn hiders(alloc: Global, rules: &[Rule]) -> Result<Vec<usize>, AllocError>
    ensures { IfOk result (λ places. (k : ℕ) → Contains places.items k ↔ Hides rules.now k) }
{
    let mut places = Vec::new(alloc);
    for place in 0..rules.len() {
        match hider(rules, place) {
            Some(k) => {
                places.push(k)?;
            }
            None => {}
        }
    }
    Ok(places)
}

/// The numbers of the rules that hide hours of an earlier one, counted from 0 and in ascending order, or an error if memory
/// was refused.
///
/// Such a rule is open, comes after `;` and has times; and an earlier open rule, which does not come after `||`, has times of
/// which some minute before 24:00 is in none of its own. It has no selectors of days or the same as the earlier rule, and none
/// between them takes these days before.
pub fn hiding_rules(alloc: Global, hours: &Hours) -> Result<Vec<usize>, AllocError>
    ensures exact { IfOk result (λ places. (k : ℕ) → Contains places.items k ↔ Hides hours.now.rules.items k) }
    ensures in_order { IfOk result (λ places. IsStrictlyIncreasing places.items) }
{
    let mut places = hiders(alloc, hours.rules.as_slice())?;
    places.sort_unstable();
    places.dedup();
    Ok(places)
}
