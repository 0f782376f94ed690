//! What rules need and is not given, or not known, in the order of its places.

ghost use Rattle.std.specs.Prelude.{◌≡◌};
ghost use Rattle.gtd_hours.specs.Writable.{is_fallback};
ghost use Rattle.gtd_hours_known.specs.Needs.{falls_back, first_need, need_before, not_known, unknown_before, up_to_fallback};

use crate::fault::KnownFault;
use crate::given::rule_lacks;
use crate::known::Known;
use gtd_hours::Link;
use gtd_hours_holiday_rules::HolidayRule;

fn is_fallback(link: Link) -> bool
    ensures { result ≡ is_fallback link }
{
    match link {
        Link::Fallback => true,
        Link::Instead => false,
        Link::Also => false,
    }
}

// Whether it is a fallback rule that is not unknown.
fn falls_back(rule: &HolidayRule) -> bool
    ensures { result ≡ falls_back rule.now }
{
    is_fallback(rule.link) && !rule.unknown.is_some()
}

// How many rules there are up to the last fallback rule that is not unknown.
fn up_to_fallback(rules: &[HolidayRule]) -> usize
    ensures { result ≡ up_to_fallback rules.now }
{
    let mut last = 0;
    let mut passed = 0;
    let mut rest = rules;
    while let Some((rule, more)) = rest.split_first() {
        passed += 1;
        if falls_back(rule) {
            last = passed;
        }
        rest = more;
    }
    last
}

fn not_known(place: Option<usize>) -> Option<KnownFault>
    ensures { result ≡ not_known place }
{
    match place {
        None => None,
        Some(place) => Some(KnownFault::Unknown { place }),
    }
}

// What is wrong if a rule is unknown, whether another fallback rule speaks later or not.
fn unknown_before(rule: &HolidayRule, falls_later: bool) -> Option<KnownFault>
    ensures { result ≡ unknown_before rule.now falls_later }
{
    if is_fallback(rule.link) && !falls_later {
        None
    } else {
        not_known(rule.unknown)
    }
}

// What a rule needs.
fn need_before(known: &Known, rule: &HolidayRule, falls_later: bool) -> Option<KnownFault>
    ensures { result ≡ need_before known.now rule.now falls_later }
{
    if let Some(bad) = rule_lacks(known, rule) {
        return Some(bad);
    }
    unknown_before(rule, falls_later)
}

/// What rules need first.
pub(crate) fn first_need(known: &Known, rules: &[HolidayRule]) -> Option<KnownFault>
    ensures { result ≡ first_need known.now rules.now }
{
    let mut left = up_to_fallback(rules);
    let mut rest = rules;
    while let Some((rule, more)) = rest.split_first() {
        left = left.saturating_sub(1);
        if let Some(bad) = need_before(known, rule, left > 0) {
            return Some(bad);
        }
        rest = more;
    }
    None
}
