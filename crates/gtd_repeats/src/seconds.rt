//! Whether two rows close at the same seconds, and whether one closes at no second at which the other does not.

ghost use Rattle.std.specs.Prelude.{◌≡◌, ◌↔◌, ◌-ℤ◌, ℤ, pos, IfOk, IfSome, IsTrue, option_map};
ghost use Rattle.gtd_core.specs.Parts.{domain_tree};
ghost use Rattle.gtd_core.specs.Seconds.{IsHorizonSecond, Within};
ghost use Rattle.gtd_core.specs.Whole as spec;
ghost use Rattle.gtd_core.specs.Whole.{whole};
ghost use Rattle.gtd_core.specs.Horizons.{IsHorizon};
ghost use Rattle.gtd_difference.specs.Difference.{IsHeldSpan};
ghost use Rattle.gtd_eval.specs.Membership.{InDomain};
ghost use Rattle.gtd_records.specs.Closing.{HoldsAt};
ghost use Rattle.gtd_repeats.specs.Sameness.{HoldSame, HoldsWithin};

use gtd_core::limits::{FIRST_HORIZON_DAY, FIRST_MOMENT, HORIZONS_END, MOST_HORIZON_DAYS};
use gtd_core::{Domain, Horizon, Sec, Span};
use gtd_difference::{Comparison, compare, is_within};
use gtd_eval::{holds, next_change};
use std::alloc::{AllocError, Global};

// 2016-01-01T00:00:00; a week, 13 hours, 25 minutes and 23 seconds; and how many such steps are two years.
const SEEN_FROM: i64 = 1_451_606_400;

const SEEN_STEP: u32 = 653_123;

const SEEN_SECONDS: u32 = 96;

// The days from one up to but not including another.
pub(crate) fn days_between(from_day: i64, to_day: i64) -> Horizon
    requires days { IsHorizon from_day to_day }
    ensures first { spec.from_day result ≡ from_day }
    ensures last { spec.to_day result ≡ to_day }
{
    match Horizon::new(from_day, to_day) {
        Ok(days) => days,
        Err(_) => unreachable!(),
    }
}

// Whether the domain contains each second of the days.
fn is_always_on(alloc: Global, domain: &Domain, days: Horizon) -> Result<bool, AllocError>
    ensures always { IfOk result (λ always. IsTrue always
        ↔ ((t : ℤ) → Within (whole days) t → InDomain domain.now t)) }
{
    let _ = days.whole();
    if !holds(domain, days.from()) {
        return Ok(false);
    }
    let change = next_change(alloc, domain, days.from(), days)?;
    Ok(change.is_none())
}

// Whether the domain contains each second from 1901-01-01 to 2699-12-31, of which a horizon has at most half.
fn is_always(alloc: Global, domain: &Domain) -> Result<bool, AllocError>
    ensures always { IfOk result (λ always. IsTrue always
        ↔ ((t : ℤ) → IsHorizonSecond t → InDomain domain.now t)) }
{
    let middle = FIRST_HORIZON_DAY + MOST_HORIZON_DAYS;
    if !is_always_on(alloc, domain, days_between(FIRST_HORIZON_DAY, middle))? {
        return Ok(false);
    }
    is_always_on(alloc, domain, days_between(middle, HORIZONS_END))
}

// Whether at one of some seconds of two years one of the domains alone holds: most that differ are told apart by these. They are
// at many hours, and some in each month.
fn are_seen_apart(first: &Domain, second: &Domain) -> bool
    ensures apart { IsTrue result
        → ((t : ℤ) → IsHorizonSecond t → InDomain first.now t ↔ InDomain second.now t) → ⊥ }
{
    for k in 0..SEEN_SECONDS {
        let seen = Sec(SEEN_FROM + i64::from(k * SEEN_STEP));
        if holds(first, seen) != holds(second, seen) {
            return true;
        }
    }
    false
}

// Whether the domains contain the same seconds from 1901-01-01 to 2699-12-31.
fn are_same(alloc: Global, first: &Domain, second: &Domain) -> Result<bool, AllocError>
    ensures same { IfOk result (λ same. IsTrue same
        ↔ ((t : ℤ) → IsHorizonSecond t → InDomain first.now t ↔ InDomain second.now t)) }
{
    if are_seen_apart(first, second) {
        return Ok(false);
    }
    match compare(alloc, first, second, Sec(FIRST_MOMENT))? {
        Comparison::Same => Ok(true),
        Comparison::SameUntil2700 => Ok(true),
        Comparison::Apart(_) => Ok(false),
    }
}

// The same of domains that may not be given, which stand for every second.
fn hold_same_apart(
    alloc: Global,
    first: Option<&Domain>,
    second: Option<&Domain>,
) -> Result<bool, AllocError>
    ensures same { IfOk result (λ same. IsTrue same
        ↔ HoldSame (option_map (λ d. domain_tree d.now) first.entry) (option_map (λ d. domain_tree d.now) second.entry)) }
{
    match first {
        Some(domain) => match second {
            Some(other) => are_same(alloc, domain, other),
            None => is_always(alloc, domain),
        },
        None => match second {
            Some(other) => is_always(alloc, other),
            None => Ok(true),
        },
    }
}

/// Whether two rows have the same text, after it is made canonical: the same domain, or both none.
pub(crate) fn have_same_text(first: Option<&Domain>, second: Option<&Domain>) -> bool
    ensures same { IsTrue result
        ↔ (option_map (λ d. domain_tree d.now) first.entry ≡ option_map (λ d. domain_tree d.now) second.entry) }
{
    match first {
        Some(domain) => match second {
            Some(other) => *domain == *other,
            None => false,
        },
        None => second.is_none(),
    }
}

/// Whether two rows close at the same seconds from 1901-01-01 to 2699-12-31. A row without a domain always closes.
pub(crate) fn hold_same(
    alloc: Global,
    first: Option<&Domain>,
    second: Option<&Domain>,
) -> Result<bool, AllocError>
    ensures same { IfOk result (λ same. IsTrue same
        ↔ HoldSame (option_map (λ d. domain_tree d.now) first.entry) (option_map (λ d. domain_tree d.now) second.entry)) }
{
    if have_same_text(first, second) {
        return Ok(true);
    }
    hold_same_apart(alloc, first, second)
}

// The last second of a span.
fn last_of(span: &Span) -> Sec
    ensures value { result.0 ≡ span.now.until -ℤ pos 1 }
{
    let _ = span.from();
    Sec(span.until().0 - 1)
}

/// Whether another row is open at the first or at the last second of a span of a row's seconds, if one is given.
pub(crate) fn is_end_alone(
    domain: Option<&Domain>,
    other: Option<&Domain>,
    span: &Option<Span>,
) -> bool
    requires held { IfSome span.now (IsHeldSpan (HoldsAt (option_map (λ d. domain_tree d.now) domain))) }
    ensures alone { IsTrue result
        → HoldsWithin (option_map (λ d. domain_tree d.now) domain.entry) (option_map (λ d. domain_tree d.now) other.entry)
        → ⊥ }
{
    let Some(span) = span else {
        return false;
    };
    let Some(other) = other else {
        return false;
    };
    !holds(other, span.from()) || !holds(other, last_of(span))
}

/// Whether a row closes at no second from 1901-01-01 to 2699-12-31 at which another does not.
pub(crate) fn holds_within(
    alloc: Global,
    domain: Option<&Domain>,
    other: Option<&Domain>,
) -> Result<bool, AllocError>
    ensures within { IfOk result (λ within. IsTrue within
        ↔ HoldsWithin (option_map (λ d. domain_tree d.now) domain.entry) (option_map (λ d. domain_tree d.now) other.entry)) }
{
    match other {
        Some(other) => match domain {
            Some(domain) => is_within(alloc, domain, other),
            None => is_always(alloc, other),
        },
        None => Ok(true),
    }
}
