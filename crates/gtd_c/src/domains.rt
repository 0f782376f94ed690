//! Domains.

ghost use Rattle.std.specs.Prelude.{◌≡◌, ◌≤◌, ◌↔◌, ◌⊎◌, IfOk, IfErr, None};
ghost use Rattle.gtd_core.specs.Horizons.{IsHorizon};
ghost use Rattle.gtd_core.specs.Seconds.{IsHorizonSecond, IsMomentSecond};
ghost use Rattle.gtd_core.specs.Parts.{domain_tree};
ghost use Rattle.gtd_eval.specs.Ever.{IsFirstChange};
ghost use Rattle.gtd_eval.specs.Cursors.{cursor_list};
ghost use Rattle.gtd_eval.specs.Membership.{InDomain, SomeGivesYear};
ghost use Rattle.gtd_spans.specs.Normal.{IsNormalFor};
ghost use Rattle.gtd_handles.specs.Answers.{IsRange, IsWhether, day_begin, gtd_kind};
ghost use Rattle.gtd_handles.specs.Answers.{gtd_memory, gtd_no, gtd_range, gtd_year, gtd_yes};
ghost use Rattle.gtd_c.specs.Changes.{StaysEver};
ghost use Rattle.gtd_c.specs.Faults.{IsFirstFault};
ghost use Rattle.gtd_handles.specs.Handles.{AreSpansOf, IsDomainOf, OfDomain};
ghost use Rattle.gtd_handles.specs.Holding.{thing_of};

use crate::faults::{FaultNumbers, numbers_of};
use crate::horizons::{is_moment, is_second};
use gtd_core::{Domain, Fault, Horizon, Sec};
use gtd_eval::{EverFault, KeptCursor, holds, next_change_ever};
use gtd_handles::{Handle, KIND, MEMORY, NO, RANGE, Thing, YEAR, YES, open, open_spans};
use gtd_text::read_domain;
use std::alloc::Global;

/// Opens the domain of a text: yes; or no, with the first fault of the text, and the handle is left as it was.
#[unsafe(no_mangle)]
pub extern "C" fn gtd_domain_open(
    alloc: Global,
    domain: &mut Handle,
    text: &[u8],
    fault: &mut FaultNumbers,
) -> u32
    ensures opened { (result ≡ gtd_yes) → IsDomainOf text.now (thing_of domain.new) }
    ensures refused { (result ≡ gtd_no) → IsFirstFault text.now fault.new }
    ensures kept { (result ≡ gtd_no) → thing_of domain.new ≡ thing_of domain.old }
    ensures emptied { (result ≡ gtd_memory) → thing_of domain.new ≡ None }
    ensures untouched { ((result ≡ gtd_no) → ⊥) → fault.new ≡ fault.old }
    ensures answers { (result ≤ gtd_memory) × ((result ≡ gtd_range) → ⊥) × ((result ≡ gtd_kind) → ⊥) }
{
    match read_domain(alloc, text) {
        Ok(read) => open(alloc, domain, Thing::Domain(read)),
        Err(why) => match why.kind {
            Fault::NoMemory => {
                *domain = Handle::none(alloc);
                MEMORY
            }
            _ => {
                *fault = numbers_of(why);
                NO
            }
        },
    }
}

// Whether the domain contains the second.
fn holds_at(domain: &Domain, second: i64) -> u32
    ensures holds { IsWhether (IsHorizonSecond second) (InDomain domain.now second) result }
{
    if !is_second(second) {
        return RANGE;
    }
    if holds(domain, Sec(second)) { YES } else { NO }
}

/// Whether the domain contains the second.
#[unsafe(no_mangle)]
pub extern "C" fn gtd_domain_holds(alloc: Global, domain: &mut Handle, second: i64) -> u32
    ensures kept { thing_of domain.new ≡ thing_of domain.old }
    ensures holds { OfDomain (thing_of domain.old) result
        (λ found. IsWhether (IsHorizonSecond second) (InDomain found second) result) }
{
    let Some(thing) = domain.take(alloc) else {
        return KIND;
    };
    let answer = match &*thing {
        Thing::Domain(domain) => holds_at(domain, second),
        _ => KIND,
    };
    *domain = Handle::of(thing);
    answer
}

// The next change, however late.
fn ever_of(alloc: Global, domain: &Domain, second: i64, change: &mut i64) -> u32
    ensures change { (result ≡ gtd_yes) → IsFirstChange (InDomain domain.now) second change.new }
    ensures none { (result ≡ gtd_no) → StaysEver (InDomain domain.now) second }
    ensures range { IsRange (IsMomentSecond second) result }
    ensures year { (result ≡ gtd_year) ↔ (IsMomentSecond second × SomeGivesYear (domain_tree domain.now)) }
    ensures answers { (result ≤ gtd_year) × ((result ≡ gtd_kind) → ⊥) }
    ensures untouched { ((result ≡ gtd_yes) → ⊥) → change.new ≡ change.old }
{
    if !is_moment(second) {
        return RANGE;
    }
    match next_change_ever(alloc, domain, Sec(second)) {
        Ok(Some(found)) => {
            *change = found.0;
            YES
        }
        Ok(None) => NO,
        Err(EverFault::HasYear) => YEAR,
        Err(EverFault::NoMemory) => MEMORY,
    }
}

/// The first later second, however late, at which membership in the domain changes: yes, and that second; or no, if there is
/// none. The second must be from 1901 to 2199. A domain of which a start gives a year is answered by its year.
#[unsafe(no_mangle)]
pub extern "C" fn gtd_domain_ever(
    alloc: Global,
    domain: &mut Handle,
    second: i64,
    change: &mut i64,
) -> u32
    ensures kept { thing_of domain.new ≡ thing_of domain.old }
    ensures change { OfDomain (thing_of domain.old) result
        (λ found. (result ≡ gtd_yes) → IsFirstChange (InDomain found) second change.new) }
    ensures none { OfDomain (thing_of domain.old) result
        (λ found. (result ≡ gtd_no) → StaysEver (InDomain found) second) }
    ensures range { OfDomain (thing_of domain.old) result (λ found. IsRange (IsMomentSecond second) result) }
    ensures year { OfDomain (thing_of domain.old) result
        (λ found. (result ≡ gtd_year) ↔ (IsMomentSecond second × SomeGivesYear (domain_tree found))) }
    ensures answers { OfDomain (thing_of domain.old) result (λ found. (result ≤ gtd_year) × ((result ≡ gtd_kind) → ⊥)) }
    ensures untouched { ((result ≡ gtd_yes) → ⊥) → change.new ≡ change.old }
{
    let Some(thing) = domain.take(alloc) else {
        return KIND;
    };
    let answer = match &*thing {
        Thing::Domain(domain) => ever_of(alloc, domain, second, change),
        _ => KIND,
    };
    *domain = Handle::of(thing);
    answer
}

// The spans of the domain's seconds over the days, or why there are none.
fn spans_of(
    alloc: Global,
    domain: &Domain,
    from_day: i64,
    until_day: i64,
) -> Result<KeptCursor, u32>
    ensures spans { IfOk result
        (λ c. IsNormalFor (InDomain domain.now) (day_begin from_day) (day_begin until_day) (cursor_list c)) }
    ensures refused { IfErr result (λ why. ((why ≡ gtd_range) × (IsHorizon from_day until_day → ⊥))
        ⊎ ((why ≡ gtd_memory) × IsHorizon from_day until_day)) }
    ensures ranged { IfOk result (λ c. IsHorizon from_day until_day) }
{
    let Ok(horizon) = Horizon::new(from_day, until_day) else {
        return Err(RANGE);
    };
    match KeptCursor::open(alloc, domain, horizon) {
        Ok(cursor) => Ok(cursor),
        Err(_) => Err(MEMORY),
    }
}

/// Opens the spans of the domain's seconds from a day up to another, which is not included.
#[unsafe(no_mangle)]
pub extern "C" fn gtd_domain_spans(
    alloc: Global,
    domain: &mut Handle,
    from_day: i64,
    until_day: i64,
    spans: &mut Handle,
) -> u32
    ensures kept { thing_of domain.new ≡ thing_of domain.old }
    ensures spans { (result ≡ gtd_yes) → OfDomain (thing_of domain.old) result
        (λ found. AreSpansOf (InDomain found) from_day until_day (thing_of spans.new)) }
    ensures range { OfDomain (thing_of domain.old) result (λ found. IsRange (IsHorizon from_day until_day) result) }
    ensures emptied { (result ≡ gtd_memory) → thing_of spans.new ≡ None }
    ensures untouched { ((result ≡ gtd_yes) → ⊥) → ((result ≡ gtd_memory) → ⊥) → thing_of spans.new ≡ thing_of spans.old }
    ensures answers { (result ≤ gtd_memory) × ((result ≡ gtd_no) → ⊥) }
{
    let Some(thing) = domain.take(alloc) else {
        return KIND;
    };
    let opened = match &*thing {
        Thing::Domain(domain) => spans_of(alloc, domain, from_day, until_day),
        _ => Err(KIND),
    };
    *domain = Handle::of(thing);
    open_spans(alloc, spans, opened)
}
