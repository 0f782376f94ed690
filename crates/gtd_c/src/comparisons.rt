//! Whether two domains have the same seconds.

ghost use Rattle.std.specs.Prelude.{◌≡◌, ◌≤◌};
ghost use Rattle.gtd_core.specs.Seconds.{IsMomentSecond};
ghost use Rattle.gtd_handles.specs.Answers.{IsRange, gtd_kind, gtd_no, gtd_year, gtd_yes};
ghost use Rattle.gtd_c.specs.Comparisons.{AreApart, AreSame, AreSameUntil2700, OfDomains, apart_numbers, side_number};
ghost use Rattle.gtd_handles.specs.Handles.{OfDomain};
ghost use Rattle.gtd_handles.specs.Holding.{thing_of};

use crate::horizons::is_moment;
use gtd_core::{Domain, Sec};
use gtd_difference::{Apart, Comparison, Side, compare};
use gtd_handles::{Handle, KIND, MEMORY, NO, RANGE, Thing, YEAR, YES};
use std::alloc::Global;

/// A second that one of two domains has alone, as numbers.
#[repr(C)]
#[derive(Clone, Copy, Debug, PartialEq, Eq)]
pub struct ApartNumbers {
    /// The second.
    pub second: i64,
    /// The domain that has it: 1 for the first, 2 for the second.
    pub domain: u32,
}

// The number of one of two domains.
fn number_of(side: Side) -> u32
    ensures number { result ≡ side_number side }
{
    match side {
        Side::First => 1,
        Side::Second => 2,
    }
}

// The numbers of a second that one of two domains has alone.
fn numbers_of(apart: Apart) -> ApartNumbers
    ensures numbers { result ≡ apart_numbers apart }
{
    ApartNumbers {
        second: apart.second.0,
        domain: number_of(apart.side),
    }
}

// How two domains compare from the second on.
fn comparison_of(
    alloc: Global,
    first: &Domain,
    second: &Domain,
    from: i64,
    apart: &mut ApartNumbers,
) -> u32
    ensures same { (result ≡ gtd_yes) → AreSame first.now second.now from }
    ensures same_until_2700 { (result ≡ gtd_year) → AreSameUntil2700 first.now second.now from }
    ensures apart { (result ≡ gtd_no) → AreApart first.now second.now from apart.new }
    ensures range { IsRange (IsMomentSecond from) result }
    ensures answers { (result ≤ gtd_year) × ((result ≡ gtd_kind) → ⊥) }
    ensures untouched { ((result ≡ gtd_no) → ⊥) → apart.new ≡ apart.old }
{
    if !is_moment(from) {
        return RANGE;
    }
    match compare(alloc, first, second, Sec(from)) {
        Ok(Comparison::Same) => YES,
        Ok(Comparison::SameUntil2700) => YEAR,
        Ok(Comparison::Apart(found)) => {
            *apart = numbers_of(found);
            NO
        }
        Err(_) => MEMORY,
    }
}

// How a domain compares with the one that a handle stands for.
fn comparison_with(
    alloc: Global,
    first: &Domain,
    second: &mut Handle,
    from: i64,
    apart: &mut ApartNumbers,
) -> u32
    ensures kept { thing_of second.new ≡ thing_of second.old }
    ensures same { OfDomain (thing_of second.old) result
        (λ other. (result ≡ gtd_yes) → AreSame first.now other from) }
    ensures same_until_2700 { OfDomain (thing_of second.old) result
        (λ other. (result ≡ gtd_year) → AreSameUntil2700 first.now other from) }
    ensures apart { OfDomain (thing_of second.old) result
        (λ other. (result ≡ gtd_no) → AreApart first.now other from apart.new) }
    ensures range { OfDomain (thing_of second.old) result (λ other. IsRange (IsMomentSecond from) result) }
    ensures answers { OfDomain (thing_of second.old) result (λ other. (result ≤ gtd_year) × ((result ≡ gtd_kind) → ⊥)) }
    ensures untouched { ((result ≡ gtd_no) → ⊥) → apart.new ≡ apart.old }
{
    let Some(thing) = second.take(alloc) else {
        return KIND;
    };
    let answer = match &*thing {
        Thing::Domain(second) => comparison_of(alloc, first, second, from, apart),
        _ => KIND,
    };
    *second = Handle::of(thing);
    answer
}

/// Whether two domains have the same seconds. Yes: each second of all time is in both or in neither, and no start gives a year.
/// By its year: a start of one of them gives a year, and each second from the given one on and before 2700-01-01 is in both or
/// in neither. No: the first second from the given one on that one of them has alone, and which. The second must be from 1901
/// to 2199.
#[unsafe(no_mangle)]
pub extern "C" fn gtd_same(
    alloc: Global,
    first: &mut Handle,
    second: &mut Handle,
    from: i64,
    apart: &mut ApartNumbers,
) -> u32
    ensures first_kept { thing_of first.new ≡ thing_of first.old }
    ensures second_kept { thing_of second.new ≡ thing_of second.old }
    ensures same { OfDomains (thing_of first.old) (thing_of second.old) result
        (λ one other. (result ≡ gtd_yes) → AreSame one other from) }
    ensures same_until_2700 { OfDomains (thing_of first.old) (thing_of second.old) result
        (λ one other. (result ≡ gtd_year) → AreSameUntil2700 one other from) }
    ensures apart { OfDomains (thing_of first.old) (thing_of second.old) result
        (λ one other. (result ≡ gtd_no) → AreApart one other from apart.new) }
    ensures range { OfDomains (thing_of first.old) (thing_of second.old) result
        (λ one other. IsRange (IsMomentSecond from) result) }
    ensures answers { OfDomains (thing_of first.old) (thing_of second.old) result
        (λ one other. (result ≤ gtd_year) × ((result ≡ gtd_kind) → ⊥)) }
    ensures untouched { ((result ≡ gtd_no) → ⊥) → apart.new ≡ apart.old }
{
    let Some(thing) = first.take(alloc) else {
        return KIND;
    };
    let answer = match &*thing {
        Thing::Domain(first) => comparison_with(alloc, first, second, from, apart),
        _ => KIND,
    };
    *first = Handle::of(thing);
    answer
}
