//! Whether two ends are in the same order each year.

ghost use Rattle.std.specs.Prelude.{◌≡◌, ◌↔◌, ◌||◌, ◌≤◌, ◌<◌, ◌+ℤ◌, ◌≤ℤ◌, ◌<ℤ◌, if◌then◌else◌, true, ℕ, ℤ, pos};
ghost use Rattle.std.specs.Prelude.{IfSome, IsSome, IsTrue, Bool};
ghost use Rattle.gtd_hours.specs.Moving.{IsMoving, is_place, is_yearly, last_year};
ghost use Rattle.gtd_hours.specs.ComputedPlaces.{IsInOrder, end_day};

use crate::ends::{end_day, is_place, is_yearly};
use crate::moving::Moving;
use crate::places::End;

// Each year has the months and weekdays of one of the 28 years from this one on, and so has the year behind it.
const FIRST_YEAR: u16 = 2000;

const YEARS: u16 = 28;

// Whether the ends are days of each year, and one of them moves.
fn are_ends(first: End, last: End) -> bool
    ensures { IsTrue result ↔ ((is_yearly first ≡ true) × (is_yearly last ≡ true)
        × ((is_place first || is_place last) ≡ true)) }
{
    is_yearly(first) && is_yearly(last) && (is_place(first) || is_place(last))
}

fn is_before(a: i64, b: i64) -> bool
    ensures { IsTrue result ↔ (a <ℤ b) }
{
    a < b
}

// Whether the last end of a year comes before the first one.
fn comes_before(first: End, last: End, year: u16) -> bool
    requires year { (1800 ≤ year) × (year ≤ 2799) }
    requires first_in { is_yearly first ≡ true }
    requires last_in { is_yearly last ≡ true }
    ensures { IsTrue result ↔ (end_day last (pos year) <ℤ end_day first (pos year)) }
{
    is_before(end_day(last, year), end_day(first, year))
}

// The year of the last day of a range that begins in a year.
fn last_year(is_over: bool, year: u16) -> u16
    requires { (1800 ≤ year) × (year ≤ 2798) }
    ensures value { pos result ≡ last_year is_over (pos year) }
    ensures range { (1800 ≤ result) × (result ≤ 2799) }
{
    if is_over { year + 1 } else { year }
}

fn are_ordered(begin: i64, end: i64, next: i64) -> bool
    ensures { IsTrue result ↔ ((begin ≤ℤ end) × (end <ℤ next)) }
{
    begin <= end && end < next
}

// Whether the range that begins in a year is in order.
fn is_in_order(is_over: bool, first: End, last: End, year: u16) -> bool
    requires year { (1800 ≤ year) × (year ≤ 2798) }
    requires first_in { is_yearly first ≡ true }
    requires last_in { is_yearly last ≡ true }
    ensures { IsTrue result ↔ IsInOrder is_over first last (pos year) }
{
    are_ordered(
        end_day(first, year),
        end_day(last, last_year(is_over, year)),
        end_day(first, year + 1),
    )
}

// Whether the ranges of all years are in order.
fn are_in_order(is_over: bool, first: End, last: End) -> bool
    requires first_in { is_yearly first ≡ true }
    requires last_in { is_yearly last ≡ true }
    ensures { IsTrue result ↔ ((y : ℤ) → IsInOrder is_over first last y) }
{
    for year in FIRST_YEAR..FIRST_YEAR + YEARS {
        if !is_in_order(is_over, first, last, year) {
            return false;
        }
    }
    true
}

impl Moving {
    ghost use Rattle.std.specs.Prelude.{◌≡◌, ◌↔◌, Bool, IfSome, IsSome};
    ghost use Rattle.gtd_hours.specs.Moving.{IsMoving};

    /// The range from a day of each year to another, which is of the next year if it comes before the first. `None` exactly if
    /// neither is a place of a weekday, one is 29 February, or their order is not the same in each year: the first day must
    /// not be after the last one, and this must be before the next first one. Each year has the months and weekdays of one of 28
    /// years, so these are looked at. Takes no memory.
    pub fn new(first: End, last: End) -> Option<Moving>
        ensures kept { IfSome result (λ x. (x.first ≡ first) × (x.last ≡ last)) }
        ensures accepted { IsSome result ↔ ((over : Bool) × IsMoving over first last) }
    {
        if !are_ends(first, last) {
            return None;
        }
        let is_over = comes_before(first, last, FIRST_YEAR);
        if !are_in_order(is_over, first, last) {
            return None;
        }
        Some(Moving {
            first,
            last,
            is_over,
        })
    }
}
