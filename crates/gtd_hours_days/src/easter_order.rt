//! Whether two days of each year are in the same order in each year.

ghost use Rattle.std.specs.Prelude.{◌≡◌, ◌↔◌, ◌||◌, ◌≤◌, ◌<◌, ◌≤ℤ◌, ◌<ℤ◌, true, false, ℕ, IsTrue};
ghost use Rattle.gtd_hours.specs.Moving.{is_yearly};
ghost use Rattle.gtd_hours_days.specs.EasterRanges.{IsInNextOrder, IsInOrder, IsOrder};
ghost use Rattle.gtd_hours_days.specs.EasterRanges.{has_each_year, is_easter};

use crate::easter_range::EasterRange;
use crate::yearly_day::YearlyDay;
use crate::yearly_days::day_in;
use gtd_hours::End;

// The years of the calendar.
const FIRST_YEAR: u16 = 1800;

const LAST_YEAR: u16 = 2799;

fn is_easter(day: YearlyDay) -> bool
    ensures { result ≡ is_easter day }
{
    match day {
        YearlyDay::Calendar(_) => false,
        YearlyDay::Easter(_) => true,
    }
}

// Whether each year has a date or a place: it is not 29 February.
fn is_yearly(end: End) -> bool
    ensures { result ≡ is_yearly end }
{
    match end {
        End::Date(date) => date.month != 2 || date.day != 29,
        End::Place(_) => true,
    }
}

fn has_each_year(day: YearlyDay) -> bool
    ensures { result ≡ has_each_year day }
{
    match day {
        YearlyDay::Calendar(end) => is_yearly(end),
        YearlyDay::Easter(_) => true,
    }
}

// Whether the ends are days of each year, and one of them is of Easter.
fn are_ends(first: YearlyDay, last: YearlyDay) -> bool
    ensures { IsTrue result ↔ ((has_each_year first ≡ true) × (has_each_year last ≡ true)
        × ((is_easter first || is_easter last) ≡ true)) }
{
    has_each_year(first) && has_each_year(last) && (is_easter(first) || is_easter(last))
}

fn is_before(a: i64, b: i64) -> bool
    ensures { IsTrue result ↔ (a <ℤ b) }
{
    a < b
}

fn is_not_after(a: i64, b: i64) -> bool
    ensures { IsTrue result ↔ (a ≤ℤ b) }
{
    a <= b
}

// Whether the days of a year are in order.
fn is_order(is_over: bool, a: i64, b: i64) -> bool
    ensures { IsTrue result ↔ IsOrder is_over a b }
{
    if is_over {
        is_before(b, a)
    } else {
        is_not_after(a, b)
    }
}

// Whether the days of a year are in order.
fn is_in_order(is_over: bool, first: YearlyDay, last: YearlyDay, year: u16) -> bool
    requires year { (1800 ≤ year) × (year ≤ 2799) }
    requires first_in { has_each_year first ≡ true }
    requires last_in { has_each_year last ≡ true }
    ensures { IsTrue result ↔ IsInOrder is_over first last year }
{
    is_order(is_over, day_in(first, year), day_in(last, year))
}

// Whether a range that does not go on to the next year ends before the next one begins.
fn ends_before_next(first: YearlyDay, last: YearlyDay, year: u16) -> bool
    requires year { (1800 ≤ year) × (year < 2799) }
    requires first_in { has_each_year first ≡ true }
    requires last_in { has_each_year last ≡ true }
    ensures { IsTrue result ↔ IsInNextOrder false first last year }
{
    is_before(day_in(last, year), day_in(first, year + 1))
}

// Whether a range that goes on to the next year does not end before it begins.
fn goes_on_to_next(first: YearlyDay, last: YearlyDay, year: u16) -> bool
    requires year { (1800 ≤ year) × (year < 2799) }
    requires first_in { has_each_year first ≡ true }
    requires last_in { has_each_year last ≡ true }
    ensures { IsTrue result ↔ IsInNextOrder true first last year }
{
    is_not_after(day_in(first, year), day_in(last, year + 1))
}

// Whether they are, from a year to the next.
fn is_in_next_order(is_over: bool, first: YearlyDay, last: YearlyDay, year: u16) -> bool
    requires year { (1800 ≤ year) × (year < 2799) }
    requires first_in { has_each_year first ≡ true }
    requires last_in { has_each_year last ≡ true }
    ensures { IsTrue result ↔ IsInNextOrder is_over first last year }
{
    if is_over {
        goes_on_to_next(first, last, year)
    } else {
        ends_before_next(first, last, year)
    }
}

// Whether the days of each year are in order.
fn are_in_order(is_over: bool, first: YearlyDay, last: YearlyDay) -> bool
    requires first_in { has_each_year first ≡ true }
    requires last_in { has_each_year last ≡ true }
    ensures { IsTrue result ↔ ((y : ℕ) → 1800 ≤ y → y ≤ 2799 → IsInOrder is_over first last y) }
{
    for year in FIRST_YEAR..LAST_YEAR + 1 {
        if !is_in_order(is_over, first, last, year) {
            return false;
        }
    }
    true
}

// Whether they are, from each year to the next.
fn are_in_next_order(is_over: bool, first: YearlyDay, last: YearlyDay) -> bool
    requires first_in { has_each_year first ≡ true }
    requires last_in { has_each_year last ≡ true }
    ensures { IsTrue result ↔ ((y : ℕ) → 1800 ≤ y → y < 2799 → IsInNextOrder is_over first last y) }
{
    for year in FIRST_YEAR..LAST_YEAR {
        if !is_in_next_order(is_over, first, last, year) {
            return false;
        }
    }
    true
}

impl EasterRange {
    ghost use Rattle.std.specs.Prelude.{◌≡◌, ◌↔◌, Bool, IfSome, IsSome};
    ghost use Rattle.gtd_hours_days.specs.EasterRanges.{IsEasterRange};

    /// The range from a day of each year to another, which is of the next year if it comes before the first. `None` exactly if
    /// neither is of Easter, one is 29 February, or their order is not the same in each year from 1800 to 2799: the first day
    /// must not be after the last one, and this must be before the next first one. Takes no memory.
    pub fn new(first: YearlyDay, last: YearlyDay) -> Option<EasterRange>
        ensures kept { IfSome result (λ x. (x.first ≡ first) × (x.last ≡ last)) }
        ensures accepted { IsSome result ↔ ((over : Bool) × IsEasterRange over first last) }
    {
        if !are_ends(first, last) {
            return None;
        }
        let is_over = is_in_order(true, first, last, FIRST_YEAR);
        if !are_in_order(is_over, first, last) {
            return None;
        }
        if !are_in_next_order(is_over, first, last) {
            return None;
        }
        Some(EasterRange {
            first,
            last,
            is_over,
        })
    }
}
