//! The days of a year.

ghost use Rattle.std.specs.Prelude.{◌≡◌, ◌≤◌, ◌-◌, ◌+ℤ◌, ◌-ℤ◌, ◌≤ℤ◌, pos, unsigned_abs};
ghost use Rattle.std.specs.Int.{IsInRange};
ghost use Rattle.gtd_calendar.specs.Calendar.{days_of_months, first_day, year_length};
ghost use Rattle.gtd_core.specs.Whole.{from_day, to_day};

use crate::day::day_of;
use gtd_core::Horizon;

/// The first day of a month of a year from 1901 to 2200.
pub fn first_of_month(year: u16, month: u8) -> i64
    requires year { (1901 ≤ year) × (year ≤ 2200) }
    requires month { IsInRange 1 12 month }
    ensures day { result ≡ first_day (pos year) +ℤ pos (days_of_months (pos year) (month - 1)) }
{
    match day_of(i64::from(year), month, 1) {
        Some(day) => day,
        None => unreachable!(),
    }
}

/// The day of 1 January of a year from 1901 to 2200.
pub fn new_year(year: u16) -> i64
    requires year { (1901 ≤ year) × (year ≤ 2200) }
    ensures day { result ≡ first_day (pos year) }
{
    first_of_month(year, 1)
}

/// The days of a year from 1901 to 2199.
pub fn days_of_year(year: u16) -> Horizon
    requires year { (1901 ≤ year) × (year ≤ 2199) }
    ensures first { from_day result ≡ first_day (pos year) }
    ensures next { to_day result ≡ first_day (pos year) +ℤ pos (year_length (pos year)) }
{
    match Horizon::new(new_year(year), new_year(year + 1)) {
        Ok(days) => days,
        Err(_) => unreachable!(),
    }
}

// How many days a day is after another, of which it is not before and at most 366 days after.
fn days_from(first: i64, day: i64) -> u16
    requires order { first ≤ℤ day }
    requires near { day ≤ℤ (first +ℤ pos 366) }
    ensures value { result ≡ unsigned_abs (day -ℤ first) }
{
    (day - first) as u16
}

/// How many days a year from 1901 to 2199 has.
pub fn length_of_year(year: u16) -> u16
    requires year { (1901 ≤ year) × (year ≤ 2199) }
    ensures value { result ≡ year_length (pos year) }
{
    days_from(new_year(year), new_year(year + 1))
}

/// How many days of a year from 1901 to 2199 come before a month.
pub fn days_before_month(year: u16, month: u8) -> u16
    requires year { (1901 ≤ year) × (year ≤ 2199) }
    requires month { IsInRange 1 12 month }
    ensures value { result ≡ days_of_months (pos year) (month - 1) }
{
    days_from(new_year(year), first_of_month(year, month))
}
