//! Weekdays, as a range.

ghost use Rattle.std.specs.Prelude.{◌≡◌, ◌↔◌, ◌≤◌, ℕ, IsSome, IsTrue};
ghost use Rattle.gtd_hours_search.specs.Forms.{Begins, Ends, HasWeekday, weekday_after, weekday_before};

use gtd_hours::Weekdays;

fn has(bits: u8, weekday: u8) -> bool
    requires { (1 ≤ weekday) × (weekday ≤ 7) }
    ensures { IsTrue result ↔ HasWeekday bits weekday }
{
    (bits >> (weekday - 1)) % 2 == 1
}

fn before(weekday: u8) -> u8
    requires { (1 ≤ weekday) × (weekday ≤ 7) }
    ensures range { (1 ≤ result) × (result ≤ 7) }
    ensures value { result ≡ weekday_before weekday }
{
    if weekday == 1 { 7 } else { weekday - 1 }
}

fn after(weekday: u8) -> u8
    requires { (1 ≤ weekday) × (weekday ≤ 7) }
    ensures range { (1 ≤ result) × (result ≤ 7) }
    ensures value { result ≡ weekday_after weekday }
{
    if weekday == 7 { 1 } else { weekday + 1 }
}

// The first weekday that the day before has not.
fn first_of(bits: u8) -> u8
    ensures found { (k : ℕ) → 1 ≤ k → k ≤ 7 → Begins bits k → 1 ≤ result }
    ensures most { result ≤ 7 }
{
    for weekday in 1..8 {
        if has(bits, weekday) && !has(bits, before(weekday)) {
            return weekday;
        }
    }
    0
}

// The first weekday that the day after has not.
fn last_of(bits: u8) -> u8
    ensures found { (k : ℕ) → 1 ≤ k → k ≤ 7 → Ends bits k → 1 ≤ result }
    ensures most { result ≤ 7 }
{
    for weekday in 1..8 {
        if has(bits, weekday) && !has(bits, after(weekday)) {
            return weekday;
        }
    }
    0
}

/// The range of weekdays with these bits, from Sunday on, if they are one. Where none begins or ends a range, all of them are
/// given: from Monday to Sunday.
pub fn weekdays_of(bits: u8) -> Option<Weekdays>
    ensures { IsSome result }
{
    let first = first_of(bits);
    let last = last_of(bits);
    if first == 0 || last == 0 {
        return Weekdays::new(2, 1);
    }
    Weekdays::new(first, last)
}
