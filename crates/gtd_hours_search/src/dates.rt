//! Where a stretch of months and days ends, as a date of each year.

ghost use Rattle.std.specs.Prelude.{◌≡◌, ◌⊎◌, ◌+◌, ◌<◌, ◌≤◌, ℕ};
ghost use Rattle.std.specs.Option.{IsSomeAnd};
ghost use Rattle.gtd_hours.specs.Cost.{IsOneStretch, common_length, month_after};
ghost use Rattle.gtd_hours.specs.Ranges.{IsMonth};
ghost use Rattle.gtd_hours.specs.declared.hours.MonthDay.{MonthDay};
ghost use Rattle.gtd_hours_search.specs.Forms.{IsMonthCount, IsStretch};

use gtd_hours::{Dates, MonthDay, Months};

const MONTHS_OF_YEAR: u8 = 12;

// A stretch that is a range of dates has fewer days after its months.
const MOST_DAYS: u32 = 100;

// The month that comes so many months later.
fn month_later(month: u8, months: u8) -> u8
    requires month_in { (1 ≤ month) × (month ≤ 12) }
    requires few { months ≤ 12 }
    ensures range { (1 ≤ result) × (result ≤ 12) }
    ensures value { (result ≡ month + months) ⊎ (result + 12 ≡ month + months) }
{
    (month - 1 + months) % MONTHS_OF_YEAR + 1
}

// How many days each month of that number has at least.
fn shortest(month: u8) -> u8
    ensures range { (28 ≤ result) × (result ≤ 31) }
    ensures value { result ≡ common_length month }
{
    match month {
        2 => 28,
        4 | 6 | 9 | 11 => 30,
        _ => 31,
    }
}

/// So many months from one on.
pub fn months_from(month: u8, count: u32) -> Option<Months>
    ensures { (last : ℕ) → IsMonth month → IsMonth last → IsMonthCount month last count
        → IsSomeAnd result (λ x. (x.first ≡ month) × (x.last ≡ last)) }
{
    if month == 0 || month > MONTHS_OF_YEAR || count == 0 || count > 12 {
        return None;
    }
    Months::new(month, month_later(month, count as u8 - 1))
}

/// The dates from one on, for some months and then some days.
pub fn dates_from(month: u8, day: u8, months: u32, days: u32) -> Option<Dates>
    ensures { (first last : MonthDay) → month ≡ first.month → day ≡ first.day → months ≤ 12
        → IsOneStretch first last → IsStretch first last months days
        → IsSomeAnd result (λ x. (x.first.month ≡ first.month) × (x.first.day ≡ first.day)
        × (x.last.month ≡ last.month) × (x.last.day ≡ last.day)) }
{
    if month == 0 || month > MONTHS_OF_YEAR || months > 12 || days > MOST_DAYS {
        return None;
    }
    let first = MonthDay::new(month, day)?;
    if months == 0 && days == 1 {
        return Some(Dates { first, last: first });
    }
    let last = last_date(month_later(month, months as u8), u32::from(day) + days)?;
    Some(Dates { first, last })
}

// The date before a day of a month, which may lie in the next month.
fn last_date(month: u8, end: u32) -> Option<MonthDay>
    requires month_in { (1 ≤ month) × (month ≤ 12) }
    requires small { end ≤ 400 }
    ensures within { 2 ≤ end → end ≤ common_length month + 1
        → IsSomeAnd result (λ x. (x.month ≡ month) × (x.day + 1 ≡ end)) }
    ensures later { common_length month + 1 < end → end ≤ common_length month + common_length (month_after month) + 1
        → IsSomeAnd result (λ x. (x.month ≡ month_after month) × (common_length month + x.day + 1 ≡ end)) }
{
    let length = u32::from(shortest(month));
    if end <= 1 {
        return None;
    }
    if end <= length + 1 {
        return MonthDay::new(month, end as u8 - 1);
    }
    if end - length > 40 {
        return None;
    }
    MonthDay::new(month_later(month, 1), (end - length) as u8 - 1)
}
