//! Ranges of years, weeks, months and weekdays.

ghost use Rattle.std.specs.Prelude.{◌≡◌, ◌↔◌, ◌≤◌, IfSome, IsSome, true};
ghost use Rattle.gtd_hours.specs.Ranges.{IsMonth, IsWeekday};
ghost use Rattle.gtd_hours_parts.specs.Numbers.{IsStepNumber, IsWeekNumber, IsYearNumber, last_of, step_of};
ghost use Rattle.gtd_hours_parts.specs.Pieces.{AreFewYears};

use crate::digits::Digits;
use gtd_hours::{Months, Weekdays, Weeks, Years};

// The step of a range: 1 if none is written.
fn step_of(step: Option<Digits>) -> Option<u16>
    ensures kept { IfSome result (λ x. x ≡ step_of step) }
    ensures accepted { IsSome result ↔ IfSome step IsStepNumber }
{
    match step {
        None => Some(1),
        Some(step) => step.step(),
    }
}

/// `2024`: one year, or `None` exactly if the number is no year.
pub fn one_year(year: Digits) -> Option<Years>
    ensures kept { IfSome result (λ x. (x.first ≡ year.value) × (x.last ≡ year.value) × (x.step ≡ 1)) }
    ensures accepted { IsSome result ↔ IsYearNumber year }
{
    let number = year.year()?;
    Years::new(number, number, 1)
}

/// `2024-2030/2`: a range of years, each one if no step is written. `None` exactly if a number does not fit or the last year
/// comes before the first.
pub fn years(first: Digits, last: Digits, step: Option<Digits>) -> Option<Years>
    ensures kept { IfSome result (λ x. (x.first ≡ first.value) × (x.last ≡ last.value) × (x.step ≡ step_of step)) }
    ensures accepted { IsSome result
        ↔ (IsYearNumber first × IsYearNumber last × IfSome step IsStepNumber × (first.value ≤ last.value)) }
{
    let first_year = first.year()?;
    let last_year = last.year()?;
    let step = step_of(step)?;
    Years::new(first_year, last_year, step)
}

/// `week 10`: one week, or `None` exactly if the number is no week.
pub fn one_week(week: Digits) -> Option<Weeks>
    ensures kept { IfSome result (λ x. (x.first ≡ week.value) × (x.last ≡ week.value) × (x.step ≡ 1)) }
    ensures accepted { IsSome result ↔ IsWeekNumber week }
{
    let number = week.week()?;
    Weeks::new(number, number, 1)
}

/// `week 10-20/2`: a range of weeks, each one if no step is written. `None` exactly if a number does not fit or the last week
/// comes before the first.
pub fn weeks(first: Digits, last: Digits, step: Option<Digits>) -> Option<Weeks>
    ensures kept { IfSome result (λ x. (x.first ≡ first.value) × (x.last ≡ last.value) × (x.step ≡ step_of step)) }
    ensures accepted { IsSome result
        ↔ (IsWeekNumber first × IsWeekNumber last × IfSome step IsStepNumber × (first.value ≤ last.value)) }
{
    let first_week = first.week()?;
    let last_week = last.week()?;
    let step = step_of(step)?;
    Weeks::new(first_week, last_week, step)
}

/// `Apr`, `Apr-Sep`: one month, or a range of months that may go over the end of the year. `None` exactly if one is not from
/// 1 to 12.
pub fn months(first: u8, last: Option<u8>) -> Option<Months>
    ensures kept { IfSome result (λ x. (x.first ≡ first) × (x.last ≡ last_of first last)) }
    ensures accepted { IsSome result ↔ (IsMonth first × IfSome last IsMonth) }
{
    match last {
        None => Months::new(first, first),
        Some(last) => Months::new(first, last),
    }
}

/// `Mo`, `Mo-Fr`: one weekday, or a range of weekdays that may go over the end of the week. `None` exactly if one is not from
/// 1, which is Sunday, to 7.
pub fn weekdays(first: u8, last: Option<u8>) -> Option<Weekdays>
    ensures kept { IfSome result (λ x. (x.first ≡ first) × (x.last ≡ last_of first last)) }
    ensures accepted { IsSome result ↔ (IsWeekday first × IfSome last IsWeekday) }
{
    match last {
        None => Weekdays::new(first, first),
        Some(last) => Weekdays::new(first, last),
    }
}

/// `2026/8`: whether every so many years from one to the last of the calendar are few enough for a domain, which holds 128 of
/// them.
pub fn are_few_years(first: Digits, step: Digits) -> bool
    ensures { (result ≡ true) ↔ AreFewYears first step }
{
    step.step().is_some() && 2799 < u32::from(first.value) + 128 * u32::from(step.value)
}
