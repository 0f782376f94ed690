//! Parts of opening hours are made only within their ranges.

ghost use Rattle.std.specs.Prelude.{◌≡◌, ◌↔◌, ◌<◌, ◌≤◌, ◌+◌, pos, IfSome, IsSome, IsTrue};
ghost use Rattle.gtd_hours.specs.Ranges.{IsDatedRange, IsMonth, IsMonthDay, IsTimeRange, IsWeekday, IsWeekdayPlace};
ghost use Rattle.gtd_hours.specs.Ranges.{IsMovable, IsWeeks, IsYearDate, IsYearlyDays, IsYears};
ghost use Rattle.gtd_calendar.specs.Calendar.{IsDate};

use crate::dated::is_dated_range;
use crate::hours::{
    Dated, MonthDay, Months, TimeRange, WeekdayPlace, Weekdays, Weeks, YearDate, YearlyDays, Years,
};
use crate::places::{MonthPlace, MovedPlace};
use gtd_calendar::day_of;

impl Years {
    /// Every so many years, or `None` exactly if a year is not from 1800 to 2799, the last comes before the first, or the
    /// step is not from 1 to 9999.
    pub fn new(first: u16, last: u16, step: u16) -> Option<Years>
        ensures kept { IfSome result (λ x. (x.first ≡ first) × (x.last ≡ last) × (x.step ≡ step)) }
        ensures accepted { IsSome result ↔ IsYears first last step }
    {
        if 1800 <= first && first <= last && last <= 2799 && 1 <= step && step <= 9999 {
            Some(Years { first, last, step })
        } else {
            None
        }
    }
}

impl Months {
    /// The range from one month to another, or `None` exactly if one is not from 1 to 12.
    pub fn new(first: u8, last: u8) -> Option<Months>
        ensures kept { IfSome result (λ x. (x.first ≡ first) × (x.last ≡ last)) }
        ensures accepted { IsSome result ↔ (IsMonth first × IsMonth last) }
    {
        if 1 <= first && first <= 12 && 1 <= last && last <= 12 {
            Some(Months { first, last })
        } else {
            None
        }
    }
}

impl MonthDay {
    /// The month and its day, or `None` exactly if the year 2000, a leap year, has no such date.
    pub fn new(month: u8, day: u8) -> Option<MonthDay>
        ensures kept { IfSome result (λ x. (x.month ≡ month) × (x.day ≡ day)) }
        ensures accepted { IsSome result ↔ IsMonthDay month day }
    {
        if day_of(2000, month, day).is_some() {
            Some(MonthDay { month, day })
        } else {
            None
        }
    }
}

impl YearDate {
    /// The date, or `None` exactly if there is none or its year is not from 1800 to 2799.
    pub fn new(year: u16, month: u8, day: u8) -> Option<YearDate>
        ensures kept { IfSome result (λ x. (x.year ≡ year) × (x.month ≡ month) × (x.day ≡ day)) }
        ensures accepted { IsSome result ↔ IsYearDate year month day }
    {
        if day_of(i64::from(year), month, day).is_some() {
            Some(YearDate { year, month, day })
        } else {
            None
        }
    }
}

impl Dated {
    /// The range from one date to another, or `None` exactly if the last comes before the first or there are more than
    /// 36,600 days with both.
    pub fn new(first: YearDate, last: YearDate) -> Option<Dated>
        ensures kept { IfSome result (λ x. (x.first ≡ first) × (x.last ≡ last)) }
        ensures accepted { IsSome result
            ↔ IsDatedRange first.year first.month first.day last.year last.month last.day }
    {
        if is_dated_range(first, last) {
            Some(Dated { first, last })
        } else {
            None
        }
    }
}

impl Weeks {
    /// Every so many weeks, or `None` exactly if a week is not from 1 to 53, the last comes before the first, or the step
    /// is not from 1 to 9999.
    pub fn new(first: u16, last: u16, step: u16) -> Option<Weeks>
        ensures kept { IfSome result (λ x. (x.first ≡ first) × (x.last ≡ last) × (x.step ≡ step)) }
        ensures accepted { IsSome result ↔ IsWeeks first last step }
    {
        if 1 <= first && first <= last && last <= 53 && 1 <= step && step <= 9999 {
            Some(Weeks { first, last, step })
        } else {
            None
        }
    }
}

impl Weekdays {
    /// The range from one weekday to another, or `None` exactly if one is not from 1 to 7.
    pub fn new(first: u8, last: u8) -> Option<Weekdays>
        ensures kept { IfSome result (λ x. (x.first ≡ first) × (x.last ≡ last)) }
        ensures accepted { IsSome result ↔ (IsWeekday first × IsWeekday last) }
    {
        if 1 <= first && first <= 7 && 1 <= last && last <= 7 {
            Some(Weekdays { first, last })
        } else {
            None
        }
    }
}

impl WeekdayPlace {
    /// The weekday and its place, or `None` exactly if the weekday is not from 1 to 7 or the place not from 1 to 5.
    pub fn new(weekday: u8, number: u8) -> Option<WeekdayPlace>
        ensures kept { IfSome result (λ x. (x.weekday ≡ weekday) × (x.number ≡ number)) }
        ensures accepted { IsSome result ↔ IsWeekdayPlace weekday number }
    {
        if 1 <= weekday && weekday <= 7 && 1 <= number && number <= 5 {
            Some(WeekdayPlace { weekday, number })
        } else {
            None
        }
    }
}

impl MovedPlace {
    /// The day so many days after the place, or before it. `None` exactly if the place is the fifth, there are more than 27
    /// days, there are none and they are before, or days before a place from the end lead before the fourth last week.
    pub fn new(place: WeekdayPlace, is_back: bool, days: u8, is_before: bool) -> Option<MovedPlace>
        ensures kept { IfSome result (λ x. (x.place ≡ place) × (x.is_back ≡ is_back) × (x.days ≡ days)
            × (x.is_before ≡ is_before)) }
        ensures accepted { IsSome result ↔ IsMovable place.number is_back days is_before }
    {
        if place.number > 4 || days > 27 {
            return None;
        }
        if is_before && (days == 0 || is_back && 7 * place.number + days > 28) {
            return None;
        }
        Some(MovedPlace {
            place,
            is_back,
            days,
            is_before,
        })
    }
}

impl MonthPlace {
    /// The place in the month, or `None` exactly if the month is not from 1 to 12.
    pub fn new(month: u8, place: MovedPlace) -> Option<MonthPlace>
        ensures kept { IfSome result (λ x. (x.month ≡ month) × (x.place ≡ place)) }
        ensures accepted { IsSome result ↔ IsMonth month }
    {
        if 1 <= month && month <= 12 {
            Some(MonthPlace { month, place })
        } else {
            None
        }
    }
}

// Whether each year has the date: 2001 is no leap year.
fn is_each_year(month: u8, day: u8) -> bool
    ensures { IsTrue result ↔ IsDate (pos 2001) month day }
{
    day_of(2001, month, day).is_some()
}

// Whether these are years of the calendar, in order and at most a hundred.
fn are_years(first: u16, last: u16) -> bool
    ensures { IsTrue result ↔ ((1800 ≤ first) × (first ≤ last) × (last ≤ 2799) × (last < first + 100)) }
{
    1800 <= first && first <= last && last <= 2799 && last - first < 100
}

impl YearlyDays {
    /// So many days from a date on, in each year from the first to the last. `None` exactly if a year is not from 1800 to 2799,
    /// the last comes before the first, they are more than a hundred, not each year has the date, or the days are not 1 to 366.
    pub fn new(first: u16, last: u16, month: u8, day: u8, days: u16) -> Option<YearlyDays>
        ensures kept { IfSome result (λ x. (x.first ≡ first) × (x.last ≡ last) × (x.month ≡ month) × (x.day ≡ day)
            × (x.days ≡ days)) }
        ensures accepted { IsSome result ↔ IsYearlyDays first last month day days }
    {
        if !are_years(first, last) || !is_each_year(month, day) {
            return None;
        }
        if days == 0 || 366 < days {
            return None;
        }
        Some(YearlyDays {
            first,
            last,
            month,
            day,
            days,
        })
    }
}

impl TimeRange {
    /// The range of minutes, or `None` exactly if it does not begin on its day or is longer than 24 hours.
    pub fn new(begin: u16, last: u16) -> Option<TimeRange>
        ensures kept { IfSome result (λ x. (x.begin ≡ begin) × (x.last ≡ last)) }
        ensures accepted { IsSome result ↔ IsTimeRange begin last }
    {
        if begin < 1440 && last <= begin + 1440 {
            Some(TimeRange { begin, last })
        } else {
            None
        }
    }
}
