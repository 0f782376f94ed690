//! Opening hours as values.

ghost use Rattle.std.specs.Prelude.{◌≡◌, ◌↔◌, IfSome, IsSome};
ghost use Rattle.gtd_hours.specs.Ranges.{IsDatedRange, IsMonth, IsMonthDay, IsTimeRange, IsWeekday, IsWeekdayPlace};
ghost use Rattle.gtd_hours.specs.Ranges.{IsWeeks, IsYearDate, IsYearlyDays, IsYears};
ghost use Rattle.std.proofs.Props.{props};

use crate::moving::Moving;
use crate::places::MovedPlace;

/// Every so many years, from the first to the last, of 1800 to 2799.
#[derive(Clone, Copy, Debug, PartialEq, Eq)]
pub struct Years {
    /// The first year, 1800 at least.
    pub first: u16,
    /// The last year, not before the first, 2799 at most.
    pub last: u16,
    /// From each year of the range to the next: 1 for all of them, 9999 at most.
    pub step: u16,
    pub ghost in_range: { IsYears first last step } by { Prim.hlevel props },
}

/// A range of months, which may go over the end of the year. A month is 1 to 12.
#[derive(Clone, Copy, Debug, PartialEq, Eq)]
pub struct Months {
    /// The first month, 1 to 12.
    pub first: u8,
    /// The last month, 1 to 12. Before the first it is one of the next year.
    pub last: u8,
    pub ghost first_in: { IsMonth first } by { Prim.hlevel props },
    pub ghost last_in: { IsMonth last } by { Prim.hlevel props },
}

/// A month and a day of it, which may be 29 February.
#[derive(Clone, Copy, Debug, PartialEq, Eq)]
pub struct MonthDay {
    /// The month, 1 to 12.
    pub month: u8,
    /// The day, from 1 to the length of the month in leap years.
    pub day: u8,
    pub ghost in_range: { IsMonthDay month day } by { Prim.hlevel props },
}

/// A range of dates of each year, which may go over its end.
#[derive(Clone, Copy, Debug, PartialEq, Eq)]
pub struct Dates {
    pub first: MonthDay,
    pub last: MonthDay,
}

/// A date of a year from 1800 to 2799.
#[derive(Clone, Copy, Debug, PartialEq, Eq)]
pub struct YearDate {
    /// The year, 1800 to 2799.
    pub year: u16,
    /// The month, 1 to 12.
    pub month: u8,
    /// The day, from 1 to the length of the month in that year.
    pub day: u8,
    pub ghost is_date: { IsYearDate year month day } by { Prim.hlevel props },
}

/// From a date to the same or a later one, at most 36,600 days with both.
#[derive(Clone, Copy, Debug, PartialEq, Eq)]
pub struct Dated {
    /// The first date.
    pub first: YearDate,
    /// The last date, which is included.
    pub last: YearDate,
    pub ghost in_range: { IsDatedRange first.year first.month first.day last.year last.month last.day } by { Prim.hlevel props },
}

/// Every so many weeks of ISO 8601, from the first to the last, of 1 to 53.
#[derive(Clone, Copy, Debug, PartialEq, Eq)]
pub struct Weeks {
    /// The first week, 1 to 53.
    pub first: u16,
    /// The last week, not before the first, 53 at most.
    pub last: u16,
    /// From each week of the range to the next: 1 for all of them, 9999 at most.
    pub step: u16,
    pub ghost in_range: { IsWeeks first last step } by { Prim.hlevel props },
}

/// A range of weekdays, which may go over the end of the week. A weekday is 1 for Sunday to 7 for Saturday.
#[derive(Clone, Copy, Debug, PartialEq, Eq)]
pub struct Weekdays {
    /// The first weekday, 1 for Sunday to 7 for Saturday.
    pub first: u8,
    /// The last weekday, 1 to 7. Before the first it is one of the next week.
    pub last: u8,
    pub ghost first_in: { IsWeekday first } by { Prim.hlevel props },
    pub ghost last_in: { IsWeekday last } by { Prim.hlevel props },
}

/// A weekday and its place in the month: the first to the fifth.
#[derive(Clone, Copy, Debug, PartialEq, Eq)]
pub struct WeekdayPlace {
    /// The weekday, 1 for Sunday to 7 for Saturday.
    pub weekday: u8,
    /// Which of these weekdays of the month it is, 1 to 5.
    pub number: u8,
    pub ghost in_range: { IsWeekdayPlace weekday number } by { Prim.hlevel props },
}

/// The same days of each of some years, at most a hundred, as the holidays that are known in these. No text of hours has them.
#[derive(Clone, Copy, Debug, PartialEq, Eq)]
pub struct YearlyDays {
    /// The first year, 1800 at least.
    pub first: u16,
    /// The last year, not before the first, 2799 at most. Days of these years alone are meant.
    pub last: u16,
    /// The month of the first of the days, 1 to 12.
    pub month: u8,
    /// The first of the days, which the month has in each year.
    pub day: u8,
    /// How many consecutive days they are, 1 to 366.
    pub days: u16,
    pub ghost in_range: { IsYearlyDays first last month day days } by { Prim.hlevel props },
}

/// What holds on some days.
#[derive(Clone, Copy, Debug, PartialEq, Eq)]
pub enum Selector {
    /// `2024-2030/2`
    Years(Years),
    /// `Apr-Sep`
    Months(Months),
    /// `Apr 10-Sep 20`
    Dates(Dates),
    /// `2024 Dec 24-2025 Jan 3`
    Dated(Dated),
    /// `week 10-20/2`
    Weeks(Weeks),
    /// `Mo-Fr`
    Weekdays(Weekdays),
    /// `We[1]`: a place from the beginning of the month.
    Nth(WeekdayPlace),
    /// `We[-1]`: a place back from the end of the month.
    NthBack(WeekdayPlace),
    /// `We[1] +1 day`: so many days after or before a place. Without days it is one of the two before.
    Moved(MovedPlace),
    /// `Mar Su[-1]-Oct 15`
    Moving(Moving),
    /// Days that come in each of some years.
    Yearly(YearlyDays),
}

/// The selectors of one kind, of which one must hold.
#[derive(Debug, Drop)]
pub struct Kind {
    pub selectors: Vec<Selector>,
}

/// A range of times, in minutes from the beginning of a day. One that does not end after its first minute ends 24 hours
/// later.
#[derive(Clone, Copy, Debug, PartialEq, Eq)]
pub struct TimeRange {
    /// The minute at which the range begins, 0 to 1439.
    pub begin: u16,
    /// The minute at which it ends: at most 1440 after `begin`; on the next day if it is not after `begin`.
    pub last: u16,
    pub ghost in_range: { IsTimeRange begin last } by { Prim.hlevel props },
}

/// How a rule stands to those before it.
#[derive(Clone, Copy, Debug, PartialEq, Eq)]
pub enum Link {
    /// The first rule, or one after `;`: if it is open, the days that it matches are its own.
    Instead,
    /// A rule after `,`: if it is open, it is added.
    Also,
    /// A rule after `||`: it speaks of the seconds of its spans of which nothing is said.
    Fallback,
}

/// What a rule says of its spans.
#[derive(Clone, Copy, Debug, PartialEq, Eq)]
pub enum Modifier {
    /// `open`, `on`, or no word: its spans are open.
    Open,
    /// `closed`, `off`: its spans are said to be closed.
    Closed,
}

/// A rule: the kinds of selectors that are given, each of which must hold on a day that matches, and the times on such
/// days. Without a kind each day matches. Without times all of the day is meant.
#[derive(Debug, Drop)]
pub struct Rule {
    pub link: Link,
    pub kinds: Vec<Kind>,
    pub times: Vec<TimeRange>,
    pub modifier: Modifier,
}

/// The rules, in their order.
#[derive(Debug, Drop)]
pub struct Hours {
    pub rules: Vec<Rule>,
}
