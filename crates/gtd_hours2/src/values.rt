//! The values that opening hours are made of.

/// An event of the sun, from which times are counted.
#[derive(Clone, Copy, Debug, PartialEq, Eq)]
pub enum SunEvent {
    /// `sunrise`
    Sunrise,
    /// `sunset`
    Sunset,
    /// `dawn`
    Dawn,
    /// `dusk`
    Dusk,
}

/// What a rule says of its seconds.
#[derive(Clone, Copy, Debug, PartialEq, Eq)]
pub enum RuleWord {
    /// `open`, `on`
    Open,
    /// `off`, `closed`
    Off,
    /// `unknown`
    Unknown,
}

/// A number of days after a day, or before it. With 0 days it is the day itself.
#[derive(Clone, Copy)]
pub struct DayOffset {
    /// The number of days.
    pub days: u16,
    /// Whether it goes back.
    pub is_before: bool,
}

/// A day that each year has.
#[derive(Clone, Copy)]
pub enum YearlyDay {
    /// `Dec 24`
    Date {
        /// January is 1.
        month: u8,
        /// The day of the month.
        day: u8,
    },
    /// `Mar Su[-1] +1 day`
    NthWeekday {
        /// January is 1.
        month: u8,
        /// Sunday is 1.
        weekday: u8,
        /// Which of these weekdays of the month it is, 1 to 4.
        number: u8,
        /// Whether it is counted from the end of the month.
        is_back: bool,
        /// The days after it, or before it.
        offset: DayOffset,
    },
    /// `easter -2 days`
    Easter(DayOffset),
}

/// A time of a day.
#[derive(Clone, Copy)]
pub enum TimeOfDay {
    /// A minute from the beginning of the day on; those from 1440 on are of the next days.
    Clock(u16),
    /// `sunset`, `(sunset-01:00)`
    Event {
        /// The event.
        event: SunEvent,
        /// The minutes after it, or before it.
        minutes: u16,
        /// Whether they go back.
        is_before: bool,
    },
}

/// What comes after the times of a range.
#[derive(Clone, Copy)]
pub enum TimeTail {
    /// Nothing.
    Plain,
    /// The end is open: `17:00+`
    Open,
    /// Points of time, so many minutes apart: `10:00-16:00/30`
    Every(u16),
}

/// A kind of holidays.
#[derive(Clone, Copy, Debug, PartialEq, Eq)]
pub enum HolidayKind {
    /// Public holidays: `PH`
    Public,
    /// School holidays: `SH`
    School,
}

/// A selector of days, or a time, of a rule.
#[derive(Clone, Copy)]
pub enum RulePart {
    /// `2024`, `2024-2030/2`, `2024+`, `2025/2`
    Years {
        /// The first year.
        first: u16,
        /// The last year. Without one they go on to 2799 or, if these are more than 128 years, to the last of the known years.
        last: Option<u16>,
        /// The years from one to the next.
        step: u16,
    },
    /// `Apr-Sep`
    Months {
        /// January is 1.
        first: u8,
        /// It may be before the first.
        last: u8,
    },
    /// `Dec 24`, `Mar Su[-1]-Oct 3`, `easter`: from one day of each year to another, or one day if they are the same.
    Days {
        /// The first day.
        first: YearlyDay,
        /// The last day, of the same year or the next one.
        last: YearlyDay,
    },
    /// `2024 Dec 24-2025 Jan 3`, `2026 easter`
    Dated {
        /// The year of the first day.
        year: u16,
        /// The first day.
        first: YearlyDay,
        /// The year of the last day.
        last_year: u16,
        /// The last day.
        last: YearlyDay,
    },
    /// `10-20/2`, `46-12`
    Weeks {
        /// The first week.
        first: u8,
        /// It may be before the first.
        last: u8,
        /// The weeks from one to the next.
        step: u16,
    },
    /// `PH -1 day`
    Holidays {
        /// Of which kind.
        kind: HolidayKind,
        /// The days after one, or before it.
        offset: DayOffset,
    },
    /// `Mo-Fr`
    Weekdays {
        /// Sunday is 1.
        first: u8,
        /// It may be before the first.
        last: u8,
    },
    /// `We[2] +1 day`: each number in brackets is a part.
    NthWeekday {
        /// Sunday is 1.
        weekday: u8,
        /// Which of these weekdays of the month it is, 1 to 5.
        number: u8,
        /// Whether it is counted from the end of the month.
        is_back: bool,
        /// The days after it, or before it.
        offset: DayOffset,
    },
    /// `08:00-17:00`
    Time {
        /// When it begins.
        first: TimeOfDay,
        /// When it ends, if an end is given.
        last: Option<TimeOfDay>,
        /// What comes after these.
        tail: TimeTail,
    },
}

/// A kind of parts of a rule. A day matches if of each kind but times that the rule has one part holds on it.
#[derive(Clone, Copy, Debug, PartialEq, Eq)]
pub enum PartKind {
    /// Years.
    Years,
    /// Months, days of each year and dates.
    MonthDays,
    /// Weeks.
    Weeks,
    /// Holidays that restrict the weekdays after them: `PH Mo`
    LeadingHolidays,
    /// Weekdays, and holidays in a list with them.
    Days,
    /// Times.
    Times,
}

/// What links a rule to those before it.
#[derive(Clone, Copy, Debug, PartialEq, Eq)]
pub enum RuleLink {
    /// `;`, or nothing before the first rule.
    Instead,
    /// `,`
    Also,
    /// `||`
    Fallback,
}

/// The bytes between the quotes of a comment, by their offsets in a text.
#[derive(Clone, Copy)]
pub struct CommentRange {
    /// The offset of the first byte.
    pub from: u32,
    /// The offset of the quote after them.
    pub to: u32,
}

/// All of a rule but its parts.
#[derive(Clone, Copy)]
pub struct RuleHead {
    /// What links it to the rules before it.
    pub link: RuleLink,
    /// Whether its holidays restrict its weekdays.
    pub leads: bool,
    /// Whether it is `24/7`.
    pub is_always: bool,
    /// Its word, if it has one.
    pub word: Option<RuleWord>,
    /// Its comment, if it has one.
    pub comment: Option<CommentRange>,
}
