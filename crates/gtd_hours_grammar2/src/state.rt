//! What a reading of hours has come to: after which tokens it is.

/// Which part of a rule was read last.
#[derive(Clone, Copy, Debug, PartialEq, Eq)]
pub enum Stage {
    Front, // Nothing yet.
    Years, // Years.
    Months, // Months, or dates after which no days can be listed.
    Dates, // Dates, the last of which is a day of a month.
    Weeks, // Weeks.
    Colon, // A colon.
    Holidays, // Holidays alone.
    Days, // Weekdays.
    Led, // Weekdays that holidays lead.
    Mixed, // Weekdays and holidays, a holiday last.
    Times, // Times.
    Always, // `24/7`
    Word, // A word such as `off`.
    Comment, // A comment.
}

/// The tokens after which a reading is. It begins in `Front`, and a text that is hours leads to `Done`.
#[derive(Clone, Copy, Debug, PartialEq, Eq)]
pub enum State {
    Front, // At the beginning.
    Semicolon, // `;`
    Bars, // `||`
    After(Stage), // A part of a rule.
    Comma(Stage), // A comma after a part of a rule.
    DaysColon, // `Mo-Fr:`
    Done, // The end of a text.
    Always(AlwaysState), // in `24/7`
    Year(YearState), // in a range of years
    Month(MonthState), // in a range of months
    Date(DateState), // in a date
    Easter(EasterState), // in `easter` and its offset
    Place(PlaceState, bool), // and whether month and weekday also mean something apart
    Last(LastState), // in the last end of a range of days
    Week(WeekState), // in a range of weeks
    Holiday(HolidayState, bool), // in a holiday and its offset, and whether it is in a list with weekdays
    Weekday(WeekdayState, bool), // in a range or the places of a weekday, and whether holidays lead it
    Time(TimeState), // in a range of times
}

/// In `24/7`.
#[derive(Clone, Copy, Debug, PartialEq, Eq)]
pub enum AlwaysState {
    Twenty, // `24`, at the beginning of a rule
    Slash, // `24/`
    End, // `24/7`
}

/// In a range of years.
#[derive(Clone, Copy, Debug, PartialEq, Eq)]
pub enum YearState {
    First, // `2024`, first in a rule: a year, or that of a date
    Listed, // `2024`, in a list of years
    Dash, // `2024-`
    Range, // `2024-2030`
    Slash, // `2024-2030/`, `2024/`
    End, // `2024-2030/2`, `2024+`
}

/// In a range of months.
#[derive(Clone, Copy, Debug, PartialEq, Eq)]
pub enum MonthState {
    OfYear, // `2024 Dec`, first in a rule: a year and a month, or a date
    OfYearDash, // `2024 Dec-`
    LastYear, // `2024 Dec-2026`
    Month, // `Dec`
    Dash, // `Oct-`
    End, // `Oct-Mar`, and a range that ends with a place or Easter and an offset
}

/// In a date.
#[derive(Clone, Copy, Debug, PartialEq, Eq)]
pub enum DateState {
    Year, // `2024`, of a date in a list
    Month, // `2024 Dec`, of a date in a list
    MonthDash, // `2024 Dec-`, of months in a list
    Day, // `Dec 24`
    ListedDay, // `31`, after a date and a comma
    ListedTwenty, // `24`, after a date and a comma: a day, or `24/7`
}

/// In `easter` and its offset.
#[derive(Clone, Copy, Debug, PartialEq, Eq)]
pub enum EasterState {
    Easter, // `easter`
    Plus, // `easter +`
    Dash, // `easter -`: an offset, or a range
    Number, // `easter -2`
    Offset, // `easter -2 days`
}

/// In a place of a weekday in a month.
#[derive(Clone, Copy, Debug, PartialEq, Eq)]
pub enum PlaceState {
    Weekday, // `Mar Su`
    Open, // `Mar Su[`
    Back, // `Mar Su[-`
    Number, // `Mar Su[1`
    NumberBack, // `Mar Su[-1`
    Close, // `Mar Su[-1]`
    Plus, // `Mar Su[-1] +`
    Dash, // `Mar Su[-1] -`: an offset, or a range
    Days, // `Mar Su[-1] -2`
    Offset, // `Mar Su[-1] -2 days`
}

/// In the last end of a range of days.
#[derive(Clone, Copy, Debug, PartialEq, Eq)]
pub enum LastState {
    DateDash, // `Dec 24-`
    OffsetDash, // `easter -2 days-`
    Year, // `Dec 24-2025`
    Month, // `Dec 24-Jan`
    Day, // `Dec 24-Jan 3`
    Weekday, // `Dec 24-Jan Su`
    Open, // `Dec 24-Jan Su[`
    Back, // `Dec 24-Jan Su[-`
    Number, // `Dec 24-Jan Su[1`
    End, // `Dec 24-Jan Su[1]`, `Jan 6-easter`
    Sign, // `Jan 6-easter -`
    Days, // `Jan 6-easter -47`
}

/// In a range of weeks.
#[derive(Clone, Copy, Debug, PartialEq, Eq)]
pub enum WeekState {
    Front, // `week`
    Week, // `10`, in a list of weeks
    Dash, // `10-`
    Range, // `10-20`
    Slash, // `10-20/`
    End, // `10-20/2`
}

/// In a holiday and its offset.
#[derive(Clone, Copy, Debug, PartialEq, Eq)]
pub enum HolidayState {
    Holiday, // `PH`
    Sign, // `PH -`
    Days, // `PH -1`
    End, // `PH -1 day`, `SH`
}

/// In a range or the places of a weekday.
#[derive(Clone, Copy, Debug, PartialEq, Eq)]
pub enum WeekdayState {
    Weekday, // `Mo`
    Dash, // `Mo-`
    Range, // `Mo-Fr`
    Open, // `We[`
    NumberDash, // `We[-`, `We[1-`
    Number, // `We[1`
    NumberEnd, // `We[-1`, `We[1-2`
    Close, // `We[1]`
    Sign, // `We[1] -`
    Days, // `We[1] -2`
    Offset, // `We[1] -2 days`
}

/// In a range of times.
#[derive(Clone, Copy, Debug, PartialEq, Eq)]
pub enum TimeState {
    First, // `08:00`, `(sunrise+01:00)`
    Paren, // `(`
    Event, // `(sunrise`
    Sign, // `(sunrise+`
    Offset, // `(sunrise+01:00`
    Dash, // `08:00-`
    LastParen, // `08:00-(`
    LastEvent, // `08:00-(sunset`
    LastSign, // `08:00-(sunset-`
    LastOffset, // `08:00-(sunset-01:00`
    Range, // `08:00-17:00`
    Slash, // `10:00-16:00/`
    End, // `17:00+`, `10:00-16:00/30`
}
