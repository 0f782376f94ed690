//! Where the reading of a text of opening hours stands.

ghost use Rattle.std.specs.Prelude.{◌≡◌};
ghost use Rattle.gtd_hours_moves.specs.Runs.{is_after};

use crate::stage::Stage;
use gtd_hours_parts::{ClockTime, Digits, Offset, Piece, WrittenDate};

/// Behind which tokens the reading stands, with what must be kept of them.
#[derive(Clone, Copy)]
pub enum Place {
    /// At the beginning of a rule.
    Front,
    /// `24`, at the beginning of a rule.
    TwentyFour,
    /// `24/`
    TwentyFourSlash,
    /// `2024`, at the beginning of a rule: a year, or that of a date.
    Year(Digits),
    /// `2024 Dec`, at the beginning of a rule: a year and a month, or a date.
    YearMonth {
        /// The number before the month.
        year: Digits,
        /// January is 1.
        month: u8,
    },
    /// The month of `2024 Dec`, where the year is a selector of its own.
    MonthAfterYear(u8),
    /// `2024 Dec-`, at the beginning of a rule: a year and months, or months of years.
    YearMonthDash {
        /// The number before the month.
        year: Digits,
        /// January is 1.
        month: u8,
    },
    /// The month and the dash of `2024 Dec-`, where the year is a selector of its own.
    MonthDashAfterYear(u8),
    /// A year in a list of years.
    ListedYear(Digits),
    /// `2024-`
    YearDash(Digits),
    /// `2024-2030`
    YearRange {
        /// The first year.
        first: Digits,
        /// The last one.
        last: Digits,
    },
    /// `2024-2030/`
    YearStep {
        /// The first year.
        first: Digits,
        /// The last one.
        last: Digits,
    },
    /// `2024/`
    YearSlash(Digits),
    /// `2024`, the year of a date.
    DateYear(Digits),
    /// `2024 Dec`, of a date.
    DateYearMonth {
        /// The number before the month.
        year: Digits,
        /// January is 1.
        month: u8,
    },
    /// `2024 Dec-`, of months of years.
    DateYearMonthDash {
        /// The number before the month.
        year: Digits,
        /// January is 1.
        month: u8,
    },
    /// `2024 Dec-2026`
    MonthsYear {
        /// The year of the first month.
        first: Digits,
        /// The first month.
        month: u8,
        /// The year of the last month.
        last: Digits,
    },
    /// `Dec`
    Month(u8),
    /// `Oct-`
    MonthDash(u8),
    /// `Dec 24`, `2024 Dec 24`
    Date(WrittenDate),
    /// `31`, behind a date of the same month and a comma; or `24` of another rule.
    ListedDay(WrittenDate),
    /// `Dec 24-`
    DateDash(WrittenDate),
    /// `2024 Dec 24-2025`
    DateDashYear {
        /// The first date of the range.
        first: WrittenDate,
        /// The year of the last one.
        year: Digits,
    },
    /// `Dec 24-Jan`
    DateDashMonth {
        /// The first date of the range.
        first: WrittenDate,
        /// The year of the last one, if it is written.
        year: Option<Digits>,
        /// The month of the last one.
        month: u8,
    },
    /// `week`
    WeekWord,
    /// `10`, in a list of weeks.
    Week(Digits),
    /// `10-`
    WeekDash(Digits),
    /// `10-20`
    WeekRange {
        /// The first week.
        first: Digits,
        /// The last one.
        last: Digits,
    },
    /// `10-20/`
    WeekStep {
        /// The first week.
        first: Digits,
        /// The last one.
        last: Digits,
    },
    /// `46-12`, which goes back.
    WeekBack {
        /// The first week.
        first: Digits,
        /// The last one.
        last: Digits,
    },
    /// `46-12`, where the weeks up to the last one of the year are given.
    WeekAgain {
        /// The first week.
        first: Digits,
        /// The last one.
        last: Digits,
    },
    /// `Mo`
    Weekday(u8),
    /// `Mo-`
    WeekdayDash(u8),
    /// `We[`, and a comma in brackets.
    Bracket {
        /// The weekday before the brackets.
        weekday: u8,
        /// How far an offset may go from the places so far: 0 where none may; else one more than the days that one before them
        /// may have.
        reach: u16,
    },
    /// `We[-`
    BracketDash {
        /// The weekday before the brackets.
        weekday: u8,
        /// That of the places before this one.
        reach: u16,
    },
    /// `We[1`
    Nth {
        /// The weekday before the brackets.
        weekday: u8,
        /// The place in the month.
        number: Digits,
        /// That of the places before this one.
        reach: u16,
    },
    /// `We[1-`
    NthDash {
        /// The weekday before the brackets.
        weekday: u8,
        /// The first place in the month.
        number: Digits,
        /// That of the places before this one.
        reach: u16,
    },
    /// `We[1-2`, `We[-1`
    BracketEnd {
        /// The weekday before the brackets.
        weekday: u8,
        /// That of the places so far.
        reach: u16,
    },
    /// `We[1]`, with the reach of the places.
    PlacesEnd(u16),
    /// `We[1] -`
    OffsetSign {
        /// Whether the days will be before the places.
        is_before: bool,
        /// That of the places.
        reach: u16,
    },
    /// `We[1] -2`
    OffsetNumber(Offset),
    /// `08:00`
    Time(ClockTime),
    /// `08:00-`
    TimeDash(ClockTime),
    /// A date or a range of dates, with the year and the month in which it ends.
    AfterDate {
        /// The year of the last date, if it has one.
        year: Option<Digits>,
        /// The month of the last date.
        month: u8,
    },
    /// A comma behind it.
    CommaDate {
        /// The year of the last date, if it has one.
        year: Option<Digits>,
        /// The month of the last date.
        month: u8,
    },
    /// A part of a rule, and what is the last of its list.
    After(Stage),
    /// A comma after a part of a rule.
    Comma(Stage),
}

impl Place {
    /// Whether a text may end here.
    pub fn is_after(self) -> bool
        ensures { result ≡ is_after self }
    {
        matches!(self, Place::After(_) | Place::AfterDate { .. })
    }
}

/// What comes of a token at a place.
#[derive(Clone, Copy)]
pub struct Move {
    /// The next place.
    pub to: Place,
    /// The piece that is complete.
    pub piece: Option<Piece>,
    /// Whether the token is used up. If not, it is looked at from the next place.
    pub takes: bool,
}
