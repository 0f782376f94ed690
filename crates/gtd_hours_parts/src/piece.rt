//! What a text of opening hours is made of beyond its tokens.

use crate::clock::ClockTime;
use crate::digits::Digits;
use gtd_hours::Link;

/// A month and a day, after a year or without one.
#[derive(Clone, Copy)]
pub struct WrittenDate {
    /// The year, if one stands directly before the month.
    pub year: Option<Digits>,
    /// January is 1.
    pub month: u8,
    /// The day of the month.
    pub day: Digits,
}

/// What a range of dates ends with.
#[derive(Clone, Copy)]
pub enum LastDate {
    /// `20` in `Apr 10-20`: a day of the first date's month.
    Day(Digits),
    /// `Sep 20` in `Apr 10-Sep 20`.
    Date(WrittenDate),
}

/// Days after the places in brackets, or before them.
#[derive(Clone, Copy)]
pub struct Offset {
    /// Whether the days are before the places.
    pub is_before: bool,
    /// How many days.
    pub days: Digits,
}

/// A smallest part of a text of opening hours that says something by itself.
#[derive(Clone, Copy)]
pub enum Piece {
    /// Another rule begins. The first rule has no such piece.
    Rule(Link),
    /// Selectors of another kind begin: of a list of years, of month days, of weeks or of weekdays.
    Kind,
    /// `2024`, `2024-2030`, `2024-2030/2`; `2024+` and `2024/8`, which go on to the last year of the calendar
    Years {
        /// The year, or the first one.
        first: Digits,
        /// The last one of a range.
        last: Option<Digits>,
        /// The step of a range, behind its last year.
        step: Option<Digits>,
    },
    /// `Apr`, `Apr-Sep`
    Months {
        /// The month, or the first one. January is 1.
        first: u8,
        /// The last one of a range.
        last: Option<u8>,
    },
    /// `Apr 10`, `Apr 10-20`, `2024 Dec 24-2025 Jan 3`
    Dates {
        /// The date, or the first one.
        first: WrittenDate,
        /// The last one of a range.
        last: Option<LastDate>,
    },
    /// `10`, `10-20`, `10-20/2`, after `week`; `46-12` is two of them
    Weeks {
        /// The week, or the first one.
        first: Digits,
        /// The last one of a range.
        last: Option<Digits>,
        /// The step of a range, behind its last week.
        step: Option<Digits>,
    },
    /// `Mo`, `Mo-Fr`
    Weekdays {
        /// The weekday, or the first one. Sunday is 1.
        first: u8,
        /// The last one of a range.
        last: Option<u8>,
    },
    /// `1`, `1-2`, in brackets after a weekday: places in the month from its beginning
    Places {
        /// The weekday before the brackets.
        weekday: u8,
        /// The place, or the first one.
        first: Digits,
        /// The last one of a range.
        last: Option<Digits>,
    },
    /// `-1`, in brackets after a weekday: a place in the month back from its end
    PlaceBack {
        /// The weekday before the brackets.
        weekday: u8,
        /// The place: 1 is the last one.
        number: Digits,
    },
    /// `]`, `] -2 days`: the places in brackets end, all of which the offset moves
    PlacesEnd {
        /// The days behind the brackets.
        offset: Option<Offset>,
    },
    /// `08:00-17:00`
    Times {
        /// The first time.
        begin: ClockTime,
        /// The second one, behind the dash.
        last: ClockTime,
    },
    /// `closed` or `off`
    Closed,
}
