//! Ranges of days as they are written: the numbers of their tokens.

/// A place of a weekday in a month: `Mar Su[-1]`.
#[derive(Clone, Copy)]
pub struct WrittenPlace {
    /// The month, 1 to 12.
    pub month: u8,
    /// The weekday, 1 for Sunday to 7 for Saturday.
    pub weekday: u8,
    /// Which of these weekdays of the month it is, 1 to 4.
    pub number: u8,
    /// Whether it is counted back from the end of the month.
    pub is_back: bool,
}

/// An end of a range.
#[derive(Clone, Copy)]
pub enum WrittenEnd {
    /// `Oct 15`
    Day {
        /// The month, 1 to 12.
        month: u8,
        /// The day of the month.
        day: u8,
    },
    /// `Mar Su[-1] +1 day`
    Place {
        /// The place of the weekday.
        place: WrittenPlace,
        /// How many days after or before it: 1 to 27, or 0 if there is no offset.
        days: u8,
        /// Whether the days are before it.
        is_before: bool,
    },
    /// `easter -47 days`
    Easter {
        /// How many days after or before Easter Sunday: 1 to 366, or 0 if there is no offset.
        days: u16,
        /// Whether the days are before it.
        is_before: bool,
        /// The number of bytes before `easter`.
        from: usize,
    },
}

/// A range. One day by itself is the range from it to it.
#[derive(Clone, Copy)]
pub struct WrittenRange {
    /// The year before the first end.
    pub year: Option<u16>,
    /// The first end.
    pub first: WrittenEnd,
    /// The year before the last end.
    pub last_year: Option<u16>,
    /// The last end.
    pub last: WrittenEnd,
}
