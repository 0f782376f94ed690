//! Cells: the same minutes of some days.

ghost use Rattle.std.specs.Prelude.{◌↔◌, IsTrue};
ghost use Rattle.gtd_hours_cells.specs.Cells.{IsWhole};

/// Numbers from the first to the last.
#[derive(Clone, Copy, PartialEq, Eq)]
pub struct Numbers {
    /// The first number.
    pub first: u16,
    /// The last one, which is one of them.
    pub last: u16,
}

/// A month and a day of it. They are in the order of the year.
#[derive(Clone, Copy, PartialEq, Eq)]
pub struct Date {
    /// The month, 1 to 12.
    pub month: u8,
    /// The day of the month, 1 to 31.
    pub day: u8,
}

/// From a date to another of each year, over its end if the last comes before the first.
#[derive(Clone, Copy, PartialEq, Eq)]
pub struct Yearly {
    /// The first date.
    pub first: Date,
    /// The last date, which is included.
    pub last: Date,
}

/// From a day to another one, by their numbers from 1970-01-01 on.
#[derive(Clone, Copy, PartialEq, Eq)]
pub struct Once {
    /// The first day.
    pub first: i64,
    /// The last day, which is included.
    pub last: i64,
}

/// Dates that days have.
#[derive(Clone, Copy, PartialEq, Eq)]
pub enum DateRange {
    /// All dates.
    Each,
    /// Those of a range of each year.
    Yearly(Yearly),
    /// The days of one range.
    Once(Once),
}

/// A place of a weekday in its month.
#[derive(Clone, Copy, PartialEq, Eq)]
pub enum Place {
    /// No place is asked for.
    Any,
    /// The first to fifth of its weekday.
    Nth(u8),
    /// The first to fifth of its weekday back from the end of the month.
    NthBack(u8),
}

/// Days that have these years, dates, weeks, weekdays and place. A weekday has a bit, from Sunday on.
#[derive(Clone, Copy, PartialEq, Eq)]
pub struct Days {
    /// The years of their dates.
    pub years: Numbers,
    /// Their dates.
    pub dates: DateRange,
    /// Their weeks of ISO 8601.
    pub weeks: Numbers,
    /// Their weekdays.
    pub weekdays: u8,
    /// Their place in the month.
    pub place: Place,
}

/// The minutes of some days from one up to another, which may be on the next day. A list of cells stands for what is left if they
/// are added or taken away one after another.
#[derive(Clone, Copy, PartialEq, Eq)]
pub struct Cell {
    /// Whether the minutes are added. Otherwise they are taken away.
    pub adds: bool,
    /// The days.
    pub days: Days,
    /// The first minute, 0 to 1439.
    pub begin: u16,
    /// The minute after the last one. After 1440 it is on the next day.
    pub end: u16,
}

/// The minutes of a day.
pub const DAY_MINUTES: u16 = 1_440;

/// All years that a start can give.
pub const EACH_YEAR: Numbers = Numbers {
    first: 0,
    last: 9_999,
};

/// All weeks.
pub const EACH_WEEK: Numbers = Numbers { first: 1, last: 53 };

/// The bits of all weekdays.
pub const EACH_WEEKDAY: u8 = 127;

/// The bit of Monday.
pub const MONDAY: u8 = 2;

/// All days.
pub const EACH_DAY: Days = Days {
    years: EACH_YEAR,
    dates: DateRange::Each,
    weeks: EACH_WEEK,
    weekdays: EACH_WEEKDAY,
    place: Place::Any,
};

/// All of some days.
pub fn whole(days: Days) -> Cell {
    Cell {
        adds: true,
        days,
        begin: 0,
        end: DAY_MINUTES,
    }
}

/// Whether a cell is all of its days.
pub fn is_whole(cell: &Cell) -> bool
    ensures whole { IsTrue result ↔ IsWhole cell.now }
{
    cell.begin == 0 && cell.end == DAY_MINUTES
}
