//! What is wrong with a text with holidays.

ghost use Rattle.std.specs.Prelude.{◌≡◌};
ghost use Rattle.gtd_hours_known.specs.Faults.{stopped, told};

use gtd_hours_grammar::{FaultKind, HoursFault};
use gtd_hours_holiday_rules::{HolidayFault, NoHolidayText};
use thiserror::Error;

/// What is wrong with a text.
#[derive(Clone, Copy, Debug, PartialEq, Eq, Error)]
pub enum KnownFault {
    /// The first fault of the text, as plain hours have them.
    #[error("{0}")]
    Hours(HoursFault),
    /// People read what stands here in two ways.
    #[error("Ambiguous at {place}")]
    Ambiguous {
        /// The number of bytes before it.
        place: usize,
    },
    /// There is no table that says all holidays of this kind for some day.
    #[error("Holidays at {place}")]
    Holidays {
        /// The number of bytes before the first holiday for which something is not given.
        place: usize,
    },
    /// It is the slash of years without a last one, or Easter, or there is a table for the holiday, but the years are not given
    /// in which these are known.
    #[error("Years at {place}")]
    Years {
        /// The number of bytes before the first of these for which something is not given.
        place: usize,
    },
    /// The table does not say all holidays of this kind in the years.
    #[error("Uncovered at {place}")]
    Uncovered {
        /// The number of bytes before the holiday.
        place: usize,
        /// The first day on which it does not, counted from 1970-01-01.
        day: i64,
    },
    /// It is not known whether a rule is open, and it is no fallback rule or another one comes after it.
    #[error("Unknown at {place}")]
    Unknown {
        /// The number of bytes before the word or the comment that makes it unknown.
        place: usize,
    },
}

/// Why the hours of a text cannot be read.
#[derive(Clone, Copy, Debug, PartialEq, Eq)]
pub enum KnownReadFault {
    /// The first fault of the text.
    Fault(KnownFault),
    /// There is no memory for the hours.
    NoMemory,
}

/// What is wrong with a text, as it is told of its checked text.
pub(crate) fn told(bad: HolidayFault) -> KnownFault
    ensures { result ≡ told bad }
{
    match bad {
        HolidayFault::Hours(bad) => KnownFault::Hours(bad),
        HolidayFault::Ambiguous { place } => KnownFault::Ambiguous { place },
    }
}

/// Why a text has no rules with holidays.
pub(crate) fn stopped(why: NoHolidayText) -> KnownReadFault
    ensures { result ≡ stopped why }
{
    match why {
        NoHolidayText::NoMemory => KnownReadFault::NoMemory,
        NoHolidayText::BadToken { place } => KnownReadFault::Fault(KnownFault::Hours(HoursFault {
            kind: FaultKind::BadToken,
            place,
        })),
    }
}
