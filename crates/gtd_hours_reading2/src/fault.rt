//! What is wrong with a text.

ghost use Rattle.std.specs.Prelude.{◌≡◌};
ghost use Rattle.gtd_hours_reading2.specs.declared.fault.ReadError.TheVariants as errors;

use std::alloc::AllocError;

/// What is wrong with a text of opening hours.
#[derive(Clone, Copy, Debug, PartialEq, Eq)]
pub enum HoursFaultKind {
    /// No token begins here.
    BadToken,
    /// People read it in two ways.
    Ambiguous,
    /// The text has more than 65,536 bytes.
    TooLong,
    /// The token cannot come here.
    Unexpected,
    /// OpenStreetMap has it here, and this profile has not.
    Unsupported,
    /// More tokens are needed.
    Incomplete,
    /// A number is out of its range.
    Range,
    /// It is written loosely, which is not accepted.
    Loose,
    /// A table of holidays is needed.
    Holidays,
    /// Known years are needed.
    Years,
    /// The end of open ends is needed, or it is more than 24 hours after a beginning.
    OpenEnd,
    /// The length of points of time is needed.
    Point,
    /// A clock time of the event is needed.
    SunTime,
    /// It is unknown whether the rule is open.
    Unknown,
    /// The table does not cover a day of the known years.
    Uncovered,
}

/// A fault of a text.
#[derive(Clone, Copy, Debug, PartialEq, Eq)]
pub struct HoursFault {
    /// What is wrong.
    pub kind: HoursFaultKind,
    /// The number of bytes before it.
    pub offset: usize,
}

/// Why a text was not read.
#[derive(Drop, Debug)]
pub enum ReadError {
    /// Memory was refused.
    NoMemory,
    /// The text has this fault.
    Fault(HoursFault),
}

impl From<AllocError> for ReadError {
    ghost from_gives = { λ _ e. e ≡ errors.NoMemory };

    fn from(_e: AllocError) -> ReadError {
        ReadError::NoMemory
    }
}
