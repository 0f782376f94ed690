//! Selectors of days that are known in some years alone.

use crate::easter_range::EasterRange;
use crate::offset::Offset;

/// Days of Easter.
#[derive(Clone, Copy, Debug, PartialEq, Eq)]
pub enum EasterDays {
    /// So many days after Easter Sunday: `easter`, `easter +1 day`.
    Day { offset: Offset },
    /// From one day of each year to another, one of which is so many days after Easter Sunday: `easter-Oct 31`.
    Range(EasterRange),
}

/// A selector whose days are known in some years alone.
#[derive(Clone, Copy, Debug, PartialEq, Eq)]
pub enum Listed {
    /// So many days after public holidays: `PH`, `PH -1 day`.
    Public { offset: Offset },
    /// School holidays: `SH`.
    School,
    /// Days of Easter: `easter`, `easter-Oct 31`.
    Easter(EasterDays),
}
