//! The days of dates with years, and which ranges of them are short enough for one stretch.

ghost use Rattle.std.specs.Prelude.{◌≡◌, ◌↔◌, pos, neg_ℤ, ◌+ℤ◌, ◌≤ℤ◌, ◌<ℤ◌, IsTrue};
ghost use Rattle.gtd_calendar.specs.Calendar.{day_number};
ghost use Rattle.gtd_hours.specs.Ranges.{IsDatedRange};

use crate::hours::YearDate;
use gtd_calendar::day_of;

impl YearDate {
    /// The day of the date, numbered from 1970-01-01.
    pub fn day_number(self) -> i64
        ensures value { result ≡ day_number (pos self.year) self.month self.day }
        ensures range { (neg_ℤ (pos 70000) ≤ℤ result) × (result ≤ℤ pos 310000) }
    {
        match day_of(i64::from(self.year), self.month, self.day) {
            Some(day) => day,
            None => unreachable!(),
        }
    }
}

/// Whether the last date is not before the first, and the days with both are at most 36,600.
pub(crate) fn is_dated_range(first: YearDate, last: YearDate) -> bool
    ensures { IsTrue result ↔ IsDatedRange first.year first.month first.day last.year last.month last.day }
{
    is_near(first.day_number(), last.day_number())
}

fn is_near(first: i64, last: i64) -> bool
    requires first_in { (neg_ℤ (pos 70000) ≤ℤ first) × (first ≤ℤ pos 310000) }
    ensures { IsTrue result ↔ ((first ≤ℤ last) × (last <ℤ (first +ℤ pos 36600))) }
{
    first <= last && last < first + 36_600
}
