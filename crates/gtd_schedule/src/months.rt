//! Dates that are computed before a run, from which those of its lines are taken.

ghost use Rattle.std.specs.Prelude.{◌≡◌, ◌*◌, ◌≤◌};
ghost use Rattle.gtd_calendar.specs.Calendar.{IsCalendarDay, month_length};
ghost use Rattle.gtd_calendar.specs.ComputedDates.{day_of_month, month_of, year_of};
ghost use Rattle.gtd_calendar.specs.Stamp.{date_text};
ghost use Rattle.gtd_schedule.specs.Moments.{first_second};

use crate::moment::{Month, write_whole_day};
use gtd_core::{Horizon, Sec};
use std::alloc::{AllocError, Global};

/// From one date to the next there are so many days, so that each second lies in the month of the last date that is not after
/// its day, or in the month of the next one.
const STEP_DAYS: i64 = 12;

/// The seconds of as many days.
const STEP_SECONDS: usize = 12 * 86_400;

/// The text of a day, and its month.
#[derive(Drop)]
pub(crate) struct DatedMonth {
    day: i64,
    pub(crate) date: [u8; 10],
    pub(crate) month: Month,
    ghost in_calendar: { IsCalendarDay day },
    ghost begins: { month.begins ≡ first_second day (day_of_month day) },
    ghost reached: { month.seconds ≤ 86400 * month_length (year_of day) (month_of day) },
    ghost is: { date ≡ date_text day },
}

impl DatedMonth {
    // That of a day.
    fn of(day: i64) -> DatedMonth
        requires day { IsCalendarDay day }
    {
        let mut date = *b"1970-01-01";
        let month = write_whole_day(&mut date, day);
        DatedMonth { day, date, month }
    }
}

/// The dates of each twelfth day of a horizon.
#[derive(Drop)]
pub(crate) struct Months {
    /// The second that the first of them begins with.
    from: i64,
    list: Vec<DatedMonth>,
}

impl Months {
    /// Those of a horizon. Returns `AllocError` only if memory was refused.
    pub(crate) fn of(alloc: Global, horizon: Horizon) -> Result<Months, AllocError> {
        let (first, end) = (horizon.from_day(), horizon.to_day());
        let mut list = Vec::new(alloc);
        let mut day = first;
        while day < end {
            list.push(DatedMonth::of(day))?;
            day += STEP_DAYS;
        }
        Ok(Months {
            from: horizon.from().0,
            list,
        })
    }

    /// A date whose month a second in the horizon is likely to be in.
    pub(crate) fn near(&self, second: Sec) -> Option<&DatedMonth> {
        let since = second.0.wrapping_sub(self.from);
        if since < 0 {
            return None;
        }
        let place = since as usize / STEP_SECONDS;
        match self.list.get(place + 1) {
            Some(next) if next.month.begins <= second.0 => Some(next),
            _ => self.list.get(place),
        }
    }
}
