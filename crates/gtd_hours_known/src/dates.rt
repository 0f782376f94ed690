//! Days from one to another, as a selector of dates.

ghost use Rattle.std.specs.Prelude.{◌+ℤ◌, ◌≤ℤ◌, ◌<ℤ◌, pos};
ghost use Rattle.gtd_calendar.specs.Calendar.{IsCalendarDay};
ghost use Rattle.gtd_hours_known.specs.HolidayDays.{IsRange};

use gtd_hours::{Dated, Selector};
use gtd_hours_ranges::date_of;

/// The days from one to another, both included and at most 36,600, as a selector.
pub(crate) fn days_between(first: i64, last: i64) -> Selector
    requires first_in { IsCalendarDay first }
    requires last_in { IsCalendarDay last }
    requires order { first ≤ℤ last }
    requires short { last <ℤ (first +ℤ pos 36600) }
    ensures { IsRange first last result }
{
    match Dated::new(date_of(first), date_of(last)) {
        Some(dates) => Selector::Dated(dates),
        None => unreachable!(),
    }
}
