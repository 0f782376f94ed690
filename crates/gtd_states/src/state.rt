//! The state of an element in a direction.

ghost use Rattle.std.specs.Option.{ForSome};
ghost use Rattle.gtd_calendar.specs.Calendar.{IsCalendarDay};
ghost use Rattle.gtd_core.specs.Seconds.{day_of_second};

use gtd_core::Sec;

/// The state of a road element in a direction at a second: which rows close it, and until when that says whether it is open.
#[derive(Drop)]
pub struct ElementState {
    /// The first later second at which it is open if it is closed now, and closed if it is open now; `None` if there is none
    /// among those that are looked at.
    pub change: Option<Sec>,
    /// The numbers of the rows that close it, counted from 1 and in ascending order. It is open if there are none.
    pub rows: Vec<usize>,
    ghost in_calendar: { ForSome change (λ c. IsCalendarDay (day_of_second c.0)) },
}
