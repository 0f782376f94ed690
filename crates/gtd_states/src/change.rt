//! When the state of an element changes.

ghost use Rattle.std.specs.Prelude.{◌≡◌, ◌*ℤ◌, pos, ℤ, IfOk, MatchOption};
ghost use Rattle.gtd_core.specs.Seconds.{day_of_second, IsHorizonSecond};
ghost use Rattle.gtd_core.specs.Whole.{from_day, to_day};
ghost use Rattle.gtd_records.specs.Closing.{IsOpen};
ghost use Rattle.gtd_spans.specs.Change.{IsNextChange, NeverChanges};
ghost use Rattle.gtd_states.specs.States.{IsLookEnd};
ghost use Rattle.gtd_core.specs.Limits.{day_seconds};

use gtd_core::limits::{HORIZONS_END, MOST_HORIZON_DAYS};
use gtd_core::{Horizon, Sec};
use gtd_records::{Records, next_change};
use gtd_rows::{DirectedElement, Direction};
use std::alloc::{AllocError, Global};

// The day before which a change is looked for, when the search begins on a day.
fn look_end(day: i64) -> i64
    requires { IsHorizonSecond (day *ℤ pos day_seconds) }
    ensures { IsLookEnd day result }
{
    let last = day + MOST_HORIZON_DAYS;
    if last <= HORIZONS_END {
        last
    } else {
        HORIZONS_END
    }
}

// The days in which a change is looked for, from the day of a second on.
fn days_from(second: Sec) -> Horizon
    requires in_range { IsHorizonSecond second.0 }
    ensures first { from_day result ≡ day_of_second second.0 }
    ensures last { IsLookEnd (day_of_second second.0) (to_day result) }
{
    let day = second.day();
    match Horizon::new(day, look_end(day)) {
        Ok(days) => days,
        Err(_) => unreachable!(),
    }
}

/// The least later second, within the days that a search looks at, at which the element's state differs from that at the given
/// one; `None` if there is none. The second must be on a day that a horizon may have.
pub fn change_after(
    alloc: Global,
    found: &Records,
    element: u64,
    direction: Direction,
    vehicle: u8,
    second: Sec,
) -> Result<Option<Sec>, AllocError>
    requires in_range { IsHorizonSecond second.0 }
    ensures change { IfOk result (λ change. (last : ℤ) × IsLookEnd (day_of_second second.0) last × MatchOption change
        (NeverChanges (IsOpen found.now element direction vehicle) second.0 (last *ℤ pos day_seconds))
        (λ c. IsNextChange (IsOpen found.now element direction vehicle) second.0 (last *ℤ pos day_seconds) c.0)) }
{
    let at = DirectedElement { element, direction };
    next_change(alloc, found, at, vehicle, second, days_from(second))
}
