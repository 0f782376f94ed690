//! The numbers that may be asked about.

ghost use Rattle.std.specs.Prelude.{◌↔◌, IsTrue};
ghost use Rattle.gtd_core.specs.Seconds.{IsHorizonSecond, IsMomentSecond};
ghost use Rattle.gtd_report.specs.Run.{IsVehicleType};
ghost use Rattle.gtd_handles.specs.Answers.{direction_of};
ghost use Rattle.std.specs.Prelude.{◌≡◌};

use gtd_core::limits::{DAY_SECONDS, FIRST_HORIZON_DAY, FIRST_MOMENT, HORIZONS_END, LAST_MOMENT};
use gtd_rows::Direction;

/// Whether the second is from 1901-01-01 up to 2700-01-01, which is not included.
pub(crate) fn is_second(second: i64) -> bool
    ensures second { IsTrue result ↔ IsHorizonSecond second }
{
    FIRST_HORIZON_DAY * DAY_SECONDS <= second && second < HORIZONS_END * DAY_SECONDS
}

/// Whether the second is from 1901 to 2199.
pub(crate) fn is_moment(second: i64) -> bool
    ensures moment { IsTrue result ↔ IsMomentSecond second }
{
    FIRST_MOMENT <= second && second <= LAST_MOMENT
}

/// Whether the number is a vehicle type, from 1 to 99.
pub(crate) fn is_vehicle(vehicle: u8) -> bool
    ensures vehicle { IsTrue result ↔ IsVehicleType vehicle }
{
    0 < vehicle && vehicle <= 99
}

/// The direction that a truth value names.
pub(crate) fn direction_of(negative: bool) -> Direction
    ensures direction { result ≡ direction_of negative }
{
    if negative {
        Direction::Negative
    } else {
        Direction::Positive
    }
}
