//! Moments.

ghost use Rattle.gtd_core.specs.Seconds.{IsMomentSecond};

use gtd_core::Sec;

/// A moment: a second from 1901-01-01T00:00:00 to 2199-12-31T23:59:59.
#[derive(Clone, Copy)]
pub struct Moment {
    /// Its second.
    pub second: Sec,
    pub ghost in_range: { IsMomentSecond second.0 },
}
