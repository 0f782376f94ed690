//! Times of a clock, and ranges of them.

ghost use Rattle.std.specs.Prelude.{◌≡◌, ◌↔◌, IfSome, IsSome};
ghost use Rattle.gtd_hours.specs.Ranges.{IsTimeRange};
ghost use Rattle.gtd_hours_parts.specs.Times.{IsBegin, IsEnd, minute_of};

use gtd_hours::TimeRange;

/// The two numbers of a time as it is written, `HH:MM`. They may be any.
#[derive(Clone, Copy, Debug, PartialEq, Eq)]
pub struct ClockTime {
    /// The number before the colon.
    pub hour: u8,
    /// The number after the colon.
    pub minute: u8,
}

impl ClockTime {
    /// The minute of the day at which a range may begin, or `None` exactly if the time is not from 00:00 to 23:59.
    pub fn begin(self) -> Option<u16>
        ensures kept { IfSome result (λ minute. minute ≡ minute_of self) }
        ensures accepted { IsSome result ↔ IsBegin self }
    {
        if self.hour <= 23 && self.minute <= 59 {
            Some(60 * u16::from(self.hour) + u16::from(self.minute))
        } else {
            None
        }
    }

    /// The minute at which a range may end, or `None` exactly if the time is not from 00:00 to 48:00.
    pub fn end(self) -> Option<u16>
        ensures kept { IfSome result (λ minute. minute ≡ minute_of self) }
        ensures accepted { IsSome result ↔ IsEnd self }
    {
        let minute = 60 * u16::from(self.hour) + u16::from(self.minute);
        if self.minute <= 59 && minute <= 2880 {
            Some(minute)
        } else {
            None
        }
    }
}

/// `22:00-04:00`: a range of times. `None` exactly if it begins after 23:59, ends after 48:00, has a minute after 59, or is
/// longer than 24 hours.
pub fn times(begin: ClockTime, last: ClockTime) -> Option<TimeRange>
    ensures kept { IfSome result (λ x. (x.begin ≡ minute_of begin) × (x.last ≡ minute_of last)) }
    ensures accepted { IsSome result ↔ (IsBegin begin × IsEnd last × IsTimeRange (minute_of begin) (minute_of last)) }
{
    let first_minute = begin.begin()?;
    let last_minute = last.end()?;
    TimeRange::new(first_minute, last_minute)
}
