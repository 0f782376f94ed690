//! Minutes of the day, with what is given of times.

ghost use Rattle.std.specs.Prelude.{◌≡◌, ◌+◌, ◌-◌, ◌<◌, ◌≤◌, if◌then◌else◌};
ghost use Rattle.gtd_hours2.specs.Opening.{end_after, later, minute_of};
ghost use Rattle.gtd_hours_plain2.specs.Clocks.{clocks_of, event_minutes};
ghost use Rattle.gtd_hours_plain2.specs.Numbers.{given_or};

use crate::given::GivenTimes;
use gtd_hours2::{SunEvent, TimeOfDay};

/// What is given for an event.
pub(crate) fn event_minutes(given: &GivenTimes, event: SunEvent) -> Option<u16>
    ensures { result ≡ event_minutes given.now event }
{
    match event {
        SunEvent::Sunrise => given.sunrise,
        SunEvent::Sunset => given.sunset,
        SunEvent::Dawn => given.dawn,
        SunEvent::Dusk => given.dusk,
    }
}

/// The number that is given, or else another one.
pub(crate) fn given_or(other: u16, number: Option<u16>) -> u16
    ensures { result ≡ given_or other number }
{
    match number {
        None => other,
        Some(number) => number,
    }
}

fn moved(base: u16, minutes: u16, is_before: bool) -> u32
    ensures value { result ≡ (if is_before then base - minutes else base + minutes) }
    ensures few { result < 131072 }
{
    if is_before {
        u32::from(base.saturating_sub(minutes))
    } else {
        u32::from(base) + u32::from(minutes)
    }
}

/// The minute of a time.
pub(crate) fn minute_of(given: &GivenTimes, time: TimeOfDay) -> u32
    ensures value { result ≡ minute_of (clocks_of given.now) time }
    ensures few { result < 131072 }
{
    match time {
        TimeOfDay::Clock(minute) => u32::from(minute),
        TimeOfDay::Event {
            event,
            minutes,
            is_before,
        } => moved(given_or(0, event_minutes(given, event)), minutes, is_before),
    }
}

/// When open ends end.
pub(crate) fn open_end(given: &GivenTimes) -> u32
    ensures value { result ≡ given_or 0 given.now.open_end }
    ensures few { result < 131072 }
{
    u32::from(given_or(0, given.open_end))
}

/// The minute at which a range ends, on the next day if it would not be after its beginning.
pub(crate) fn end_after(begin: u32, last: u32) -> u32
    requires { last < 131072 }
    ensures value { result ≡ end_after begin last }
    ensures few { result < 262144 }
{
    if begin < last { last } else { last + 1440 }
}

/// The later one of two minutes.
pub(crate) fn later(one: u32, other: u32) -> u32
    ensures { result ≡ later one other }
{
    if one < other { other } else { one }
}
