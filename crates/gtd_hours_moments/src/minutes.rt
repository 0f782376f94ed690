//! Minutes of the day, with what is given for events.

ghost use Rattle.std.specs.Prelude.{◌≡◌, ◌<◌, ◌^◌, pos, ◌+ℤ◌};
ghost use Rattle.gtd_hours_moments.specs.Minutes.{base_of, event_minutes, lasting, last_minute, minute_after, minute_at};

use crate::clocks::Clocks;
use gtd_hours_times::{Event, Moment};

/// What is given for an event.
pub fn event_minutes(clocks: &Clocks, event: Event) -> Option<u16>
    ensures { result ≡ event_minutes clocks.now event }
{
    match event {
        Event::Sunrise => clocks.sunrise,
        Event::Sunset => clocks.sunset,
        Event::Dawn => clocks.dawn,
        Event::Dusk => clocks.dusk,
    }
}

fn base_of(clocks: &Clocks, event: Option<Event>) -> Option<u16>
    ensures { result ≡ base_of clocks.now event }
{
    match event {
        None => Some(0),
        Some(event) => event_minutes(clocks, event),
    }
}

/// The minute that is so much after another one, if it is not before 00:00.
pub fn minute_after(base: u16, minutes: i32) -> Option<u32>
    ensures { result ≡ minute_after base minutes }
{
    let sum = i64::from(base) + i64::from(minutes);
    if sum < 0 { None } else { Some(sum as u32) }
}

/// The minute of a moment, or 0 where it is not known.
pub fn minute_at(clocks: &Clocks, moment: Moment) -> u32
    ensures { result ≡ minute_at clocks.now moment }
{
    match base_of(clocks, moment.event) {
        None => 0,
        Some(base) => match minute_after(base, moment.minutes) {
            None => 0,
            Some(minute) => minute,
        },
    }
}

/// The minute of a second moment.
pub fn last_minute(clocks: &Clocks, last: Option<Moment>) -> Option<u32>
    ensures { result ≡ last_minute clocks.now last }
{
    match last {
        None => None,
        Some(moment) => Some(minute_at(clocks, moment)),
    }
}

/// How long a range lasts, whose end is on the next day if it is not after its beginning.
pub fn lasting(begin: u32, end: u32) -> u64
    ensures lasting { result ≡ lasting begin end }
    ensures few { result < 2 ^ 33 }
{
    if begin < end {
        u64::from(end - begin)
    } else {
        (u64::from(end) + 1440).saturating_sub(u64::from(begin))
    }
}
