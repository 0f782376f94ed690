//! When stretches begin: the second of the day, the weekday, and the date, where they are the same for all.

ghost use Rattle.std.specs.Prelude.{◌≡◌, ◌≤◌, ◌<◌, ◌^◌, IfSome};
ghost use Rattle.gtd_ends.specs.Endings.{date_from, first_second, named_from, one_weekday, weekday_from};

use crate::anchor::{Anchor, anchor_of};
use gtd_core::StartParts;

/// The second of its day at which each stretch begins, if the start says it.
pub fn first_second(start: &StartParts) -> Option<u32>
    ensures value { result ≡ first_second start.now.hour start.now.minute start.now.second }
    ensures small { IfSome result (λ second. second < 2 ^ 20) }
{
    match start.hour {
        Some(hour) => match start.minute {
            Some(minute) => {
                let minutes = 3600 * u32::from(hour) + 60 * u32::from(minute);
                match start.second {
                    Some(second) => Some(minutes + u32::from(second)),
                    None => Some(minutes),
                }
            }
            None => match start.second {
                Some(_) => None,
                None => Some(3600 * u32::from(hour)),
            },
        },
        None => match start.minute {
            Some(_) => None,
            None => match start.second {
                Some(_) => None,
                None => Some(0),
            },
        },
    }
}

fn one_weekday(weekdays: u8) -> Option<u32>
    ensures value { result ≡ one_weekday weekdays }
    ensures small { IfSome result (λ n. n < 256) }
{
    match weekdays {
        1 => Some(1),
        2 => Some(2),
        4 => Some(3),
        8 => Some(4),
        16 => Some(5),
        32 => Some(6),
        64 => Some(7),
        _ => None,
    }
}

fn weekday_from(anchor: Anchor) -> Option<u32>
    ensures value { result ≡ weekday_from anchor }
    ensures small { IfSome result (λ n. n < 256) }
{
    match anchor {
        Anchor::Place(place) => Some(u32::from(place.1)),
        Anchor::PlaceBack(place) => Some(u32::from(place.1)),
        Anchor::Weekdays(weekdays) => one_weekday(weekdays),
        Anchor::TheMonday => Some(2),
        _ => None,
    }
}

fn date_from(anchor: Anchor, month: Option<u8>) -> Option<(u32, u32)>
    ensures value { result ≡ date_from anchor month }
    ensures small { IfSome result (λ date. (date.0 < 256) × (date.1 < 256)) }
{
    match anchor {
        Anchor::Day(day) => match month {
            Some(month) => Some((u32::from(month), u32::from(day))),
            None => None,
        },
        Anchor::Beginning => match month {
            Some(month) => Some((u32::from(month), 1)),
            None => Some((1, 1)),
        },
        _ => None,
    }
}

/// The weekday, and the month and day, on which each stretch begins, where they are the same for all.
pub fn named_from(start: &StartParts) -> (Option<u32>, Option<(u32, u32)>)
    ensures value { result ≡ named_from start.now }
    ensures weekdays { IfSome result.0 (λ n. n < 256) }
    ensures dates { IfSome result.1 (λ date. (date.0 < 256) × (date.1 < 256)) }
{
    let anchor = anchor_of(start);
    (weekday_from(anchor), date_from(anchor, start.month))
}
