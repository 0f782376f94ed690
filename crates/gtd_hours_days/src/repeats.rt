//! Selectors that stand in a list more than once.

ghost use Rattle.std.specs.Prelude.{◌≡◌, ◌<◌, ℤ, IsTrue, get_or, length, take};
ghost use Rattle.gtd_hours_days.specs.Listed.{HasAlike, IsAlike, IsOfEaster};
ghost use Rattle.gtd_hours_days.specs.declared.listed.Listed.{Listed};

use crate::listed::{EasterDays, Listed};
use crate::offset::Offset;

// How many sorts of selectors are told apart: school holidays, ranges, and 733 each of public holidays and of days of Easter, by
// their offsets.
const SORTS: usize = 1_468;

/// Of each sort of selectors the place of the latest. Nothing rests on it: whether that is the same selector is seen.
#[derive(Drop)]
pub(crate) struct Latest {
    places: [u32; SORTS],
}

// The number of an offset, from 0.
fn number_of(offset: Offset) -> usize {
    usize::try_from(offset.days.saturating_add(366)).unwrap_or(0)
}

// The number of a selector's sort.
fn sort_of(selector: Listed) -> usize {
    match selector {
        Listed::School => 0,
        Listed::Easter(EasterDays::Range(_)) => 1,
        Listed::Public { offset } => number_of(offset).saturating_add(2),
        Listed::Easter(EasterDays::Day { offset }) => number_of(offset).saturating_add(735),
    }
}

// Whether days of Easter are the same. Ranges count as different.
fn is_same_easter(one: EasterDays, other: EasterDays) -> bool
    ensures { IsTrue result → (n : ℤ) → IsOfEaster one n → IsOfEaster other n }
{
    match one {
        EasterDays::Day { offset } => match other {
            EasterDays::Day { offset: own } => offset.days == own.days,
            EasterDays::Range(_) => false,
        },
        EasterDays::Range(_) => false,
    }
}

// Whether two selectors are of the same kind, and hold on the same days.
fn is_alike(one: Listed, other: Listed) -> bool
    ensures { IsTrue result → IsAlike one other }
{
    match one {
        Listed::School => match other {
            Listed::School => true,
            _ => false,
        },
        Listed::Public { offset } => match other {
            Listed::Public { offset: own } => offset.days == own.days,
            _ => false,
        },
        Listed::Easter(easter) => match other {
            Listed::Easter(own) => is_same_easter(easter, own),
            _ => false,
        },
    }
}

impl Latest {
    /// Before the first selector.
    pub(crate) fn new() -> Latest {
        Latest { places: [0; SORTS] }
    }

    /// Whether a selector before the one at a place is seen to hold on the same days. From now on, this one is the latest of its
    /// sort.
    pub(crate) fn is_repeated(&mut self, listed: &[Listed], place: usize) -> bool
        requires { place < length listed.now }
        ensures { IsTrue result → (x : Listed) → x ≡ get_or listed.now place x → HasAlike (take place listed.now) x }
    {
        let selector = listed[place];
        let Some(latest) = self.places.get_mut(sort_of(selector)) else {
            return false;
        };
        let earlier = *latest as usize;
        *latest = u32::try_from(place).unwrap_or(0);
        earlier < place && is_alike(selector, listed[earlier])
    }
}
