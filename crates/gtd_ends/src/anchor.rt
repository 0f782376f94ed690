//! What names the day of a start.

ghost use Rattle.std.specs.Prelude.{◌≡◌};
ghost use Rattle.gtd_ends.specs.Anchors.{anchor_of, has_clock};

use gtd_core::StartParts;

/// What names the day of a start.
#[derive(Clone, Copy)]
pub enum Anchor {
    /// The day of the month.
    Day(u8),
    /// A weekday's place from the beginning of the month.
    Place((u8, u8)),
    /// A weekday's place back from the end of the month.
    PlaceBack((u8, u8)),
    /// Weekdays, as the bits of a start.
    Weekdays(u8),
    /// Nothing, where the clock is given.
    EveryDay,
    /// Nothing but a week.
    TheMonday,
    /// Nothing but a month or a year.
    Beginning,
}

/// Whether an hour, a minute or a second is given.
pub fn has_clock(start: &StartParts) -> bool
    ensures { result ≡ has_clock start.now }
{
    start.hour.is_some() || start.minute.is_some() || start.second.is_some()
}

/// What names the day of a start.
#[tactic(auto, unfolding(crate::specs::Anchors::anchor_of))]
pub fn anchor_of(start: &StartParts) -> Anchor
    ensures { result ≡ anchor_of start.now }
{
    if let Some(day) = start.day {
        return Anchor::Day(day);
    }
    if let Some(place) = start.nth {
        return Anchor::Place(place);
    }
    if let Some(place) = start.nth_back {
        return Anchor::PlaceBack(place);
    }
    if start.weekdays != 0 {
        return Anchor::Weekdays(start.weekdays);
    }
    if has_clock(start) {
        return Anchor::EveryDay;
    }
    if start.week.is_some() {
        return Anchor::TheMonday;
    }
    Anchor::Beginning
}
