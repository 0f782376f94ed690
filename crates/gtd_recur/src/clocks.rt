//! The starts of a day: the first, the last, and how far apart they are.

ghost use Rattle.std.specs.Prelude.{Some};
ghost use Rattle.gtd_core.specs.Ranges.{IsStart};
ghost use Rattle.gtd_recur.specs.Begins as spec;
ghost use Rattle.gtd_recur.specs.ClockSearch.{IsNextPassing};
ghost use Rattle.gtd_recur.specs.Stepping.{AreClocks, IsStep};

use crate::begin::latest_begin;
use gtd_core::StartParts;
use gtd_core::limits::LAST_SECOND_OF_DAY;

/// The starts of a day on which a start begins: at least one.
#[derive(Clone, Copy, Debug)]
pub(crate) struct Clocks {
    /// The seconds of the day at which its first and its last start are.
    pub(crate) first: u32,
    pub(crate) last: u32,
    /// How far apart the starts are, if there are several.
    pub(crate) step: u32,
}

/// The starts of the days on which a start begins: they are the same on each.
pub(crate) fn day_clocks(start: &StartParts) -> Clocks
    requires valid { IsStart start.now }
    ensures clocks { AreClocks (spec.begins_at start.now) result.first result.last result.step }
{
    Clocks {
        first: first_begin(start),
        last: latest_begin(start, LAST_SECOND_OF_DAY).unwrap(),
        step: day_step(start),
    }
}

// The first second of a day at which the start begins: fields of its clock that are left out are 0.
fn first_begin(start: &StartParts) -> u32
    requires valid { IsStart start.now }
    ensures first { IsNextPassing (spec.begins_at start.now) 0 (Some result) }
{
    let hour = u32::from(start.hour.unwrap_or(0));
    let minute = u32::from(start.minute.unwrap_or(0));
    let second = u32::from(start.second.unwrap_or(0));
    3600 * hour + 60 * minute + second
}

// How far apart the starts of a day are, if it has several.
fn day_step(start: &StartParts) -> u32
    requires valid { IsStart start.now }
    ensures step { IsStep (spec.begins_at start.now) result }
{
    if start.minute.is_none() && start.second.is_some() {
        60
    } else {
        3600
    }
}
