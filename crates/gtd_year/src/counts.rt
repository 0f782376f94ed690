//! The numbers of seconds of days.

ghost use Rattle.std.specs.Prelude.{◌≡◌, ◌≤◌, ◌<◌, ◌+◌, ◌↔◌, ◌+ℤ◌, ◌*ℤ◌, ◌≤ℤ◌, ℤ, ℕ, pos, List, get_or, length};
ghost use Rattle.std.specs.Prelude.{IfOk, IfSome, IsTrue};
ghost use Rattle.gtd_core.specs.Limits.{day_seconds, first_horizon_day, horizons_end};
ghost use Rattle.gtd_core.specs.Seconds.{Interval};
ghost use Rattle.gtd_spans.specs.Counting.{IsCount};
ghost use Rattle.gtd_spans.specs.Normal.{Holds};
ghost use Rattle.gtd_year.specs.Counts.{AreCounts, RepeatsWeekly};

use gtd_core::Sec;
use gtd_core::limits::DAY_SECONDS;
use gtd_spans::{ByDay, SpanSource};
use std::alloc::{AllocError, Global};

/// The days of a week.
const WEEK: usize = 7;

// The number of a day a week before the one that comes next, if days repeat after a week.
fn week_before(counts: &[u32], weekly: bool) -> Option<u32>
    ensures before { IfSome result (λ count. IsTrue weekly × (k : ℕ) × (k + 7 ≡ length counts.now)
        × (count ≡ get_or counts.now k 0)) }
{
    if !weekly {
        return None;
    }
    let at = counts.len().checked_sub(WEEK)?;
    Some(counts[at])
}

// The number of seconds of a day: that of the day a week before, if it is known to be the same.
fn count_of<S: SpanSource>(seconds: &mut ByDay<S>, before: Option<u32>, day: i64) -> u32
    requires not_early { first_horizon_day ≤ℤ day }
    requires not_late { day ≤ℤ horizons_end }
    ensures count { (all : List Interval)
        → ((t : ℤ) → (day *ℤ pos day_seconds) ≤ℤ t → Holds all t ↔ Holds seconds.old t)
        → IfSome before (λ count. IsCount (Holds all) (day *ℤ pos day_seconds) day_seconds count)
        → IsCount (Holds all) (day *ℤ pos day_seconds) day_seconds result }
    ensures later { (t : ℤ) → ((day +ℤ pos 1) *ℤ pos day_seconds) ≤ℤ t
        → Holds seconds.old t ↔ Holds seconds.new t }
{
    match before {
        Some(count) => count,
        None => seconds.count(Sec(day * DAY_SECONDS)),
    }
}

/// The number of seconds of each of so many days from a first one on. If the seconds repeat after a week, those of a week are
/// counted. `AllocError` is answered only if memory was refused.
pub(crate) fn counts_of<S: SpanSource>(
    alloc: Global,
    seconds: &mut ByDay<S>,
    first: i64,
    days: u16,
    weekly: bool,
) -> Result<Vec<u32>, AllocError>
    requires not_early { first_horizon_day ≤ℤ first }
    requires not_late { (first +ℤ pos days) ≤ℤ horizons_end }
    requires weekly { IsTrue weekly → RepeatsWeekly (Holds seconds.old) first days }
    ensures many { IfOk result (λ counts. length counts.items ≡ days) }
    ensures counts { IfOk result (λ counts. AreCounts (Holds seconds.old) first counts.items) }
{
    let mut counts = Vec::with_capacity(alloc, usize::from(days))?;
    for place in 0..days {
        let before = week_before(counts.as_slice(), weekly);
        let count = count_of(seconds, before, first + i64::from(place));
        counts.push(count)?;
    }
    Ok(counts)
}
