//! Elements whose rows repeat after a week.

ghost use Rattle.std.specs.Prelude.{◌↔◌, ◌+ℤ◌, ℤ, pos, IsTrue};
ghost use Rattle.gtd_records.specs.Closing.{HoldsAt};
ghost use Rattle.gtd_year.specs.Counts.{IsOpenWeekly};

use gtd_eval::is_weekly;
use gtd_records::{Record, Records};

// Whether the seconds at which a row closes its element are seen to repeat after a week.
fn repeats(row: &Record) -> bool
    ensures { IsTrue result → (t : ℤ) → HoldsAt row.now.domain t ↔ HoldsAt row.now.domain (t +ℤ pos 604_800) }
{
    match row.domain() {
        None => true,
        Some(domain) => is_weekly(domain),
    }
}

/// Whether the seconds at which an element is open are seen to repeat after a week, since those of each of its rows do.
pub(crate) fn is_open_weekly(found: &Records, element: u64) -> bool
    ensures weekly { IsTrue result → IsOpenWeekly found.now element }
{
    for row in found.rows() {
        if row.element == element && !repeats(row) {
            return false;
        }
    }
    true
}
