//! A caller that knows only `gtd_roads`: what it proves with the clauses of a run, and tests of every item at that root.
#![tactic(auto)]

ghost use Rattle.std.specs.Prelude.{◌≡◌, ◌<◌, ◌≤◌, ◌↔◌, ℕ, IsTrue, List, OnOk};
ghost use Rattle.gtd_roads.specs.Closing.{IsClosed, Restriction};
ghost use Rattle.gtd_roads.specs.Horizon.{Horizon};
ghost use Rattle.gtd_roads.specs.Schedule.{IsSchedule};
ghost use Rattle.gtd_roads.specs.Shown.{ShowsOpen};
ghost use Rattle.gtd_roads.specs.Seconds.{IsHorizonSecond};
ghost use Rattle.gtd_roads.specs.Run.{IsVehicleType};
ghost use Rattle.gtd_roads.specs.Theorem.{Headline, MigrationClaim};

use gtd_roads::laws::shown_lines;
use gtd_roads::{
    Direction, Horizon, Input, Output, Records, RunFault, Sec, run_migrate, run_schedule,
};
use std::alloc::Global;

#[cfg(test)]
mod tests;

/// Puts the schedule of a record file for vehicle type 11 to an output that was not ended.
pub fn schedule_of_eleven<I: Input, O: Output>(
    alloc: Global,
    input: &mut I,
    output: &mut O,
    horizon: Horizon,
) -> Result<u64, RunFault>
    requires readable { I.failure_count input.old < u64.MAX }
    requires writable { O.failure_count output.old < u64.MAX }
    ensures headline { I.failure_count input.new ≡ I.failure_count input.old
        → O.failure_count output.new ≡ O.failure_count output.old → Headline 11 horizon
        (I.to_come input.old) (O.taken output.old) (O.taken output.new) result }
    ensures ended { OnOk result (IsTrue (O.is_ended output.new)) }
{
    run_schedule(alloc, input, output, horizon, 11)
}

/// The lines that show for vehicle type 11 when each element is open are those of its schedule.
pub fn shown_to_eleven()
    ensures same { (found : List Restriction) (horizon : Horizon) (lines : List (List ℕ)) →
        ShowsOpen found 11 horizon lines ↔ IsSchedule found 11 horizon lines }
{
    shown_lines();
}

/// Puts the file of version 2 that stands for the restrictions of a record file.
pub fn migrate<I: Input, O: Output>(
    alloc: Global,
    input: &mut I,
    output: &mut O,
) -> Result<u64, RunFault>
    requires readable { I.failure_count input.old < u64.MAX }
    requires writable { O.failure_count output.old < u64.MAX }
    ensures claim { I.failure_count input.new ≡ I.failure_count input.old
        → O.failure_count output.new ≡ O.failure_count output.old
        → MigrationClaim (I.to_come input.old) (O.taken output.old) (O.taken output.new) result }
{
    run_migrate(alloc, input, output)
}

/// Whether some record closes the element in both directions for vehicle type 11 at the second, which must be on a day
/// that a horizon may have.
pub fn is_closed_for_eleven(found: &Records, element: u64, second: Sec) -> bool
    requires day { IsHorizonSecond second.0 }
    ensures both { IsTrue result ↔ (IsClosed found.now element Direction.Positive 11 second.0
        × IsClosed found.now element Direction.Negative 11 second.0) }
{
    found.closed_at(element, Direction::Positive, 11, second)
        && found.closed_at(element, Direction::Negative, 11, second)
}
