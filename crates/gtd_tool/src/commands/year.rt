//! `year FILE ELEMENT DIRECTION VEHICLE YEAR`: the table of a year for an element of a record file.

ghost use Rattle.std.specs.Prelude.{◌<◌, [], ◌∷◌, IfErr, IfOk};
ghost use Rattle.gtd_tool.specs.Asked as asked;
ghost use Rattle.gtd_tool.specs.Asked.{Text, texts};
ghost use Rattle.gtd_tool.specs.Commands.Year.{AreTableWords, reading, table_parts};
ghost use Rattle.gtd_tool.specs.Plans.{IsReadTo};
ghost use Rattle.gtd_tool.specs.Refusals.{IsStopped};
ghost use Rattle.gtd_tool.specs.Running.{Ran};

use crate::loan::Lent;
use crate::plans::Plan;
use crate::refusal::Refusal;
use crate::runner::outcome;
use crate::words::{direction_in, number_in, owned, vehicle_in, year_in};
use gtd_roads::{Direction, HostOut, Input, run_year};
use std::alloc::Global;
use std::io::Write;

/// What a table is asked of: an element in a direction, a vehicle type, and a year.
#[derive(Clone, Copy)]
pub struct YearTable {
    /// The element.
    pub element: u64,
    /// The direction.
    pub direction: Direction,
    /// The vehicle type.
    pub vehicle: u8,
    /// The year.
    pub year: u16,
}

/// The plan of the words.
pub fn read(alloc: Global, words: &[&str]) -> Result<Plan, Refusal>
    ensures read { IsReadTo (reading (texts words.now)) result }
{
    let [file, element, direction, vehicle, year] = words else {
        return Err(Refusal::Usage);
    };
    let table = table_of(element, direction, vehicle, year)?;
    plan_of(alloc, file, table)
}

// The table that the words stand for.
fn table_of(element: &str, direction: &str, vehicle: &str, year: &str) -> Result<YearTable, Refusal>
    ensures read { IfOk result (λ t. AreTableWords element.now direction.now vehicle.now year.now
        t.element t.direction t.vehicle t.year) }
    ensures stopped { IfErr result
        (IsStopped (table_parts element.now direction.now vehicle.now year.now)) }
{
    let element = number_in(element)?;
    let direction = direction_in(direction)?;
    let vehicle = vehicle_in(vehicle)?;
    let year = year_in(year)?;
    Ok(YearTable {
        element,
        direction,
        vehicle,
        year,
    })
}

// The plan of a table that words stand for.
fn plan_of(alloc: Global, file: &str, table: YearTable) -> Result<Plan, Refusal>
    ensures { (element direction vehicle year : Text)
        → AreTableWords element direction vehicle year table.element table.direction table.vehicle table.year
        → IsReadTo (reading (file.now ∷ element ∷ direction ∷ vehicle ∷ year ∷ [])) result }
{
    let file = owned(alloc, file)?;
    Ok(Plan::Year {
        file,
        element: table.element,
        direction: table.direction,
        vehicle: table.vehicle,
        year: table.year,
    })
}

/// Prints the table for the record file that the input brings.
pub fn print<I: Input, W: Write>(
    alloc: Global,
    input: &mut I,
    out: &mut W,
    table: YearTable,
) -> Result<(), Refusal>
    requires readable { I.failure_count input.old < u64.MAX }
    ensures ran { (file : Text) → Ran (asked.Year file table.element table.direction table.vehicle table.year)
        (I.to_come input.old) (W.contents out.old) (W.contents out.new) (I.may_fall_silent input.old)
        (I.failure_count input.old) (I.failure_count input.new) result }
{
    let mut output = HostOut::new(Lent {
        writer: &mut *out,
        taken: 0,
    });
    outcome(run_year(
        alloc,
        input,
        &mut output,
        table.element,
        table.direction,
        table.vehicle,
        table.year,
    ))
}
