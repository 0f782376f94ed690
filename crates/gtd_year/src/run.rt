//! The year's table of an element of the record file that an input brings, put to an output.

ghost use Rattle.std.specs.Prelude.{◌≡◌, ◌<◌, ◌↔◌, Any, Some, OnOk, IfOk, IsErrOf, IsTrue, List, pos};
ghost use Rattle.gtd_calendar.specs.Calendar.{year_length};
ghost use Rattle.gtd_records.specs.Closing.{Restriction};
ghost use Rattle.gtd_report.specs.Run.{HasRun, failures_after_read, failures_after_write, IsTableYear, IsVehicleType};
ghost use Rattle.gtd_year.specs.Theorem.{YearClaim};
ghost use Rattle.gtd_year.specs.YearTable.{IsYearTable};

use crate::counts::counts_of;
use crate::table::put_days;
use crate::weekly::is_open_weekly;
use gtd_calendar::days_of_year;
use gtd_devices::{Input, Output};
use gtd_records::{RecordFault, Records, open_seconds};
use gtd_report::{Printer, Report, RunFault, Stop, Subject, finish, run_report};
use gtd_rows::Direction;
use gtd_spans::ByDay;
use std::alloc::Global;

// The table of a year, for an element in a direction and a vehicle type.
#[derive(Clone, Copy)]
struct YearTable {
    element: u64,
    direction: Direction,
    vehicle: u8,
    year: u16,
}

impl Report for YearTable {
    ghost subject = { λ report.
        record { vehicle = Some report.vehicle; year = Some report.year; element = Some report.element } };

    ghost is_text = { λ report found lines.
        IsYearTable found report.element report.direction report.vehicle report.year lines };

    fn subject(&self) -> Subject {
        Subject {
            vehicle: Some(self.vehicle),
            year: Some(self.year),
            element: Some(self.element),
        }
    }

    fn put<O: Output>(
        &self,
        output: &mut O,
        printer: &mut Printer,
        found: &Records,
    ) -> Result<(), Stop> {
        let days = days_of_year(self.year);
        let open = open_seconds(
            printer.alloc,
            found,
            self.element,
            self.direction,
            self.vehicle,
            days,
        )?;
        let mut seconds = ByDay::new(open);
        let first = days.from_day();
        let count = (days.to_day() - first) as u16;
        let weekly = is_open_weekly(found, self.element);
        let counts = counts_of(printer.alloc, &mut seconds, first, count, weekly)?;
        put_days(output, printer, counts.as_slice(), first, count)?;
        finish(output)
    }
}

/// Puts the year's table of an element of the record file that an input brings: for each day of a year from 1901 to 2199,
/// the number of its seconds in which the element is open in the direction for a vehicle type from 1 to 99. Answers the
/// number of its lines, which is the number of days.
///
/// In order: `VehicleRange`; `YearRange`; the first fault of reading the file (`Records`); `NoElement` if no record
/// names the element; then `WriteFault` or `NoMemory`, whichever happens first. Nothing is put until the whole file has
/// been read and accepted. Before the call, the failures of both devices must be below `u64::MAX`.
pub fn run_year<I: Input, O: Output>(
    alloc: Global,
    input: &mut I,
    output: &mut O,
    element: u64,
    direction: Direction,
    vehicle: u8,
    year: u16,
) -> Result<u64, RunFault>
    requires readable { I.failure_count input.old < u64.MAX }
    requires writable { O.failure_count output.old < u64.MAX }
    // If neither device counted a failure, and there was memory and input: of a file that names the element the output took
    // the table, and the answer is the number of its lines; of any other file it took nothing, and the answer says why.
    ensures claim { IsVehicleType vehicle → IsTableYear year
        → I.failure_count input.new ≡ I.failure_count input.old → O.failure_count output.new ≡ O.failure_count output.old
        → YearClaim element direction vehicle year
        (I.to_come input.old) (O.taken output.old) (O.taken output.new) result }
    // What each answer means: after a failure or a refusal of memory, the first bytes of the same table.
    ensures stands { HasRun
        (λ found. Any (λ (r : Restriction). r.element ≡ element) found)
        (λ found lines. IsYearTable found element direction vehicle year lines)
        (I.to_come input.old) (O.taken output.old) (O.taken output.new) result }
    ensures days { IfOk result (λ count. count ≡ year_length (pos year)) }
    // An output that took the whole text was then ended, last of all.
    ensures ended { OnOk result (IsTrue (O.is_ended output.new)) }
    ensures vehicle { IsErrOf result RunFault.VehicleRange ↔ (IsVehicleType vehicle → ⊥) }
    ensures year { IsErrOf result RunFault.YearRange ↔ (IsVehicleType vehicle × (IsTableYear year → ⊥)) }
    ensures endless { IsErrOf result (RunFault.Records RecordFault.Endless) → IsTrue (I.may_fall_silent input.old) }
    ensures read_faults { I.failure_count input.new
        ≡ failures_after_read result (I.failure_count input.old) }
    ensures write_faults { O.failure_count output.new
        ≡ failures_after_write result (O.failure_count output.old) }
{
    let table = YearTable {
        element,
        direction,
        vehicle,
        year,
    };
    run_report(alloc, input, output, &table)
}
