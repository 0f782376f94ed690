//! The schedule of the record file that an input brings, put to an output.

ghost use Rattle.std.specs.Prelude.{◌≡◌, ◌<◌, ◌↔◌, ⊤, None, Some, IsErrOf, IsTrue, List, OnOk};
ghost use Rattle.gtd_records.specs.Closing.{Restriction};
ghost use Rattle.gtd_report.specs.Run.{HasRun, failures_after_read, failures_after_write, IsVehicleType};
ghost use Rattle.gtd_schedule.specs.Schedule.{IsSchedule};
ghost use Rattle.gtd_schedule.specs.Shown.{ShowsOpen};
ghost use Rattle.gtd_schedule.specs.Theorem.{Headline};

use crate::cursors::OpenCursors;
use crate::elements::{ScheduleLines, ScheduleText};
use crate::line::FirstMoments;
use crate::months::Months;
use crate::text::put_elements;
use gtd_core::Horizon;
use gtd_devices::{Input, Output};
use gtd_records::{RecordFault, Records};
use gtd_report::{Printer, Report, RunFault, Stop, Subject, finish, put_line, run_report};
use std::alloc::Global;

/// The schedule over the days of a horizon, for a vehicle type.
#[derive(Clone, Copy, Debug, PartialEq, Eq)]
pub struct Schedule {
    /// The days.
    pub horizon: Horizon,
    /// The vehicle type.
    pub vehicle: u8,
}

impl Report for Schedule {
    ghost subject = { λ report. record { vehicle = Some report.vehicle; year = None; element = None } };

    ghost is_text = { λ report found lines. IsSchedule found report.vehicle report.horizon lines };

    fn subject(&self) -> Subject {
        Subject {
            vehicle: Some(self.vehicle),
            year: None,
            element: None,
        }
    }

    fn put<O: Output>(
        &self,
        output: &mut O,
        printer: &mut Printer,
        found: &Records,
    ) -> Result<(), Stop> {
        let header = b"element,direction,vehicle,from,until\n";
        let elements = found.elements();
        let mut cursors = OpenCursors::new(printer.alloc, elements.len())?;
        let months = Months::of(printer.alloc, self.horizon)?;
        let first = FirstMoments::of(self.horizon.from(), &months);
        let lines = ScheduleLines {
            schedule: *self,
            first,
            months,
        };
        let text = ScheduleText {
            found,
            lines: &lines,
        };
        put_line(output, &mut printer.progress, header)?;
        put_elements(output, printer, text, &mut cursors, elements)?;
        finish(output)
    }
}

/// Puts the schedule of the record file that an input brings: over the days of the horizon, for a vehicle type from 1 to
/// 99. Answers the number of its lines, the header included.
///
/// In order: `VehicleRange`; then the first fault of reading the file (`Records`); then `WriteFault` or `NoMemory`,
/// whichever happens first. Nothing is put until the whole file has been read and accepted. Each span is put as it is handed
/// out; no list of spans is kept. Elements that rows with the same domains close share a cursor, which begins again for each
/// of them. At most 1,024 cursors are kept for that, of at most 64 nodes each, and beside them the last one that is not. A
/// cursor keeps the spans of each period after which its rows repeat, at most 4,096, and as many that came before these; those
/// that are shared have room for 81,920 spans in all. Before the call, the failures of both devices must be below `u64::MAX`.
///
/// ```
/// let file = b"element,direction,vehicle,domain\n17,negative,11,\n";
/// let mut input = MemoryIn::new(Vec::from_slice(alloc, file)?, 4096, None, None);
/// let mut output = MemoryOut::new(alloc, 1_000, 1_000, None)?;
/// let horizon = Horizon::new(19_723, 19_724).expect(&rt, "a horizon");
/// let lines = run_schedule(alloc, &mut input, &mut output, horizon, 11);
/// // The header, and the day on which 17 is open in its positive direction.
/// assert_eq!(rt; lines, Ok(2));
/// ```
pub fn run_schedule<I: Input, O: Output>(
    alloc: Global,
    input: &mut I,
    output: &mut O,
    horizon: Horizon,
    vehicle: u8,
) -> Result<u64, RunFault>
    requires readable { I.failure_count input.old < u64.MAX }
    requires writable { O.failure_count output.old < u64.MAX }
    // The headline. If neither device counted a failure, and there was memory and input: of a restriction file the output
    // took the schedule, and the answer is the number of its lines; of any other file it took nothing, and the answer is the
    // file's first fault.
    ensures headline { IsVehicleType vehicle
        → I.failure_count input.new ≡ I.failure_count input.old → O.failure_count output.new ≡ O.failure_count output.old
        → Headline vehicle horizon (I.to_come input.old) (O.taken output.old) (O.taken output.new) result }
    // What each answer means: after a failure or a refusal of memory, the first bytes of the same schedule.
    ensures stands { HasRun
        (λ found. ⊤) (λ found lines. ShowsOpen found vehicle horizon lines)
        (I.to_come input.old) (O.taken output.old) (O.taken output.new) result }
    // An output that took the whole text was then ended, last of all.
    ensures ended { OnOk result (IsTrue (O.is_ended output.new)) }
    ensures vehicle { IsErrOf result RunFault.VehicleRange ↔ (IsVehicleType vehicle → ⊥) }
    ensures year { IsErrOf result RunFault.YearRange → ⊥ }
    ensures element { IsErrOf result RunFault.NoElement → ⊥ }
    ensures endless { IsErrOf result (RunFault.Records RecordFault.Endless) → IsTrue (I.may_fall_silent input.old) }
    ensures read_faults { I.failure_count input.new
        ≡ failures_after_read result (I.failure_count input.old) }
    ensures write_faults { O.failure_count output.new
        ≡ failures_after_write result (O.failure_count output.old) }
{
    run_report(alloc, input, output, &Schedule { horizon, vehicle })
}
