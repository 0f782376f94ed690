//! The picture of a year of an element of the record file that an input brings, put to an output.

ghost use Rattle.std.specs.Prelude.{◌≡◌, ◌+◌, ◌<◌, ◌↔◌, ◌⊎◌, Any, Some, OnOk, IfOk, IsErrOf, IsTrue, List, pos};
ghost use Rattle.gtd_calendar.specs.Calendar.{year_length};
ghost use Rattle.gtd_records.specs.Closing.{Restriction};
ghost use Rattle.gtd_report.specs.Run.{AcceptedFilesArePut, HasRun, IsTableYear, IsVehicleType, RefusedFilesPutNothing};
ghost use Rattle.gtd_report.specs.Run.{UnacceptedFilesPutNothing, failures_after_read, failures_after_write};
ghost use Rattle.gtd_picture.specs.Crowded.{IsCrowded};
ghost use Rattle.gtd_picture.specs.Open.{IsOpenSeen};
ghost use Rattle.gtd_records.specs.Closing.{IsOpen};

use crate::crowd::is_open_crowded;
use crate::picture::{Caption, put_picture};
use gtd_calendar::days_of_year;
use gtd_devices::{Input, Output};
use gtd_records::{RecordFault, Records, open_seconds};
use gtd_report::{Printer, Report, RunFault, Stop, Subject, finish, run_report};
use gtd_rows::Direction;
use std::alloc::Global;

/// The picture of a year, for an element in a direction and a vehicle type, under a title.
#[derive(Clone, Copy)]
pub struct YearPicture<'a> {
    /// The element.
    pub element: u64,
    /// The direction.
    pub direction: Direction,
    /// The vehicle type.
    pub vehicle: u8,
    /// The year.
    pub year: u16,
    /// The title.
    pub title: &'a str,
}

impl Report for YearPicture<'_> {
    ghost subject = { λ report.
        record { vehicle = Some report.vehicle; year = Some report.year; element = Some report.element } };

    ghost is_text = { λ report found lines.
        IsOpenSeen found report.element report.direction report.vehicle report.title.now report.year lines };

    fn subject(&self) -> Subject {
        Subject {
            vehicle: Some(self.vehicle),
            year: Some(self.year),
            element: Some(self.element),
        }
    }

    fn put<O: Output>(
        &self,
        output: &mut O,
        printer: &mut Printer,
        found: &Records,
    ) -> Result<(), Stop> {
        if is_open_crowded(printer.alloc, found, self)? {
            return finish(output);
        }
        let open = open_seconds(
            printer.alloc,
            found,
            self.element,
            self.direction,
            self.vehicle,
            days_of_year(self.year),
        )?;
        let caption = Caption {
            title: self.title,
            inside: "open",
            outside: "closed",
            year: self.year,
        };
        put_picture(output, printer, open, &caption)?;
        finish(output)
    }
}

/// Puts the picture of an element of the record file that an input brings: at which seconds of the days of a year from
/// 1901 to 2199 the element is open in the direction for a vehicle type from 1 to 99. Answers the number of its lines, two
/// more than the year has days. If it is open in more than 20,000 stretches, puts nothing, and answers 0.
///
/// In order: `VehicleRange`; `YearRange`; the first fault of reading the file (`Records`); `NoElement` if no record
/// names the element; then `WriteFault` or `NoMemory`, whichever happens first. Nothing is put until the whole file has
/// been read and accepted. Before the call, the failures of both devices must be below `u64::MAX`.
pub fn run_picture<I: Input, O: Output>(
    alloc: Global,
    input: &mut I,
    output: &mut O,
    picture: &YearPicture<'_>,
) -> Result<u64, RunFault>
    requires readable { I.failure_count input.old < u64.MAX }
    requires writable { O.failure_count output.old < u64.MAX }
    // Accepted files are shown: if neither device counted a failure, and there was memory and input, the output took the
    // picture of an element that the file names, and the answer is the number of its lines.
    ensures accepted { IsVehicleType picture.now.vehicle → IsTableYear picture.now.year
        → I.failure_count input.new ≡ I.failure_count input.old → O.failure_count output.new ≡ O.failure_count output.old
        → AcceptedFilesArePut
        (λ found. Any (λ (r : Restriction). r.element ≡ picture.now.element) found)
        (λ found lines. IsOpenSeen found picture.now.element picture.now.direction picture.now.vehicle
        picture.now.title.now picture.now.year lines)
        (I.to_come input.old) (O.taken output.old) (O.taken output.new) result }
    // Refused files print nothing: if nothing hinders it, the answer is the first fault of the file.
    ensures refused { IsVehicleType picture.now.vehicle → IsTableYear picture.now.year
        → I.failure_count input.new ≡ I.failure_count input.old → O.failure_count output.new ≡ O.failure_count output.old
        → RefusedFilesPutNothing (I.to_come input.old) (O.taken output.old) (O.taken output.new) result }
    // An element that the file does not name has no picture: if nothing hinders it, the answer says so.
    ensures unnamed { IsVehicleType picture.now.vehicle → IsTableYear picture.now.year
        → I.failure_count input.new ≡ I.failure_count input.old → O.failure_count output.new ≡ O.failure_count output.old
        → UnacceptedFilesPutNothing
        (λ found. Any (λ (r : Restriction). r.element ≡ picture.now.element) found)
        (I.to_come input.old) (O.taken output.old) (O.taken output.new) result }
    // What each answer means: after a failure or a refusal of memory, the first bytes of the same picture.
    ensures stands { HasRun
        (λ found. Any (λ (r : Restriction). r.element ≡ picture.now.element) found)
        (λ found lines. IsOpenSeen found picture.now.element picture.now.direction picture.now.vehicle
        picture.now.title.now picture.now.year lines)
        (I.to_come input.old) (O.taken output.old) (O.taken output.new) result }
    // The answer is the number of lines of a picture, or 0, exactly if it would be crowded.
    ensures lines { IfOk result (λ count. (count ≡ year_length (pos picture.now.year) + 2)
        ⊎ ((count ≡ 0) × ((found : List Restriction) × IsCrowded
        (IsOpen found picture.now.element picture.now.direction picture.now.vehicle) picture.now.year))) }
    // An output that took the whole text was then ended, last of all.
    ensures ended { OnOk result (IsTrue (O.is_ended output.new)) }
    ensures vehicle { IsErrOf result RunFault.VehicleRange ↔ (IsVehicleType picture.now.vehicle → ⊥) }
    ensures year { IsErrOf result RunFault.YearRange ↔ (IsVehicleType picture.now.vehicle × (IsTableYear picture.now.year → ⊥)) }
    ensures endless { IsErrOf result (RunFault.Records RecordFault.Endless) → IsTrue (I.may_fall_silent input.old) }
    ensures read_faults { I.failure_count input.new
        ≡ failures_after_read result (I.failure_count input.old) }
    ensures write_faults { O.failure_count output.new
        ≡ failures_after_write result (O.failure_count output.old) }
{
    run_report(alloc, input, output, picture)
}
