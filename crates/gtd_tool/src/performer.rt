//! Carrying a plan out.

ghost use Rattle.std.specs.Prelude.{◌≡◌, ◌≢◌, ◌↔◌, ◌<◌, List, None, Ok, Err, IfErr, IsOk, IfSome, OnErr, OnOk};
ghost use Rattle.std.specs.Io.KnownBytes.{Keeps};
ghost use Rattle.gtd_roads.specs.File.{IsFile};
ghost use Rattle.gtd_roads.specs.Closing.{Restriction};
ghost use Rattle.gtd_tool.specs.Commands.{file_of};
ghost use Rattle.gtd_tool.specs.Plans.{asked_by};
ghost use Rattle.gtd_tool.specs.Printed.{AsksPastYears};
ghost use Rattle.gtd_tool.specs.Running.{AppendsTextOf, IfFile, IfRead, IsAccepted, IsCause, IsLacking};
ghost use Rattle.gtd_tool.specs.Running.{IsPartPrinted, IsPrinted, IsRefusedFile, IsVehicleInRange, IsYearInRange};
ghost use Rattle.gtd_tool.specs.Running.{failures_after};

use crate::commands::carry_out;
use crate::plans::Plan;
use crate::refusal::Refusal;
use gtd_roads::{Input, RecordFault};
use std::alloc::Global;
use std::io::Write;

/// Carries the plan out: writes what it prints, and flushes. The input brings the bytes of the plan's
/// [`file`](Plan::file), and is left alone if the plan has none.
///
/// In order: `VehicleRange` if the vehicle type is not from 1 to 99; `YearRange` if the year is not from 1901 to 2199;
/// the first fault of reading the record file (`Records`); `NoElement` if no record names the element. `HasYear` is the
/// answer if all later changes of a domain that gives a year are asked for. Nothing is written before these checks, nor
/// before the record file has been read and accepted. `Write` and `Memory` come as they happen, and the writer has then
/// taken a first part of what is printed. Before the call, the input's failures must be below `u64::MAX`.
pub fn perform<I: Input, W: Write>(
    alloc: Global,
    plan: &Plan,
    input: &mut I,
    out: &mut W,
) -> Result<(), Refusal>
    requires readable { I.failure_count input.old < u64.MAX }
    // What is printed: an answer, or a report of the record file that the input brings.
    ensures printed { OnOk result (IsPrinted (asked_by plan.now)
        (I.to_come input.old) (W.contents out.old) (W.contents out.new)) }
    // If it fails, a first part of that.
    ensures part { OnErr result (IsPartPrinted (asked_by plan.now)
        (I.to_come input.old) (W.contents out.old) (W.contents out.new)) }
    // An accepted file is printed, if nothing hinders it.
    ensures accepted { IfRead (asked_by plan.now) (I.to_come input.old) result (λ bytes.
        (found : List Restriction) → IsFile bytes (Ok found) → IsAccepted (asked_by plan.now) found
        → IsOk result × AppendsTextOf (asked_by plan.now) found
        (W.contents out.old) (W.contents out.new)) }
    // The first fault of a file is the refusal, if nothing hinders it.
    ensures refused { IfRead (asked_by plan.now) (I.to_come input.old) result (λ bytes.
        (why : RecordFault) → IsFile bytes (Err why) → result ≡ Err (Refusal.Records why)) }
    // Nothing is ever printed for a refused file.
    ensures nothing { IfFile (asked_by plan.now) (IfSome (I.to_come input.old) (λ bytes.
        IsRefusedFile (asked_by plan.now) bytes
        → Keeps (W.contents out.old) (W.contents out.new))) }
    // A file that does not name the element of a year's table is refused for that, if nothing hinders it.
    ensures lacking { IfRead (asked_by plan.now) (I.to_come input.old) result (λ bytes.
        IsLacking (asked_by plan.now) bytes → result ≡ Err Refusal.NoElement) }
    // Each refusal has its cause: `Memory` comes only where a command takes memory, `Write` only once a file is accepted.
    ensures cause { IfErr result (IsCause (asked_by plan.now)
        (I.to_come input.old) (I.may_fall_silent input.old)) }
    ensures vehicle { (result ≡ Err Refusal.VehicleRange) ↔ (IsVehicleInRange (asked_by plan.now) → ⊥) }
    ensures table_year { (result ≡ Err Refusal.YearRange)
        ↔ (IsVehicleInRange (asked_by plan.now) × (IsYearInRange (asked_by plan.now) → ⊥)) }
    ensures year { (result ≡ Err Refusal.HasYear) ↔ AsksPastYears (asked_by plan.now) }
    // Any refusal other than for a failed write or refused memory comes before anything is written.
    ensures unwritten { IfErr result (λ r. r ≢ Refusal.Write → r ≢ Refusal.Memory
        → Keeps (W.contents out.old) (W.contents out.new)) }
    // A command without a file leaves the input as it was. If it is refused for anything but a failed write, it leaves
    // the writer as it was too.
    ensures untouched { file_of (asked_by plan.now) ≡ None
        → (input.new ≡ input.old) × IfErr result (λ r. r ≢ Refusal.Write → out.new ≡ out.old) }
    ensures read_faults { I.failure_count input.new
        ≡ failures_after result (I.failure_count input.old) }
{
    carry_out(alloc, plan, input, out)
}
