//! `schedule FILE FROM TO VEHICLE`: the schedule of a record file.

ghost use Rattle.std.specs.Prelude.{◌<◌, [], ◌∷◌};
ghost use Rattle.gtd_tool.specs.Asked as asked;
ghost use Rattle.gtd_tool.specs.Asked.{Text, texts};
ghost use Rattle.gtd_tool.specs.Commands.Schedule.{reading};
ghost use Rattle.gtd_tool.specs.Plans.{IsReadTo};
ghost use Rattle.gtd_tool.specs.Running.{Ran};

use crate::loan::Lent;
use crate::plans::Plan;
use crate::refusal::Refusal;
use crate::runner::outcome;
use crate::words::{days_in, owned, vehicle_in};
use gtd_roads::{GATHERED, Gathered, Horizon, HostOut, Input, run_schedule};
use std::alloc::Global;
use std::io::Write;

/// The plan of the words.
pub fn read(alloc: Global, words: &[&str]) -> Result<Plan, Refusal>
    ensures read { IsReadTo (reading (texts words.now)) result }
{
    let [file, from, to, vehicle] = words else {
        return Err(Refusal::Usage);
    };
    read_words(alloc, file, from, to, vehicle)
}

fn read_words(
    alloc: Global,
    file: &str,
    from: &str,
    to: &str,
    vehicle: &str,
) -> Result<Plan, Refusal>
    ensures { IsReadTo (reading (file.now ∷ from.now ∷ to.now ∷ vehicle.now ∷ [])) result }
{
    let vehicle = vehicle_in(vehicle)?;
    let horizon = days_in(from, to)?;
    let file = owned(alloc, file)?;
    Ok(Plan::Schedule {
        file,
        horizon,
        vehicle,
    })
}

/// Prints the schedule of the record file that the input brings.
pub fn print<I: Input, W: Write>(
    alloc: Global,
    input: &mut I,
    out: &mut W,
    horizon: Horizon,
    vehicle: u8,
) -> Result<(), Refusal>
    requires readable { I.failure_count input.old < u64.MAX }
    ensures ran { (file : Text) → Ran (asked.Schedule file horizon vehicle)
        (I.to_come input.old) (W.contents out.old) (W.contents out.new) (I.may_fall_silent input.old)
        (I.failure_count input.old) (I.failure_count input.new) result }
{
    // The run would refuse such a vehicle type in the same way, but only after memory is asked for.
    if vehicle < 1 || vehicle > 99 {
        return Err(Refusal::VehicleRange);
    }
    let Ok(mut buffer) = vec![in alloc; 0u8; GATHERED] else {
        return Err(Refusal::Memory);
    };
    let device = HostOut::new(Lent {
        writer: &mut *out,
        taken: 0,
    });
    let mut output = Gathered::new(buffer.as_mut_slice(), device);
    outcome(run_schedule(alloc, input, &mut output, horizon, vehicle))
}
