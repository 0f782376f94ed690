//! Runs over record files, called by what is asked for.

ghost use Rattle.std.specs.Prelude.{◌<◌};

use gtd_core::Horizon;
use gtd_devices::{Input, Output};
use gtd_migrate::run_migrate;
use gtd_report::RunFault;
use gtd_rows::Direction;
use gtd_schedule::run_schedule;
use gtd_year::run_year;
use std::alloc::Global;
use std::process::Abort;

/// A run, and what it is asked for.
#[derive(Clone, Copy)]
pub(crate) enum Job {
    /// A schedule over the days from one up to but not including another, for a vehicle type.
    Schedule(i64, i64, u8),
    /// The table of a year.
    Year(u64, Direction, u8, u16),
    Migrate,
}

/// 2024-04-01, and the next day.
pub(crate) const APRIL: Job = Job::Schedule(19_814, 19_815, 11);

/// The year 2024, for element 17 in its positive direction and vehicle type 11.
pub(crate) const LEAP_YEAR: Job = Job::Year(17, Direction::Positive, 11, 2024);

/// Does the run.
pub(crate) fn run<I: Input, O: Output>(
    rt: &impl Abort,
    alloc: Global,
    job: Job,
    input: &mut I,
    output: &mut O,
) -> Result<u64, RunFault>
    requires readable { I.failure_count input.old < u64.MAX }
    requires writable { O.failure_count output.old < u64.MAX }
{
    match job {
        Job::Schedule(from, to, vehicle) => match Horizon::new(from, to) {
            Ok(horizon) => run_schedule(alloc, input, output, horizon, vehicle),
            Err(_) => panic!(rt; "no horizon"),
        },
        Job::Year(element, direction, vehicle, year) => {
            run_year(alloc, input, output, element, direction, vehicle, year)
        }
        Job::Migrate => run_migrate(alloc, input, output),
    }
}
