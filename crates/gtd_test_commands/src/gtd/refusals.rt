//! Runs, when one of their growths is refused: how much they say that they put. `tests/refusals.sh` refuses the growths of each
//! test one after the other, one in each run, and those of each command line, too.
//!
//! A refused call is made once more, and must then succeed. So with ample memory it succeeds, and a refusal leaves nothing
//! behind. A test that is refused the memory that it needs for itself ends.

use crate::devices::R;
use crate::gtd::job::{APRIL, Job, run};
use gtd_devices::{MemoryIn, MemoryOut};
use gtd_records::RecordFault;
use gtd_report::RunFault;
use std::alloc::Global;
use std::process::Abort;

/// The schedule of `R` for 2024-04-01 and vehicle type 11.
const SCHEDULE: &str = "element,direction,vehicle,from,until\n\
    17,positive,11,2024-04-01T00:00:00,2024-04-01T10:00:00\n\
    17,positive,11,2024-04-01T14:00:00,2024-04-02T00:00:00\n";

/// `R` as a file of version 2.
const MIGRATED: &str =
    "element,direction,vehicles,domain\n17,positive,0,[[(M4d1){M3}]*[(h10){h4}]]\n17,negative,11,\n";

// The run puts this text if no memory is refused; otherwise the first part that it tells, and nothing before the file
// is accepted.
fn expect_put(rt: &impl Abort, alloc: Global, job: Job, text: &[u8], lines: u64) {
    for _ in 0..2 {
        let Ok(file) = Vec::from_slice(alloc, R.as_bytes()) else {
            return;
        };
        let Ok(mut output) = MemoryOut::new(alloc, 10_000, 10_000, None) else {
            return;
        };
        let mut input = MemoryIn::new(file, 7, None, None);
        let answer = run(rt, alloc, job, &mut input, &mut output);
        match answer {
            Ok(count) => {
                assert!(rt; count == lines);
                assert!(rt; output.bytes() == text);
                return;
            }
            Err(RunFault::NoMemory { written }) => {
                assert!(rt; output.bytes().len() as u64 == written);
                assert!(rt; text.starts_with(output.bytes()));
            }
            Err(fault) => {
                assert!(rt; fault == RunFault::Records(RecordFault::NoMemory));
                assert!(rt; output.bytes().is_empty());
            }
        }
    }
    panic!(rt; "refused twice");
}

#[test]
fn a_schedule_that_is_run(rt: HostRuntime) {
    expect_put(&rt, rt.alloc(), APRIL, SCHEDULE.as_bytes(), 3);
}

#[test]
fn a_file_that_is_migrated(rt: HostRuntime) {
    expect_put(&rt, rt.alloc(), Job::Migrate, MIGRATED.as_bytes(), 3);
}
