//! How a run calls its output.

use crate::devices::{two_rows, uncalled};
use crate::gtd::job::{APRIL, Job, LEAP_YEAR, run};

// An output is offered each line once, where it takes all of it, and is ended once.
#[test]
fn lines_and_ends_of_outputs(rt: HostRuntime) {
    let alloc = rt.alloc();
    for (job, lines) in [(APRIL, 3u64), (LEAP_YEAR, 366), (Job::Migrate, 3)] {
        let mut input = two_rows(&rt, alloc);
        let mut output = uncalled();
        assert!(rt; run(&rt, alloc, job, &mut input, &mut output) == Ok(lines));
        assert!(rt; (output.puts, output.ends, output.is_ended) == (lines, 1, true));
    }
}
