//! The calls of commands that take no memory, while every growth is refused.

use crate::devices::two_rows;
use crate::growth::switch;
use crate::gtdesk::plans::planned;
use gtd_devices::MemoryOut;
use gtdesk_tool::{Ending, Files, OnePlan, Turn, no_options, options_given, perform};

// The first file of a plan, and how many there are.
fn first_of(plan: &OnePlan) -> (&str, usize) {
    match plan.files() {
        Files::None => ("", 0),
        Files::One(path) => (path, 1),
        Files::Several(paths) => match paths {
            [] => ("", 0),
            [path, ..] => (path.as_str(), paths.len()),
        },
    }
}

// The same answers twice, first with ample memory.
#[test]
fn files_of_plans(rt: HostRuntime) {
    let alloc = rt.alloc();
    let faults = planned(&rt, alloc, &["faults", "r.csv", "-"]);
    let words = planned(&rt, alloc, &["words", "(h1){h1}"]);
    assert!(rt; (first_of(&faults), first_of(&words)) == (("r.csv", 2), ("", 0)));
    switch(alloc);
    assert!(rt; (first_of(&faults), first_of(&words)) == (("r.csv", 2), ("", 0)));
    switch(alloc);
}

// A text that was asked for is put without memory.
#[test]
fn texts(rt: HostRuntime) {
    let alloc = rt.alloc();
    let plan = planned(&rt, alloc, &["--version"]);
    let mut input = two_rows(&rt, alloc);
    let mut output = MemoryOut::new(alloc, 1_000, 5, None).expect(&rt, "memory");
    let mut errors = MemoryOut::new(alloc, 100, 100, None).expect(&rt, "memory");
    match options_given(&plan) {
        None => {
            let turn = Turn {
                plan: &plan,
                path: "r.csv",
                options: &no_options(),
            };
            switch(alloc);
            let done = perform(alloc, turn, &mut input, &mut output, &mut errors);
            assert!(rt; done == Ok(Ending::Done));
            assert!(rt; output.bytes() == b"gtdesk 0.1.0\n".as_slice());
            switch(alloc);
        }
        Some(_) => panic!(rt; "the plan has options of hours"),
    }
}
