//! A call of plans that takes no memory, while every growth is refused. It asserts the same answers twice, first with ample
//! memory.

use crate::growth::switch;
use crate::words::owned;
use gtd_tool::{Plan, plan};
use std::alloc::Global;
use std::process::Abort;

// The plan of the words.
fn planned(rt: &impl Abort, alloc: Global, words: &[&str]) -> Plan {
    let words = owned(alloc, words).expect(rt, "memory");
    match plan(alloc, words) {
        Ok(plan) => plan,
        Err(refusal) => panic!(rt; "{refusal}"),
    }
}

#[test]
fn files_of_plans(rt: HostRuntime) {
    let alloc = rt.alloc();
    let migrate = planned(&rt, alloc, &["migrate", "r.csv"]);
    let check = planned(&rt, alloc, &["check", "(h1){h1}"]);
    assert!(rt; (migrate.file(), check.file()) == (Some("r.csv"), None));
    switch(alloc);
    assert!(rt; (migrate.file(), check.file()) == (Some("r.csv"), None));
    switch(alloc);
}
