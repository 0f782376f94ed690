//! `gtd` reads, checks and prints time domains and files of road restrictions.
//!
//! It writes its answer to standard output and ends with status 0, or writes one line to standard error and ends with
//! the status of its refusal: 1 if the input is refused, 2 for usage, 3 if opening, reading, writing or memory failed.
#![tactic(auto)]

use gtd_roads::Host;
use gtd_tool::{Plan, Refusal, perform, plan};
use std::fs::File;
use std::io::{BufWriter, ErrorKind, Read};
use std::process::ExitCode;
use std::{env, io};

// How many bytes are gathered before they are written to standard output: half of what a pipe holds. A schedule gathers its lines
// itself, in larger pieces, which are written as they are.
const OUTPUT_BUFFER: usize = 32_768;

// The words after the program's name. A word that is not UTF-8 is a fault of usage.
fn words_of(rt: &HostRuntime) -> Result<Vec<String>, Refusal> {
    let words = env::args(rt).map_err(|error| match error.kind() {
        ErrorKind::OutOfMemory => Refusal::Memory,
        _ => Refusal::Usage,
    })?;
    words
        .skip(1)
        .collect(rt.alloc())
        .map_err(|_| Refusal::Memory)
}

// The record file at the path.
fn open(rt: &HostRuntime, path: &str) -> Result<File, Refusal> {
    File::open(rt, path).map_err(|error| match error.kind() {
        ErrorKind::OutOfMemory => Refusal::Memory,
        _ => Refusal::Open,
    })
}

// Carries the plan out, from a reader to standard output.
fn print<R: Read + Drop>(rt: &HostRuntime, plan: &Plan, reader: R) -> Result<(), Refusal> {
    let mut input = Host::new(reader);
    let made = BufWriter::with_capacity(rt.alloc(), OUTPUT_BUFFER, io::writer(rt));
    let mut out = made.map_err(|_| Refusal::Memory)?;
    perform(rt.alloc(), plan, &mut input, &mut out)
}

fn run(rt: &HostRuntime) -> Result<(), Refusal> {
    let plan = plan(rt.alloc(), words_of(rt)?)?;
    match plan.file() {
        Some(path) => print(rt, &plan, open(rt, path)?),
        None => print(rt, &plan, io::empty()),
    }
}

fn main(rt: HostRuntime) -> ExitCode {
    match run(&rt) {
        Ok(()) => ExitCode::SUCCESS,
        Err(refusal) => {
            // If standard error fails, the status stays the same.
            let _ = refusal.put_line(&mut rt.stderr());
            ExitCode::from(refusal.status())
        }
    }
}
