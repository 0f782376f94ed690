//! Inputs and outputs that fail, fall silent, are interrupted or take little at a time: at which call. What the programs do over
//! such files and outputs is tested by `tests/failing.sh`.

use crate::texts::R;
use gtd_devices::{HostOut, InputFault, MemoryIn, MemoryOut, Output, Put, read_whole};
use std::alloc::Global;
use std::io::{Error, ErrorKind, Result as IoResult, Write};
use std::process::Abort;

// Why the 88 bytes of `R` are not read whole, or nothing if they are: in pieces of at most 7 bytes, from an input that fails at a
// call or is silent from one on.
fn fault_of(
    rt: &impl Abort,
    alloc: Global,
    fail_call: Option<u64>,
    silent_from: Option<u64>,
    most: usize,
) -> Option<InputFault> {
    let bytes = Vec::from_slice(alloc, R.as_bytes()).expect(rt, "memory");
    let mut input = MemoryIn::new(bytes, 7, fail_call, silent_from);
    match read_whole(alloc, &mut input, most) {
        Ok(_) => None,
        Err(fault) => Some(fault),
    }
}

// 88 bytes come in 13 pieces of 7 bytes at most, and the 14th pull finds the end.
#[test]
fn pulls_that_fail_or_are_silent(rt: HostRuntime) {
    let alloc = rt.alloc();
    for call in 1u64..15 {
        let failed = fault_of(&rt, alloc, Some(call), None, 88);
        assert!(rt; failed == Some(InputFault::ReadFault), "{call}");
        let silent = fault_of(&rt, alloc, None, Some(call), 88);
        assert!(rt; silent == Some(InputFault::Endless), "{call}");
    }
    assert!(rt; fault_of(&rt, alloc, Some(15), Some(15), 88) == None);
    assert!(rt; fault_of(&rt, alloc, None, None, 87) == Some(InputFault::TooLarge));
    // The call that fails is not a silent one.
    assert!(rt; fault_of(&rt, alloc, Some(9), Some(5), 88) == Some(InputFault::ReadFault));
}

// A writer of which so many calls fail before each one that succeeds: by an error of this kind, or by a write that takes nothing.
#[derive(Drop)]
struct Faltering {
    kind: Option<ErrorKind>,
    failures: u32,
    left: u32,
}

impl Faltering {
    // Whether this call fails.
    fn fails(&mut self) -> bool {
        if self.left > 0 {
            self.left -= 1;
            return true;
        }
        self.left = self.failures;
        false
    }
}

impl Write for Faltering {
    fn write(&mut self, buf: &[u8]) -> IoResult<usize> {
        if !self.fails() {
            return Ok(buf.len());
        }
        match self.kind {
            Some(kind) => Err(Error::from(kind)),
            None => Ok(0),
        }
    }

    fn flush(&mut self) -> IoResult<()> {
        if !self.fails() {
            return Ok(());
        }
        match self.kind {
            Some(kind) => Err(Error::from(kind)),
            None => Ok(()),
        }
    }
}

// What the output over such a writer answers to two puts.
fn expect_puts(rt: &impl Abort, kind: Option<ErrorKind>, failures: u32, first: Put, second: Put) {
    let mut output = HostOut::new(Faltering {
        kind,
        failures,
        left: failures,
    });
    assert!(rt; output.put(b"17".as_slice()) == first);
    assert!(rt; output.put(b"17".as_slice()) == second);
}

// Interrupted writes are counted in a row. No other write that fails is tried again.
#[test]
fn writes(rt: HostRuntime) {
    let interrupted = Some(ErrorKind::Interrupted);
    expect_puts(&rt, interrupted, 999, Put::Took(2), Put::Took(2));
    expect_puts(&rt, interrupted, 1_000, Put::Failed, Put::Took(2));
    for kind in [
        None,
        Some(ErrorKind::WouldBlock),
        Some(ErrorKind::TimedOut),
        Some(ErrorKind::BrokenPipe),
        Some(ErrorKind::Other),
    ] {
        expect_puts(&rt, kind, 1, Put::Failed, Put::Took(2));
    }
}

// The first end of an output fails, the second succeeds and the third fails. So each of them flushes once: an end that flushed
// twice, or once more after a failure, would meet another flush.
#[test]
fn ends(rt: HostRuntime) {
    for kind in [
        ErrorKind::Interrupted,
        ErrorKind::WouldBlock,
        ErrorKind::TimedOut,
        ErrorKind::Other,
    ] {
        let mut output = HostOut::new(Faltering {
            kind: Some(kind),
            failures: 1,
            left: 1,
        });
        assert!(rt; output.finish() == Put::Failed);
        assert!(rt; output.finish() == Put::Took(0));
        assert!(rt; output.finish() == Put::Failed);
        assert!(rt; output.failures() == 2);
    }
}

#[test]
fn a_call_that_fails(rt: HostRuntime) {
    let mut output = MemoryOut::new(rt.alloc(), 1000, 5, Some(3)).expect(&rt, "memory");
    assert!(rt; output.put(b"element,direction".as_slice()) == Put::Took(5));
    assert!(rt; output.put(b"nt,direction".as_slice()) == Put::Took(5));
    assert!(rt; output.put(b"rection".as_slice()) == Put::Failed);
    assert!(rt; output.bytes() == b"element,di".as_slice());
    assert!(rt; output.finish() == Put::Took(0));
}

#[test]
fn an_end_that_fails(rt: HostRuntime) {
    let mut output = MemoryOut::new(rt.alloc(), 3, 5, Some(2)).expect(&rt, "memory");
    assert!(rt; output.put(b"element".as_slice()) == Put::Took(3));
    assert!(rt; output.finish() == Put::Failed);
    assert!(rt; output.put(b"ment".as_slice()) == Put::Failed);
    assert!(rt; output.bytes() == b"ele".as_slice());
    assert!(rt; output.failures() == 2);
}
