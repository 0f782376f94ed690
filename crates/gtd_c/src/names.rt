//! Names of faults, and the version.

ghost use Rattle.std.specs.Prelude.{◌≡◌, IfSome, IsSome, codes};
ghost use Rattle.std.specs.Prelude.{◌↔◌};
ghost use Rattle.gtd_handles.specs.Answers.{IsRange, gtd_range};
ghost use Rattle.gtd_c.specs.Faults.{IsFaultKind, IsRecordFaultKind, fault_number, record_fault_numbers};
ghost use Rattle.gtd_c.specs.Names.{IsFaultName, IsRecordFaultName};
ghost use Rattle.gtd_handles.specs.Writing.{IsWritten};

use gtd_core::{Fault, TextFault};
use gtd_handles::{RANGE, write};
use gtd_records::RecordFault;

// The fault of a text with a number.
fn fault_of(kind: u32) -> Option<Fault>
    ensures fault { IfSome result (λ fault. fault_number fault ≡ kind) }
    ensures exists { IsSome result ↔ IsFaultKind kind }
{
    match kind {
        1 => Some(Fault::BadToken),
        2 => Some(Fault::Fuzzy),
        3 => Some(Fault::TooDeep),
        4 => Some(Fault::TooMany),
        5 => Some(Fault::Repeated),
        6 => Some(Fault::FieldRange),
        7 => Some(Fault::Negative),
        8 => Some(Fault::Unexpected),
        9 => Some(Fault::Incomplete),
        10 => Some(Fault::TooLongDuration),
        _ => None,
    }
}

/// The name of the fault of a text with this number, from 1 to 10: yes, and its length. If there is too little room, its length
/// alone.
#[unsafe(no_mangle)]
pub extern "C" fn gtd_fault_name(kind: u32, out: &mut [u8], length: &mut usize) -> u32
    ensures name { IsFaultKind kind → IsFaultName kind result out.old out.new length.new }
    ensures range { IsRange (IsFaultKind kind) result }
    ensures untouched { (result ≡ gtd_range) → (out.new ≡ out.old) × (length.new ≡ length.old) }
{
    match fault_of(kind) {
        Some(fault) => write(fault.name().as_bytes(), out, length),
        None => RANGE,
    }
}

// A fault of a record file with a number.
fn record_fault_of(kind: u32) -> Option<RecordFault>
    ensures fault { IfSome result (λ fault. (record_fault_numbers fault).kind ≡ kind) }
    ensures exists { IsSome result ↔ IsRecordFaultKind kind }
{
    match kind {
        2 => Some(RecordFault::TooLarge),
        3 => Some(RecordFault::Header),
        4 => Some(RecordFault::FieldCount { row: 1 }),
        5 => Some(RecordFault::Element { row: 1 }),
        6 => Some(RecordFault::Direction { row: 1 }),
        7 => Some(RecordFault::Vehicle { row: 1 }),
        8 => Some(RecordFault::Domain {
            row: 1,
            fault: TextFault {
                kind: Fault::Incomplete,
                place: 0,
            },
        }),
        9 => Some(RecordFault::TooManyRows),
        _ => None,
    }
}

/// The name of the fault of a record file with this number, from 2 to 9: yes, and its length. If there is too little room, its
/// length alone.
#[unsafe(no_mangle)]
pub extern "C" fn gtd_record_fault_name(kind: u32, out: &mut [u8], length: &mut usize) -> u32
    ensures name { IsRecordFaultKind kind → IsRecordFaultName kind result out.old out.new length.new }
    ensures range { IsRange (IsRecordFaultKind kind) result }
    ensures untouched { (result ≡ gtd_range) → (out.new ≡ out.old) × (length.new ≡ length.old) }
{
    match record_fault_of(kind) {
        Some(fault) => write(fault.name().as_bytes(), out, length),
        None => RANGE,
    }
}

/// The version of this library: yes, and its length. If there is too little room, its length alone.
#[unsafe(no_mangle)]
pub extern "C" fn gtd_version(out: &mut [u8], length: &mut usize) -> u32
    ensures version { IsWritten (codes "0.1.0") result out.old out.new length.new }
{
    write(b"0.1.0", out, length)
}
