//! Faults of opening hours as numbers, and their names.

ghost use Rattle.std.specs.Prelude.{◌≡◌, ◌↔◌, IfSome, IsSome, codes};
ghost use Rattle.gtd_handles.specs.Answers.{IsRange, gtd_range};
ghost use Rattle.gtd_c.specs.OpeningHours.{IsHoursFaultKind, IsHoursFaultName, IsHoursTextFaultKind, hours_fault_name};
ghost use Rattle.gtd_c.specs.OpeningHours.{hours_fault_number, hours_fault_numbers, too_many_number};
ghost use Rattle.gtd_handles.specs.Writing.{IsWritten};

use gtd_handles::{RANGE, write};
use gtd_hours_grammar::{FaultKind, HoursFault};

/// The number that says that the domain of hours would have too many basic domains.
pub(crate) const TOO_MANY: u32 = 6;

/// Why a text of opening hours has no domain, as numbers.
#[repr(C)]
#[derive(Clone, Copy, Debug, PartialEq, Eq)]
pub struct HoursFaultNumbers {
    /// The number of its kind.
    pub kind: u32,
    /// The number of bytes before its place.
    pub place: usize,
}

// The number of a kind of fault. 6 is that of too many basic domains.
fn number_of(kind: FaultKind) -> u32
    ensures number { result ≡ hours_fault_number kind }
{
    match kind {
        FaultKind::BadToken => 1,
        FaultKind::Unsupported => 2,
        FaultKind::Range => 3,
        FaultKind::Unexpected => 4,
        FaultKind::Incomplete => 5,
        FaultKind::Years => 7,
    }
}

/// The numbers of the fault of a text of opening hours.
pub(crate) fn numbers_of(fault: HoursFault) -> HoursFaultNumbers
    ensures numbers { result ≡ hours_fault_numbers fault }
{
    HoursFaultNumbers {
        kind: number_of(fault.kind),
        place: fault.place,
    }
}

// The kind of fault with a number.
fn kind_of(number: u32) -> Option<FaultKind>
    ensures kind { IfSome result (λ kind. hours_fault_number kind ≡ number) }
    ensures exists { IsSome result ↔ IsHoursTextFaultKind number }
{
    match number {
        1 => Some(FaultKind::BadToken),
        2 => Some(FaultKind::Unsupported),
        3 => Some(FaultKind::Range),
        4 => Some(FaultKind::Unexpected),
        5 => Some(FaultKind::Incomplete),
        7 => Some(FaultKind::Years),
        _ => None,
    }
}

// The name of a kind of fault.
fn name_of(kind: FaultKind) -> &'static str
    ensures name { result.now ≡ hours_fault_name kind }
{
    match kind {
        FaultKind::BadToken => "BadToken",
        FaultKind::Unsupported => "Unsupported",
        FaultKind::Range => "Range",
        FaultKind::Unexpected => "Unexpected",
        FaultKind::Incomplete => "Incomplete",
        FaultKind::Years => "Years",
    }
}

/// The name of the fault of a text of opening hours with this number, from 1 to 7: yes, and its length. If there is too little
/// room, its length alone.
#[unsafe(no_mangle)]
pub extern "C" fn gtd_hours_fault_name(kind: u32, out: &mut [u8], length: &mut usize) -> u32
    ensures name { IsHoursTextFaultKind kind → IsHoursFaultName kind result out.old out.new length.new }
    ensures too_many { (kind ≡ too_many_number) → IsWritten (codes "TooMany") result out.old out.new length.new }
    ensures range { IsRange (IsHoursFaultKind kind) result }
    ensures untouched { (result ≡ gtd_range) → (out.new ≡ out.old) × (length.new ≡ length.old) }
{
    if kind == TOO_MANY {
        return write(b"TooMany", out, length);
    }
    match kind_of(kind) {
        Some(kind) => write(name_of(kind).as_bytes(), out, length),
        None => RANGE,
    }
}
