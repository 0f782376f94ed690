//! The words of a fault.

ghost use Rattle.std.specs.Prelude.{◌≡◌, Some, option_map};
ghost use Rattle.gtd_faults.specs.Expected as spec;
ghost use Rattle.gtd_faults.specs.Expected.{expected_line};
ghost use Rattle.gtd_faults.specs.Listing.{fault_text};

use gtd_core::Fault;
use gtd_records::RecordFault;
use std::fmt;
use std::fmt::{Display, Formatter};

/// A fault in words: its row, if it has one; its kind; and for a fault of a domain, the place.
#[derive(Clone, Copy)]
pub struct FaultText(pub RecordFault);

impl Display for FaultText {
    ghost output = { λ shown. Some (fault_text shown.0) };

    fn fmt<W: fmt::Write>(&self, f: &mut Formatter<W>) -> fmt::Result {
        match self.0 {
            RecordFault::ReadFault => write!(f, "ReadFault"),
            RecordFault::TooLarge => write!(f, "TooLarge"),
            RecordFault::Header => write!(f, "Header"),
            RecordFault::FieldCount { row } => write!(f, "row {row}: FieldCount"),
            RecordFault::Element { row } => write!(f, "row {row}: Element"),
            RecordFault::Direction { row } => write!(f, "row {row}: Direction"),
            RecordFault::Vehicle { row } => write!(f, "row {row}: Vehicle"),
            RecordFault::Domain { row, fault } => {
                let kind = fault.kind.name();
                let place = fault.place;
                write!(f, "row {row}: Domain {kind} at {place}")
            }
            RecordFault::TooManyRows => write!(f, "row 65537: TooManyRows"),
            RecordFault::NoMemory => write!(f, "NoMemory"),
            RecordFault::Endless => write!(f, "Endless"),
        }
    }
}

// What a text of a domain may have where this fault is.
fn accepted_text(kind: Fault) -> Option<&'static str>
    ensures { option_map (λ text. text.now) result ≡ spec.accepted_text kind }
{
    match kind {
        Fault::BadToken => {
            Some("a letter with 1 to 6 digits, a space, or one of ( ) { } [ ] + * -")
        }
        Fault::Fuzzy => Some("another field: fuzzy times are not read"),
        Fault::TooDeep => Some("at most 128 brackets that are open at once"),
        Fault::TooMany => Some("at most 128 basic domains"),
        Fault::Repeated => Some("each letter once within ( ) or { }"),
        Fault::FieldRange => Some("a number in the range of its letter, with its digits"),
        Fault::Negative => Some("a duration without a sign"),
        Fault::Unexpected => Some(
            "(start){duration} or [..] at the beginning and after an operator, and + * - or ] after one of them",
        ),
        Fault::Incomplete => Some("(start){duration} in full, and a ] for each ["),
        Fault::TooLongDuration => Some("a duration of at most 36600 days"),
        Fault::NoMemory => None,
    }
}

/// What a file may have where this fault is, in words. For `Header` it is shown below the first line, and so is not given here.
pub fn accepted(fault: RecordFault) -> Option<&'static str>
    ensures { option_map (λ text. text.now) result ≡ spec.accepted fault }
{
    match fault {
        RecordFault::FieldCount { .. } => Some("4 fields, with commas between them"),
        RecordFault::Element { .. } => Some("1 to 10 digits"),
        RecordFault::Direction { .. } => Some("positive, negative or both"),
        RecordFault::Vehicle { .. } => Some(
            "1 to 99, or 0 for every type; below the header vehicles also several, such as 11;12 or !1;2",
        ),
        RecordFault::Domain { fault, .. } => accepted_text(fault.kind),
        RecordFault::TooManyRows => Some("at most 65536 rows"),
        RecordFault::TooLarge => Some("at most 16777216 bytes"),
        _ => None,
    }
}

// The numbers of a field of a start with this letter.
fn range_text(letter: u8) -> &'static str
    ensures { result.now ≡ spec.range_text letter }
{
    match letter {
        b'y' => "4 digits for a year, 0000 to 9999",
        b'M' => "1 to 12 for a month",
        b'w' => "1 to 53 for a week",
        b'f' | b'l' => {
            "2 digits for a weekday's place in the month: 1 to 5, and the weekday, 1 to 7"
        }
        b'd' => "1 to 31 for a day of the month",
        b't' => "1 to 7 for a weekday, from Sunday on",
        b'h' => "0 to 23 for an hour",
        b'm' => "0 to 59 for a minute",
        b's' => "0 to 59 for a second",
        _ => "a number in the range of its letter, with its digits",
    }
}

/// The same where the fault is at this byte of a domain: for `FieldRange`, the range of the field with this letter.
pub fn accepted_at(fault: RecordFault, letter: u8) -> Option<&'static str>
    ensures { option_map (λ text. text.now) result ≡ spec.accepted_at fault letter }
{
    match fault {
        RecordFault::Domain { fault: why, .. } => match why.kind {
            Fault::FieldRange => Some(range_text(letter)),
            _ => accepted(fault),
        },
        _ => accepted(fault),
    }
}

/// The line that says what is accepted, or nothing.
#[derive(Clone, Copy)]
pub struct Expected<'a>(pub Option<&'a str>);

impl Display for Expected<'_> {
    ghost output = { λ shown. Some (expected_line (option_map (λ text. text.now) shown.0)) };

    fn fmt<W: fmt::Write>(&self, f: &mut Formatter<W>) -> fmt::Result {
        match self.0 {
            None => Ok(()),
            Some(text) => write!(f, "    expected: {text}\n"),
        }
    }
}
