//! The words of a fault of questions.

ghost use Rattle.std.specs.Prelude.{◌≡◌, Some};
ghost use Rattle.gtd_ask.specs.Texts as spec;
ghost use Rattle.gtd_ask.specs.Texts.{question_fault_text};

use crate::fault::QuestionFault;
use gtd_calendar::StampFault;
use std::fmt;
use std::fmt::{Display, Formatter};

// What a moment must be where it has this fault.
fn moment_text(fault: StampFault) -> &'static str
    ensures { result.now ≡ spec.moment_text fault }
{
    match fault {
        StampFault::Shape => "expected YYYY-MM-DDThh:mm:ss",
        StampFault::NoSuchDate => "no such date or clock time",
        StampFault::Range => "expected 1901-01-01T00:00:00 to 2199-12-31T23:59:59",
    }
}

/// A fault of a file of questions in words: its row, if it has one; its kind; and what is accepted there.
#[derive(Clone, Copy)]
pub struct QuestionText(pub QuestionFault);

impl Display for QuestionText {
    ghost output = { λ shown. Some (question_fault_text shown.0) };

    fn fmt<W: fmt::Write>(&self, f: &mut Formatter<W>) -> fmt::Result {
        match self.0 {
            QuestionFault::ReadFault => write!(f, "ReadFault"),
            QuestionFault::Endless => write!(f, "Endless"),
            QuestionFault::NoMemory => write!(f, "NoMemory"),
            QuestionFault::TooLarge => write!(f, "TooLarge: expected at most 134217728 bytes"),
            QuestionFault::Header => {
                write!(f, "Header: expected element,direction,vehicle,moment")
            }
            QuestionFault::FieldCount { row } => {
                write!(
                    f,
                    "row {row}: FieldCount: expected 4 fields, with commas between them"
                )
            }
            QuestionFault::Element { row } => write!(
                f,
                "row {row}: Element: expected 1 to 10 digits"
            ),
            QuestionFault::Direction { row } => {
                write!(f, "row {row}: Direction: expected positive or negative")
            }
            QuestionFault::Vehicle { row } => write!(f, "row {row}: Vehicle: expected 1 to 99"),
            QuestionFault::Moment { row, fault } => {
                write!(f, "row {row}: Moment: {}", moment_text(fault))
            }
            QuestionFault::TooManyRows => {
                write!(f, "row 2000001: TooManyRows: expected at most 2000000 rows")
            }
        }
    }
}
