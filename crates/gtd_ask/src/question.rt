//! Questions.

ghost use Rattle.std.specs.Prelude.{◌≡◌, IfOk};
ghost use Rattle.csv.specs.Records.{fields_of};
ghost use Rattle.gtd_core.specs.Seconds.{IsMomentSecond};
ghost use Rattle.gtd_ask.specs.Questions.{question_of, vehicle_of};

use crate::fault::QuestionFault;
use csv::ByteRecord;
use gtd_core::Sec;
use gtd_moments::read_moment;
use gtd_rows::{Direction, four_columns, read_direction, read_number};

/// A question: whether an element is open in a direction, for a vehicle type from 1 to 99, at a second of the local civil clock.
#[derive(Clone, Copy)]
pub struct Question {
    /// The element.
    pub element: u64,
    /// The direction.
    pub direction: Direction,
    /// The vehicle type.
    pub vehicle: u8,
    /// The second.
    pub second: Sec,
}

// The vehicle type that a text names.
fn read_vehicle(text: &[u8]) -> Option<u8>
    ensures { result ≡ vehicle_of text.now }
{
    let number = read_number(text)?;
    if number >= 1 && number <= 99 {
        Some(number as u8)
    } else {
        None
    }
}

// The question that a row of a file stands for, or its first fault from the left.
pub(crate) fn read_question(number: u32, row: &ByteRecord) -> Result<Question, QuestionFault>
    ensures value { result ≡ question_of number (fields_of row.now) }
    ensures range { IfOk result (λ question. IsMomentSecond question.second.0) }
{
    let Some(columns) = four_columns(row) else {
        return Err(QuestionFault::FieldCount { row: number });
    };
    let Some(element) = read_number(columns.element) else {
        return Err(QuestionFault::Element { row: number });
    };
    let Some(direction) = read_direction(columns.closed) else {
        return Err(QuestionFault::Direction { row: number });
    };
    let Some(vehicle) = read_vehicle(columns.vehicles) else {
        return Err(QuestionFault::Vehicle { row: number });
    };
    match read_moment(columns.last) {
        Ok(second) => Ok(Question {
            element,
            direction,
            vehicle,
            second,
        }),
        Err(fault) => Err(QuestionFault::Moment { row: number, fault }),
    }
}
