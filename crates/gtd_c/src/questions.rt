//! Many questions of whether elements are closed.

ghost use Rattle.std.specs.Prelude.{◌≡◌, ◌↔◌, IsTrue};
ghost use Rattle.gtd_handles.specs.Answers.{gtd_kind};
ghost use Rattle.gtd_c.specs.Batches.{AreAnswered};
ghost use Rattle.gtd_handles.specs.Handles.{OfRecords};
ghost use Rattle.gtd_c.specs.Questions.{IsQuestion, IsQuestionClosed, no_question};
ghost use Rattle.gtd_handles.specs.Holding.{thing_of};

use crate::horizons::{direction_of, is_second, is_vehicle};
use gtd_core::Sec;
use gtd_handles::{Handle, KIND, RANGE, SHORT, Thing, YES};
use gtd_records::Records;
use std::alloc::Global;

/// A question of whether some record closes an element.
#[repr(C)]
#[derive(Clone, Copy, Debug, PartialEq, Eq)]
pub struct Question {
    /// The element.
    pub element: u64,
    /// The second.
    pub second: i64,
    /// The vehicle type.
    pub vehicle: u8,
    /// Whether the direction is the negative one.
    pub negative: bool,
}

// Whether the numbers of the question are in their ranges.
fn is_question(question: Question) -> bool
    ensures question { IsTrue result ↔ IsQuestion question }
{
    is_vehicle(question.vehicle) && is_second(question.second)
}

// Whether some record closes the element of the question.
fn is_closed(records: &Records, question: Question) -> bool
    requires question { IsQuestion question }
    ensures closed { IsTrue result ↔ IsQuestionClosed records.now question }
{
    records.closed_at(
        question.element,
        direction_of(question.negative),
        question.vehicle,
        Sec(question.second),
    )
}

// Whether some record closes the element of each question, up to the first that is out of range.
fn close_all(records: &Records, questions: &[Question], answers: &mut [u8], done: &mut usize) -> u32
    ensures answered { AreAnswered IsQuestion (IsQuestionClosed records.now) questions.now no_question
        result answers.old answers.new done.old done.new }
{
    if answers.len() < questions.len() {
        return SHORT;
    }
    for at in 0..questions.len() {
        let question = questions[at];
        if !is_question(question) {
            *done = at;
            return RANGE;
        }
        answers[at] = is_closed(records, question) as u8;
    }
    *done = questions.len();
    YES
}

/// Whether some record closes the element of each of many questions: 1 or 0 for each, in their order, up to the first of which
/// a number is out of range, and how many were answered. If there are fewer answers than questions, nothing is answered.
#[unsafe(no_mangle)]
pub extern "C" fn gtd_records_closed_many(
    alloc: Global,
    records: &mut Handle,
    questions: &[Question],
    answers: &mut [u8],
    done: &mut usize,
) -> u32
    ensures kept { thing_of records.new ≡ thing_of records.old }
    ensures answered { OfRecords (thing_of records.old) result (λ found.
        AreAnswered IsQuestion (IsQuestionClosed found) questions.now no_question
        result answers.old answers.new done.old done.new) }
    ensures untouched { (result ≡ gtd_kind) → (answers.new ≡ answers.old) × (done.new ≡ done.old) }
{
    let Some(thing) = records.take(alloc) else {
        return KIND;
    };
    let answer = match &*thing {
        Thing::Records(shared) => close_all(shared.records(), questions, answers, done),
        _ => KIND,
    };
    *records = Handle::of(thing);
    answer
}
