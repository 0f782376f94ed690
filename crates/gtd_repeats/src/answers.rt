//! Which rows close at no second at which others do not, as far as this was asked before.

ghost use Rattle.std.specs.Prelude.{◌<◌, ◌↔◌, List, IfOk, IfSome, IsTrue, length};
ghost use Rattle.gtd_records.specs.Closing.{Restriction};
ghost use Rattle.gtd_repeats.specs.Answers.{AreRight, IsRight, IsWithinSeconds};

use crate::seconds::holds_within;
use gtd_records::Record;
use std::alloc::{AllocError, Global};

/// How many answers are remembered.
const PLACES: usize = 4096;

/// Whether a row closes at no second at which another does not.
#[derive(Clone, Copy, Debug, PartialEq, Eq)]
pub(crate) struct Answer {
    pub(crate) row: usize,
    pub(crate) other: usize,
    pub(crate) is_within: bool,
}

/// Places for answers, which say at first that the first row closes at no second at which it does not.
pub(crate) fn first_answers(alloc: Global) -> Result<Vec<Answer>, AllocError>
    ensures right { (rows : List Restriction) → IfOk result (λ answers. AreRight rows answers.items) }
{
    let first = Answer {
        row: 0,
        other: 0,
        is_within: true,
    };
    let mut answers = Vec::new(alloc);
    for _ in 0..PLACES {
        answers.push(first)?;
    }
    Ok(answers)
}

// The place of two rows. Others may have the same.
fn place_of(row: usize, other: usize) -> usize {
    let first = (row % 65_536) as u32;
    let second = (other % 65_536) as u32;
    let hash = first.wrapping_mul(16_777_619) ^ second;
    (hash.wrapping_mul(2_654_435_769) >> 20) as usize
}

// What a place says of two rows, if it says anything of them.
fn answer_at(answers: &[Answer], place: usize, row: usize, other: usize) -> Option<bool>
    ensures right { (rows : List Restriction) → AreRight rows answers.now
        → IfSome result (λ is_within. IsTrue is_within ↔ IsWithinSeconds rows row other) }
{
    match answers.get(place) {
        Some(answer) => {
            if answer.row == row && answer.other == other {
                Some(answer.is_within)
            } else {
                None
            }
        }
        None => None,
    }
}

// Remembers an answer, in place of another.
fn keep(answers: &mut Vec<Answer>, place: usize, answer: Answer)
    ensures right { (rows : List Restriction) → AreRight rows answers.old.items → IsRight rows answer
        → AreRight rows answers.new.items }
{
    if let Some(kept) = answers.get_mut(place) {
        *kept = answer;
    }
}

/// Whether a row closes at no second at which another does not. The answer is found once, and then remembered.
pub(crate) fn is_within_seconds(
    alloc: Global,
    rows: &[Record],
    answers: &mut Vec<Answer>,
    row: usize,
    other: usize,
) -> Result<bool, AllocError>
    requires inside { row < length rows.now }
    requires other { other < length rows.now }
    requires right { AreRight rows.now answers.old.items }
    ensures right { AreRight rows.now answers.new.items }
    ensures within { IfOk result (λ is_within. IsTrue is_within ↔ IsWithinSeconds rows.now row other) }
{
    let place = place_of(row, other);
    if let Some(is_within) = answer_at(answers.as_slice(), place, row, other) {
        return Ok(is_within);
    }
    let first = &rows[row];
    let second = &rows[other];
    let is_within = holds_within(alloc, first.domain(), second.domain())?;
    let answer = Answer {
        row,
        other,
        is_within,
    };
    keep(answers, place, answer);
    Ok(is_within)
}
