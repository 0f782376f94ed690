//! Questions in the order in which they share work.

ghost use Rattle.std.specs.Prelude.{◌≡◌};
ghost use Rattle.std.specs.List.{All};
ghost use Rattle.gtd_core.specs.Seconds.{IsMomentSecond};
ghost use Rattle.gtd_ask.specs.Group.{group_of};

use crate::crowded::Crowded;
use crate::question::Question;
use gtd_core::Sec;
use gtd_rows::Direction;
use std::alloc::{AllocError, Global};

/// The seconds of a day.
const DAY: i64 = 86_400;

/// More than there are vehicle types.
const VEHICLES: u64 = 128;
/// Twice that: one for each direction.
const SIDES: u64 = 256;

/// What a question is about: an element in a direction, for a vehicle type.
#[derive(Clone, Copy, PartialEq, Eq)]
pub(crate) struct Group {
    pub(crate) element: u64,
    pub(crate) direction: Direction,
    pub(crate) vehicle: u8,
}

/// A question by the number of its group and its second.
#[derive(Clone, Copy, PartialEq, Eq, PartialOrd, Ord)]
pub(crate) struct Asked {
    pub(crate) number: u64,
    pub(crate) second: Sec,
    ghost in_range: { IsMomentSecond second.0 },
}

impl Group {
    /// Its number: groups of elements of at most ten digits have different ones.
    pub(crate) fn number(self) -> u64 {
        let side = match self.direction {
            Direction::Positive => 0,
            Direction::Negative => VEHICLES,
        };
        let place = u64::from(self.vehicle).saturating_add(side);
        self.element.saturating_mul(SIDES).saturating_add(place)
    }
}

impl Asked {
    /// The group with its number.
    pub(crate) fn group(&self) -> Group {
        let direction = if self.number / VEHICLES % 2 == 0 {
            Direction::Positive
        } else {
            Direction::Negative
        };
        Group {
            element: self.number / SIDES,
            direction,
            vehicle: (self.number % VEHICLES) as u8,
        }
    }
}

/// The group of a question.
pub(crate) fn group_of(question: &Question) -> Group
    ensures group { result ≡ group_of question.now }
{
    Group {
        element: question.element,
        direction: question.direction,
        vehicle: question.vehicle,
    }
}

/// Whether a second is at most so many days after another, or before it.
pub(crate) fn is_near(from: Sec, second: Sec, days: i64) -> bool {
    second.0.saturating_sub(from.0) <= days.saturating_mul(DAY)
}

/// The questions about elements with many rows, by group, and those of a group by their seconds.
pub(crate) fn asked_of(
    alloc: Global,
    crowded: &Crowded,
    questions: &[Question],
) -> Result<Vec<Asked>, AllocError>
    requires in_range { All (λ q. IsMomentSecond q.second.0) questions.now }
{
    let mut asked = Vec::new(alloc);
    for question in questions {
        if crowded.has(question.element) {
            let number = group_of(question).number();
            let second = question.second;
            asked.push(Asked { number, second })?;
        }
    }
    asked.sort_unstable();
    Ok(asked)
}

/// Whether the question at a place has another one of its group beside it.
pub(crate) fn is_shared(asked: &[Asked], at: usize, one: Asked) -> bool {
    if let Some(next) = asked.get(at.saturating_add(1)) {
        if next.number == one.number {
            return true;
        }
    }
    if at == 0 {
        return false;
    }
    match asked.get(at - 1) {
        Some(last) => last.number == one.number,
        None => false,
    }
}

/// The last question of the group of one, from a place on, before which none is more than so many days after the one before.
pub(crate) fn last_near(asked: &[Asked], from: usize, one: Asked, days: i64) -> Asked {
    let mut last = one;
    for at in from..asked.len() {
        let next = asked[at];
        if next.number != one.number || !is_near(last.second, next.second, days) {
            return last;
        }
        last = next;
    }
    last
}

/// The last question of the group of one, from a place on.
pub(crate) fn last_beside(asked: &[Asked], from: usize, one: Asked) -> Asked {
    let mut last = one;
    for at in from..asked.len() {
        let next = asked[at];
        if next.number != one.number {
            return last;
        }
        last = next;
    }
    last
}
