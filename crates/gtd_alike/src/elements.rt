//! Elements that are open at the same seconds.

ghost use Rattle.std.specs.Prelude.{IfOk};
ghost use Rattle.gtd_alike.specs.Alike.{AreFirstAlike};
ghost use Rattle.gtd_alike.specs.Ready.{AreAlikeAt};

use crate::firsts::{Likeness, firsts_of};
use gtd_records::{Records, are_closed_alike};
use gtd_rows::DirectedElement;
use std::alloc::{AllocError, Global};

/// Elements in a direction, with the records of their file. They are alike if they are open at the same seconds.
#[derive(Clone, Copy)]
pub(crate) struct Elements<'a> {
    found: &'a Records,
    vehicle: u8,
    asked: &'a [DirectedElement],
}

impl Likeness for Elements<'_> {
    ghost alike = { AreAlikeAt };

    fn is_alike(&self, first: usize, second: usize) -> bool {
        let Some(one) = self.asked.get(first) else {
            return false;
        };
        let Some(other) = self.asked.get(second) else {
            return false;
        };
        are_closed_alike(self.found, *one, *other, self.vehicle)
    }

    fn hash(&self, at: usize) -> u32 {
        match self.asked.get(at) {
            Some(one) => {
                let closed = self.found.closed_directions(one.element, self.vehicle);
                closed.of(one.direction).hash
            }
            None => 0,
        }
    }
}

/// For each of these elements in a direction one that is open at the same seconds for the vehicle type: an earlier one, of
/// which rows with the same domains close both, or itself. `AllocError` is answered only if memory was refused.
pub fn first_alike(
    alloc: Global,
    found: &Records,
    asked: &[DirectedElement],
    vehicle: u8,
) -> Result<Vec<usize>, AllocError>
    ensures alike { IfOk result (λ firsts. AreFirstAlike found.now vehicle asked.now firsts.items) }
{
    let elements = Elements {
        found,
        vehicle,
        asked,
    };
    let firsts = firsts_of(alloc, &elements, asked.len())?;
    Ok(firsts)
}
