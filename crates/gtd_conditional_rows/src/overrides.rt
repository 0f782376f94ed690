//! Steps that later ones override.

ghost use Rattle.std.specs.Prelude.{◌≡◌, ◌⊎◌, ◌≤◌, ◌<◌, ◌+◌, ℕ, List, None, drop, length};
ghost use Rattle.gtd_conditional_rows.specs.Overrides.{AreEffective};
ghost use Rattle.gtd_conditional_rows.specs.Times.{times_of};
ghost use Rattle.gtd_conditional_rows.specs.Types.{HasType, IsVehicle};
ghost use Rattle.gtd_conditional_rows.specs.declared.step.Step.{Step};

use crate::step::Step;
use crate::types::Types;

// Adds the types of a step to the settled ones, if it applies at all seconds.
fn settle(settled: &mut Types, step: &Step)
    ensures { (t : ℕ) → IsVehicle t → HasType settled.new t
        → HasType settled.old t ⊎ ((step.now.hours ≡ None) × HasType step.now.types t) }
{
    if step.hours.is_none() {
        *settled = settled.either(&step.types);
    }
}

// Puts the step at a place before those that are kept, unless it is overridden: all its types are settled. Answers the place of
// the first step that is kept then.
fn keep(steps: &mut [Step], settled: &mut Types, place: usize, first: usize) -> usize
    requires before { place < first }
    requires inside { first ≤ length steps.old }
    ensures { (all : List Step) → AreEffective all steps.old (place + 1) first settled.old
        → AreEffective all steps.new place result settled.new }
{
    if steps[place].types.are_in(settled) {
        return first;
    }
    settle(settled, &steps[place]);
    steps.swap(place, first - 1);
    first - 1
}

/// Moves the steps that are not overridden to the end, in their order, and answers the place of the first of them. From there on
/// they do the same as all. A step is overridden if, for each of its types, a later one applies at all seconds. Takes no memory.
pub(crate) fn put_effective_last(steps: &mut [Step]) -> usize
    ensures inside { result ≤ length steps.new }
    ensures long { length steps.new ≡ length steps.old }
    ensures same { (t : ℕ) → IsVehicle t → times_of (drop result steps.new) t ≡ times_of steps.old t }
{
    let mut settled = Types::none();
    let mut place = steps.len();
    let mut first = place;
    while place > 0 {
        place -= 1;
        first = keep(steps, &mut settled, place, first);
    }
    first
}
