//! Vehicle types for which steps do the same.

ghost use Rattle.std.specs.Prelude.{◌≡◌, ◌↔◌, ◌≤◌, ℕ, IfSome, IsTrue};
ghost use Rattle.gtd_conditional_rows.specs.Alike.{AreAlike, IsLower, first_of};
ghost use Rattle.gtd_conditional_rows.specs.Times.{times_of};
ghost use Rattle.gtd_conditional_rows.specs.Types.{IsVehicle, has_type};

use crate::step::Step;

/// Of each vehicle type, at the place of its number, the lowest one for which the same steps apply, as far as it was found.
#[derive(Clone, Copy)]
pub(crate) struct Alike {
    first: [u8; 100],
}

// Mixes into the number of each vehicle type whether a step speaks of it.
fn mix(numbers: &mut [u32; 100], step: &Step) {
    for place in 0..100 {
        let flag = u32::from(step.types.has[place]);
        numbers[place] = (numbers[place].rotate_left(5) ^ flag).wrapping_mul(0x9E37_79B1);
    }
}

// A number of each vehicle type: the same for those for which the same steps apply, and else hardly ever.
fn numbers_of(steps: &[Step]) -> [u32; 100] {
    let mut numbers = [1; 100];
    for step in steps {
        mix(&mut numbers, step);
    }
    numbers
}

// The lowest vehicle type with the number of this one.
fn lowest_like(numbers: &[u32; 100], vehicle: u8) -> u8
    requires { vehicle ≤ 99 }
{
    for lower in 1..vehicle {
        if numbers[usize::from(lower)] == numbers[usize::from(vehicle)] {
            return lower;
        }
    }
    vehicle
}

// What the numbers of vehicle types say. Whether it holds is seen afterwards. Most types are as the one before.
fn guessed(steps: &[Step]) -> Alike {
    let numbers = numbers_of(steps);
    let mut first = [0; 100];
    let mut before = 0;
    for vehicle in 1..100 {
        let place = usize::from(vehicle);
        if before == 0 || numbers[place] != numbers[place - 1] {
            before = lowest_like(&numbers, vehicle);
        }
        first[place] = before;
    }
    Alike { first }
}

// Each vehicle type itself.
fn each_itself() -> Alike
    ensures { (t : ℕ) → IsVehicle t → first_of result t ≡ t }
{
    let mut first = [0; 100];
    for vehicle in 1..100 {
        first[usize::from(vehicle)] = vehicle;
    }
    Alike { first }
}

// Whether a step speaks of a vehicle type exactly if it speaks of the one that is kept of it.
fn is_as_kept(step: &Step, alike: &Alike, vehicle: u8) -> bool
    requires { IsVehicle vehicle }
    ensures { IsTrue result → has_type step.now.types (first_of alike.now vehicle) ≡ has_type step.now.types vehicle }
{
    step.types.has(alike.first[usize::from(vehicle)]) == step.types.has(vehicle)
}

// Whether that is so of all vehicle types.
fn are_as_kept(step: &Step, alike: &Alike) -> bool
    ensures { IsTrue result → (t : ℕ) → IsVehicle t
        → has_type step.now.types (first_of alike.now t) ≡ has_type step.now.types t }
{
    for vehicle in 1..100 {
        if !is_as_kept(step, alike, vehicle) {
            return false;
        }
    }
    true
}

// Whether that is so in all steps.
fn are_alike(steps: &[Step], alike: &Alike) -> bool
    ensures { IsTrue result → AreAlike steps.now alike.now }
{
    let mut rest = steps;
    while let Some((step, more)) = rest.split_first() {
        if !are_as_kept(step, alike) {
            return false;
        }
        rest = more;
    }
    true
}

// Whether each vehicle type is kept itself. Then the steps need not be looked at.
fn is_each_itself(alike: &Alike) -> bool
    ensures { IsTrue result → (t : ℕ) → IsVehicle t → first_of alike.now t ≡ t }
{
    for vehicle in 1..100 {
        if alike.first[usize::from(vehicle)] != vehicle {
            return false;
        }
    }
    true
}

/// Of each vehicle type the lowest one for which the same steps apply. The steps are gone over twice, whereas those of a type are
/// gone over several times when its rows are made.
pub(crate) fn alike_in(steps: &[Step]) -> Alike
    ensures { AreAlike steps.now result }
{
    let alike = guessed(steps);
    if is_each_itself(&alike) || are_alike(steps, &alike) {
        return alike;
    }
    each_itself()
}

impl Alike {
    /// A lower vehicle type for which the same steps apply, if one was found.
    pub(crate) fn lower(&self, vehicle: u8) -> Option<u8>
        requires { IsVehicle vehicle }
        ensures { IfSome result (IsLower self.now vehicle) }
    {
        let first = self.first[usize::from(vehicle)];
        if 0 < first && first < vehicle {
            Some(first)
        } else {
            None
        }
    }
}
