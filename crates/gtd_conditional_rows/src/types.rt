//! Sets of vehicle types.

ghost use Rattle.std.specs.Prelude.{◌≡◌, false, length, slice_index_or};

use crate::flags::are_same;

/// A set of vehicle types, which are 1 to 99.
#[derive(Clone, Copy, Debug)]
pub struct Types {
    // Whether it has a type, at the place of its number. The place 0 is no type's.
    pub(crate) has: [bool; 100],
    ghost no_type: { slice_index_or has 0 false ≡ false },
    // Said for other crates, which see no private field's length.
    ghost long: { length has ≡ 100 },
}

// Sets are compared without a branch, by `&` and `|` in place of `&&` and `||`, so that many types are at once.
impl Types {
    ghost use Rattle.std.specs.Prelude.{◌≡◌, ◌↔◌, ◌⊎◌, ℕ, IsTrue};
    ghost use Rattle.gtd_conditional_rows.specs.Types.{HasType, IsVehicle, has_type, same_flags};

    /// No type.
    pub fn none() -> Types
        ensures { (t : ℕ) → HasType result t → ⊥ }
    {
        Types { has: [false; 100] }
    }

    /// Whether a type is in the set.
    pub fn has(&self, vehicle: u8) -> bool
        ensures { result ≡ has_type self.now vehicle }
    {
        match self.has.get(usize::from(vehicle)) {
            Some(flag) => *flag,
            None => false,
        }
    }

    /// Adds a type.
    pub fn add(&mut self, vehicle: u8)
        requires { IsVehicle vehicle }
        ensures { (t : ℕ) → IsVehicle t → HasType self.new t ↔ (HasType self.old t ⊎ (t ≡ vehicle)) }
    {
        self.has[usize::from(vehicle)] = true;
    }

    /// The types that are in both sets.
    pub fn common(&self, other: &Types) -> Types
        ensures { (t : ℕ) → IsVehicle t → HasType result t ↔ (HasType self.now t × HasType other.now t) }
    {
        let mut has = [false; 100];
        for vehicle in 1..100 {
            has[vehicle] = self.has[vehicle] & other.has[vehicle];
        }
        Types { has }
    }

    /// The other types.
    pub fn others(&self) -> Types
        ensures { (t : ℕ) → IsVehicle t → HasType result t ↔ (HasType self.now t → ⊥) }
    {
        let mut has = [false; 100];
        for vehicle in 1..100 {
            has[vehicle] = !self.has[vehicle];
        }
        Types { has }
    }

    // The types that are in one of both sets.
    pub(crate) fn either(&self, other: &Types) -> Types
        ensures { (t : ℕ) → IsVehicle t → HasType result t ↔ (HasType self.now t ⊎ HasType other.now t) }
    {
        let mut has = [false; 100];
        for vehicle in 1..100 {
            has[vehicle] = self.has[vehicle] | other.has[vehicle];
        }
        Types { has }
    }

    // Whether all types are in another set.
    pub(crate) fn are_in(&self, other: &Types) -> bool
        ensures { IsTrue result ↔ ((t : ℕ) → IsVehicle t → HasType self.now t → HasType other.now t) }
    {
        let mut all = true;
        for vehicle in 1..100 {
            all = all & (!self.has[vehicle] | other.has[vehicle]);
        }
        all
    }

    // Whether both have the same types.
    pub(crate) fn is_same(&self, other: &Types) -> bool
        ensures { result ≡ same_flags self.now.has other.now.has }
    {
        are_same(&self.has, &other.has)
    }
}
