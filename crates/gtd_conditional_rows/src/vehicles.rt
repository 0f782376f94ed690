//! The vehicle types of a record, as a set.

ghost use Rattle.std.specs.Prelude.{◌≡◌, ◌↔◌, ◌⊎◌, ℕ};
ghost use Rattle.std.specs.List.{Contains};
ghost use Rattle.gtd_rows.specs.Serving.{Serves};
ghost use Rattle.gtd_conditional_rows.specs.Types.{HasType, IsVehicle};

use crate::types::Types;
use gtd_rows::Vehicles;

// Adds the type of a code, if it is one of a vehicle type.
fn add_code(types: &mut Types, code: u8)
    ensures { (t : ℕ) → IsVehicle t → HasType types.new t ↔ (HasType types.old t ⊎ (t ≡ code)) }
{
    if 1 <= code && code <= 99 {
        types.add(code);
    }
}

// The types of a list.
fn listed(codes: &[u8]) -> Types
    ensures { (t : ℕ) → IsVehicle t → HasType result t ↔ Contains codes.now t }
{
    let mut types = Types::none();
    for code in codes {
        add_code(&mut types, *code);
    }
    types
}

/// The types that are named for a record, as a set.
pub fn types_of(vehicles: &Vehicles) -> Types
    ensures { (t : ℕ) → IsVehicle t → HasType result t ↔ Serves vehicles.now t }
{
    match vehicles {
        Vehicles::Every => Types::none().others(),
        Vehicles::Only(codes) => listed(codes.as_slice()),
        Vehicles::AllBut(codes) => listed(codes.as_slice()).others(),
    }
}
