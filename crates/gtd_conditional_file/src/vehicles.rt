//! The vehicle types of a row, as a record file names them.

ghost use Rattle.std.specs.Prelude.{◌≡◌, ◌++◌, ◌∷◌, [], IfOk, OnOk, if◌then◌else◌};
ghost use Rattle.gtd_conditional_rows.specs.Types.{has_type};
ghost use Rattle.gtd_conditional_file.specs.Vehicles as spec;

use gtd_conditional_rows::{Listing, Types, listing_of};
use gtd_rows::{Codes, Vehicles};
use std::alloc::{AllocError, Global};

// Adds a type, if it is in the set.
fn add_number(numbers: &mut Vec<u8>, types: &Types, vehicle: u8) -> Result<(), AllocError>
    ensures { OnOk result (numbers.new.items
        ≡ if has_type types.now vehicle then numbers.old.items ++ vehicle ∷ [] else numbers.old.items) }
{
    if types.has(vehicle) {
        numbers.push(vehicle)?;
    }
    Ok(())
}

// The types of a set, in ascending order.
fn numbers_of(alloc: Global, types: &Types) -> Result<Vec<u8>, AllocError>
    ensures numbers { IfOk result (λ numbers. spec.AreNumbers types.now numbers.items) }
{
    let mut numbers = Vec::new(alloc);
    for vehicle in 1..100u8 {
        add_number(&mut numbers, types, vehicle)?;
    }
    Ok(numbers)
}

fn codes_of(alloc: Global, types: &Types) -> Result<Codes, AllocError>
    ensures codes { IfOk result (λ codes. spec.AreNumbers types.now codes) }
{
    let numbers = numbers_of(alloc, types)?;
    Codes::new(alloc, numbers)
}

/// The types of a set, as a record file names them: all; a list, if they are at most 49; else all except a list.
pub(crate) fn vehicles_of(alloc: Global, types: &Types) -> Result<Vehicles, AllocError>
    ensures { IfOk result (λ vehicles. spec.AreNamed types.now vehicles) }
{
    match listing_of(types) {
        Listing::Every => Ok(Vehicles::Every),
        Listing::Only(listed) => match codes_of(alloc, &listed) {
            Ok(codes) => Ok(Vehicles::Only(codes)),
            Err(why) => Err(why),
        },
        Listing::AllBut(listed) => match codes_of(alloc, &listed) {
            Ok(codes) => Ok(Vehicles::AllBut(codes)),
            Err(why) => Err(why),
        },
    }
}
