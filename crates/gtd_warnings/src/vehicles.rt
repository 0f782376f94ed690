//! Vehicle types for which rows close something.

ghost use Rattle.std.specs.Prelude.{◌↔◌, IsTrue};
ghost use Rattle.gtd_rows.specs.Serving.{Serves};
ghost use Rattle.gtd_warnings.specs.Vehicles.{IsForSome};

use gtd_records::Records;
use gtd_rows::Vehicles;

// Whether a type is one of these.
fn serves(vehicles: &Vehicles, vehicle: u8) -> bool
    ensures { IsTrue result ↔ Serves vehicles.now vehicle }
{
    match vehicles {
        Vehicles::Every => true,
        Vehicles::Only(types) => types.as_slice().contains(&vehicle),
        Vehicles::AllBut(types) => !types.as_slice().contains(&vehicle),
    }
}

/// Whether some record closes something for this vehicle type, at whatever second: it names the type, or every type, or all but
/// others. A type for which none does may be mistyped.
pub fn is_some_row_for(records: &Records, vehicle: u8) -> bool
    ensures some { IsTrue result ↔ IsForSome records.now vehicle }
{
    for record in records.rows() {
        if serves(&record.vehicles, vehicle) {
            return true;
        }
    }
    false
}
