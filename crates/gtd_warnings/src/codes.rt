//! Vehicle codes of rows.

ghost use Rattle.std.specs.Prelude.{◌≡◌, IfOk};
ghost use Rattle.csv.specs.Records.{fields_of};
ghost use Rattle.gtd_warnings.specs.Codes as spec;
ghost use Rattle.gtd_warnings.specs.Naming.{IsNaming};

use csv::ByteRecord;
use gtd_rows::{Vehicles, Version, four_columns, read_vehicles};
use std::alloc::{AllocError, Global};

/// A vehicle code that one row alone names.
#[derive(Clone, Copy)]
pub struct LoneCode {
    /// The row's number, from 1 on.
    pub row: u32,
    /// The code.
    pub code: u8,
}

/// The vehicle types of a row, if it has four fields and the third stands for some, whatever the others hold. `AllocError` is
/// answered only if memory was refused.
pub fn types_of_row(
    alloc: Global,
    version: Version,
    row: &ByteRecord,
) -> Result<Option<Vehicles>, AllocError>
    ensures { IfOk result (IsNaming version (fields_of row.now)) }
{
    match four_columns(row) {
        Some(columns) => read_vehicles(alloc, version, columns.vehicles),
        None => Ok(None),
    }
}

/// The codes that vehicle types list, after a `!` too; none for every type.
pub fn codes_listed(types: &Option<Vehicles>) -> &[u8]
    ensures { result.now ≡ spec.codes_listed types.now }
{
    match types {
        None => &[],
        Some(vehicles) => match vehicles {
            Vehicles::Every => &[],
            Vehicles::Only(codes) => codes.as_slice(),
            Vehicles::AllBut(codes) => codes.as_slice(),
        },
    }
}
