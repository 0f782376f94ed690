//! The columns of a row.

ghost use Rattle.std.specs.Prelude.{◌≡◌, ◌≢◌, [], ◌∷◌, length, IfSome, IfNone};
ghost use Rattle.csv.specs.Records.{fields_of};

use csv::ByteRecord;

/// The columns of a row that has four.
#[derive(Drop)]
pub struct Columns<'a> {
    /// The element.
    pub element: &'a [u8],
    /// The directions that are closed.
    pub closed: &'a [u8],
    /// The vehicle types.
    pub vehicles: &'a [u8],
    /// When it closes: in a record file, the domain.
    pub last: &'a [u8],
}

/// The four columns of a row, or `None` if it does not have four. Takes no memory.
pub fn four_columns(row: &ByteRecord) -> Option<Columns<'_>>
    ensures four { IfSome result (λ columns. fields_of row.now
        ≡ columns.element.now ∷ columns.closed.now ∷ columns.vehicles.now ∷ columns.last.now ∷ []) }
    ensures other { IfNone result (length (fields_of row.now) ≢ 4) }
{
    if row.len() != 4 {
        return None;
    }
    let Some(element) = row.get(0) else {
        return None;
    };
    let Some(closed) = row.get(1) else {
        return None;
    };
    let Some(vehicles) = row.get(2) else {
        return None;
    };
    let Some(last) = row.get(3) else {
        return None;
    };
    Some(Columns {
        element,
        closed,
        vehicles,
        last,
    })
}
