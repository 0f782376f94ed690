//! The columns of a row.

ghost use Rattle.std.specs.Prelude.{◌≡◌, ◌≢◌, ◌∷◌, [], length, IfSome, IfNone};
ghost use Rattle.csv.specs.Records.{fields_of};

use csv::ByteRecord;

/// The columns of a row that has three.
#[derive(Clone, Copy)]
pub(crate) struct Columns<'a> {
    pub(crate) element: &'a [u8],
    pub(crate) key: &'a [u8],
    pub(crate) value: &'a [u8],
}

/// The three columns of a row, or `None` if it does not have three.
pub(crate) fn three_columns(row: &ByteRecord) -> Option<Columns<'_>>
    ensures three { IfSome result (λ columns. fields_of row.now
        ≡ columns.element.now ∷ columns.key.now ∷ columns.value.now ∷ []) }
    ensures other { IfNone result (length (fields_of row.now) ≢ 3) }
{
    if row.len() != 3 {
        return None;
    }
    let Some(element) = row.get(0) else {
        return None;
    };
    let Some(key) = row.get(1) else {
        return None;
    };
    let Some(value) = row.get(2) else {
        return None;
    };
    Some(Columns {
        element,
        key,
        value,
    })
}
