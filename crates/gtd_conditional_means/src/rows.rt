//! The columns of a row.

ghost use Rattle.std.specs.Prelude.{◌≡◌, ◌≢◌, ◌∷◌, [], length, IfSome, IfNone};
ghost use Rattle.csv.specs.Records.{fields_of};

use csv::ByteRecord;

/// The columns of a row that has three.
#[derive(Clone, Copy)]
pub(crate) struct Columns<'a> {
    pub(crate) kind: &'a [u8],
    pub(crate) name: &'a [u8],
    pub(crate) means: &'a [u8],
}

/// The three columns of a row, or `None` if it does not have three.
pub(crate) fn three_columns(row: &ByteRecord) -> Option<Columns<'_>>
    ensures three { IfSome result (λ columns. fields_of row.now
        ≡ columns.kind.now ∷ columns.name.now ∷ columns.means.now ∷ []) }
    ensures other { IfNone result (length (fields_of row.now) ≢ 3) }
{
    if row.len() != 3 {
        return None;
    }
    let Some(kind) = row.get(0) else {
        return None;
    };
    let Some(name) = row.get(1) else {
        return None;
    };
    let Some(means) = row.get(2) else {
        return None;
    };
    Some(Columns { kind, name, means })
}
