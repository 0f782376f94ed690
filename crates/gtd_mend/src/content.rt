//! What a column holds.

ghost use Rattle.std.specs.Prelude.{◌≡◌};
ghost use Rattle.gtd_mend.specs.Fields as spec;

use crate::change::FieldChange;

// What a column holds, by which its fields are mended.
#[derive(Clone, Copy)]
pub(crate) enum Content {
    // A word: a name of the header, or a direction.
    Word,
    // A number: an element, or vehicle types.
    Number,
    // A domain.
    Domain,
    // Nothing that is known: there are more fields than a row has.
    Other,
}

// What the column with this index holds, from 0 on: in the header, or in the other rows.
pub(crate) fn content_of(head: bool, column: usize) -> Content
    ensures value { result ≡ spec.content_of head column }
{
    if head {
        return Content::Word;
    }
    match column {
        0 => Content::Number,
        1 => Content::Word,
        2 => Content::Number,
        3 => Content::Domain,
        _ => Content::Other,
    }
}

// What is changed if a field is mended as this content.
pub(crate) fn last_change(content: Content) -> FieldChange
    ensures value { result ≡ spec.last_change content }
{
    match content {
        Content::Word => FieldChange::Capitals,
        Content::Number => FieldChange::Decimals,
        Content::Domain => FieldChange::Dashes,
        Content::Other => FieldChange::Dashes,
    }
}
