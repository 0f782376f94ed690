//! Texts that are cut.

ghost use Rattle.std.specs.Prelude.{◌≡◌, ◌≤◌, ◌+◌, length, drop};

/// A text from a place on.
pub(crate) fn text_from(text: &[u8], place: usize) -> &[u8]
    requires within { place ≤ length text.now }
    ensures text { result.now ≡ drop place text.now }
    ensures long { length result.now + place ≡ length text.now }
{
    &text[place..]
}
