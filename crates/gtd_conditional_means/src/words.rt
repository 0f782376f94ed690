//! Words.

ghost use Rattle.std.specs.Prelude.{◌≡◌};
ghost use Rattle.std.specs.List.{list_all};
ghost use Rattle.gtd_conditional_means.specs.Comparisons as spec;

/// Whether a byte is a lower case letter of ASCII or `_`.
pub(crate) fn is_word_byte(byte: u8) -> bool
    ensures { result ≡ spec.is_word_byte byte }
{
    byte.is_ascii_lowercase() || byte == b'_'
}

/// Whether a text has a byte at least.
pub(crate) fn is_some_text(text: &[u8]) -> bool
    ensures { result ≡ spec.is_some_text text.now }
{
    0 < text.len()
}

// Whether a text is such bytes alone.
fn are_word_bytes(text: &[u8]) -> bool
    ensures { result ≡ list_all spec.is_word_byte text.now }
{
    text.iter().all(|byte| is_word_byte(*byte))
}

/// Whether a text is one or more lower case letters of ASCII and `_`. Takes no memory.
pub fn is_lower_word(text: &[u8]) -> bool
    ensures is { result ≡ spec.is_lower_word text.now }
{
    is_some_text(text) && are_word_bytes(text)
}
