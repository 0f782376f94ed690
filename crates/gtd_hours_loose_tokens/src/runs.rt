//! The spaces at the front of bytes, and what a comment holds there.

ghost use Rattle.std.specs.Prelude.{◌≡◌, ◌≤◌, ◌-◌, drop, length};
ghost use Rattle.std.specs.List.{prefix_len};
ghost use Rattle.gtd_hours_loose_tokens.specs.Signs.{is_no_quote, is_space};

/// How many spaces there are.
pub fn space_count(bytes: &[u8]) -> usize
    ensures count { result ≡ prefix_len is_space bytes.now }
    ensures within { result ≤ length bytes.now }
{
    bytes.iter().take_while(|byte| **byte == b' ').count()
}

/// What comes after the spaces.
pub fn after_spaces(bytes: &[u8]) -> &[u8]
    ensures after { result.now ≡ drop (prefix_len is_space bytes.now) bytes.now }
    ensures long { length result.now ≡ length bytes.now - prefix_len is_space bytes.now }
{
    &bytes[space_count(bytes)..]
}

/// How many bytes a comment holds, after its first quote.
pub fn comment_bytes(bytes: &[u8]) -> usize
    ensures count { result ≡ prefix_len is_no_quote bytes.now }
    ensures within { result ≤ length bytes.now }
{
    bytes.iter().take_while(|byte| **byte != b'"').count()
}
