//! The longest runs of letters and of digits at the front of bytes.

ghost use Rattle.std.specs.Prelude.{◌≡◌, ◌≤◌, ◌-◌, drop, length, true};
ghost use Rattle.std.specs.List.{list_all, prefix_len, take_while};
ghost use Rattle.std.specs.Char.{is_ascii_alphabetic, is_ascii_digit};

/// The letters of ASCII that the bytes begin with.
pub fn letters_at_front(bytes: &[u8]) -> &[u8]
    ensures front { result.now ≡ take_while is_ascii_alphabetic bytes.now }
    ensures long { length result.now ≡ prefix_len is_ascii_alphabetic bytes.now }
    ensures within { length result.now ≤ length bytes.now }
{
    &bytes[..letter_count(bytes)]
}

/// What comes after these letters.
pub fn after_letters(bytes: &[u8]) -> &[u8]
    ensures after { result.now ≡ drop (prefix_len is_ascii_alphabetic bytes.now) bytes.now }
    ensures long { length result.now ≡ length bytes.now - prefix_len is_ascii_alphabetic bytes.now }
{
    &bytes[letter_count(bytes)..]
}

fn letter_count(bytes: &[u8]) -> usize
    ensures count { result ≡ prefix_len is_ascii_alphabetic bytes.now }
    ensures within { result ≤ length bytes.now }
{
    bytes
        .iter()
        .take_while(|byte| byte.is_ascii_alphabetic())
        .count()
}

/// The decimal digits that the bytes begin with.
pub fn digits_at_front(bytes: &[u8]) -> &[u8]
    ensures front { result.now ≡ take_while is_ascii_digit bytes.now }
    ensures long { length result.now ≡ prefix_len is_ascii_digit bytes.now }
    ensures within { length result.now ≤ length bytes.now }
    ensures all { list_all is_ascii_digit result.now ≡ true }
{
    &bytes[..digit_count(bytes)]
}

/// What comes after these digits.
pub fn after_digits(bytes: &[u8]) -> &[u8]
    ensures after { result.now ≡ drop (prefix_len is_ascii_digit bytes.now) bytes.now }
    ensures long { length result.now ≡ length bytes.now - prefix_len is_ascii_digit bytes.now }
{
    &bytes[digit_count(bytes)..]
}

fn digit_count(bytes: &[u8]) -> usize
    ensures count { result ≡ prefix_len is_ascii_digit bytes.now }
    ensures within { result ≤ length bytes.now }
{
    bytes
        .iter()
        .take_while(|byte| byte.is_ascii_digit())
        .count()
}
