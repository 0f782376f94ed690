//! Quotation marks around a field.

ghost use Rattle.std.specs.Prelude.{◌≡◌, ◌≤◌, take};
ghost use Rattle.gtd_mend.specs.Fields as spec;

// Whether the bytes are one quotation mark.
fn is_quote(mark: &[u8]) -> bool
    ensures value { result ≡ spec.is_quote mark.now }
{
    match *mark {
        [a] => a == 34 || a == 39,
        [a, b] => a == 194 && (b == 171 || b == 187),
        [a, b, c] => a == 226 && b == 128 && (c >= 152 && c <= 159 || c == 185 || c == 186),
        _ => false,
    }
}

// The first bytes of a field, at most so many.
fn first_bytes(count: usize, field: &[u8]) -> &[u8]
    ensures value { result.now ≡ take count field.now }
{
    &field[..field.len().min(count)]
}

// The last bytes of a field, at most so many.
fn last_bytes(count: usize, field: &[u8]) -> &[u8]
    ensures value { result.now ≡ spec.last_bytes count field.now }
{
    &field[field.len().saturating_sub(count)..]
}

// How many bytes the quotation mark has with which a field begins.
fn front_quote(field: &[u8]) -> usize
    ensures few { result ≤ 3 }
    ensures value { result ≡ spec.front_quote field.now }
{
    if is_quote(first_bytes(1, field)) {
        1
    } else if is_quote(first_bytes(2, field)) {
        2
    } else if is_quote(first_bytes(3, field)) {
        3
    } else {
        0
    }
}

// How many bytes the quotation mark has with which a field ends.
fn back_quote(field: &[u8]) -> usize
    ensures few { result ≤ 3 }
    ensures value { result ≡ spec.back_quote field.now }
{
    if is_quote(last_bytes(1, field)) {
        1
    } else if is_quote(last_bytes(2, field)) {
        2
    } else if is_quote(last_bytes(3, field)) {
        3
    } else {
        0
    }
}

// A field without quotation marks around it, if it has them, and something between them.
pub(crate) fn without_quotes(field: &[u8]) -> &[u8]
    ensures value { result.now ≡ spec.without_quotes field.now }
{
    let front = front_quote(field);
    let back = back_quote(field);
    if front > 0 && back > 0 && front + back < field.len() {
        &field[front..field.len() - back]
    } else {
        field
    }
}
