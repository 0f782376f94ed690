//! Bytes copied into a longer text.

ghost use Rattle.std.specs.Prelude.{◌≡◌, ◌≤◌, ◌+◌, ◌++◌, length, drop, take};

/// Copies the bytes to an offset in a text.
pub(crate) fn copy_at(text: &mut [u8], offset: usize, bytes: &[u8])
    requires room { offset + length bytes.now ≤ length text.old }
    ensures text { text.new ≡ take offset text.old ++ (bytes.now ++ drop (length bytes.now) (drop offset text.old)) }
{
    let (_, rest) = text.split_at_mut(offset);
    let (front, _) = rest.split_at_mut(bytes.len());
    front.copy_from_slice(bytes);
}

/// Copies 32 to 64 bytes to an offset in a text, after which it has at least 64.
#[inline(always)]
pub(crate) fn copy_line_at(text: &mut [u8], offset: usize, bytes: &[u8])
    requires least { 32 ≤ length bytes.now }
    requires most { length bytes.now ≤ 64 }
    requires room { offset + 64 ≤ length text.old }
    ensures text { text.new ≡ take offset text.old ++ (bytes.now ++ drop (length bytes.now) (drop offset text.old)) }
{
    let (_, rest) = text.split_at_mut(offset);
    copy_halves(rest, bytes);
}

// Copies 32 to 64 bytes to the front of a longer text, as two halves that may overlap. The halves have a fixed size, so no call
// is made.
#[inline(always)]
fn copy_halves(text: &mut [u8], bytes: &[u8])
    requires least { 32 ≤ length bytes.now }
    requires most { length bytes.now ≤ 64 }
    requires room { 64 ≤ length text.old }
    ensures text { text.new ≡ bytes.now ++ drop (length bytes.now) text.old }
{
    let count = bytes.len();
    let mut half = [0; 32];
    let (front, _) = text.split_at_mut(32);
    half.copy_from_slice(&bytes[..32]);
    front.copy_from_slice(&half);
    let (_, rest) = text.split_at_mut(count - 32);
    let (back, _) = rest.split_at_mut(32);
    let (_, last) = bytes.split_at(count - 32);
    half.copy_from_slice(last);
    back.copy_from_slice(&half);
}
