//! Spaces between tokens.

ghost use Rattle.std.specs.Prelude.{◌≤◌, ◌<◌, ◌≢◌, length, slice_index};
ghost use Rattle.gtd_scan.specs.Spaces.{AreSpaces};

/// The first place from this one on that is not a space, or the end of the text.
pub fn after_spaces(text: &[u8], from: usize) -> usize
    requires { from ≤ length text.now }
    ensures spaces { AreSpaces text.now from result }
    ensures inside { result ≤ length text.now }
    ensures ends { result < length text.now → slice_index text.now result ≢ 32 }
{
    let mut place = from;
    while place < text.len() {
        if text[place] != b' ' {
            return place;
        }
        place += 1;
    }
    place
}
