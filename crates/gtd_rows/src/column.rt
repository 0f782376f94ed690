//! The columns of a record file that are one number or one word.

ghost use Rattle.std.specs.Prelude.{◌≡◌};
ghost use Rattle.gtd_rows.specs.Columns.{closed_of, code_of, direction_of, number_of};

use crate::direction::{Closed, Direction};

/// The number that 1 to 10 ASCII digits stand for, leading zeros allowed; `None` for every other text. Takes no memory.
pub fn read_number(text: &[u8]) -> Option<u64>
    ensures value { result ≡ number_of text.now }
{
    if text.is_empty() || text.len() > 10 {
        return None;
    }
    let mut number = 0u64;
    for digit in text {
        if !digit.is_ascii_digit() {
            return None;
        }
        number = number * 10 + (*digit - b'0') as u64;
    }
    Some(number)
}

/// The direction that the word `positive` or `negative` names; `None` for every other text. Takes no memory.
pub fn read_direction(text: &[u8]) -> Option<Direction>
    ensures value { result ≡ direction_of text.now }
{
    if text == b"positive".as_slice() {
        Some(Direction::Positive)
    } else if text == b"negative".as_slice() {
        Some(Direction::Negative)
    } else {
        None
    }
}

/// The directions that the word `positive`, `negative` or `both` closes; `None` for every other text. Takes no memory.
pub fn read_closed(text: &[u8]) -> Option<Closed>
    ensures value { result ≡ closed_of text.now }
{
    if text == b"both".as_slice() {
        return Some(Closed::Both);
    }
    match read_direction(text) {
        Some(direction) => Some(Closed::One(direction)),
        None => None,
    }
}

// The code that 1 or 2 digits stand for.
pub(crate) fn read_code(text: &[u8]) -> Option<u8>
    ensures value { result ≡ code_of text.now }
{
    if text.len() > 2 {
        return None;
    }
    match read_number(text) {
        Some(number) => Some(number as u8),
        None => None,
    }
}
