//! Where a later token of a part is.

ghost use Rattle.std.specs.Prelude.{◌≡◌, ◌==◌, ◌&&◌};
ghost use Rattle.gtd_hours_reading2.specs.TokenPlaces as places;

use gtd_hours_grammar2::Class;
use gtd_hours_text2::class_of;
use gtd_hours_tokens2::{DayNames, Piece, Token, first_cursor, next_piece};

fn counts(from: usize, class: Class, token: Token) -> bool
    ensures { result ≡ places.counts from class token }
{
    from <= usize::from(token.from) && class_of(token.kind) as u8 == class as u8
}

fn left_after(counts: bool, left: usize) -> usize
    ensures { result ≡ places.left_after counts left }
{
    if counts { left.saturating_sub(1) } else { left }
}

fn is_found(counts: bool, left: usize) -> bool
    ensures { result ≡ (counts && (left == 0)) }
{
    counts && left == 0
}

/// The offset of the token of a class that comes after so many others of the class, from an offset of a text on; that offset if
/// there is none. Faults and warnings point to such tokens, such as the `+` of `17:00+`. Takes no memory.
pub fn token_place(names: DayNames, text: &[u8], from: usize, class: Class, number: usize) -> usize
    ensures { places.IsNthOffset names text.now from class number result }
{
    let mut cursor = match first_cursor(text) {
        Ok(cursor) => cursor,
        Err(_) => return from,
    };
    let mut left = number;
    'piece: loop {
        match next_piece(names, text, cursor) {
            Err(_) => return from,
            Ok(None) => return from,
            Ok(Some((Piece::Space(_), later))) => cursor = later,
            Ok(Some((Piece::Token(token), later))) => {
                let is_one = counts(from, class, token);
                if is_found(is_one, left) {
                    return usize::from(token.from);
                }
                left = left_after(is_one, left);
                cursor = later;
            }
        }
    }
}
