//! The words of opening hours.

ghost use Rattle.std.specs.Prelude.{◌≡◌};
ghost use Rattle.gtd_hours_tokens.specs.TokenAt.{word_front};
ghost use Rattle.gtd_hours_tokens.specs.Words.{is_day_word, is_refused_word, is_sun_word, month_of, other_word};
ghost use Rattle.gtd_hours_tokens.specs.Words.{weekday_of, word_of};

use crate::token::TokenKind;

/// The token of a run of letters, and its length.
pub fn word_front(letters: &[u8]) -> Option<(TokenKind, usize)>
    ensures { result ≡ word_front letters.now }
{
    match word_of(letters) {
        Some(kind) => Some((kind, letters.len())),
        None => None,
    }
}

fn word_of(word: &[u8]) -> Option<TokenKind>
    ensures { result ≡ word_of word.now }
{
    if let Some(month) = month_of(word) {
        return Some(TokenKind::Month(month));
    }
    if let Some(weekday) = weekday_of(word) {
        return Some(TokenKind::Weekday(weekday));
    }
    other_word(word)
}

fn month_of(word: &[u8]) -> Option<u8>
    ensures { result ≡ month_of word.now }
{
    match word {
        b"Jan" => Some(1),
        b"Feb" => Some(2),
        b"Mar" => Some(3),
        b"Apr" => Some(4),
        b"May" => Some(5),
        b"Jun" => Some(6),
        b"Jul" => Some(7),
        b"Aug" => Some(8),
        b"Sep" => Some(9),
        b"Oct" => Some(10),
        b"Nov" => Some(11),
        b"Dec" => Some(12),
        _ => None,
    }
}

fn weekday_of(word: &[u8]) -> Option<u8>
    ensures { result ≡ weekday_of word.now }
{
    match word {
        b"Su" => Some(1),
        b"Mo" => Some(2),
        b"Tu" => Some(3),
        b"We" => Some(4),
        b"Th" => Some(5),
        b"Fr" => Some(6),
        b"Sa" => Some(7),
        _ => None,
    }
}

fn other_word(word: &[u8]) -> Option<TokenKind>
    ensures { result ≡ other_word word.now }
{
    if word == b"week".as_slice() {
        Some(TokenKind::Week)
    } else if word == b"open".as_slice() || word == b"on".as_slice() {
        Some(TokenKind::Open)
    } else if word == b"closed".as_slice() || word == b"off".as_slice() {
        Some(TokenKind::Closed)
    } else if word == b"day".as_slice() || word == b"days".as_slice() {
        Some(TokenKind::Day)
    } else if is_refused_word(word) {
        Some(TokenKind::Unsupported)
    } else {
        None
    }
}

fn is_refused_word(word: &[u8]) -> bool
    ensures { result ≡ is_refused_word word.now }
{
    is_day_word(word) || is_sun_word(word) || word == b"unknown".as_slice()
}

fn is_day_word(word: &[u8]) -> bool
    ensures { result ≡ is_day_word word.now }
{
    word == b"PH".as_slice() || word == b"SH".as_slice() || word == b"easter".as_slice()
}

fn is_sun_word(word: &[u8]) -> bool
    ensures { result ≡ is_sun_word word.now }
{
    word == b"sunrise".as_slice()
        || word == b"sunset".as_slice()
        || word == b"dawn".as_slice()
        || word == b"dusk".as_slice()
}
