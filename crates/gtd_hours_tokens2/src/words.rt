//! The words of opening hours by all their names.

ghost use Rattle.std.specs.Prelude.{◌≡◌};
ghost use Rattle.gtd_hours_tokens2.specs.Words as words;

use crate::token::{Event, TokenKind, Word};

/// What a word names.
#[derive(Clone, Copy)]
pub(crate) enum Name {
    /// Strictly it is written with a capital: `Mo`.
    Capital(TokenKind),
    /// Strictly it is written in upper case: `PH`.
    Upper(TokenKind),
    /// Strictly it is written in lower case: `off`.
    Lower(TokenKind),
    /// It is a loose name.
    Other(TokenKind),
    /// A weekday in German, and maybe another one in other languages.
    German(u8),
}

fn two_letters(word: &[u8]) -> Option<Name>
    ensures { result ≡ words.two_letters word.now }
{
    match word {
        b"mo" => Some(Name::Capital(TokenKind::Weekday(2))),
        b"tu" => Some(Name::Capital(TokenKind::Weekday(3))),
        b"we" => Some(Name::Capital(TokenKind::Weekday(4))),
        b"th" => Some(Name::Capital(TokenKind::Weekday(5))),
        b"fr" => Some(Name::Capital(TokenKind::Weekday(6))),
        b"sa" => Some(Name::Capital(TokenKind::Weekday(7))),
        b"su" => Some(Name::Capital(TokenKind::Weekday(1))),
        b"ph" => Some(Name::Upper(TokenKind::PublicHoliday)),
        b"sh" => Some(Name::Upper(TokenKind::SchoolHoliday)),
        b"on" => Some(Name::Lower(TokenKind::Word(Word::Open))),
        b"mi" => Some(Name::Other(TokenKind::Weekday(4))),
        b"di" => Some(Name::German(3)),
        b"do" => Some(Name::German(5)),
        b"so" => Some(Name::German(1)),
        _ => None,
    }
}

fn other_three(word: &[u8]) -> Option<Name>
    ensures { result ≡ words.other_three word.now }
{
    if word == b"mai".as_slice() {
        Some(Name::Other(TokenKind::Month(5)))
    } else if word == b"okt".as_slice() {
        Some(Name::Other(TokenKind::Month(10)))
    } else if word == b"dez".as_slice() {
        Some(Name::Other(TokenKind::Month(12)))
    } else if word == b"mon".as_slice() {
        Some(Name::Other(TokenKind::Weekday(2)))
    } else if word == b"tue".as_slice() {
        Some(Name::Other(TokenKind::Weekday(3)))
    } else if word == b"wed".as_slice() {
        Some(Name::Other(TokenKind::Weekday(4)))
    } else if word == b"thu".as_slice() {
        Some(Name::Other(TokenKind::Weekday(5)))
    } else if word == b"fri".as_slice() {
        Some(Name::Other(TokenKind::Weekday(6)))
    } else if word == b"sat".as_slice() {
        Some(Name::Other(TokenKind::Weekday(7)))
    } else if word == b"sun".as_slice() {
        Some(Name::Other(TokenKind::Weekday(1)))
    } else {
        None
    }
}

fn three_letters(word: &[u8]) -> Option<Name>
    ensures { result ≡ words.three_letters word.now }
{
    if word == b"jan".as_slice() {
        Some(Name::Capital(TokenKind::Month(1)))
    } else if word == b"feb".as_slice() {
        Some(Name::Capital(TokenKind::Month(2)))
    } else if word == b"mar".as_slice() {
        Some(Name::Capital(TokenKind::Month(3)))
    } else if word == b"apr".as_slice() {
        Some(Name::Capital(TokenKind::Month(4)))
    } else if word == b"may".as_slice() {
        Some(Name::Capital(TokenKind::Month(5)))
    } else if word == b"jun".as_slice() {
        Some(Name::Capital(TokenKind::Month(6)))
    } else if word == b"jul".as_slice() {
        Some(Name::Capital(TokenKind::Month(7)))
    } else if word == b"aug".as_slice() {
        Some(Name::Capital(TokenKind::Month(8)))
    } else if word == b"sep".as_slice() {
        Some(Name::Capital(TokenKind::Month(9)))
    } else if word == b"oct".as_slice() {
        Some(Name::Capital(TokenKind::Month(10)))
    } else if word == b"nov".as_slice() {
        Some(Name::Capital(TokenKind::Month(11)))
    } else if word == b"dec".as_slice() {
        Some(Name::Capital(TokenKind::Month(12)))
    } else if word == b"off".as_slice() {
        Some(Name::Lower(TokenKind::Word(Word::Off)))
    } else if word == b"day".as_slice() {
        Some(Name::Lower(TokenKind::Day))
    } else {
        other_three(word)
    }
}

fn four_letters(word: &[u8]) -> Option<Name>
    ensures { result ≡ words.four_letters word.now }
{
    if word == b"open".as_slice() {
        Some(Name::Lower(TokenKind::Word(Word::Open)))
    } else if word == b"week".as_slice() {
        Some(Name::Lower(TokenKind::Week))
    } else if word == b"days".as_slice() {
        Some(Name::Lower(TokenKind::Day))
    } else if word == b"dawn".as_slice() {
        Some(Name::Lower(TokenKind::Event(Event::Dawn)))
    } else if word == b"dusk".as_slice() {
        Some(Name::Lower(TokenKind::Event(Event::Dusk)))
    } else if word == b"june".as_slice() {
        Some(Name::Other(TokenKind::Month(6)))
    } else if word == b"juni".as_slice() {
        Some(Name::Other(TokenKind::Month(6)))
    } else if word == b"july".as_slice() {
        Some(Name::Other(TokenKind::Month(7)))
    } else if word == b"juli".as_slice() {
        Some(Name::Other(TokenKind::Month(7)))
    } else if word == b"sept".as_slice() {
        Some(Name::Other(TokenKind::Month(9)))
    } else if word == b"tues".as_slice() {
        Some(Name::Other(TokenKind::Weekday(3)))
    } else if word == b"thur".as_slice() {
        Some(Name::Other(TokenKind::Weekday(5)))
    } else {
        None
    }
}

fn five_letters(word: &[u8]) -> Option<Name>
    ensures { result ≡ words.five_letters word.now }
{
    if word == b"march".as_slice() {
        Some(Name::Other(TokenKind::Month(3)))
    } else if word == b"april".as_slice() {
        Some(Name::Other(TokenKind::Month(4)))
    } else if word == b"thurs".as_slice() {
        Some(Name::Other(TokenKind::Weekday(5)))
    } else {
        None
    }
}

fn six_letters(word: &[u8]) -> Option<Name>
    ensures { result ≡ words.six_letters word.now }
{
    if word == b"closed".as_slice() {
        Some(Name::Lower(TokenKind::Word(Word::Off)))
    } else if word == b"easter".as_slice() {
        Some(Name::Lower(TokenKind::Easter))
    } else if word == b"sunset".as_slice() {
        Some(Name::Lower(TokenKind::Event(Event::Sunset)))
    } else if word == b"januar".as_slice() {
        Some(Name::Other(TokenKind::Month(1)))
    } else if word == b"august".as_slice() {
        Some(Name::Other(TokenKind::Month(8)))
    } else if word == b"monday".as_slice() {
        Some(Name::Other(TokenKind::Weekday(2)))
    } else if word == b"montag".as_slice() {
        Some(Name::Other(TokenKind::Weekday(2)))
    } else if word == b"friday".as_slice() {
        Some(Name::Other(TokenKind::Weekday(6)))
    } else if word == b"sunday".as_slice() {
        Some(Name::Other(TokenKind::Weekday(1)))
    } else {
        None
    }
}

fn seven_letters(word: &[u8]) -> Option<Name>
    ensures { result ≡ words.seven_letters word.now }
{
    if word == b"unknown".as_slice() {
        Some(Name::Lower(TokenKind::Word(Word::Unknown)))
    } else if word == b"sunrise".as_slice() {
        Some(Name::Lower(TokenKind::Event(Event::Sunrise)))
    } else if word == b"january".as_slice() {
        Some(Name::Other(TokenKind::Month(1)))
    } else if word == b"februar".as_slice() {
        Some(Name::Other(TokenKind::Month(2)))
    } else if word == b"october".as_slice() {
        Some(Name::Other(TokenKind::Month(10)))
    } else if word == b"oktober".as_slice() {
        Some(Name::Other(TokenKind::Month(10)))
    } else if word == b"tuesday".as_slice() {
        Some(Name::Other(TokenKind::Weekday(3)))
    } else if word == b"freitag".as_slice() {
        Some(Name::Other(TokenKind::Weekday(6)))
    } else if word == b"samstag".as_slice() {
        Some(Name::Other(TokenKind::Weekday(7)))
    } else if word == b"sonntag".as_slice() {
        Some(Name::Other(TokenKind::Weekday(1)))
    } else {
        None
    }
}

fn long_word(word: &[u8]) -> Option<Name>
    ensures { result ≡ words.long_word word.now }
{
    if word == b"february".as_slice() {
        Some(Name::Other(TokenKind::Month(2)))
    } else if word == b"november".as_slice() {
        Some(Name::Other(TokenKind::Month(11)))
    } else if word == b"december".as_slice() {
        Some(Name::Other(TokenKind::Month(12)))
    } else if word == b"dezember".as_slice() {
        Some(Name::Other(TokenKind::Month(12)))
    } else if word == b"dienstag".as_slice() {
        Some(Name::Other(TokenKind::Weekday(3)))
    } else if word == b"mittwoch".as_slice() {
        Some(Name::Other(TokenKind::Weekday(4)))
    } else if word == b"thursday".as_slice() {
        Some(Name::Other(TokenKind::Weekday(5)))
    } else if word == b"saturday".as_slice() {
        Some(Name::Other(TokenKind::Weekday(7)))
    } else if word == b"september".as_slice() {
        Some(Name::Other(TokenKind::Month(9)))
    } else if word == b"wednesday".as_slice() {
        Some(Name::Other(TokenKind::Weekday(4)))
    } else if word == b"sonnabend".as_slice() {
        Some(Name::Other(TokenKind::Weekday(7)))
    } else if word == b"donnerstag".as_slice() {
        Some(Name::Other(TokenKind::Weekday(5)))
    } else {
        None
    }
}

fn lower_name(word: &[u8]) -> Option<Name>
    ensures { result ≡ words.lower_name word.now }
{
    match word.len() {
        2 => two_letters(word),
        3 => three_letters(word),
        4 => four_letters(word),
        5 => five_letters(word),
        6 => six_letters(word),
        7 => seven_letters(word),
        _ => long_word(word),
    }
}

fn long_name(letters: &[u8]) -> Option<Name>
    ensures { result ≡ words.name_of letters.now }
{
    if letters.len() > 10 {
        return None;
    }
    let mut room = [0_u8; 10];
    let lower = &mut room[..letters.len()];
    lower.copy_from_slice(letters);
    lower.make_ascii_lowercase();
    lower_name(lower)
}

/// What these letters name, in any case. Most words have two or three letters, which need no room.
pub(crate) fn name_of(letters: &[u8]) -> Option<Name>
    ensures { result ≡ words.name_of letters.now }
{
    match letters {
        [x, y] => two_letters(&[x.to_ascii_lowercase(), y.to_ascii_lowercase()]),
        [x, y, z] => three_letters(&[
            x.to_ascii_lowercase(),
            y.to_ascii_lowercase(),
            z.to_ascii_lowercase(),
        ]),
        _ => long_name(letters),
    }
}

/// Whether the letters are a capital and small letters.
pub(crate) fn is_capital(letters: &[u8]) -> bool
    ensures { result ≡ words.is_capital letters.now }
{
    match letters {
        [] => false,
        [byte, rest @ ..] => byte.is_ascii_uppercase() && is_lower(rest),
    }
}

/// Whether the letters are capitals.
pub(crate) fn is_upper(letters: &[u8]) -> bool
    ensures { result ≡ words.is_upper letters.now }
{
    letters.iter().all(|byte| byte.is_ascii_uppercase())
}

/// Whether the letters are small letters.
pub(crate) fn is_lower(letters: &[u8]) -> bool
    ensures { result ≡ words.is_lower letters.now }
{
    letters.iter().all(|byte| byte.is_ascii_lowercase())
}
