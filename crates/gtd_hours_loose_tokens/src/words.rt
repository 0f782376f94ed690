//! Words of opening hours, in letters of lower case.

ghost use Rattle.std.specs.Prelude.{◌≡◌};
ghost use Rattle.gtd_hours_loose_tokens.specs.Words.{english_month, english_weekday, german_weekday, month_of, name_of};
ghost use Rattle.gtd_hours_loose_tokens.specs.Words.{other_month};
ghost use Rattle.gtd_hours_loose_tokens.specs.Words.{short_german, short_month, short_weekday, sun_word, unread_word, weekday_of};
ghost use Rattle.gtd_hours_loose_tokens.specs.Words.{word_of};
ghost use Rattle.gtd_hours_loose_tokens.specs.Words.{in_german, shortened_weekday};

use crate::token::{DayNames, LooseKind};

/// The month or weekday that a word names, if it names one, or that it is refused.
pub fn name_of(names: DayNames, word: &[u8]) -> Option<LooseKind>
    ensures { result ≡ name_of names word.now }
{
    if let Some(month) = month_of(word) {
        return Some(LooseKind::Month(month));
    }
    if let Some(weekday) = weekday_of(word) {
        return Some(LooseKind::Weekday(weekday));
    }
    match short_german(word) {
        Some(weekday) => Some(in_german(names, weekday)),
        None => None,
    }
}

fn in_german(names: DayNames, weekday: u8) -> LooseKind
    ensures { result ≡ in_german names weekday }
{
    match names {
        DayNames::German => LooseKind::Weekday(weekday),
        DayNames::Unsaid => LooseKind::Ambiguous,
    }
}

fn month_of(word: &[u8]) -> Option<u8>
    ensures { result ≡ month_of word.now }
{
    if let Some(month) = short_month(word) {
        return Some(month);
    }
    if let Some(month) = english_month(word) {
        return Some(month);
    }
    other_month(word)
}

fn short_month(word: &[u8]) -> Option<u8>
    ensures { result ≡ short_month word.now }
{
    match word {
        b"jan" => Some(1),
        b"feb" => Some(2),
        b"mar" => Some(3),
        b"apr" => Some(4),
        b"may" => Some(5),
        b"jun" => Some(6),
        b"jul" => Some(7),
        b"aug" => Some(8),
        b"sep" => Some(9),
        b"oct" => Some(10),
        b"nov" => Some(11),
        b"dec" => Some(12),
        _ => None,
    }
}

fn english_month(word: &[u8]) -> Option<u8>
    ensures { result ≡ english_month word.now }
{
    if word == b"january".as_slice() {
        Some(1)
    } else if word == b"february".as_slice() {
        Some(2)
    } else if word == b"march".as_slice() {
        Some(3)
    } else if word == b"april".as_slice() {
        Some(4)
    } else if word == b"june".as_slice() {
        Some(6)
    } else if word == b"july".as_slice() {
        Some(7)
    } else if word == b"august".as_slice() {
        Some(8)
    } else if word == b"september".as_slice() {
        Some(9)
    } else if word == b"october".as_slice() {
        Some(10)
    } else if word == b"november".as_slice() {
        Some(11)
    } else if word == b"december".as_slice() {
        Some(12)
    } else {
        None
    }
}

// `Sept`, and German names.
fn other_month(word: &[u8]) -> Option<u8>
    ensures { result ≡ other_month word.now }
{
    if word == b"januar".as_slice() {
        Some(1)
    } else if word == b"februar".as_slice() {
        Some(2)
    } else if word == b"mai".as_slice() {
        Some(5)
    } else if word == b"juni".as_slice() {
        Some(6)
    } else if word == b"juli".as_slice() {
        Some(7)
    } else if word == b"sept".as_slice() {
        Some(9)
    } else if word == b"oktober".as_slice() {
        Some(10)
    } else if word == b"okt".as_slice() {
        Some(10)
    } else if word == b"dezember".as_slice() {
        Some(12)
    } else if word == b"dez".as_slice() {
        Some(12)
    } else {
        None
    }
}

fn weekday_of(word: &[u8]) -> Option<u8>
    ensures { result ≡ weekday_of word.now }
{
    if let Some(weekday) = short_weekday(word) {
        return Some(weekday);
    }
    if let Some(weekday) = english_weekday(word) {
        return Some(weekday);
    }
    if let Some(weekday) = shortened_weekday(word) {
        return Some(weekday);
    }
    german_weekday(word)
}

fn short_weekday(word: &[u8]) -> Option<u8>
    ensures { result ≡ short_weekday word.now }
{
    match word {
        b"su" => Some(1),
        b"mo" => Some(2),
        b"tu" => Some(3),
        b"we" => Some(4),
        b"th" => Some(5),
        b"fr" => Some(6),
        b"sa" => Some(7),
        b"mi" => Some(4),
        _ => None,
    }
}

fn english_weekday(word: &[u8]) -> Option<u8>
    ensures { result ≡ english_weekday word.now }
{
    if word == b"sunday".as_slice() {
        Some(1)
    } else if word == b"monday".as_slice() {
        Some(2)
    } else if word == b"tuesday".as_slice() {
        Some(3)
    } else if word == b"wednesday".as_slice() {
        Some(4)
    } else if word == b"thursday".as_slice() {
        Some(5)
    } else if word == b"friday".as_slice() {
        Some(6)
    } else if word == b"saturday".as_slice() {
        Some(7)
    } else {
        None
    }
}

fn shortened_weekday(word: &[u8]) -> Option<u8>
    ensures { result ≡ shortened_weekday word.now }
{
    if word == b"sun".as_slice() {
        Some(1)
    } else if word == b"mon".as_slice() {
        Some(2)
    } else if word == b"tue".as_slice() || word == b"tues".as_slice() {
        Some(3)
    } else if word == b"wed".as_slice() {
        Some(4)
    } else if word == b"thu".as_slice()
        || word == b"thur".as_slice()
        || word == b"thurs".as_slice()
    {
        Some(5)
    } else if word == b"fri".as_slice() {
        Some(6)
    } else if word == b"sat".as_slice() {
        Some(7)
    } else {
        None
    }
}

fn german_weekday(word: &[u8]) -> Option<u8>
    ensures { result ≡ german_weekday word.now }
{
    if word == b"sonntag".as_slice() {
        Some(1)
    } else if word == b"montag".as_slice() {
        Some(2)
    } else if word == b"dienstag".as_slice() {
        Some(3)
    } else if word == b"mittwoch".as_slice() {
        Some(4)
    } else if word == b"donnerstag".as_slice() {
        Some(5)
    } else if word == b"freitag".as_slice() {
        Some(6)
    } else if word == b"samstag".as_slice() {
        Some(7)
    } else if word == b"sonnabend".as_slice() {
        Some(7)
    } else {
        None
    }
}

fn short_german(word: &[u8]) -> Option<u8>
    ensures { result ≡ short_german word.now }
{
    match word {
        b"so" => Some(1),
        b"di" => Some(3),
        b"do" => Some(5),
        _ => None,
    }
}

/// What a word is that names no month and no weekday.
pub fn word_of(word: &[u8]) -> Option<LooseKind>
    ensures { result ≡ word_of word.now }
{
    if word == b"week".as_slice() {
        Some(LooseKind::Week)
    } else if word == b"open".as_slice() {
        Some(LooseKind::Open)
    } else if word == b"on".as_slice() {
        Some(LooseKind::Open)
    } else if word == b"closed".as_slice() {
        Some(LooseKind::Closed)
    } else if word == b"off".as_slice() {
        Some(LooseKind::Closed)
    } else if word == b"ph".as_slice() {
        Some(LooseKind::PublicHoliday)
    } else if word == b"sh".as_slice() {
        Some(LooseKind::SchoolHoliday)
    } else {
        sun_word(word)
    }
}

fn sun_word(word: &[u8]) -> Option<LooseKind>
    ensures { result ≡ sun_word word.now }
{
    if word == b"sunrise".as_slice() {
        Some(LooseKind::Event)
    } else if word == b"sunset".as_slice() {
        Some(LooseKind::Event)
    } else if word == b"dawn".as_slice() {
        Some(LooseKind::Event)
    } else if word == b"dusk".as_slice() {
        Some(LooseKind::Event)
    } else {
        unread_word(word)
    }
}

fn unread_word(word: &[u8]) -> Option<LooseKind>
    ensures { result ≡ unread_word word.now }
{
    if word == b"easter".as_slice() {
        Some(LooseKind::Unread)
    } else if word == b"unknown".as_slice() {
        Some(LooseKind::Unread)
    } else if word == b"day".as_slice() {
        Some(LooseKind::Unread)
    } else if word == b"days".as_slice() {
        Some(LooseKind::Unread)
    } else {
        None
    }
}
