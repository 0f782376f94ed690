//! What the words of the options for times stand for that texts of opening hours leave open.

ghost use Rattle.std.specs.Prelude.{◌≡◌, ◌≤◌, IfOk, MatchResult, option_map};
ghost use Rattle.gtd_hours_moments.specs.Options.{given_or};
ghost use Rattle.gtd_rows.specs.Columns.{number_of};
ghost use Rattle.gtdesk_words.specs.ClockTexts as spec;
ghost use Rattle.gtdesk_words.specs.ClockTexts.{IsGivenBy};
ghost use Rattle.gtdesk_words.specs.ClockWords.{AreClocks, clock_words, event_words, open_end_words, points_words, texts_of};
ghost use Rattle.gtdesk_words.specs.Readings.{AreStopped};

use crate::refusal::{Reason, WordFault, WordName, WordsRefusal};
use gtd_hours_moments::Clocks;
use gtd_rows::read_number;

/// The words of the options for times that texts of opening hours leave open. Each may be left out.
#[derive(Clone, Copy)]
pub struct ClockWords<'a> {
    /// The clock time of an open end.
    pub open_end: Option<&'a str>,
    /// How many minutes a point of time lasts.
    pub points: Option<&'a str>,
    /// The clock time of `sunrise`.
    pub sunrise: Option<&'a str>,
    /// The clock time of `sunset`.
    pub sunset: Option<&'a str>,
    /// The clock time of `dawn`.
    pub dawn: Option<&'a str>,
    /// The clock time of `dusk`.
    pub dusk: Option<&'a str>,
}

// The minute of the day at these hours and minutes, if there are fewer than 60 minutes, and it is this one at most.
fn minute_of(most: u16, hours: u64, minutes: u64) -> Option<u16>
    ensures value { result ≡ spec.minute_of most hours minutes }
    ensures upto { given_or 0 result ≤ most }
{
    if minutes >= 60 || hours > 2000 {
        return None;
    }
    let minute = hours * 60 + minutes;
    if minute <= most as u64 {
        Some(minute as u16)
    } else {
        None
    }
}

// The same of hours and minutes as they are written.
fn minute_at(most: u16, hours: &[u8], minutes: &[u8]) -> Option<u16>
    ensures value { result ≡ spec.minute_at most (number_of hours.now) (number_of minutes.now) }
    ensures upto { given_or 0 result ≤ most }
{
    match read_number(hours) {
        Some(hours) => match read_number(minutes) {
            Some(minutes) => minute_of(most, hours, minutes),
            None => None,
        },
        None => None,
    }
}

// The minute of the day that a word is, if it is this one at most.
fn clock_in(most: u16, text: &[u8]) -> Option<u16>
    ensures value { result ≡ spec.clock_in most text.now }
    ensures upto { given_or 0 result ≤ most }
{
    if text.len() == 5 && text[2] == b':' {
        minute_at(most, &text[..2], &text[3..])
    } else {
        None
    }
}

// How many minutes a point of time lasts, if that is a day at most.
fn points_in(text: &[u8]) -> Option<u16>
    ensures value { result ≡ spec.points_in text.now }
    ensures some { 1 ≤ given_or 1 result }
    ensures upto { given_or 1 result ≤ 1440 }
{
    match text.first() {
        None => None,
        Some(b'0') => None,
        Some(_) => match read_number(text) {
            Some(minutes) => {
                if minutes >= 1 && minutes <= 1440 {
                    Some(minutes as u16)
                } else {
                    None
                }
            }
            None => None,
        },
    }
}

// The refusal of a word of this name.
fn refusal(word: WordName, why: Reason) -> WordsRefusal
    ensures { result ≡ WordsRefusal.Word (record { word = word; why = why }) }
{
    WordsRefusal::Word(WordFault { word, why })
}

// The minute of an open end that a word gives, which may be left out.
fn open_end_of(text: Option<&str>) -> Result<Option<u16>, WordsRefusal>
    ensures given { MatchResult result (IsGivenBy spec.open_end_in (option_map (λ s. s.now) text.entry))
        (AreStopped (open_end_words (option_map (λ s. s.now) text.entry))) }
    ensures upto { IfOk result (λ given. given_or 0 given ≤ 2880) }
{
    match text {
        Some(text) => match clock_in(2880, text.as_bytes()) {
            Some(minute) => Ok(Some(minute)),
            None => Err(refusal(WordName::OpenEnd, Reason::OpenEnd)),
        },
        None => Ok(None),
    }
}

// How many minutes a point of time lasts that a word gives, which may be left out.
fn points_of(text: Option<&str>) -> Result<Option<u16>, WordsRefusal>
    ensures given { MatchResult result (IsGivenBy spec.points_in (option_map (λ s. s.now) text.entry))
        (AreStopped (points_words (option_map (λ s. s.now) text.entry))) }
    ensures some { IfOk result (λ given. 1 ≤ given_or 1 given) }
    ensures upto { IfOk result (λ given. given_or 1 given ≤ 1440) }
{
    match text {
        Some(text) => match points_in(text.as_bytes()) {
            Some(minutes) => Ok(Some(minutes)),
            None => Err(refusal(WordName::Points, Reason::Points)),
        },
        None => Ok(None),
    }
}

// The minute of an event that a word of this name gives, which may be left out.
fn event_of(event: WordName, text: Option<&str>) -> Result<Option<u16>, WordsRefusal>
    ensures given { MatchResult result (IsGivenBy spec.event_in (option_map (λ s. s.now) text.entry))
        (AreStopped (event_words event (option_map (λ s. s.now) text.entry))) }
    ensures upto { IfOk result (λ given. given_or 0 given ≤ 1440) }
{
    match text {
        Some(text) => match clock_in(1440, text.as_bytes()) {
            Some(minute) => Ok(Some(minute)),
            None => Err(refusal(event, Reason::Clock)),
        },
        None => Ok(None),
    }
}

/// What the words give for times that texts of opening hours leave open. Without a word, nothing is given. Errors, in the order
/// of the fields: the first word that stands for nothing.
pub fn clocks_of(words: &ClockWords<'_>) -> Result<Clocks, WordsRefusal>
    ensures { MatchResult result (AreClocks (texts_of words.now)) (AreStopped (clock_words (texts_of words.now))) }
{
    let open_end = match open_end_of(words.open_end) {
        Ok(open_end) => open_end,
        Err(refusal) => return Err(refusal),
    };
    let points = match points_of(words.points) {
        Ok(points) => points,
        Err(refusal) => return Err(refusal),
    };
    let sunrise = match event_of(WordName::Sunrise, words.sunrise) {
        Ok(sunrise) => sunrise,
        Err(refusal) => return Err(refusal),
    };
    let sunset = match event_of(WordName::Sunset, words.sunset) {
        Ok(sunset) => sunset,
        Err(refusal) => return Err(refusal),
    };
    let dawn = match event_of(WordName::Dawn, words.dawn) {
        Ok(dawn) => dawn,
        Err(refusal) => return Err(refusal),
    };
    match event_of(WordName::Dusk, words.dusk) {
        Ok(dusk) => Ok(Clocks {
            open_end,
            points,
            sunrise,
            sunset,
            dawn,
            dusk,
        }),
        Err(refusal) => Err(refusal),
    }
}
