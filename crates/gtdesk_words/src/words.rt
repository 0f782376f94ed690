//! What the single words of a command stand for.

ghost use Rattle.std.specs.Prelude.{◌≡◌, ◌≢◌, ◌⊎◌, [], ◌∷◌, IfOk, IfSome, MatchOption, MatchResult, None, Ok, Some};
ghost use Rattle.std.specs.Prelude.{option_map, true};
ghost use Rattle.gtd_calendar.specs.Read.{date_in};
ghost use Rattle.gtd_hours_holidays.specs.KnownYears.{AreKnown};
ghost use Rattle.gtd_moments.specs.Moments.{moment_in};
ghost use Rattle.gtd_rows.specs.Columns.{direction_of, number_of};
ghost use Rattle.gtd_zones.specs.Zones as zones;
ghost use Rattle.gtdesk_words.specs.HoursWords.{IsHoursDomain};
ghost use Rattle.gtdesk_words.specs.Readings.{AreStopped, Reading, if_given, word_as};
ghost use Rattle.gtd_mistakes.specs.RuleNames.{name_of};
ghost use Rattle.gtdesk_words.specs.Words.{AreDays, AreRules, AreRulesIn, HasNoRule, IsDayIn, IsDayWord, IsFromWord, IsNoRule};
ghost use Rattle.gtdesk_words.specs.Words.{IsNoVehicle, IsNoYear, IsReadDomain, IsVehicleWord, IsYearWord, elements_in};
ghost use Rattle.gtdesk_words.specs.Words.{day_names_for, day_names_in, language_for, language_in, numbers_of, parts_of};
ghost use Rattle.gtdesk_words.specs.YearsWords.{AreNoYears, AreYearsIn, IsYearsWord, both_years, years_in};

use crate::hours::hours_domain;
use crate::moment::Moment;
use crate::refusal::{Reason, WordFault, WordName, WordsRefusal};
use gtd_calendar::read_date;
use gtd_core::limits::FIRST_MOMENT;
use gtd_core::{Domain, Fault, Horizon, Sec, TextFault};
use gtd_hours_holidays::KnownYears;
use gtd_hours_loose_tokens::DayNames;
use gtd_mistakes::{Rule, rule_of_name};
use gtd_moments::read_moment;
use gtd_phrases::Language;
use gtd_rows::{Direction, read_direction, read_number};
use gtd_text::read_domain;
use gtd_warnings::days_from;
use gtd_zones::is_zone_name;
use std::alloc::{AllocError, Global};
use std::str::from_utf8;

/// The moment that a word stands for.
pub fn moment_of(text: &str) -> Result<Moment, WordsRefusal>
    ensures { MatchResult result (λ moment. moment_in text.now ≡ Ok moment.second)
        (AreStopped (word_as WordName.Moment (Reading.moment text.now) ∷ [])) }
{
    match read_moment(text.as_bytes()) {
        Ok(second) => Ok(Moment { second }),
        Err(fault) => Err(WordsRefusal::Word(WordFault {
            word: WordName::Moment,
            why: Reason::Moment(fault),
        })),
    }
}

/// The moment that a word stands for, which may be left out: then it is the first one.
pub fn from_of(text: Option<&str>) -> Result<Moment, WordsRefusal>
    ensures { MatchResult result (λ moment. IsFromWord (option_map (λ s. s.now) text.entry) moment.second)
        (AreStopped (if_given (option_map (λ s. s.now) text.entry) (λ t. word_as WordName.Moment (Reading.moment t)))) }
{
    match text {
        Some(text) => moment_of(text),
        None => Ok(Moment {
            second: Sec(FIRST_MOMENT),
        }),
    }
}

// The day that a word of this name stands for.
fn date_of(word: WordName, text: &str) -> Result<i64, WordsRefusal>
    ensures { MatchResult result (λ day. date_in text.now ≡ Ok day)
        (AreStopped (word_as word (Reading.date text.now) ∷ [])) }
{
    match read_date(text.as_bytes()) {
        Ok(day) => Ok(day),
        Err(fault) => Err(WordsRefusal::Word(WordFault {
            word,
            why: Reason::Date(fault),
        })),
    }
}

/// The days from the one word on and before the other.
pub fn days_of(from: &str, to: &str) -> Result<Horizon, WordsRefusal>
    ensures { MatchResult result (AreDays from.now to.now)
        (AreStopped (word_as WordName.From (Reading.date from.now) ∷ word_as WordName.To (Reading.date to.now)
        ∷ word_as WordName.To (Reading.days from.now to.now) ∷ [])) }
{
    let first = match date_of(WordName::From, from) {
        Ok(day) => day,
        Err(refusal) => return Err(refusal),
    };
    let last = match date_of(WordName::To, to) {
        Ok(day) => day,
        Err(refusal) => return Err(refusal),
    };
    match Horizon::new(first, last) {
        Ok(days) => Ok(days),
        Err(fault) => Err(WordsRefusal::Word(WordFault {
            word: WordName::To,
            why: Reason::Horizon(fault),
        })),
    }
}

// The vehicle type that a word stands for, if any.
fn vehicle_in(text: &str) -> Option<u8>
    ensures found { IfSome result (IsVehicleWord text.now) }
    ensures none { result ≡ None → IsNoVehicle text.now }
{
    match read_number(text.as_bytes()) {
        Some(number) => {
            if number >= 1 && number <= 99 {
                Some(number as u8)
            } else {
                None
            }
        }
        None => None,
    }
}

/// The vehicle type that a word stands for.
pub fn vehicle_of(text: &str) -> Result<u8, WordsRefusal>
    ensures { MatchResult result (IsVehicleWord text.now)
        (AreStopped (word_as WordName.Vehicle (Reading.vehicle text.now) ∷ [])) }
{
    match vehicle_in(text) {
        Some(vehicle) => Ok(vehicle),
        None => Err(WordsRefusal::Word(WordFault {
            word: WordName::Vehicle,
            why: Reason::Vehicle,
        })),
    }
}

// The year that a word stands for, if a picture may be of it.
fn year_in(text: &str) -> Option<u16>
    ensures found { IfSome result (IsYearWord text.now) }
    ensures none { result ≡ None → IsNoYear text.now }
{
    match read_number(text.as_bytes()) {
        Some(number) => {
            if number >= 1901 && number <= 2199 {
                Some(number as u16)
            } else {
                None
            }
        }
        None => None,
    }
}

/// The year that a word stands for.
pub fn year_of(text: &str) -> Result<u16, WordsRefusal>
    ensures { MatchResult result (IsYearWord text.now)
        (AreStopped (word_as WordName.Year (Reading.year text.now) ∷ [])) }
{
    match year_in(text) {
        Some(year) => Ok(year),
        None => Err(WordsRefusal::Word(WordFault {
            word: WordName::Year,
            why: Reason::Year,
        })),
    }
}

/// The element that a word stands for.
pub fn element_of(text: &str) -> Result<u64, WordsRefusal>
    ensures { MatchResult result (λ element. number_of text.now ≡ Some element)
        (AreStopped (word_as WordName.Element (Reading.element text.now) ∷ [])) }
{
    match read_number(text.as_bytes()) {
        Some(element) => Ok(element),
        None => Err(WordsRefusal::Word(WordFault {
            word: WordName::Element,
            why: Reason::Element,
        })),
    }
}

/// The direction that a word stands for.
pub fn direction_of(text: &str) -> Result<Direction, WordsRefusal>
    ensures { MatchResult result (λ direction. direction_of text.now ≡ Some direction)
        (AreStopped (word_as WordName.Direction (Reading.direction text.now) ∷ [])) }
{
    match read_direction(text.as_bytes()) {
        Some(direction) => Ok(direction),
        None => Err(WordsRefusal::Word(WordFault {
            word: WordName::Direction,
            why: Reason::Direction,
        })),
    }
}

// The elements that a text names, if each of its parts, which commas separate, is a number.
fn numbers_in(alloc: Global, text: &[u8]) -> Result<Option<Vec<u64>>, AllocError>
    ensures { IfOk result (λ read. option_map (λ v. v.items) read ≡ numbers_of (parts_of text.now)) }
{
    let mut numbers = Vec::new(alloc);
    for part in text.split(|byte| *byte == b',') {
        let Some(number) = read_number(part) else {
            return Ok(None);
        };
        numbers.push(number)?;
    }
    Ok(Some(numbers))
}

// The same, or the refusal of the text.
fn numbers_of(alloc: Global, text: &[u8]) -> Result<Vec<u64>, WordsRefusal>
    ensures { MatchResult result (λ elements. numbers_of (parts_of text.now) ≡ Some elements.items)
        (AreStopped (word_as WordName.Element (Reading.elements text.now) ∷ [])) }
{
    match numbers_in(alloc, text) {
        Ok(Some(elements)) => Ok(elements),
        Ok(None) => Err(WordsRefusal::Word(WordFault {
            word: WordName::Element,
            why: Reason::Element,
        })),
        Err(_) => Err(WordsRefusal::Memory),
    }
}

/// The elements that a word names, which may be left out: then it names none.
pub fn elements_of(alloc: Global, text: Option<&str>) -> Result<Vec<u64>, WordsRefusal>
    ensures { MatchResult result (λ elements. elements_in (option_map (λ s. s.now) text.entry) ≡ Some elements.items)
        (AreStopped (if_given (option_map (λ s. s.now) text.entry) (λ t. word_as WordName.Element (Reading.elements t)))) }
{
    match text {
        Some(text) => numbers_of(alloc, text.as_bytes()),
        None => Ok(Vec::new(alloc)),
    }
}

// The language that a text names.
fn language_in(text: &str) -> Option<Language>
    ensures { result ≡ language_in text.now }
{
    match text {
        "en" => Some(Language::English),
        "de" => Some(Language::German),
        "fr" => Some(Language::French),
        _ => None,
    }
}

// The same, or the refusal of the text.
fn language_named(text: &str) -> Result<Language, WordsRefusal>
    ensures { MatchResult result (λ language. language_in text.now ≡ Some language)
        (AreStopped (word_as WordName.Language (Reading.language text.now) ∷ [])) }
{
    match language_in(text) {
        Some(language) => Ok(language),
        None => Err(WordsRefusal::Word(WordFault {
            word: WordName::Language,
            why: Reason::Language,
        })),
    }
}

/// The language that a word names, which may be left out: then it is English.
pub fn language_of(text: Option<&str>) -> Result<Language, WordsRefusal>
    ensures { MatchResult result (λ language. language_for (option_map (λ s. s.now) text.entry) ≡ Some language)
        (AreStopped (if_given (option_map (λ s. s.now) text.entry) (λ t. word_as WordName.Language (Reading.language t)))) }
{
    match text {
        Some(text) => language_named(text),
        None => Ok(Language::English),
    }
}

// What `Di`, `Do` and `So` are in the language that a text names.
fn day_names_in(text: &str) -> Option<DayNames>
    ensures { result ≡ day_names_in text.now }
{
    match text {
        "de" => Some(DayNames::German),
        _ => None,
    }
}

// The same, or the refusal of the text.
fn day_names_named(text: &str) -> Result<DayNames, WordsRefusal>
    ensures { MatchResult result (λ names. day_names_in text.now ≡ Some names)
        (AreStopped (word_as WordName.Names (Reading.day_names text.now) ∷ [])) }
{
    match day_names_in(text) {
        Some(names) => Ok(names),
        None => Err(WordsRefusal::Word(WordFault {
            word: WordName::Names,
            why: Reason::DayNames,
        })),
    }
}

/// What `Di`, `Do` and `So` are in the language that a word names, which may be left out: then that is not said.
pub fn day_names_of(text: Option<&str>) -> Result<DayNames, WordsRefusal>
    ensures { MatchResult result (λ names. day_names_for (option_map (λ s. s.now) text.entry) ≡ Some names)
        (AreStopped (if_given (option_map (λ s. s.now) text.entry) (λ t. word_as WordName.Names (Reading.day_names t)))) }
{
    match text {
        Some(text) => day_names_named(text),
        None => Ok(DayNames::Unsaid),
    }
}

// The first and the last year that two texts are, if they are numbers.
fn both_years(first: &[u8], last: &[u8]) -> Option<(u64, u64)>
    ensures { result ≡ both_years first.now last.now }
{
    match read_number(first) {
        Some(first) => match read_number(last) {
            Some(last) => Some((first, last)),
            None => None,
        },
        None => None,
    }
}

// The first and the last year that a text names, of four digits each, if it names any. One year is both.
fn years_in(text: &[u8]) -> Option<(u64, u64)>
    ensures { result ≡ years_in text.now }
{
    match text.len() {
        4 => both_years(text, text),
        9 => {
            if text[4] == b'-' {
                both_years(&text[..4], &text[5..])
            } else {
                None
            }
        }
        _ => None,
    }
}

// The years from one to another, if holidays may be known in them.
fn known_years(first: u64, last: u64) -> Option<KnownYears>
    ensures { MatchOption result (AreKnown first last → ⊥) (λ years. (years.first ≡ first) × (years.last ≡ last)) }
{
    if first > 2797 || last > 2797 {
        return None;
    }
    KnownYears::new(first as u16, last as u16)
}

// The years that a word stands for, if holidays may be known in them.
fn years_word(text: &[u8]) -> Option<KnownYears>
    ensures { MatchOption result (AreNoYears text.now) (IsYearsWord text.now) }
{
    match years_in(text) {
        Some((first, last)) => known_years(first, last),
        None => None,
    }
}

// The same, or the refusal of the text.
fn years_named(text: &str) -> Result<KnownYears, WordsRefusal>
    ensures { MatchResult result (IsYearsWord text.now)
        (AreStopped (word_as WordName.Years (Reading.years text.now) ∷ [])) }
{
    match years_word(text.as_bytes()) {
        Some(years) => Ok(years),
        None => Err(WordsRefusal::Word(WordFault {
            word: WordName::Years,
            why: Reason::Years,
        })),
    }
}

/// The years that a word stands for, in which holidays are known. It may be left out: then there are none.
pub fn years_of(text: Option<&str>) -> Result<Option<KnownYears>, WordsRefusal>
    ensures { MatchResult result (AreYearsIn (option_map (λ s. s.now) text.entry))
        (AreStopped (if_given (option_map (λ s. s.now) text.entry) (λ t. word_as WordName.Years (Reading.years t)))) }
{
    match text {
        Some(text) => match years_named(text) {
            Ok(years) => Ok(Some(years)),
            Err(refusal) => Err(refusal),
        },
        None => Ok(None),
    }
}

// The refusal for a fault of a domain. A refusal of memory is not a fault of the text.
fn text_refusal(word: WordName, fault: TextFault) -> WordsRefusal
    ensures { ((fault.kind ≡ Fault.NoMemory) × (result ≡ WordsRefusal.Memory))
        ⊎ ((fault.kind ≢ Fault.NoMemory)
        × (result ≡ WordsRefusal.Word (record { word = word; why = Reason.Domain fault }))) }
{
    match fault.kind {
        Fault::NoMemory => WordsRefusal::Memory,
        _ => WordsRefusal::Word(WordFault {
            word,
            why: Reason::Domain(fault),
        }),
    }
}

/// The domain that a word of this name stands for.
pub fn domain_of(alloc: Global, word: WordName, text: &str) -> Result<Domain, WordsRefusal>
    ensures { MatchResult result (IsReadDomain text.now)
        (AreStopped (word_as word (Reading.domain text.now) ∷ [])) }
{
    match read_domain(alloc, text.as_bytes()) {
        Ok(domain) => Ok(domain),
        Err(fault) => Err(text_refusal(word, fault)),
    }
}

/// The domain with exactly the seconds at which the hours are open that a word of this name stands for.
pub fn hours_of(alloc: Global, word: WordName, text: &str) -> Result<Domain, WordsRefusal>
    ensures { MatchResult result (IsHoursDomain text.now)
        (AreStopped (word_as word (Reading.hours text.now) ∷ [])) }
{
    match hours_domain(alloc, text) {
        Ok(domain) => Ok(domain),
        Err(Some(why)) => Err(WordsRefusal::Word(WordFault {
            word,
            why: Reason::Hours(why),
        })),
        Err(None) => Err(WordsRefusal::Memory),
    }
}

// The rule of this name, if there is one.
fn rule_named(name: &[u8]) -> Option<Rule>
    ensures { MatchOption result (IsNoRule name.now) (λ rule. name.now ≡ name_of rule) }
{
    match from_utf8(name) {
        Ok(name) => rule_of_name(name),
        Err(_) => None,
    }
}

// The rules that a text names, if each of its parts, which commas separate, is the name of one.
fn rules_in(alloc: Global, text: &[u8]) -> Result<Option<Vec<Rule>>, AllocError>
    ensures { IfOk result (λ read. MatchOption read (HasNoRule (parts_of text.now)) (λ v. AreRules (parts_of text.now) v.items)) }
{
    let mut rules = Vec::new(alloc);
    for part in text.split(|byte| *byte == b',') {
        let Some(rule) = rule_named(part) else {
            return Ok(None);
        };
        rules.push(rule)?;
    }
    Ok(Some(rules))
}

// The same, or the refusal of the text.
fn rules_named(alloc: Global, text: &[u8]) -> Result<Vec<Rule>, WordsRefusal>
    ensures { MatchResult result (λ rules. AreRules (parts_of text.now) rules.items)
        (AreStopped (word_as WordName.Rule (Reading.rules text.now) ∷ [])) }
{
    match rules_in(alloc, text) {
        Ok(Some(rules)) => Ok(rules),
        Ok(None) => Err(WordsRefusal::Word(WordFault {
            word: WordName::Rule,
            why: Reason::Rule,
        })),
        Err(_) => Err(WordsRefusal::Memory),
    }
}

/// The rules that a word names, which may be left out: then it names none.
pub fn rules_of(alloc: Global, text: Option<&str>) -> Result<Vec<Rule>, WordsRefusal>
    ensures { MatchResult result (λ rules. AreRulesIn (option_map (λ s. s.now) text.entry) rules.items)
        (AreStopped (if_given (option_map (λ s. s.now) text.entry) (λ t. word_as WordName.Rule (Reading.rules t)))) }
{
    match text {
        Some(text) => rules_named(alloc, text.as_bytes()),
        None => Ok(Vec::new(alloc)),
    }
}

// The days to look at from the day on that a word stands for.
fn days_of_day(text: &str) -> Result<Horizon, WordsRefusal>
    ensures { MatchResult result (IsDayWord text.now)
        (AreStopped (word_as WordName.Day (Reading.day text.now) ∷ [])) }
{
    let day = match read_date(text.as_bytes()) {
        Ok(day) => day,
        Err(fault) => {
            return Err(WordsRefusal::Word(WordFault {
                word: WordName::Day,
                why: Reason::Date(fault),
            }));
        }
    };
    match days_from(day) {
        Some(days) => Ok(days),
        None => Err(WordsRefusal::Word(WordFault {
            word: WordName::Day,
            why: Reason::Day,
        })),
    }
}

/// The days to look at from the day on that a word stands for, which may be left out: then there are none.
pub fn days_after(text: Option<&str>) -> Result<Option<Horizon>, WordsRefusal>
    ensures { MatchResult result (IsDayIn (option_map (λ s. s.now) text.entry))
        (AreStopped (if_given (option_map (λ s. s.now) text.entry) (λ t. word_as WordName.Day (Reading.day t)))) }
{
    match text {
        Some(text) => match days_of_day(text) {
            Ok(days) => Ok(Some(days)),
            Err(refusal) => Err(refusal),
        },
        None => Ok(None),
    }
}

/// The name of a time zone that a word is.
pub fn zone_of(text: &str) -> Result<&str, WordsRefusal>
    ensures { MatchResult result (λ zone. (zone.now ≡ text.now) × (zones.is_zone_name text.now ≡ true))
        (AreStopped (word_as WordName.Zone (Reading.zone text.now) ∷ [])) }
{
    if is_zone_name(text.as_bytes()) {
        Ok(text)
    } else {
        Err(WordsRefusal::Word(WordFault {
            word: WordName::Zone,
            why: Reason::Zone,
        }))
    }
}
