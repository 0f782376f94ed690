//! Why the words of a command line are refused.

ghost use Rattle.std.specs.Prelude.{◌≡◌};
ghost use Rattle.gtdesk_words.specs.Statuses.{words_status};

use gtd_calendar::StampFault;
use gtd_core::{HorizonFault, TextFault};
use gtd_hours_options::OptionsFault;

/// A word of a command, by the name that a refusal gives it.
#[derive(Clone, Copy, Debug, PartialEq, Eq)]
pub enum WordName {
    /// `DOMAIN`
    Domain,
    /// `FIRST`
    First,
    /// `SECOND`
    Second,
    /// `ELEMENT`
    Element,
    /// `DIRECTION`
    Direction,
    /// `VEHICLE`
    Vehicle,
    /// `YEAR`
    Year,
    /// `MOMENT`
    Moment,
    /// `FROM`
    From,
    /// `TO`
    To,
    /// `LANGUAGE`
    Language,
    /// `NAMES`
    Names,
    /// `YEARS`
    Years,
    /// `OPEN-END`
    OpenEnd,
    /// `POINTS`
    Points,
    /// `SUNRISE`
    Sunrise,
    /// `SUNSET`
    Sunset,
    /// `DAWN`
    Dawn,
    /// `DUSK`
    Dusk,
    /// `RULE`
    Rule,
    /// `DAY`
    Day,
    /// `ZONE`
    Zone,
}

/// Why a text of opening hours has no time domain.
#[derive(Clone, Copy, Debug, PartialEq, Eq)]
pub enum NoDomain {
    /// The text is not read. This is its first fault.
    Fault(OptionsFault),
    /// The domain would have more than 128 basic domains.
    TooMany {
        /// How many it would have, where `u32::MAX` stands for it and for more.
        needed: u32,
    },
}

/// Why a word stands for nothing.
#[derive(Clone, Copy, Debug, PartialEq, Eq)]
pub enum Reason {
    /// It is not the number of an element, or not such numbers with commas between them.
    Element,
    /// It is neither `positive` nor `negative`.
    Direction,
    /// It is not a number from 1 to 99.
    Vehicle,
    /// It is not a number from 1901 to 2199.
    Year,
    /// It is not a moment. This is its first fault.
    Moment(StampFault),
    /// It is not a date. This is its first fault.
    Date(StampFault),
    /// It makes no horizon with the date before it.
    Horizon(HorizonFault),
    /// It is not a time domain. This is its first fault.
    Domain(TextFault),
    /// It is not a text of opening hours with a time domain.
    Hours(NoDomain),
    /// It is not `en`, `de` or `fr`.
    Language,
    /// It is not `de`, the language of names of weekdays that can be given.
    DayNames,
    /// It is not a year from 1802 to 2797, or two of them with `-` between them, which make at most 98 years.
    Years,
    /// It is not a clock time from 00:00 to 48:00.
    OpenEnd,
    /// It is not a number from 1 to 1440 without leading zeros.
    Points,
    /// It is not a clock time from 00:00 to 24:00.
    Clock,
    /// It is not the name of a rule, or not such names with commas between them.
    Rule,
    /// It is a date, but none from 1901-01-01 to 2699-12-31.
    Day,
    /// It cannot be the name of a time zone.
    Zone,
}

/// A word that stands for nothing.
#[derive(Clone, Copy, Debug, PartialEq, Eq)]
pub struct WordFault {
    /// The word.
    pub word: WordName,
    /// Why it stands for nothing.
    pub why: Reason,
}

/// Why the words of a command line are refused.
#[derive(Clone, Copy, Debug, PartialEq, Eq)]
pub enum WordsRefusal {
    /// The words name no command, or are not the words that it takes.
    Usage {
        /// What is wrong with them.
        told: &'static str,
        /// The command that may be meant, if a word should name one and does not.
        meant: Option<&'static str>,
    },
    /// A word of the command stands for nothing. It is the first such word.
    Word(WordFault),
    /// Memory was refused.
    Memory,
}

impl WordsRefusal {
    /// The exit status: 1 if a word is refused, but 2 if that names no rule; 2 for usage, 3 if memory was refused.
    pub fn status(&self) -> u8
        ensures value { result ≡ words_status self.now }
    {
        match self {
            WordsRefusal::Word(fault) => match fault.why {
                Reason::Rule => 2,
                _ => 1,
            },
            WordsRefusal::Usage { .. } => 2,
            WordsRefusal::Memory => 3,
        }
    }
}
